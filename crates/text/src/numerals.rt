// Numbers as plan texts write them.
ghost use Rattle.std.specs.Prelude.{◌≡◌, ◌≤◌, length};
ghost use Rattle.text.specs.Numerals.{numeral_in, digits_from, most_numeral};

const MAX_DIGITS: usize = 7;

// The number that 1 to 7 decimal digits write, with no leading zero save 0 itself; None where the text is no such numeral.
pub fn numeral(text: &[u8]) -> Option<u64>
    ensures { result ≡ numeral_in text.now }
{
    match text {
        [] => None,
        [b'0', _, ..] => None,
        _ if text.len() > MAX_DIGITS => None,
        _ => digits(text),
    }
}

// The number that at most 7 digits write; None where a byte is no digit. A `for`: the closure of a `try_fold`
// would have to check each step for a number that is too large, which cannot be, and be no plainer.
fn digits(text: &[u8]) -> Option<u64>
    requires { length text.now ≤ most_numeral }
    ensures { result ≡ digits_from 0 text.now }
{
    let mut n: u64 = 0;
    for b in text {
        match *b {
            b'0'..=b'9' => n = n * 10 + u64::from(*b - b'0'),
            _ => return None,
        }
    }
    Some(n)
}
