// A line is its key, an equals sign and the rest. The first equals sign ends the key.
ghost use Rattle.std.specs.Prelude.{◌≡◌};
ghost use Rattle.std.specs.Option.{option_map};
ghost use Rattle.text.specs.Keys.{word, strip, content, value_in};

use faults::LineFault;

// The keys of a plan text.
#[derive(Clone, Copy)]
pub enum Key {
    Port,
    Cycle,
    Gates,
    Gate,
    Class,
    Flows,
    Flow,
}

// What follows the key that is due and its equals sign, on the line with this number. A fault where the line has no equals sign, or
// another key.
pub fn value<'a>(line: &'a [u8], due: Key, number: u32) -> Result<&'a [u8], LineFault>
    ensures { content result ≡ value_in number due line.now }
{
    match after_key(line, due) {
        Some(rest) => Ok(rest),
        None if line.contains(&b'=') => Err(LineFault::Key(number)),
        None => Err(LineFault::Missing(number)),
    }
}

// What follows the key and its equals sign, where the line begins with them. Patterns with named first bytes are a rule of
// the project. One match over the pair of key and line is no plainer: its last arm would be reached in 46 ways, and the proof would
// have to name each of them byte by byte.
fn after_key<'a>(line: &'a [u8], due: Key) -> Option<&'a [u8]>
    ensures { option_map (λ x. x.now) result ≡ strip (word due) line.now }
{
    match due {
        Key::Port => match line {
            [b'p', b'o', b'r', b't', b'=', rest @ ..] => Some(rest),
            _ => None,
        },
        Key::Cycle => match line {
            [b'c', b'y', b'c', b'l', b'e', b'=', rest @ ..] => Some(rest),
            _ => None,
        },
        Key::Gates => match line {
            [b'g', b'a', b't', b'e', b's', b'=', rest @ ..] => Some(rest),
            _ => None,
        },
        Key::Gate => match line {
            [b'g', b'a', b't', b'e', b'=', rest @ ..] => Some(rest),
            _ => None,
        },
        Key::Class => match line {
            [b'c', b'l', b'a', b's', b's', b'=', rest @ ..] => Some(rest),
            _ => None,
        },
        Key::Flows => match line {
            [b'f', b'l', b'o', b'w', b's', b'=', rest @ ..] => Some(rest),
            _ => None,
        },
        Key::Flow => match line {
            [b'f', b'l', b'o', b'w', b'=', rest @ ..] => Some(rest),
            _ => None,
        },
    }
}
