// A text is cut where a byte first stands.
ghost use Rattle.std.specs.Prelude.{◌≡◌, ◌==◌, position};
ghost use Rattle.text.specs.Cuts.{before, past, how_many};

// What stands before the first `byte` and what stands past it. Without one, all of the text and nothing.
pub fn cut<'a>(text: &'a [u8], byte: u8) -> (&'a [u8], &'a [u8])
    ensures before { result.0.now ≡ before byte text.now }
    ensures past { result.1.now ≡ past byte text.now }
{
    match find(text, byte) {
        Some(place) => (&text[..place], &text[place + 1..]),
        None => (text, &[]),
    }
}

// How often `byte` stands in the text.
#[tactic(auto, unfolding(crate::specs::Cuts::how_many))]
pub fn count(text: &[u8], byte: u8) -> usize
    ensures { result ≡ how_many byte text.now }
{
    text.iter().map(|x| usize::from(*x == byte)).sum()
}

// Where `byte` first stands, if it does.
fn find(text: &[u8], byte: u8) -> Option<usize>
    ensures { result ≡ position (λ x. x == byte) text.now }
{
    text.iter().position(|x| *x == byte)
}
