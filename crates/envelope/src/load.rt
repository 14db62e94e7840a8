// A load is a number of bytes up to 2^40, and none where there are more: those are not told apart.
ghost use Rattle.std.specs.Prelude.{◌≡◌};
ghost use Rattle.envelope.specs.Answers.{together};

use units::Bytes;
use units::limits::MAX_LOAD;

// The two loads together. None where either is none, or where they are more than 2^40 bytes.
pub fn together(first: Option<Bytes>, second: Option<Bytes>) -> Option<Bytes>
    ensures { result ≡ together first second }
{
    let sum = first?.0.checked_add(second?.0)?;
    (sum <= MAX_LOAD).then_some(Bytes(sum))
}
