// Time is told in ticks and load in bytes. A sum stays within one kind: only a curve or an envelope leads from one to the other. By a
// rule of the project the two are structs around a number; one generic struct would not be made by their names, as `Ticks(5)` is, so
// sums are written for each, and so is printing, which no derive writes for a number in a struct.
ghost use Rattle.std.specs.Prelude.{◌≡◌, ◌+◌, ◌^◌, ◌<◌, Some, decimal};

use std::fmt;
use std::ops::Add;

// A number of ticks. A tick is the time of one byte on the wire.
#[derive(Clone, Copy, PartialEq, Eq, PartialOrd, Ord, Default, Debug)]
pub struct Ticks(pub u64);

// A number of bytes.
#[derive(Clone, Copy, PartialEq, Eq, PartialOrd, Ord, Default, Debug)]
pub struct Bytes(pub u64);

impl Add<Ticks> for Ticks {
    type Output = Ticks;

    ghost can_add = { λ a b. a.0 + b.0 < 2 ^ 64 };

    ghost add_gives = { λ a b r. r.0 ≡ a.0 + b.0 };

    fn add(self, other: Ticks) -> Ticks {
        Ticks(self.0 + other.0)
    }
}

impl Add<Bytes> for Bytes {
    type Output = Bytes;

    ghost can_add = { λ a b. a.0 + b.0 < 2 ^ 64 };

    ghost add_gives = { λ a b r. r.0 ≡ a.0 + b.0 };

    fn add(self, other: Bytes) -> Bytes {
        Bytes(self.0 + other.0)
    }
}

impl fmt::Display for Ticks {
    ghost output = { λ t. Some (decimal t.0) };

    fn fmt<W: fmt::Write>(&self, f: &mut fmt::Formatter<W>) -> fmt::Result {
        let n = self.0;
        write!(f, "{n}")
    }
}

impl fmt::Display for Bytes {
    ghost output = { λ b. Some (decimal b.0) };

    fn fmt<W: fmt::Write>(&self, f: &mut fmt::Formatter<W>) -> fmt::Result {
        let n = self.0;
        write!(f, "{n}")
    }
}
