// The number of a traffic class, seen to be one of the eight. Public calls take any number and make a `Class` of it first: a narrower
// type would ask more of their callers than a refusal does.
ghost use Rattle.std.specs.Prelude.{◌≡◌, ◌≤◌};
ghost use Rattle.units.specs.Classes.{ByClass};

use crate::refusal::Refusal;

// Class 7 has the highest priority, and class 0 the lowest.
#[derive(Clone, Copy, PartialEq, Eq, PartialOrd, Ord, Debug)]
pub struct Class {
    number: u8,
    ghost low: { number ≤ 7 },
}

impl TryFrom<u8> for Class {
    type Error = Refusal;

    ghost try_from_gives = { λ n r. ByClass n r (λ c. c.number ≡ n) };

    // Refused where there is no such class.
    fn try_from(number: u8) -> Result<Class, Refusal> {
        if number > 7 {
            return Err(Refusal::NoClass);
        }
        Ok(Class { number })
    }
}

impl From<Class> for u8 {
    ghost from_gives = { λ c n. n ≡ c.number };

    fn from(class: Class) -> u8 {
        class.number
    }
}

impl From<Class> for usize {
    ghost from_gives = { λ c n. n ≡ c.number };

    fn from(class: Class) -> usize {
        usize::from(u8::from(class))
    }
}
