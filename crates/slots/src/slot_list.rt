// The slots of a class, by rising beginning.
ghost use Rattle.std.specs.Prelude.{◌≡◌, ◌≤◌, length};
ghost use Rattle.units.specs.Limits.{most_slots};

use sure_ticks::Slot;
use units::limits::MAX_SLOTS;

mod calls;

// The first `count` of the slots count; there is room for as many as a class can have. An `ArrayVec` would need no count, but it is
// not `Copy` as this list is: who copies a list would have to clone it, and a clone is a `Result`.
#[derive(Clone, Copy)]
pub struct SlotList {
    slots: [Slot; MAX_SLOTS],
    count: usize,
    ghost room: { length slots ≡ most_slots },
    ghost few: { count ≤ most_slots },
}
