// The service of a traffic class, made once and asked often.
ghost use Rattle.std.specs.Prelude.{◌≡◌, ◌+◌, ◌*◌, ◌≤◌, length, take};
ghost use Rattle.units.specs.Limits.{most_slots};
ghost use Rattle.gates.specs.Sizes.{hold_limit};
ghost use Rattle.sure_ticks.specs.Sure.{lengths};
ghost use Rattle.curve.specs.Table.{Ready};
ghost use Rattle.slots.specs.Listed.{items};

use crate::table::MAX_MARKS;
use curve::Mark;
use slots::SlotList;
use units::Ticks;

mod calls;
mod search;

// The slots of the class with their sure ticks together, the table of marks, and the block. As many of the marks count as the table
// has: an `ArrayVec` would know how many, but it is not `Copy`, as this service is.
#[derive(Clone, Copy)]
pub struct ClassService {
    cycle: Ticks,
    sure: Ticks,
    block: Ticks,
    slots: SlotList,
    marks: [Mark; MAX_MARKS],
    ghost room: { length marks ≡ 2 * most_slots + 1 },
    ghost ready: { Ready cycle.0 (items slots) (take (2 * length (items slots) + 1) marks) },
    ghost whole: { sure.0 ≡ lengths (items slots) },
    ghost low: { block.0 ≤ hold_limit },
}
