// The slots of a class with what they come to, found in one pass. The call takes a plan and the number of a class, since a struct of
// the two would be made for each call and taken apart at once.
ghost use Rattle.std.specs.Prelude.{◌≡◌, ◌≤◌};
ghost use Rattle.units.specs.Limits.{most_cycle};
ghost use Rattle.units.specs.Classes.{ByClass};
ghost use Rattle.plan.specs.PlanContents.{contents};
ghost use Rattle.sure_ticks.specs.Sure.{lengths};
ghost use Rattle.slots.specs.OfPlan.{slots_of, sure_ticks_of, block_of};
ghost use Rattle.slots.specs.Listed.{items};

use crate::blocking::FramesInSlots;
use crate::lower::greatest_below;
use crate::slot_list::SlotList;
use plan::Plan;
use sure_ticks::Slot;
use units::{Refusal, Ticks};

// The slots of a class, how many ticks of a cycle are sure for it, and its block: how much of a lower frame can be on the wire when
// a busy period of the class begins.
#[derive(Clone, Copy)]
pub struct ClassSlots {
    pub slots: SlotList,
    pub sure: Ticks,
    pub block: Ticks,
}

impl ClassSlots {
    // Refused where there is no such class.
    pub fn of(plan: &Plan, class: u8) -> Result<ClassSlots, Refusal>
        ensures { ByClass class result (λ f. (items f.slots ≡ slots_of (contents plan.now) class)
            × (f.sure.0 ≡ sure_ticks_of (contents plan.now) class)
            × (f.block.0 ≡ block_of (contents plan.now) class)) }
    {
        let slots = SlotList::of(plan, class)?;
        let sure = Ticks(total_length(slots.as_slice()));
        let frames = FramesInSlots {
            plan,
            slots: slots.as_slice(),
        };
        let block = Ticks(greatest_below(&frames, class));
        Ok(ClassSlots { slots, sure, block })
    }
}

// The lengths of slots, added.
pub(crate) fn total_length(slots: &[Slot]) -> u64
    requires { lengths slots.now ≤ most_cycle }
    ensures { result ≡ lengths slots.now }
{
    slots.iter().map(|slot| slot.length.0).sum()
}
