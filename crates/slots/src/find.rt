// Finding the slots of a class: those of all its runs.
ghost use Rattle.std.specs.Prelude.{◌≡◌, ◌+◌, ◌≤◌, ◌++◌, length};
ghost use Rattle.units.specs.Limits.{most_slots};
ghost use Rattle.units.specs.Classes.{ByClass};
ghost use Rattle.gates.specs.Opened.{opened};
ghost use Rattle.plan.specs.PlanContents.{contents};
ghost use Rattle.sure_ticks.specs.Slots.{found};
ghost use Rattle.slots.specs.OfPlan.{longest, slots_of};
ghost use Rattle.slots.specs.Listed.{items};
ghost use Rattle.slots.specs.Beginnings.{late};

use crate::runs::{Beginning, hold};
use crate::slot_list::SlotList;
use crate::walk::LineStart;
use plan::Plan;
use sure_ticks::Slot;
use units::{Class, Refusal, Ticks};

impl SlotList {
    // The slots of a class. Refused where there is no such class.
    pub fn of(plan: &Plan, class: u8) -> Result<SlotList, Refusal>
        ensures { ByClass class result (λ s. items s ≡ slots_of (contents plan.now) class) }
    {
        let class = u8::from(Class::try_from(class)?);
        Ok(find(plan, class))
    }
}

// The slots of a class. One that begins past the cycle's end begins in the next cycle before all others, and so comes first. A struct
// of the plan and the class would say no more than the two do, which every public call is asked with. The class is a number here, and
// none above 7 has a slot: a `Class` would have to be made anew of each lower number, with a branch that is never taken.
pub(crate) fn find(plan: &Plan, class: u8) -> SlotList
    ensures { items result ≡ slots_of (contents plan.now) class }
{
    let mut slots = SlotList::empty();
    if hold(plan, class) == 0 {
        return slots;
    }
    let first = LineStart {
        plan,
        index: 0,
        tick: 0,
    };
    if first.clear_for(class) == first.cycle() {
        slots.push(Slot {
            begin: Ticks(0),
            length: Ticks(first.cycle()),
        });
        return slots;
    }
    gather(plan, class, Beginning::NextCycle, &mut slots);
    gather(plan, class, Beginning::SameCycle, &mut slots);
    slots
}

// Adds the slots of all runs that begin where they are asked for.
fn gather(plan: &Plan, class: u8, asked: Beginning, slots: &mut SlotList)
    requires { length (items slots.old) + length (found (late asked) plan.now.gates.cycle.0 (opened plan.now.gates.lines.items) (longest (contents plan.now)) class plan.now.gates.cycle.0) ≤ most_slots }
    ensures { items slots.new ≡ items slots.old
        ++ found (late asked) plan.now.gates.cycle.0 (opened plan.now.gates.lines.items) (longest (contents plan.now)) class plan.now.gates.cycle.0 }
{
    let mut tick = 0;
    for (index, line) in plan.gates().lines().iter().enumerate() {
        let start = LineStart { plan, index, tick };
        if let Some(slot) = start.slot(class, asked) {
            slots.push(slot);
        }
        tick += line.length.0;
    }
}
