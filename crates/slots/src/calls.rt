// What is asked of a plan: the slots of a class, its sure ticks, its block. The calls take a plan and the number of a class, since a
// struct of the two would be made for each call and taken apart at once.
ghost use Rattle.std.specs.Prelude.{◌≡◌, ◌*◌, ◌<◌, ◌≤◌, ◌++◌, length, drop, MatchResult};
ghost use Rattle.std.specs.List.{AllByRecursion};
ghost use Rattle.units.specs.Limits.{most_slots};
ghost use Rattle.units.specs.Classes.{ByClass};
ghost use Rattle.plan.specs.PlanContents.{contents};
ghost use Rattle.slots.specs.OfPlan.{slots_of, sure_ticks_of, block_of};
ghost use Rattle.slots.specs.Turns.{turns, Small, Refused};

use crate::class_slots::{ClassSlots, total_length};
use crate::find::find;
use crate::slot_list::SlotList;
use plan::Plan;
use sure_ticks::Slot;
use units::limits::MAX_SLOTS;
use units::{Class, Refusal, Ticks};

// A list that slots are written into has at least this many numbers: two for each slot that there can be.
pub const MIN_LIST: usize = 2 * MAX_SLOTS;

// Writes the slots of a class into the list, beginning and length by turns and by rising beginning, and answers how many there are.
// The rest of the list stays as it is. Refused where there is no such class, and where the list has under 64 numbers; all of the
// list stays as it is then. That the list is lent, and of numbers, is a rule of the project.
pub fn slots(plan: &Plan, class: u8, list: &mut [u32]) -> Result<usize, Refusal>
    ensures { MatchResult result
        (λ n. (class ≤ 7) × (2 * most_slots ≤ length list.old) × (n ≡ length (slots_of (contents plan.now) class))
        × (list.new ≡ turns (slots_of (contents plan.now) class) ++ drop (2 * n) list.old))
        (λ e. (list.new ≡ list.old) × Refused class (length list.old) e) }
{
    let class = u8::from(Class::try_from(class)?);
    if list.len() < MIN_LIST {
        return Err(Refusal::SlotSpace);
    }
    let found = find(plan, class);
    write(found.as_slice(), list);
    Ok(found.len())
}

// How many ticks of a cycle are sure for a class. Refused where there is no such class.
pub fn sure(plan: &Plan, class: u8) -> Result<Ticks, Refusal>
    ensures { ByClass class result (λ n. n.0 ≡ sure_ticks_of (contents plan.now) class) }
{
    let found = SlotList::of(plan, class)?;
    Ok(Ticks(total_length(found.as_slice())))
}

// The block of a class: how much of a lower frame can be on the wire when a busy period of the class begins. Refused where there is
// no such class.
pub fn block(plan: &Plan, class: u8) -> Result<Ticks, Refusal>
    ensures { ByClass class result (λ n. n.0 ≡ block_of (contents plan.now) class) }
{
    Ok(ClassSlots::of(plan, class)?.block)
}

// Writes slots into the list from its beginning on.
fn write(slots: &[Slot], list: &mut [u32])
    requires room { 2 * length slots.now ≤ length list.old }
    requires small { AllByRecursion Small slots.now }
    ensures { list.new ≡ turns slots.now ++ drop (2 * length slots.now) list.old }
{
    // Of a list that was lent in chunks to be written, a proof knows only the length: so each place is reached by its index.
    for (i, slot) in slots.iter().enumerate() {
        list[2 * i] = slot.begin.0 as u32;
        list[2 * i + 1] = slot.length.0 as u32;
    }
}
