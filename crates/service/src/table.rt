// The table of a curve: a mark for each slot of two cycles, and one where they end.
ghost use Rattle.std.specs.Prelude.{◌≡◌, ◌+◌, ◌*◌, ◌≤◌, ◌++◌, length, take};
ghost use Rattle.std.specs.List.{AllByRecursion};
ghost use Rattle.units.specs.Limits.{most_cycle, most_slots};
ghost use Rattle.sure_ticks.specs.Sure.{lengths};
ghost use Rattle.sure_ticks.specs.Laws.{next, Apart};
ghost use Rattle.curve.specs.Table.{marks_of, table_of};
ghost use Rattle.service.specs.Served.{From};

use curve::Mark;
use sure_ticks::Slot;
use units::Ticks;
use units::limits::MAX_SLOTS;

// A table has at most this many marks.
pub(crate) const MAX_MARKS: usize = 2 * MAX_SLOTS + 1;

// The table of the slots, which have so many sure ticks together, and behind it marks that do not count.
pub(crate) fn table(cycle: u64, slots: &[Slot], sure: u64) -> [Mark; MAX_MARKS]
    requires apart { Apart cycle slots.now }
    requires short { cycle ≤ most_cycle }
    requires whole { sure ≡ lengths slots.now }
    requires few { length slots.now ≤ most_slots }
    ensures room { length result ≡ 2 * most_slots + 1 }
    ensures table { take (2 * length slots.now + 1) result ≡ table_of cycle slots.now }
{
    let n = slots.len();
    let mut marks = [Mark::default(); MAX_MARKS];
    set_marks(&mut marks, 0, slots, Mark::default());
    let next = Mark {
        place: Ticks(cycle),
        before: Ticks(sure),
    };
    set_marks(&mut marks, n, slots, next);
    marks[2 * n] = Mark {
        place: Ticks(2 * cycle),
        before: Ticks(2 * sure),
    };
    marks
}

// Where the first slot begins, and 0 where there is none.
pub(crate) fn first_begin(slots: &[Slot]) -> u64
    ensures { result ≡ next 0 slots.now }
{
    slots.first().map_or(0, |slot| slot.begin.0)
}

// Sets a mark for each slot from the index `at` on, in a cycle in which the first slot has the mark `start`.
fn set_marks(marks: &mut [Mark], at: usize, slots: &[Slot], start: Mark)
    requires begins { AllByRecursion (From (next 0 slots.now)) slots.now }
    requires all { lengths slots.now ≤ most_cycle }
    requires low { start.place.0 ≤ most_cycle }
    requires sure { start.before.0 ≤ most_cycle }
    requires room { at + length slots.now ≤ length marks.old }
    ensures { take (at + length slots.now) marks.new ≡ take at marks.old ++ marks_of (next 0 slots.now) start.place.0 start.before.0 slots.now }
{
    let first = first_begin(slots);
    let mut sum = start.before.0;
    // Of marks that an iterator lends beside the slots, to be written, a proof knows only how many there are: so each place is reached
    // by its index.
    for (i, slot) in slots.iter().enumerate() {
        marks[at + i] = Mark {
            place: Ticks(start.place.0 + (slot.begin.0 - first)),
            before: Ticks(sum),
        };
        sum += slot.length.0;
    }
}
