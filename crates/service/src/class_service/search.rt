// The least number of sure ticks in a window, and the least window with enough of them, read off the table of two cycles.
ghost use Rattle.std.specs.Prelude.{◌≡◌, ◌+◌, ◌-◌, ◌*◌, ◌^◌, ◌<◌, ◌≤◌, ◌⊎◌, min, true, false, length, take, slice_index_or};
ghost use Rattle.std.specs.Fn.{FnReturnsAt};
ghost use Rattle.sure_ticks.specs.Sure.{lengths};
ghost use Rattle.curve.specs.declared.mark.Mark.{Mark};
ghost use Rattle.curve.specs.Curve.{least_covered};
ghost use Rattle.curve.specs.Laws.{FirstSpan};
ghost use Rattle.curve.specs.Table.{mark, place_of, before_of};
ghost use Rattle.slots.specs.Listed.{items};

use crate::class_service::ClassService;
use crate::table::first_begin;
use curve::Mark;

impl ClassService {
    // The marks of the table.
    fn marks(&self) -> &[Mark]
        ensures { result.now ≡ take (2 * length (items self.now.slots) + 1) self.now.marks }
    {
        &self.marks[..2 * self.slots.len() + 1]
    }

    // The least number of sure ticks in any window of a cycle at the most. Every window has at least as many as one that begins right
    // behind a slot, so only those are looked at.
    pub(crate) fn least_in(&self, window: u64) -> u64
        requires { window ≤ self.now.cycle.0 }
        ensures { result ≡ least_covered self.now.cycle.0 (items self.now.slots) window }
    {
        let slots = self.slots.as_slice();
        let marks = self.marks();
        if slots.is_empty() {
            return 0;
        }
        let first = first_begin(slots);
        let mut best = window;
        let mut done = 0;
        let mut k = 0;
        for slot in slots {
            done += slot.length.0;
            let end = slot.begin.0 - first + slot.length.0 + window;
            k = reach(marks, k, |mark| mark.place.0 < end);
            best = best.min(before_place(marks, k, end) - done);
        }
        best
    }

    // The least window that has a number of sure ticks wherever it begins, for at most the sure ticks of a cycle. `least_in` goes the same
    // way: one function for both would take the test, the number and which of two is kept as closures, and be no plainer.
    pub(crate) fn first_with(&self, ticks: u64) -> u64
        requires some { 0 < ticks }
        requires there { ticks ≤ lengths (items self.now.slots) }
        ensures { FirstSpan self.now.cycle.0 (items self.now.slots) ticks result }
    {
        let slots = self.slots.as_slice();
        let marks = self.marks();
        let first = first_begin(slots);
        let mut far = 0u64;
        let mut done = 0;
        let mut k = 0;
        for slot in slots {
            done += slot.length.0;
            let number = done + ticks;
            k = reach(marks, k, |mark| mark.before.0 < number);
            let end = place_after(marks, k, number);
            far = far.max(end - (slot.begin.0 - first + slot.length.0));
        }
        far
    }
}

// The mark from `from` on behind which something comes: the marks that follow are passed while the test says that they are before it,
// as the last one never is. The index is counted by hand for speed: `take_while` asks at each mark whether it is the last, and the
// inverse took 298 ns a query in place of 210.
fn reach<B: Fn(&Mark) -> bool>(marks: &[Mark], from: usize, is_before: B) -> usize
    requires callable { (test : B) (mark : _) → B.pre test mark }
    requires there { from + 1 < length marks.now }
    requires inside { FnReturnsAt B.Fn is_before (slice_index_or marks.now (length marks.now - 1) (mark 0 0)) true → ⊥ }
    ensures there { result + 1 < length marks.now }
    ensures begun { (result ≡ from) ⊎ FnReturnsAt B.Fn is_before (slice_index_or marks.now result (mark 0 0)) true }
    ensures ends { FnReturnsAt B.Fn is_before (slice_index_or marks.now (result + 1) (mark 0 0)) false }
{
    let mut k = from;
    while is_before(&marks[k + 1]) {
        k += 1;
    }
    k
}

// The sure ticks before a place that is behind the mark k, and not behind the next one.
fn before_place(marks: &[Mark], k: usize, place: u64) -> u64
    requires there { k + 1 < length marks.now }
    requires begun { place_of marks.now k ≤ place }
    requires small { before_of marks.now k + place < 2 ^ 64 }
    ensures { result ≡ min (before_of marks.now k + (place - place_of marks.now k)) (before_of marks.now (k + 1)) }
{
    let mark = marks[k];
    (mark.before.0 + (place - mark.place.0)).min(marks[k + 1].before.0)
}

// The place after the sure tick of a number, which comes behind the mark k.
fn place_after(marks: &[Mark], k: usize, number: u64) -> u64
    requires there { k < length marks.now }
    requires begun { before_of marks.now k ≤ number }
    requires small { place_of marks.now k + number < 2 ^ 64 }
    ensures { result ≡ place_of marks.now k + (number - before_of marks.now k) }
{
    let mark = marks[k];
    mark.place.0 + (number - mark.before.0)
}
