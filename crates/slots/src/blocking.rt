// The frames of lower classes that can be on the wire at a sure tick.
ghost use Rattle.std.specs.Prelude.{◌≡◌, ℕ, ◌+◌, ◌-◌, ◌<◌, ◌≤◌, true, ◌&&◌, if◌then◌else◌, Decides};
ghost use Rattle.calculus.specs.Searches.{any};
ghost use Rattle.gates.specs.Opened.{opened};
ghost use Rattle.plan.specs.PlanContents.{contents};
ghost use Rattle.sure_ticks.specs.Sure.{covered};
ghost use Rattle.sure_ticks.specs.Laws.{next, chained};
ghost use Rattle.slots.specs.OfPlan.{longest};

use crate::lower::Waits;
use crate::runs::hold;
use plan::Plan;
use sure_ticks::Slot;

// The frames that can be on the wire at a tick of the slots.
#[derive(Drop)]
pub(crate) struct FramesInSlots<'a> {
    pub(crate) plan: &'a Plan,
    pub(crate) slots: &'a [Slot],
    ghost apart: { chained plan.now.gates.cycle.0 (next 0 slots.now + plan.now.gates.cycle.0) slots.now ≡ true },
}

impl<'a> Waits for FramesInSlots<'a> {
    ghost waits = { λ f k. (if any (λ t. covered f.plan.now.gates.cycle.0 f.slots.now t && opened f.plan.now.gates.lines.items k t) f.plan.now.gates.cycle.0 then longest (contents f.plan.now) k - 1 else 0) };

    // All but a tick of its largest frame, if the class is open at a tick of the slots. Where there is no slot, no line is looked at.
    fn ticks(&self, class: u8) -> u64 {
        if self.slots.is_empty() || !self.open_in_slots(class) {
            return 0;
        }
        hold(self.plan, class).saturating_sub(1)
    }
}

impl<'a> FramesInSlots<'a> {
    // Whether the class is open at some tick of the slots. The tick at which a line begins is carried along: `scan` would carry it in
    // a closure, and be no plainer.
    fn open_in_slots(&self, class: u8) -> bool
        ensures { result ≡ any (λ t. covered self.now.plan.now.gates.cycle.0 self.now.slots.now t && opened self.now.plan.now.gates.lines.items class t) self.now.plan.now.gates.cycle.0 }
    {
        let mut begin = 0;
        for line in self.plan.gates().lines() {
            let end = begin + line.length.0;
            if line.is_open(class) && self.meets(begin, end) {
                return true;
            }
            begin = end;
        }
        false
    }

    // Whether some tick from `begin` to before `end` of the cycle is in one of the slots, which may last into the next cycle.
    fn meets(&self, begin: u64, end: u64) -> bool
        requires some { begin < end }
        requires inside { end ≤ self.now.plan.now.gates.cycle.0 }
        ensures { Decides result ((t : ℕ) × (begin ≤ t) × (t < end) × (covered self.now.plan.now.gates.cycle.0 self.now.slots.now t ≡ true)) }
    {
        let again = begin + self.plan.gates().cycle().0;
        self.slots.iter().any(|slot| {
            let slot_end = slot.begin.0 + slot.length.0;
            slot.begin.0 < end && begin < slot_end || again < slot_end
        })
    }
}
