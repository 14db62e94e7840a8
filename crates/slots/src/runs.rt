// A clear run that begins with a gate line, and the slot that it gives.
ghost use Rattle.std.specs.Prelude.{◌≡◌, ◌+◌, ◌-◌, ◌^◌, ◌<◌, ◌≤◌};
ghost use Rattle.gates.specs.Opened.{opened};
ghost use Rattle.gates.specs.Sizes.{hold_limit};
ghost use Rattle.plan.specs.PlanContents.{contents};
ghost use Rattle.sure_ticks.specs.Runs.{begins, blocked_by, usable};
ghost use Rattle.sure_ticks.specs.Slots.{run_slot, slot_at};
ghost use Rattle.slots.specs.OfPlan.{longest};
ghost use Rattle.slots.specs.Listed.{listed};
ghost use Rattle.slots.specs.Beginnings.{late};

use crate::lower::{Waits, greatest_below};
use crate::walk::{LineStart, is_clear};
use plan::Plan;
use sure_ticks::Slot;
use units::Ticks;

// Where the slot of a run begins: in the cycle in which the run does, or past its end in the next one.
#[derive(Clone, Copy)]
pub(crate) enum Beginning {
    SameCycle,
    NextCycle,
}

// For how many ticks the largest frame of a class holds the wire; no class above 7 sends any.
pub(crate) fn hold(plan: &Plan, class: u8) -> u64
    ensures value { result ≡ longest (contents plan.now) class }
    ensures small { result ≤ hold_limit }
{
    plan.class(class).map_or(0, |sizes| sizes.hold().0)
}

// The frames that can be on the wire when a run begins with the line.
impl<'a> Waits for LineStart<'a> {
    ghost waits = { λ s k. blocked_by (opened s.plan.now.gates.lines.items) (longest (contents s.plan.now) k) (s.tick + s.plan.now.gates.cycle.0 - 1) k };

    // Not at all if the class is shut before the run, and otherwise until it shuts, but never for a whole frame.
    fn ticks(&self, class: u8) -> u64 {
        if !self.line_before().is_open(class) {
            return 0;
        }
        let most = hold(self.plan, class).saturating_sub(1);
        self.open_for(class, most)
    }
}

impl<'a> LineStart<'a> {
    // Whether a clear run of the class begins with the line.
    fn run_begins(&self, class: u8) -> bool
        ensures { result ≡ begins (opened self.now.plan.now.gates.lines.items) class (self.now.tick + self.now.plan.now.gates.cycle.0 - 1) }
    {
        !is_clear(self.line_before(), class) && is_clear(self.line(), class)
    }

    // For how many ticks of the run that begins with the line a largest frame of the class can start and still leave.
    fn usable_for(&self, class: u8) -> u64
        ensures { result ≡ usable self.now.plan.now.gates.cycle.0 (opened self.now.plan.now.gates.lines.items) (longest (contents self.now.plan.now) class) class
            (self.now.tick + self.now.plan.now.gates.cycle.0 - 1) }
    {
        let frame = hold(self.plan, class);
        let run = self.clear_for(class);
        let open = self.open_for(class, self.cycle() + frame);
        run.min((open + 1).saturating_sub(frame))
    }

    // The slot of the run that begins with the line, if one does and its slot is asked for.
    pub(crate) fn slot(&self, class: u8, asked: Beginning) -> Option<Slot>
        ensures { listed result ≡ slot_at (late asked) self.now.plan.now.gates.cycle.0 (opened self.now.plan.now.gates.lines.items) (longest (contents self.now.plan.now)) class self.now.tick }
    {
        if !self.run_begins(class) {
            return None;
        }
        let wait = greatest_below(self, class);
        let free = self.usable_for(class);
        slot_of(self.cycle(), self.tick, wait, free, asked)
    }
}

// The slot of a run that begins at a tick of the cycle, waits and is usable for so long: what is left of it, if that begins where it
// is asked for.
fn slot_of(cycle: u64, tick: u64, wait: u64, free: u64, asked: Beginning) -> Option<Slot>
    requires some { 0 < cycle }
    requires small { tick + free < 2 ^ 64 }
    ensures { listed result ≡ run_slot (late asked) cycle tick wait free }
{
    if free <= wait {
        return None;
    }
    let begin = tick + wait;
    let here = match asked {
        Beginning::SameCycle => begin < cycle,
        Beginning::NextCycle => cycle <= begin,
    };
    if !here {
        return None;
    }
    Some(Slot {
        begin: Ticks(begin % cycle),
        length: Ticks(free - wait),
    })
}
