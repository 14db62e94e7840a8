// The gate list of a port: its lines follow one another and repeat with the cycle.
ghost use Rattle.std.specs.Prelude.{◌≡◌, ℕ, ◌+◌, ◌*◌, ◌%◌, [], ◌∷◌, length, IfOk, Decides, MatchOption};
ghost use Rattle.gates.specs.Opened.{line, shows, within, opened, InLine, Lawful, shut_line};

use crate::gate_line::{Gate, GateLine};
use std::alloc::{AllocError, Global};
use units::Ticks;
use units::limits::{MAX_CYCLE, MAX_GATE_LINES};

// Each line has at least one tick, and together they last the cycle.
#[derive(Drop)]
pub struct GateList {
    cycle: Ticks,
    lines: Vec<GateLine>,
    ghost lawful: { Lawful lines.items cycle.0 },
}

impl GateList {
    // The gate list of these lines. None where there is no line or more than 64, a line has no tick, the lengths do not add up to
    // the cycle, or the cycle is above 500,000.
    pub fn new(cycle: Ticks, lines: Vec<GateLine>) -> Option<GateList>
        ensures { MatchOption result (Lawful lines.items cycle.0 → ⊥) (λ g. (g.cycle ≡ cycle) × (g.lines.items ≡ lines.items)) }
    {
        if lawful(cycle, lines.as_slice()) {
            Some(GateList { cycle, lines })
        } else {
            None
        }
    }

    // The shut list: one line of one tick, with every class shut. Fails only for want of memory.
    pub fn shut(heap: Global) -> Result<GateList, AllocError>
        ensures { IfOk result (λ g. (g.cycle.0 ≡ 1) × (g.lines.items ≡ shut_line ∷ [])) }
    {
        let mut lines = Vec::new(heap);
        lines.push(GateLine {
            length: Ticks(1),
            gates: [Gate::Shut; 8],
        })?;
        Ok(GateList {
            cycle: Ticks(1),
            lines,
        })
    }

    // The ticks after which the list begins again.
    pub fn cycle(&self) -> Ticks
        ensures { result ≡ self.now.cycle }
    {
        self.cycle
    }

    pub fn lines(&self) -> &[GateLine]
        ensures { result.now ≡ self.now.lines.items }
    {
        self.lines.as_slice()
    }

    // Whether the class is open at a tick, counted from where the list first began. The answer is the same any number of cycles
    // later, and it is what the line says in which the tick lies.
    pub fn is_open(&self, class: u8, tick: Ticks) -> bool
        ensures value { result ≡ opened self.now.lines.items class tick.0 }
        ensures repeats { (n : ℕ) → opened self.now.lines.items class (tick.0 + n * self.now.cycle.0) ≡ result }
        ensures steady { (i : ℕ) → InLine self.now.lines.items i (tick.0 % self.now.cycle.0) → result ≡ shows (line self.now.lines.items i) class }
    {
        open_at(self.lines(), class, tick.0 % self.cycle.0)
    }
}

// Whether the class is open at a tick, counted from the beginning of the first line; after the last line it is not.
fn open_at(lines: &[GateLine], class: u8, tick: u64) -> bool
    ensures { result ≡ within lines.now class tick }
{
    let mut left = tick;
    for line in lines {
        if left < line.length.0 {
            return line.is_open(class);
        }
        left -= line.length.0;
    }
    false
}

// Whether the lines make a gate list of this cycle.
fn lawful(cycle: Ticks, lines: &[GateLine]) -> bool
    ensures { Decides result (Lawful lines.now cycle.0) }
{
    if lines.len() < 1 || lines.len() > MAX_GATE_LINES || cycle.0 > MAX_CYCLE {
        return false;
    }
    let mut sum = 0u64;
    for line in lines {
        if line.length.0 < 1 || line.length.0 > MAX_CYCLE {
            return false;
        }
        sum += line.length.0;
    }
    sum == cycle.0
}
