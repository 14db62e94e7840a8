// A walk over the gate lines of a plan from the beginning of one of them: for how many ticks in a row a class is open, or clear. It
// adds up the lengths of lines, and never looks at single ticks.
ghost use Rattle.std.specs.Prelude.{◌≡◌, ℕ, ◌<◌, ◌≤◌, Bool, length};
ghost use Rattle.std.specs.Fn.{FnReturnsAt};
ghost use Rattle.calculus.specs.Searches.{lasts};
ghost use Rattle.units.specs.Limits.{most_cycle};
ghost use Rattle.gates.specs.Opened.{total, opened, start, line};
ghost use Rattle.sure_ticks.specs.Runs.{clear};
ghost use Rattle.slots.specs.Walks.{alone, previous, AtTick, Answers, Walked};

use gates::GateLine;
use plan::Plan;

// A line of a plan's gate list, and the tick at which it begins.
#[derive(Drop)]
pub(crate) struct LineStart<'a> {
    pub(crate) plan: &'a Plan,
    pub(crate) index: usize,
    pub(crate) tick: u64,
    ghost there: { index < length plan.now.gates.lines.items },
    ghost begun: { tick ≡ start plan.now.gates.lines.items index },
}

impl<'a> LineStart<'a> {
    // The line.
    pub(crate) fn line(&self) -> &GateLine
        ensures { result.now ≡ line self.now.plan.now.gates.lines.items self.now.index }
    {
        &self.plan.gates().lines()[self.index]
    }

    // The line before it: the last comes before the first.
    pub(crate) fn line_before(&self) -> &GateLine
        ensures { result.now ≡ line self.now.plan.now.gates.lines.items (previous (length self.now.plan.now.gates.lines.items) self.now.index) }
    {
        let lines = self.plan.gates().lines();
        let before = if self.index > 0 {
            self.index - 1
        } else {
            lines.len() - 1
        };
        &lines[before]
    }

    // The ticks after which the gate list begins again.
    pub(crate) fn cycle(&self) -> u64
        ensures { result ≡ self.now.plan.now.gates.cycle.0 }
    {
        self.plan.gates().cycle().0
    }

    // How many ticks in a row the class is clear from the line's beginning on, a cycle at the most.
    pub(crate) fn clear_for(&self, class: u8) -> u64
        ensures { result ≡ lasts (clear (opened self.now.plan.now.gates.lines.items) class) self.now.tick self.now.plan.now.gates.cycle.0 }
    {
        self.lasting(|line| is_clear(line, class))
    }

    // How many ticks in a row the class is open from the line's beginning on, `limit` at the most.
    pub(crate) fn open_for(&self, class: u8, limit: u64) -> u64
        ensures { result ≡ lasts (opened self.now.plan.now.gates.lines.items class) self.now.tick limit }
    {
        let ticks = self.lasting(|line| line.is_open(class));
        if ticks == self.cycle() || limit < ticks {
            limit
        } else {
            ticks
        }
    }

    // How many ticks pass in a row from the line's beginning on, a cycle at the most: the lengths of the lines that pass, from this
    // one to the last and, if all of those pass, from the first on. In two walks, for speed: with the two parts of the list in a chain,
    // finding the slots of a class took up to twice as long.
    fn lasting<F: Fn(&GateLine) -> bool>(&self, passes: F) -> u64
        requires { F.IsAlwaysCallable passes }
        ensures { (test : (ℕ → ℕ → Bool) → ℕ → Bool) → AtTick test → Answers (FnReturnsAt F.Fn passes) test
            → result ≡ lasts (test (opened self.now.plan.now.gates.lines.items)) self.now.tick self.now.plan.now.gates.cycle.0 }
    {
        let (before, rest) = self.plan.gates().lines().split_at(self.index);
        let first = walk(rest, &passes);
        if first < self.cycle() - self.tick {
            return first;
        }
        first + walk(before, &passes)
    }
}

// How many ticks the lines take up to the first that does not pass, or all of them.
fn walk<F: Fn(&GateLine) -> bool>(lines: &[GateLine], passes: F) -> u64
    requires callable { F.IsAlwaysCallable passes }
    requires short { total lines.now ≤ most_cycle }
    ensures { Walked (FnReturnsAt F.Fn passes) lines.now result }
{
    let mut ticks = 0;
    for line in lines {
        if !passes(line) {
            return ticks;
        }
        ticks += line.length.0;
    }
    ticks
}

// Whether the class is open in the line and every higher class is shut.
pub(crate) fn is_clear(line: &GateLine, class: u8) -> bool
    ensures { result ≡ clear (alone line.now) class 0 }
{
    let outranked = (0..8u8).any(|higher| higher > class && line.is_open(higher));
    !outranked && line.is_open(class)
}
