// The curve of a traffic class: the least number of its sure ticks in any window of a length, and the laws it keeps.
#![tactic(auto)]

ghost use Rattle.curve.specs.Laws.{CurveLaws};

mod mark;

pub use mark::Mark;

// Stands for the laws of every curve: it and the least number of sure ticks are 0 at 0, never fall and rise by at most 1 at a tick,
// and a cycle more adds its sure ticks to the least number.
pub fn curves_are_lawful()
    ensures { CurveLaws }
{}
