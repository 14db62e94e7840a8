// The sure ticks of a traffic class: what they are, tick by tick, and what holds of them whatever the gates.
#![tactic(auto)]

ghost use Rattle.sure_ticks.specs.Laws.{SlotsApart, SureLengths, SureStartable};

mod slot;

pub use slot::Slot;

// Stands for three theorems. The slots of a class rise and share no tick; their lengths add up to the sure ticks of a cycle; and
// the sure ticks are those at which a waiting frame can start, whatever came before.
pub fn slots_hold_the_sure_ticks()
    ensures apart { SlotsApart }
    ensures added { SureLengths }
    ensures startable { SureStartable }
{}
