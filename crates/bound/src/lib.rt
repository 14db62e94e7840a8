// Delay and held bytes over any supply and any envelope.
#![tactic(auto)]

ghost use Rattle.bound.specs.Means.{BoundsMean};

mod search;

pub use search::bound_over;

// The definitions of delay and held bytes are the greatest wait and the most unsent bytes up to the least span that closes.
pub fn bounds_mean_what_they_say()
    ensures { BoundsMean }
{}
