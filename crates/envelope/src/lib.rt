// The arrival envelopes of flows: how many bytes may be offered in any span of ticks.
#![tactic(auto)]

mod bucket;
mod envelope_trait;
mod load;
mod periodic;
mod ranges;
mod sum;
mod totals;

pub use bucket::Bucket;
pub use envelope_trait::Envelope;
pub use load::together;
pub use periodic::Periodic;
pub use sum::Sum;
pub use totals::{AllOf, least_reach, total};
