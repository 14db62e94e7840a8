// Time, load and refusals: the words that every layer above uses.
#![tactic(auto)]

mod amounts;
mod class;
pub mod limits;
mod refusal;

pub use amounts::{Bytes, Ticks};
pub use class::Class;
pub use refusal::Refusal;
