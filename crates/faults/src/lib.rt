// What can be wrong with a plan text, in three layers: a field, a line, the plan. Each fault holds the lower one whole.
#![tactic(auto)]

mod fault;
mod layer;

pub use fault::{FieldFault, LineFault, PlanFault};
pub use layer::{Layer, NoLayer};
