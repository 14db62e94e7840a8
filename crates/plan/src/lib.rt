// The plan of one output port, as the analysis uses it: gates, classes, and what is said of each class.
#![tactic(auto)]

mod class_plan;
mod plan;

pub use plan::Plan;
