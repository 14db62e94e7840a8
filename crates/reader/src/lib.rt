// From a plan text to what it says: the lines in their order, each field with its form and range.
#![tactic(auto)]

mod entries;
mod fields;
mod lines;
mod lists;
mod parsed;
mod reader;
mod room;
mod whole;

pub use parsed::{Flow, FlowLine, Parsed};
pub use whole::parse;
