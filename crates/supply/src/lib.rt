// Supplies: how many bytes a hop sends at the least in the first ticks of a busy period.
#![tactic(auto)]

mod supply_trait;

pub use supply_trait::Supply;
