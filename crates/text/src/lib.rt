// The leaves of reading: cutting the caller's text at a byte, numerals, and the key of a line. Nothing is copied.
#![tactic(auto)]

mod cuts;
mod keys;
mod numerals;

pub use cuts::{count, cut};
pub use keys::{Key, value};
pub use numerals::numeral;
