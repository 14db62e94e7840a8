// The slots of a traffic class, its sure ticks and its block, found by walking over the gate lines of a plan.
#![tactic(auto)]

mod blocking;
mod calls;
mod class_slots;
mod find;
mod lower;
mod runs;
mod slot_list;
mod walk;

pub use calls::{MIN_LIST, block, slots, sure};
pub use class_slots::ClassSlots;
pub use slot_list::SlotList;
