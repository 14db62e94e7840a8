// The service of a traffic class: its curve at any span, and the least span that has enough.
#![tactic(auto)]

mod calls;
mod class_service;
mod table;

pub use calls::curve;
pub use class_service::ClassService;
