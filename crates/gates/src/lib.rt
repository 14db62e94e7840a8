// The gate control list of a port, and the traffic classes that its gates let out.
#![tactic(auto)]

mod gate_line;
mod gate_list;
mod traffic_class;

pub use gate_line::{Gate, GateLine};
pub use gate_list::GateList;
pub use traffic_class::TrafficClass;
