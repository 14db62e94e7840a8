// What an accepted plan text says.
ghost use Rattle.std.specs.Prelude.{◌≡◌, ◌≤◌};
ghost use Rattle.units.specs.Limits.{most_port, most_lines, most_cycle};
ghost use Rattle.reader.specs.Views.{flow_of, kind_of, place_of};

use envelope::{Bucket, Periodic};
use gates::{GateList, TrafficClass};

// What the first three lines say.
#[derive(Clone, Copy)]
pub struct Header {
    pub port: u64,
    pub cycle: u64,
    pub gates: u64,
    ghost port_high: { port ≤ most_port },
    ghost cycle_low: { 1 ≤ cycle },
    ghost cycle_high: { cycle ≤ most_cycle },
    ghost gates_low: { 1 ≤ gates },
    ghost gates_high: { gates ≤ most_lines },
}

// The kinds of flow, in their order within a class.
#[derive(Clone, Copy, PartialEq, Eq, PartialOrd, Ord)]
pub enum Kind {
    Bucket,
    Periodic,
}

#[derive(Clone, Copy)]
pub enum Flow {
    Bucket(Bucket),
    Periodic(Periodic),
}

impl From<Flow> for Kind {
    ghost from_gives = { λ f k. k ≡ kind_of (flow_of f) };

    fn from(flow: Flow) -> Kind {
        match flow {
            Flow::Bucket(_) => Kind::Bucket,
            Flow::Periodic(_) => Kind::Periodic,
        }
    }
}

// A flow of a class.
#[derive(Clone, Copy)]
pub struct FlowLine {
    pub class: u8,
    pub flow: Flow,
}

// The class and the kind of a flow: its place in the order of flow lines.
#[derive(Clone, Copy)]
pub struct Place {
    pub class: u8,
    pub kind: Kind,
}

impl From<FlowLine> for Place {
    ghost from_gives = { λ f p. p ≡ place_of f };

    fn from(line: FlowLine) -> Place {
        Place {
            class: line.class,
            kind: Kind::from(line.flow),
        }
    }
}

// The class c is `classes[c]`, and the flows stand in the order of the text.
#[derive(Drop)]
pub struct Parsed {
    pub port: u16,
    pub gates: GateList,
    pub classes: [TrafficClass; 8],
    pub flows: Vec<FlowLine>,
}
