// The lines of a plan: a number, a gate line, a class, a flow.
ghost use Rattle.std.specs.Prelude.{◌≡◌, ◌≤◌, ◌&&◌, ◌||◌, map, IfOk, OnOk, nat_le, nat_lt};
ghost use Rattle.reader.specs.Chain.{map_ok};
ghost use Rattle.reader.specs.Contents.{largest_of};
ghost use Rattle.reader.specs.Entries.{number_line, gate_line, class_line, flow_line, kind_after};
ghost use Rattle.reader.specs.Moves.{PastLine};
ghost use Rattle.reader.specs.Views.{sizes_of, entry_of, LengthFits};

use crate::parsed::{FlowLine, Kind, Place};
use crate::reader::Reader;
use faults::{LineFault, PlanFault};
use gates::{GateLine, TrafficClass};
use text::Key;
use units::Bytes;

impl Reader<'_> {
    // The number on the next line, from `least` to `most`, which are two numbers as for a field.
    #[tactic(auto, unfolding(crate::specs::Entries::number_line))]
    pub(crate) fn number_line(&mut self, due: Key, least: u64, most: u64) -> Result<u64, LineFault>
        ensures value { result ≡ number_line self.old.line due least most self.old.rest.now }
        ensures bound { IfOk result (λ n. (least ≤ n) × (n ≤ most)) }
        ensures past { OnOk result (PastLine self.old self.new) }
    {
        let mut fields = self.due_line(due, 0)?;
        Ok(fields.number(least, most)?)
    }

    #[tactic(auto, unfolding(crate::specs::Entries::gate_line))]
    pub(crate) fn gate_line(&mut self) -> Result<GateLine, LineFault>
        ensures value { result ≡ gate_line self.old.line self.old.rest.now }
        ensures bound { IfOk result LengthFits }
        ensures past { OnOk result (PastLine self.old self.new) }
    {
        let mut fields = self.due_line(Key::Gate, 1)?;
        Ok(fields.gate()?)
    }

    // The next class line, which has to be that of the class `due`.
    #[tactic(auto, unfolding(crate::specs::Entries::class_line))]
    pub(crate) fn class_line(&mut self, due: u8) -> Result<TrafficClass, PlanFault>
        ensures value { map_ok sizes_of result ≡ class_line self.old.line due self.old.rest.now }
        ensures past { OnOk result (PastLine self.old self.new) }
    {
        let mut fields = self.due_line(Key::Class, 2)?;
        let class = fields.class()?;
        if class != due {
            return Err(PlanFault::Order(fields.line));
        }
        Ok(fields.sizes()?)
    }

    // The next flow line, after one at the place `last`.
    #[tactic(auto, unfolding(crate::specs::Entries::flow_line))]
    pub(crate) fn flow_line(
        &mut self,
        classes: &[TrafficClass; 8],
        last: Place,
    ) -> Result<FlowLine, PlanFault>
        ensures value { map_ok entry_of result ≡ flow_line self.old.line (map sizes_of classes.now) last self.old.rest.now }
        ensures past { OnOk result (PastLine self.old self.new) }
    {
        let mut fields = self.due_line(Key::Flow, 4)?;
        let class = fields.class()?;
        let traffic = traffic_of(classes, class);
        if !last.admits(class, traffic.largest()) {
            return Err(PlanFault::Order(fields.line));
        }
        let kind = fields.kind()?;
        if !last.precedes(class, kind) {
            return Err(PlanFault::Order(fields.line));
        }
        let flow = fields.flow(kind, traffic)?;
        Ok(FlowLine { class, flow })
    }
}

// The sizes of a class.
fn traffic_of(classes: &[TrafficClass; 8], class: u8) -> TrafficClass
    requires { class ≤ 7 }
    ensures { result.largest.0 ≡ largest_of (map sizes_of classes.now) class }
{
    classes[usize::from(class)]
}

impl Place {
    // Whether a flow of the class, which has this largest frame, may follow: the class does not rise, and it sends something.
    fn admits(self, class: u8, largest: Bytes) -> bool
        ensures { result ≡ (nat_le class self.class && nat_lt 0 largest.0) }
    {
        class <= self.class && largest.0 > 0
    }

    // Whether a flow of the kind may follow in a class that does not rise.
    fn precedes(self, class: u8, kind: Kind) -> bool
        ensures { result ≡ (nat_lt class self.class || kind_after self.kind kind) }
    {
        class < self.class || self.kind <= kind
    }
}
