// The lists of a plan: the lines one after another.
ghost use Rattle.std.specs.Prelude.{◌≡◌, ◌≤◌, [], map, IfOk, vec_items, vec_len, OnOk};
ghost use Rattle.std.specs.List.{AllByRecursion};
ghost use Rattle.units.specs.Limits.{most_lines, most_flows};
ghost use Rattle.reader.specs.Chain.{map_ok, each};
ghost use Rattle.reader.specs.Entries.{next_gate, next_flow};
ghost use Rattle.reader.specs.Moves.{PastLines};
ghost use Rattle.reader.specs.Parsed.{header_of, lines_of, entries_of};
ghost use Rattle.reader.specs.Reading.{header_in, gates_listed, classes_listed, flows_listed};
ghost use Rattle.reader.specs.Views.{sizes_of, LengthFits};

use crate::parsed::{FlowLine, Header, Kind, Place};
use crate::reader::Reader;
use crate::room::Room;
use faults::{LineFault, PlanFault};
use gates::{GateLine, GateList, TrafficClass};
use text::Key;
use units::Ticks;
use units::limits::{MAX_CYCLE, MAX_FLOWS, MAX_GATE_LINES, MAX_PORT};

impl Reader<'_> {
    #[tactic(auto, unfolding(crate::specs::Reading::header_in, crate::specs::Chain::skip))]
    pub(crate) fn header(&mut self) -> Result<Header, LineFault>
        requires { self.old.line ≡ 1 }
        ensures value { map_ok header_of result ≡ header_in self.old.rest.now }
        ensures past { OnOk result (PastLines 3 self.old self.new) }
    {
        let port = self.number_line(Key::Port, 1, MAX_PORT)?;
        let cycle = self.number_line(Key::Cycle, 1, MAX_CYCLE)?;
        let gates = self.number_line(Key::Gates, 1, MAX_GATE_LINES as u64)?;
        Ok(Header { port, cycle, gates })
    }

    // The gate list on the lines after the header, in the room for it.
    #[tactic(auto, unfolding(crate::specs::Reading::gates_listed))]
    pub(crate) fn gate_list(
        &mut self,
        header: Header,
        room: Room<GateLine, MAX_GATE_LINES>,
    ) -> Result<GateList, PlanFault>
        requires { self.old.line ≡ 4 }
        ensures value { map_ok lines_of result ≡ gates_listed header.cycle header.gates self.old.rest.now }
        ensures cycle { IfOk result (λ g. g.cycle.0 ≡ header.cycle) }
        ensures past { OnOk result (PastLines header.gates self.old self.new) }
    {
        let lines = self.gate_lines(room, header.gates)?;
        GateList::new(Ticks(header.cycle), lines).ok_or(PlanFault::Sum(self.line - 1))
    }

    // The next `count` gate lines.
    fn gate_lines(
        &mut self,
        room: Room<GateLine, MAX_GATE_LINES>,
        count: u64,
    ) -> Result<Vec<GateLine>, LineFault>
        requires { count ≤ most_lines }
        ensures value { map_ok vec_items result ≡ each next_gate count self.old.line self.old.rest.now [] }
        ensures bound { IfOk result (λ v. AllByRecursion LengthFits v.items × (vec_len v ≡ count)) }
        ensures past { OnOk result (PastLines count self.old self.new) }
    {
        let mut lines = room.list;
        for _ in 0..count {
            let gate = self.gate_line()?;
            lines.push_reserved(gate);
        }
        Ok(lines)
    }

    // The eight class lines, class 7 first.
    pub(crate) fn class_list(&mut self) -> Result<[TrafficClass; 8], PlanFault>
        ensures value { map_ok (map sizes_of) result ≡ classes_listed self.old.line self.old.rest.now }
        ensures past { OnOk result (PastLines 8 self.old self.new) }
    {
        let mut classes = [TrafficClass::silent(); 8];
        for number in (0..8u8).rev() {
            let class = self.class_line(number)?;
            classes[usize::from(number)] = class;
        }
        Ok(classes)
    }

    // The number of flow lines and those lines, with which the text ends, in the room for them.
    #[tactic(auto, unfolding(crate::specs::Reading::flows_listed))]
    pub(crate) fn flow_list(
        &mut self,
        classes: &[TrafficClass; 8],
        room: Room<FlowLine, MAX_FLOWS>,
    ) -> Result<Vec<FlowLine>, PlanFault>
        ensures { map_ok entries_of result ≡ flows_listed (map sizes_of classes.now) self.old.line self.old.rest.now }
    {
        let count = self.number_line(Key::Flows, 0, MAX_FLOWS as u64)?;
        let flows = self.flow_lines(classes, room, count)?;
        if !self.rest.is_empty() {
            return Err(PlanFault::More(self.line));
        }
        Ok(flows)
    }

    // The next `count` flow lines. Like `gate_lines` but for the place of the last flow, which each line is held against. One method over a
    // closure for the next line would be no plainer: its contract would have to say what each call does to the reader and to that place.
    fn flow_lines(
        &mut self,
        classes: &[TrafficClass; 8],
        room: Room<FlowLine, MAX_FLOWS>,
        count: u64,
    ) -> Result<Vec<FlowLine>, PlanFault>
        requires { count ≤ most_flows }
        ensures value { map_ok entries_of result ≡ each (next_flow (map sizes_of classes.now)) count self.old.line self.old.rest.now [] }
        ensures past { OnOk result (PastLines count self.old self.new) }
    {
        let mut last = Place {
            class: 7,
            kind: Kind::Bucket,
        };
        let mut flows = room.list;
        for _ in 0..count {
            let flow = self.flow_line(classes, last)?;
            last = Place::from(flow);
            flows.push_reserved(flow);
        }
        Ok(flows)
    }
}
