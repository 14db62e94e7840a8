// A plan text from its first byte to its last.
ghost use Rattle.std.specs.Prelude.{◌≡◌, ◌≤◌, Ok, length, MatchResult};
ghost use Rattle.units.specs.Limits.{most_text};
ghost use Rattle.reader.specs.Chain.{map_ok};
ghost use Rattle.reader.specs.Parsed.{contents_of};
ghost use Rattle.reader.specs.Reading.{read_plan, read_lines, FaultOf};

use crate::parsed::{FlowLine, Parsed};
use crate::reader::Reader;
use crate::room::Room;
use faults::PlanFault;
use gates::GateLine;
use std::alloc::Global;
use units::limits::{MAX_FLOWS, MAX_GATE_LINES, MAX_TEXT};

// What the text says, or the first fault in it. All memory is taken before the first byte is read, so want of memory is kept apart.
pub fn parse(heap: Global, text: &[u8]) -> Result<Parsed, PlanFault>
    ensures { MatchResult result (λ p. Ok (contents_of p) ≡ read_plan text.now) (FaultOf text.now) }
{
    let lines = Room::new(heap)?;
    let flows = Room::new(heap)?;
    read_text(text, lines, flows)
}

// The contents of the text, in the room for its lists.
#[tactic(auto, unfolding(crate::specs::Reading::read_plan))]
fn read_text(
    text: &[u8],
    lines: Room<GateLine, MAX_GATE_LINES>,
    flows: Room<FlowLine, MAX_FLOWS>,
) -> Result<Parsed, PlanFault>
    ensures { map_ok contents_of result ≡ read_plan text.now }
{
    if text.is_empty() || text.len() > MAX_TEXT {
        return Err(PlanFault::Size);
    }
    read_lines(text, lines, flows)
}

// The contents of the lines.
#[tactic(auto, unfolding(crate::specs::Reading::read_lines))]
fn read_lines(
    text: &[u8],
    lines: Room<GateLine, MAX_GATE_LINES>,
    flows: Room<FlowLine, MAX_FLOWS>,
) -> Result<Parsed, PlanFault>
    requires { length text.now ≤ most_text }
    ensures { map_ok contents_of result ≡ read_lines text.now }
{
    let mut reader = Reader {
        rest: text,
        line: 1,
    };
    let header = reader.header()?;
    let gates = reader.gate_list(header, lines)?;
    let classes = reader.class_list()?;
    let flows = reader.flow_list(&classes, flows)?;
    Ok(Parsed {
        port: header.port as u16,
        gates,
        classes,
        flows,
    })
}
