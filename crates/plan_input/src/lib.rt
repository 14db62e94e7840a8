// A plan that comes on standard input: the bytes that are kept, and the plan that they say.
#![tactic(auto)]

ghost use Rattle.std.specs.Prelude.{◌≡◌, suc, ◌-◌, ◌≤◌, ◌++◌, take, Ok, vec_len, IfOk, MatchResult, OnOk};
ghost use Rattle.units.specs.Limits.{most_text};
ghost use Rattle.reader.specs.Reading.{read_plan, FaultOf};
ghost use Rattle.plan.specs.PlanContents.{contents};

use faults::PlanFault;
use plan::Plan;
use std::alloc::{AllocError, Global};
use std::io;
use std::io::Read;
use units::limits::MAX_TEXT;

// The plan that the text says, or why there is none.
pub fn read_plan(heap: Global, text: &[u8]) -> Result<Plan, PlanFault>
    ensures { MatchResult result (λ p. Ok (contents p) ≡ read_plan text.now) (FaultOf text.now) }
{
    let mut plan = Plan::new(heap)?;
    plan.read(text)?;
    Ok(plan)
}

// All of standard input, or its first bytes up to one more than a plan text may have, so that a longer text is seen to be too long.
pub fn read_input(rt: &HostRuntime) -> io::Result<Vec<u8>>
    ensures { IfOk result (λ t. vec_len t ≤ suc most_text) }
{
    let mut text = Vec::new(rt.alloc());
    let mut input = rt.stdin();
    // To the end of the input, which comes before so many turns. `take` with `read_to_end` would stop where the text is too long, and cut
    // off whoever writes it.
    for _ in 0..u64::MAX {
        let mut chunk = [0u8; 4096];
        let n = input.read(&mut chunk)?;
        if n == 0 {
            break;
        }
        keep(&mut text, &chunk[..n])?;
    }
    Ok(text)
}

// Adds bytes to the text, as far as it stays within one more than a plan text may have.
fn keep(text: &mut Vec<u8>, bytes: &[u8]) -> Result<(), AllocError>
    ensures { OnOk result (text.new.items ≡ text.old.items ++ take (suc most_text - vec_len text.old) bytes.now) }
{
    let room = (MAX_TEXT + 1).saturating_sub(text.len());
    let n = room.min(bytes.len());
    text.extend_from_slice(&bytes[..n])
}
