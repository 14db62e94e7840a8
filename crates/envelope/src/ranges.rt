// What the numbers of a flow may be, and how long a span it may be asked about.
ghost use Rattle.std.specs.Prelude.{◌≡◌, ◌<◌, ◌≤◌, ◌⊎◌, MatchResult};
ghost use Rattle.units.specs.Limits.{flow_reach};
ghost use Rattle.units.specs.declared.refusal.Refusal.TheVariants.{BeyondReach, FlowRange};

use units::limits::FLOW_REACH;
use units::{Refusal, Ticks};

// Refused where the number is not one of `least` to `most`: two numbers, since a range also says whether it is used up, which the clause
// would have to rule out.
pub(crate) fn in_range(number: u64, least: u64, most: u64) -> Result<(), Refusal>
    ensures { MatchResult result (λ _. (least ≤ number) × (number ≤ most)) (λ e. (e ≡ FlowRange) × ((number < least) ⊎ (most < number))) }
{
    if number < least || number > most {
        return Err(Refusal::FlowRange);
    }
    Ok(())
}

// Refused where the span is beyond the reach of flows.
pub(crate) fn within_reach(span: Ticks) -> Result<(), Refusal>
    ensures { MatchResult result (λ _. span.0 ≤ flow_reach) (λ e. (flow_reach < span.0) × (e ≡ BeyondReach)) }
{
    if span.0 > FLOW_REACH {
        return Err(Refusal::BeyondReach);
    }
    Ok(())
}
