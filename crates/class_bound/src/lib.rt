// Delay and held bytes of a traffic class of a plan.
// The calls take a plan and the number of a class: a struct of the two would be made for each call and taken apart at once.
#![tactic(auto)]

ghost use Rattle.std.specs.Prelude.{◌<◌, length, MatchResult};
ghost use Rattle.plan.specs.PlanContents.{contents};
ghost use Rattle.arrivals.specs.ClassAlpha.{class_flows, class_alpha};
ghost use Rattle.class_bound.specs.ClassBounds.{IsBound, Unbounded, NoBound};

use arrivals::{class_envelope, flow_count};
use bound::bound_over;
use envelope::Envelope;
use plan::Plan;
use service::ClassService;
use units::{Bytes, Refusal, Ticks};

// Delay and held bytes of a class whose frames are inside the envelope. Refused where there is no such class, then where it has no
// sure tick, then where no span closes. By a rule of the project the two are a tuple.
pub fn bound_under<E: Envelope>(
    plan: &Plan,
    class: u8,
    envelope: &E,
) -> Result<(Ticks, Bytes), Refusal>
    ensures { let s = contents plan.now in let alpha = E.alpha envelope.now in MatchResult result (λ b. IsBound s class alpha b.0.0 b.1.0) (λ e. Unbounded s class alpha e) }
{
    let service = ClassService::of(plan, class)?;
    if service.sure().0 == 0 {
        return Err(Refusal::NoSureTick);
    }
    bound_over(&service, envelope).ok_or(Refusal::NoClosingSpan)
}

// Delay and held bytes of a class by the plan's own flows. Refused where there is no such class, then where it has no flow line,
// then as under an envelope.
pub fn bound(plan: &Plan, class: u8) -> Result<(Ticks, Bytes), Refusal>
    ensures { let s = contents plan.now in MatchResult result (λ b. (0 < length (class_flows s class)) × IsBound s class (class_alpha s class) b.0.0 b.1.0) (λ e. NoBound s class e) }
{
    if flow_count(plan, class)? == 0 {
        return Err(Refusal::NoFlow);
    }
    let envelope = class_envelope(plan, class)?;
    bound_under(plan, class, &envelope)
}
