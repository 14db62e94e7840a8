// What is asked of a plan: the curve of a class. The call takes a plan and the number of a class, since a struct of the two would be
// made for each call and taken apart at once.
ghost use Rattle.std.specs.Prelude.{◌≡◌, ◌≤◌, MatchResult};
ghost use Rattle.units.specs.Limits.{most_span};
ghost use Rattle.plan.specs.PlanContents.{contents};
ghost use Rattle.service.specs.Served.{Refused};
ghost use Rattle.service.specs.CurveOfPlan.{curve_of};

use crate::class_service::ClassService;
use plan::Plan;
use supply::Supply;
use units::{Bytes, Refusal, Ticks};

// The bytes that a class is sure to send in a span of ticks that each begin with unsent bytes of it. Refused where there is no such
// class, and then where the span is above 4,000,000 ticks.
pub fn curve(plan: &Plan, class: u8, span: Ticks) -> Result<Bytes, Refusal>
    ensures { MatchResult result (λ b. (class ≤ 7) × (span.0 ≤ most_span) × (b.0 ≡ curve_of (contents plan.now) class span.0)) (λ e. Refused class span.0 e) }
{
    let service = ClassService::of(plan, class)?;
    service.at(span)
}
