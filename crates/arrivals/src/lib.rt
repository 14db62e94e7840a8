// What may arrive for a traffic class: the envelope of all its flows.
// The calls take a plan and the number of a class: a struct of the two would be made for each call and taken apart at once.
#![tactic(auto)]

ghost use Rattle.std.specs.Prelude.{◌≡◌, ℕ, length};
ghost use Rattle.units.specs.Classes.{ByClass};
ghost use Rattle.plan.specs.PlanContents.{contents};
ghost use Rattle.arrivals.specs.ClassAlpha.{class_flows, class_alpha, kinds_alpha};

use envelope::{AllOf, Bucket, Periodic, Sum};
use plan::Plan;
use units::Refusal;

// The buckets of a class, and then its periodic flows.
pub type ClassEnvelope<'a> = Sum<AllOf<'a, Bucket>, AllOf<'a, Periodic>>;

// The envelope of a class: all its flows together. Refused where there is no such class.
pub fn class_envelope<'a>(plan: &'a Plan, class: u8) -> Result<ClassEnvelope<'a>, Refusal>
    ensures { ByClass class result (λ e. (d : ℕ) → kinds_alpha e.first.0.now e.second.0.now d ≡ class_alpha (contents plan.now) class d) }
{
    let buckets = plan.buckets(class)?;
    let periodics = plan.periodics(class)?;
    Ok(Sum {
        first: AllOf(buckets),
        second: AllOf(periodics),
    })
}

// How many flow lines a class has. Refused where there is no such class.
pub fn flow_count(plan: &Plan, class: u8) -> Result<usize, Refusal>
    ensures { ByClass class result (λ n. n ≡ length (class_flows (contents plan.now) class)) }
{
    let bucket_flows = plan.buckets(class)?;
    let periodic_flows = plan.periodics(class)?;
    Ok(bucket_flows.len() + periodic_flows.len())
}
