// Making the service of a class, and what it supplies. It is made of a plan and the number of a class, since a struct of the two
// would be made for each call and taken apart at once.
ghost use Rattle.std.specs.Prelude.{◌≡◌, ℕ, ◌+◌, ◌*◌, ◌≤◌};
ghost use Rattle.units.specs.Classes.{ByClass};
ghost use Rattle.curve.specs.Table.{table_of};
ghost use Rattle.plan.specs.PlanContents.{contents};
ghost use Rattle.slots.specs.Listed.{items};
ghost use Rattle.slots.specs.OfPlan.{sure_ticks_of};
ghost use Rattle.service.specs.Served.{served_by};
ghost use Rattle.service.specs.ServiceLaws.{service_laws};
ghost use Rattle.service.specs.CurveOfPlan.{curve_of};

use crate::class_service::ClassService;
use crate::table::table;
use plan::Plan;
use slots::ClassSlots;
use supply::Supply;
use units::limits::MAX_SPAN;
use units::{Bytes, Refusal, Ticks};

impl ClassService {
    // The service of a class of a plan. Refused where there is no such class.
    pub fn of(plan: &Plan, class: u8) -> Result<ClassService, Refusal>
        ensures { ByClass class result (λ s. ((n : ℕ) → served_by s.cycle.0 (items s.slots) s.block.0 n ≡ curve_of (contents plan.now) class n)
            × (s.sure.0 ≡ sure_ticks_of (contents plan.now) class)) }
    {
        let ClassSlots { slots, sure, block } = ClassSlots::of(plan, class)?;
        let cycle = plan.gates().cycle();
        let marks = table(cycle.0, slots.as_slice(), sure.0);
        Ok(ClassService {
            cycle,
            sure,
            block,
            slots,
            marks,
        })
    }

    // How many ticks of a cycle are sure for the class.
    pub fn sure(&self) -> Ticks
        ensures { result ≡ self.now.sure }
    {
        self.sure
    }
}

impl Supply for ClassService {
    ghost supplied = { λ s. served_by s.cycle.0 (items s.slots) s.block.0 };

    ghost keeps = { service_laws (λ s. s.cycle.0) (λ s. items s.slots) (λ s. s.block.0) (λ s. s.ready.some) };

    // The curve at a span: whole cycles add their sure ticks, and the rest is looked up.
    fn at(&self, span: Ticks) -> Result<Bytes, Refusal> {
        if span.0 > MAX_SPAN {
            return Err(Refusal::CurveSpan);
        }
        let whole = span.0 / self.cycle.0;
        let rest = span.0 % self.cycle.0;
        let least = self.least_in(rest);
        let ticks = whole * self.sure.0 + least;
        Ok(Bytes(ticks.saturating_sub(self.block.0)))
    }

    // The least span at which the curve has so many bytes: whole cycles first, and the rest is looked up.
    fn least_span(&self, bytes: Bytes) -> Option<Ticks> {
        if bytes.0 == 0 {
            return Some(Ticks(0));
        }
        if self.sure.0 == 0 || bytes.0 > MAX_SPAN {
            return None;
        }
        let ticks = bytes.0 + self.block.0;
        let whole = (ticks - 1) / self.sure.0;
        let rest = ticks - whole * self.sure.0;
        let first = self.first_with(rest);
        let span = whole * self.cycle.0 + first;
        if span > MAX_SPAN {
            return None;
        }
        Some(Ticks(span))
    }
}
