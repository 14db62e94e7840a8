// What the bounds need of a supply. The curve of a gated class is one; anyone can write another.
ghost use Rattle.std.specs.Prelude.{◌≡◌, ℕ, ◌<◌, ◌≤◌, MatchOption, MatchResult};
ghost use Rattle.units.specs.Limits.{most_span};
ghost use Rattle.units.specs.declared.refusal.Refusal.TheVariants.{CurveSpan};
ghost use Rattle.supply.specs.Laws.{SupplyLaws, LeastSpan, NoSpan};

use units::{Bytes, Refusal, Ticks};

pub trait Supply {
    // The bytes that are sent at the least in the first so many ticks of a busy period.
    ghost supplied: { Self → ℕ → ℕ };

    ghost keeps: { SupplyLaws supplied };

    // The bytes that are supplied in a span. Refused above 4,000,000 ticks.
    fn at(&self, span: Ticks) -> Result<Bytes, Refusal>
        ensures { MatchResult result (λ b. (span.0 ≤ most_span) × (b.0 ≡ supplied self.now span.0)) (λ e. (most_span < span.0) × (e ≡ CurveSpan)) };

    // The least span in which so many bytes are supplied. None where no span of up to 4,000,000 ticks has as many.
    fn least_span(&self, bytes: Bytes) -> Option<Ticks>
        ensures { MatchOption result (NoSpan (supplied self.now) bytes.0) (λ t. LeastSpan (supplied self.now) bytes.0 t.0) };
}
