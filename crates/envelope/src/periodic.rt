// A periodic flow: one frame in each period, late or early by the jitter.
ghost use Rattle.std.specs.Prelude.{◌≡◌, ◌≤◌, MatchResult};
ghost use Rattle.units.specs.Limits.{flow_reach, least_frame, most_frame, most_period, most_jitter};
ghost use Rattle.units.specs.declared.refusal.Refusal.TheVariants.{FlowRange};
ghost use Rattle.envelope.specs.Kinds.{periodic_bytes};
ghost use Rattle.envelope.specs.Kept.{periodic_laws};
ghost use Rattle.envelope.specs.Ranges.{PeriodicRange};

use crate::envelope_trait::Envelope;
use crate::ranges::{in_range, within_reach};
use units::limits::{FLOW_REACH, MAX_FRAME, MAX_JITTER, MAX_PERIOD, MIN_FRAME};
use units::{Bytes, Refusal, Ticks};

#[derive(Clone, Copy)]
pub struct Periodic {
    bytes: Bytes,
    period: Ticks,
    jitter: Ticks,
    ghost range: { PeriodicRange bytes.0 period.0 jitter.0 },
}

impl Periodic {
    // The flow of frames of this size. Refused where the bytes are not 64 to 1,522, the period not 1 to 4,000,000 ticks, or the
    // jitter above 4,000,000.
    pub fn new(bytes: Bytes, period: Ticks, jitter: Ticks) -> Result<Periodic, Refusal>
        ensures { MatchResult result (λ p. (p.bytes ≡ bytes) × (p.period ≡ period) × (p.jitter ≡ jitter)) (λ e. (e ≡ FlowRange) × (PeriodicRange bytes.0 period.0 jitter.0 → ⊥)) }
    {
        in_range(bytes.0, MIN_FRAME, MAX_FRAME)?;
        in_range(period.0, 1, MAX_PERIOD)?;
        in_range(jitter.0, 0, MAX_JITTER)?;
        Ok(Periodic {
            bytes,
            period,
            jitter,
        })
    }
}

impl Envelope for Periodic {
    ghost alpha = { λ p d. periodic_bytes p.bytes.0 p.period.0 p.jitter.0 d };

    ghost reach = { λ _. flow_reach };

    ghost laws = { periodic_laws (λ p. p.bytes.0) (λ p. p.period.0) (λ p. p.jitter.0) (λ p. p.range.period_low) };

    // A frame for each period that the span and the jitter reach into. A bucket begins in the same way: one function for both
    // would take the formula as a closure with clauses of its own, which is no plainer than these lines.
    fn at(&self, span: Ticks) -> Result<Option<Bytes>, Refusal> {
        within_reach(span)?;
        if span.0 == 0 {
            return Ok(Some(Bytes(0)));
        }
        let frames = (span.0 + self.jitter.0 + (self.period.0 - 1)) / self.period.0;
        Ok(Some(Bytes(self.bytes.0 * frames)))
    }

    fn longest(&self) -> Ticks {
        Ticks(FLOW_REACH)
    }
}
