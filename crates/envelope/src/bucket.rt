// A token bucket: a burst at once, and then a rate.
ghost use Rattle.std.specs.Prelude.{◌≡◌, ◌≤◌, MatchResult};
ghost use Rattle.units.specs.Limits.{flow_reach, least_burst, most_burst, most_rate_ticks};
ghost use Rattle.units.specs.declared.refusal.Refusal.TheVariants.{FlowRange};
ghost use Rattle.envelope.specs.Kinds.{bucket_bytes};
ghost use Rattle.envelope.specs.Kept.{bucket_laws};
ghost use Rattle.envelope.specs.Ranges.{BucketRange};

use crate::envelope_trait::Envelope;
use crate::ranges::{in_range, within_reach};
use units::limits::{FLOW_REACH, MAX_BURST, MAX_RATE_TICKS, MIN_BURST};
use units::{Bytes, Refusal, Ticks};

// `burst` bytes at once, and `num` bytes more for each `den` ticks.
#[derive(Clone, Copy)]
pub struct Bucket {
    burst: Bytes,
    num: Bytes,
    den: Ticks,
    ghost range: { BucketRange burst.0 num.0 den.0 },
}

impl Bucket {
    // The bucket with this burst and rate. Refused where the burst is not 64 to 1,000,000 bytes, `den` not 1 to 1,000,000 ticks, or
    // the rate is above a byte a tick.
    pub fn new(burst: Bytes, num: Bytes, den: Ticks) -> Result<Bucket, Refusal>
        ensures { MatchResult result (λ b. (b.burst ≡ burst) × (b.num ≡ num) × (b.den ≡ den)) (λ e. (e ≡ FlowRange) × (BucketRange burst.0 num.0 den.0 → ⊥)) }
    {
        in_range(burst.0, MIN_BURST, MAX_BURST)?;
        in_range(den.0, 1, MAX_RATE_TICKS)?;
        in_range(num.0, 0, den.0)?;
        Ok(Bucket { burst, num, den })
    }
}

impl Envelope for Bucket {
    ghost alpha = { λ b d. bucket_bytes b.burst.0 b.num.0 b.den.0 d };

    ghost reach = { λ _. flow_reach };

    ghost laws = { bucket_laws (λ b. b.burst.0) (λ b. b.num.0) (λ b. b.den.0) (λ b. b.range.den_low) };

    // The burst and the rate, rounded down.
    fn at(&self, span: Ticks) -> Result<Option<Bytes>, Refusal> {
        within_reach(span)?;
        if span.0 == 0 {
            return Ok(Some(Bytes(0)));
        }
        let earned = self.num.0 * span.0 / self.den.0;
        Ok(Some(Bytes(self.burst.0 + earned)))
    }

    fn longest(&self) -> Ticks {
        Ticks(FLOW_REACH)
    }
}
