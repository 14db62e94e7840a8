// The search for delay and held bytes. It looks only at the spans where more may arrive than before.
ghost use Rattle.std.specs.Prelude.{◌≡◌, ◌-◌, ◌<◌, ◌≤◌, Decides, MatchOption};
ghost use Rattle.units.specs.Limits.{most_span, most_load};
ghost use Rattle.bound.specs.Bounds.{closing, delay, held};

use envelope::Envelope;
use supply::Supply;
use units::{Bytes, Ticks};

// The bytes that may arrive in the span. None where they are more than 2^40. That a span is short enough to be asked about is a clause
// here and below: a type for such spans would have to be made anew at each step, which is no plainer.
fn arriving<E: Envelope>(envelope: &E, span: Ticks) -> Option<Bytes>
    requires { span.0 ≤ most_span }
    ensures { MatchOption result (most_load < E.alpha envelope.now span.0) (λ b. (b.0 ≡ E.alpha envelope.now span.0) × (b.0 ≤ most_load)) }
{
    envelope.at(span).ok().flatten()
}

// Whether more than so many bytes may arrive in the span.
fn exceeds<E: Envelope>(envelope: &E, span: Ticks, bytes: Bytes) -> bool
    requires short { span.0 ≤ most_span }
    requires told { bytes.0 ≤ most_load }
    ensures { Decides result (bytes.0 < E.alpha envelope.now span.0) }
{
    arriving(envelope, span).is_none_or(|most| bytes < most)
}

// The least span after `from` in which more than so many bytes may arrive: by steps that double, and then by halving.
fn next_rise<E: Envelope>(envelope: &E, from: Ticks, to: Ticks, bytes: Bytes) -> Ticks
    requires short { to.0 ≤ most_span }
    requires told { bytes.0 ≤ most_load }
    requires flat { E.alpha envelope.now from.0 ≤ bytes.0 }
    requires risen { bytes.0 < E.alpha envelope.now to.0 }
    requires onward { from.0 < to.0 }
    ensures after { from.0 < result.0 }
    ensures within { result.0 ≤ to.0 }
    ensures flat { E.alpha envelope.now (result.0 - 1) ≤ bytes.0 }
    ensures risen { bytes.0 < E.alpha envelope.now result.0 }
{
    let mut low = from.0;
    let mut high = to.0;
    // How far beyond `low` the next look goes, as long as that is among the spans that are left; then it goes half as far as they do.
    let mut step = 1;
    // No `for`: each look says which spans are left, and no slice holds them that `partition_point` could search.
    while 1 < high - low {
        let left = high - low;
        let mid = low + if step < left { step } else { left / 2 };
        if exceeds(envelope, Ticks(mid), bytes) {
            high = mid;
        } else {
            step = (mid - low) * 2;
            low = mid;
        }
    }
    Ticks(high)
}

// Delay and held bytes of whatever arrives inside the envelope and is sent by the supply. None where there is no closing span. By a
// rule of the project the two are a tuple.
pub fn bound_over<S: Supply, E: Envelope>(supply: &S, envelope: &E) -> Option<(Ticks, Bytes)>
    ensures { let alpha = E.alpha envelope.now in let beta = S.supplied supply.now in MatchOption result (most_span < closing alpha beta) (λ b. (closing alpha beta ≤ most_span) × (b.0.0 ≡ delay alpha beta) × (b.1.0 ≡ held alpha beta)) }
{
    let mut span = Ticks(1);
    let mut delay = Ticks(0);
    let mut held = Bytes(0);
    // No `for`: which span comes next depends on the bytes that may arrive in this one.
    loop {
        let bytes = arriving(envelope, span)?;
        let served = supply.least_span(bytes)?;
        let before = Ticks(span.0 - 1);
        let sent = supply.at(before).ok()?;
        delay = delay.max(Ticks(served.0 - before.0));
        held = held.max(Bytes(bytes.0 - sent.0));
        let last = served.max(span);
        if !exceeds(envelope, last, bytes) {
            return Some((delay, held));
        }
        span = next_rise(envelope, span, last, bytes);
    }
}
