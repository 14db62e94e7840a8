// Any number of envelopes of one kind together.
ghost use Rattle.std.specs.Prelude.{◌≡◌};
ghost use Rattle.envelope.specs.Answers.{answer};
ghost use Rattle.envelope.specs.Kept.{all_laws};
ghost use Rattle.envelope.specs.Totals.{sum_at, least_reach};

use crate::envelope_trait::Envelope;
use crate::load::together;
use crate::ranges::within_reach;
use units::limits::FLOW_REACH;
use units::{Bytes, Refusal, Ticks};

// The bytes of all the envelopes in a span, added. Refused beyond the least of their reaches, and beyond 40,000,000 ticks.
pub fn total<E: Envelope>(row: &[E], span: Ticks) -> Result<Option<Bytes>, Refusal>
    ensures { result ≡ answer (least_reach E.reach row.now) (sum_at E.alpha row.now) span.0 }
{
    within_reach(span)?;
    // A rule of the project asks for a `for` over the elements here.
    let mut sum = Some(Bytes(0));
    for each in row {
        sum = together(sum, each.at(span)?);
    }
    Ok(sum)
}

// The least of the reaches, 40,000,000 at the most.
pub fn least_reach<E: Envelope>(row: &[E]) -> Ticks
    ensures { result.0 ≡ least_reach E.reach row.now }
{
    let least = row
        .iter()
        .fold(FLOW_REACH, |least, each| least.min(each.longest().0));
    Ticks(least)
}

// The total as an envelope of its own.
#[derive(Clone, Copy)]
pub struct AllOf<'a, E: Envelope>(pub &'a [E]);

impl<'a, E: Envelope> Envelope for AllOf<'a, E> {
    ghost alpha = { λ s. sum_at E.alpha s.0.now };

    ghost reach = { λ s. least_reach E.reach s.0.now };

    ghost laws = { all_laws E.laws (λ s. s.0.now) };

    fn at(&self, span: Ticks) -> Result<Option<Bytes>, Refusal> {
        total(self.0, span)
    }

    fn longest(&self) -> Ticks {
        least_reach(self.0)
    }
}
