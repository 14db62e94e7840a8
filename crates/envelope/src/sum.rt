// Two envelopes together.
ghost use Rattle.std.specs.Prelude.{◌+◌, min};
ghost use Rattle.envelope.specs.Kept.{sum_laws};

use crate::envelope_trait::Envelope;
use crate::load::together;
use units::{Bytes, Refusal, Ticks};

#[derive(Clone, Copy)]
pub struct Sum<P: Envelope, Q: Envelope> {
    pub first: P,
    pub second: Q,
}

impl<P: Envelope, Q: Envelope> Envelope for Sum<P, Q> {
    ghost alpha = { λ s d. P.alpha s.first d + Q.alpha s.second d };

    ghost reach = { λ s. min (P.reach s.first) (Q.reach s.second) };

    ghost laws = { sum_laws P.laws Q.laws (λ s. s.first) (λ s. s.second) };

    fn at(&self, span: Ticks) -> Result<Option<Bytes>, Refusal> {
        let first = self.first.at(span)?;
        let second = self.second.at(span)?;
        Ok(together(first, second))
    }

    fn longest(&self) -> Ticks {
        self.first.longest().min(self.second.longest())
    }
}
