// An example of an envelope kind of one's own: so many bytes once, whatever the span.
#![tactic(auto)]

ghost use Rattle.units.specs.Limits.{most_span};
ghost use Rattle.flat_envelope.specs.FlatLaws.{flat_bytes, flat_laws};

use envelope::Envelope;
use units::limits::{MAX_LOAD, MAX_SPAN};
use units::{Bytes, Refusal, Ticks};

#[derive(Clone, Copy)]
pub struct Flat {
    pub bytes: Bytes,
}

impl Envelope for Flat {
    ghost alpha = { λ f d. flat_bytes f.bytes.0 d };

    ghost reach = { λ _. most_span };

    ghost laws = { flat_laws (λ f. f.bytes.0) };

    fn at(&self, span: Ticks) -> Result<Option<Bytes>, Refusal> {
        if span.0 > MAX_SPAN {
            return Err(Refusal::BeyondReach);
        }
        if span.0 == 0 {
            return Ok(Some(Bytes(0)));
        }
        if self.bytes.0 > MAX_LOAD {
            return Ok(None);
        }
        Ok(Some(self.bytes))
    }

    fn longest(&self) -> Ticks {
        Ticks(MAX_SPAN)
    }
}
