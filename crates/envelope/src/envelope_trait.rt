// What an arrival envelope is. Anyone can write a further kind: it gives its meaning, shows the laws, and answers.
ghost use Rattle.std.specs.Prelude.{◌≡◌, ℕ};
ghost use Rattle.envelope.specs.Laws.{EnvelopeLaws};
ghost use Rattle.envelope.specs.Answers.{answer};

use units::{Bytes, Refusal, Ticks};

pub trait Envelope {
    // The most bytes that may be offered in any so many ticks in a row.
    ghost alpha: { Self → ℕ → ℕ };

    // The longest span that may be asked about.
    ghost reach: { Self → ℕ };

    ghost laws: { EnvelopeLaws alpha reach };

    // The most bytes in a span, and none where they are more than 2^40. Refused beyond the reach.
    fn at(&self, span: Ticks) -> Result<Option<Bytes>, Refusal>
        ensures { result ≡ answer (reach self.now) (alpha self.now) span.0 };

    // The reach.
    fn longest(&self) -> Ticks
        ensures { result.0 ≡ reach self.now };
}
