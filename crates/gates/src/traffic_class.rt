// What a plan says of one traffic class: its largest frame and the room for its unsent bytes.
ghost use Rattle.std.specs.Prelude.{◌≡◌, MatchOption};
ghost use Rattle.gates.specs.Sizes.{Sized, hold};

use units::limits::{MAX_DEPTH, MAX_FRAME, MIN_FRAME};
use units::{Bytes, Ticks};

// The largest frame is 0 for a class that sends nothing, which has no room either.
#[derive(Clone, Copy)]
pub struct TrafficClass {
    largest: Bytes,
    depth: Bytes,
    ghost sized: { Sized largest.0 depth.0 },
}

impl TrafficClass {
    // A class with this largest frame and depth. None where the largest frame is neither 0 nor 64 to 1,522 bytes, or the depth is
    // neither at least that and at most 16,384 nor, for a class that sends nothing, 0.
    pub fn new(largest: Bytes, depth: Bytes) -> Option<TrafficClass>
        ensures { MatchOption result (Sized largest.0 depth.0 → ⊥) (λ c. (c.largest ≡ largest) × (c.depth ≡ depth)) }
    {
        let most = if largest.0 > 0 { MAX_DEPTH } else { 0 };
        if largest.0 > MAX_FRAME || largest.0 > 0 && largest.0 < MIN_FRAME {
            return None;
        }
        if depth.0 < largest.0 || depth.0 > most {
            return None;
        }
        Some(TrafficClass { largest, depth })
    }

    // A class that sends nothing.
    pub fn silent() -> TrafficClass
        ensures { (result.largest.0 ≡ 0) × (result.depth.0 ≡ 0) }
    {
        TrafficClass {
            largest: Bytes(0),
            depth: Bytes(0),
        }
    }

    pub fn largest(&self) -> Bytes
        ensures { result ≡ self.now.largest }
    {
        self.largest
    }

    // For how many ticks its largest frame holds the wire: 0 for a class that sends nothing.
    #[tactic(auto, unfolding(crate::specs::Sizes::hold))]
    pub fn hold(&self) -> Ticks
        ensures { result.0 ≡ hold self.now.largest.0 }
    {
        Ticks(self.largest.0)
    }

    pub fn depth(&self) -> Bytes
        ensures { result ≡ self.now.depth }
    {
        self.depth
    }
}
