// Ticks in a row that come back with every cycle.
use units::Ticks;

// It begins in the cycle, and may last past the cycle's end into the next one.
#[derive(Clone, Copy, Default)]
pub struct Slot {
    pub begin: Ticks,
    pub length: Ticks,
}
