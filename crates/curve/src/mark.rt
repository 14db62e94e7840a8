// Where a slot begins, in ticks from the first slot's beginning, and the sure ticks before it.
use units::Ticks;

#[derive(Clone, Copy, Default)]
pub struct Mark {
    pub place: Ticks,
    pub before: Ticks,
}
