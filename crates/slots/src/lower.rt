// What the lower classes cost a class: one walk over them, for whatever a frame of each can cost.
ghost use Rattle.std.specs.Prelude.{◌≡◌, ℕ};
ghost use Rattle.calculus.specs.Searches.{greatest};

// For each class, for how many ticks a frame of it can keep a higher class waiting. A closure in its place would need the facts that
// the two structs carry in clauses of its own, and be no plainer.
pub(crate) trait Waits {
    ghost waits: { Self → ℕ → ℕ };

    fn ticks(&self, class: u8) -> u64
        ensures { result ≡ waits self.now class };
}

// The greatest over the classes below `class`, and 0 for class 0.
pub(crate) fn greatest_below<W: Waits>(frames: &W, class: u8) -> u64
    ensures { result ≡ greatest (W.waits frames.now) class }
{
    (0..class)
        .map(|lower| frames.ticks(lower))
        .max()
        .unwrap_or(0)
}
