//! How long a search may last.

ghost use Rattle.std.specs.Prelude.{◌≡◌, ◌<◌, ℕ, IfSome};

/// Who watches a search, and how long it may last.
pub trait Pace {
    /// So many seconds the search has; 0 where it has all the time that it takes.
    ghost seconds: { Self → ℕ };

    /// One more call is tried: so many were tried with it, and so many are taken before it.
    fn step(&mut self, steps: u64, taken: usize)
        ensures { seconds self.new ≡ seconds self.old };

    /// How many seconds are over, where these are all that the search has: then it ends. It is asked ahead of each call that is tried.
    fn over(&self) -> Option<u64>
        ensures all { IfSome result (λ after. after ≡ seconds self.now) }
        ensures some { IfSome result (λ after. 0 < after) };
}

/// Nobody watches, and the search has all the time that it takes.
#[derive(Drop)]
pub struct Unpaced {}

impl Pace for Unpaced {
    ghost seconds = { λ unpaced. 0 };

    fn step(&mut self, _steps: u64, _taken: usize) {}

    fn over(&self) -> Option<u64> {
        None
    }
}
