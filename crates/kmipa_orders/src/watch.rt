//! Watching a search on its way.

ghost use Rattle.std.specs.Prelude.{◌≡◌, ◌<◌, ℕ, IfSome};

/// Who watches a search: it is reported of each step, and changes nothing of what the search answers, but for when it has to end.
pub trait Watch {
    /// So many seconds the search has; 0 where it has all the time that it takes.
    ghost seconds: { Self → ℕ };

    /// One more call is tried: so many steps were made with it, and so many calls are taken before it.
    fn step(&mut self, steps: u64, taken: usize)
        ensures { seconds self.new ≡ seconds self.old };

    /// The call of this number, which was tried, is taken.
    fn taken(&mut self, call: i32)
        ensures { seconds self.new ≡ seconds self.old };

    /// The call that was taken last is given back.
    fn given_back(&mut self)
        ensures { seconds self.new ≡ seconds self.old };

    /// How many seconds are over, where these are all that the search has: then it ends. It is asked ahead of each step.
    fn over(&self) -> Option<u64>
        ensures all { IfSome result (λ after. after ≡ seconds self.now) }
        ensures some { IfSome result (λ after. 0 < after) };
}

/// Nobody watches, and the search has all the time that it takes.
#[derive(Drop)]
pub struct Unwatched {}

impl Watch for Unwatched {
    ghost seconds = { λ unwatched. 0 };

    fn step(&mut self, _steps: u64, _taken: usize) {}

    fn taken(&mut self, _call: i32) {}

    fn given_back(&mut self) {}

    fn over(&self) -> Option<u64> {
        None
    }
}
