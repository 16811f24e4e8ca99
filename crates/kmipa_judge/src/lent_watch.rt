//! The pace of a search by a watcher that is lent.

ghost use Rattle.std.specs.Prelude.{◌≡◌};

use kmipa_findings::Pace;
use kmipa_orders::Watch;

/// Who watches a search, lent to it.
#[derive(Drop)]
pub(crate) struct Lent<'w, W> {
    pub watch: &'w mut W,
}

impl<W: Watch> Pace for Lent<'_, W> {
    ghost seconds = { λ lent. W.seconds lent.watch.now };

    fn step(&mut self, steps: u64, taken: usize) {
        self.watch.step(steps, taken);
    }

    fn over(&self) -> Option<u64> {
        self.watch.over()
    }
}

/// The time that a search has by a pace, which isn't told of its steps.
#[derive(Drop)]
pub(crate) struct Clock<'p, P> {
    pub pace: &'p P,
}

impl<P: Pace> Watch for Clock<'_, P> {
    ghost seconds = { λ clock. P.seconds clock.pace.now };

    fn step(&mut self, _steps: u64, _taken: usize) {}

    fn taken(&mut self, _call: i32) {}

    fn given_back(&mut self) {}

    fn over(&self) -> Option<u64> {
        self.pace.over()
    }
}
