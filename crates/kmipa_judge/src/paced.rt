//! The pace of a search that is watched.

ghost use Rattle.std.specs.Prelude.{◌≡◌};

use kmipa_findings::Pace;
use kmipa_orders::Watch;

/// Who watches judging, as the pace of its search.
#[derive(Drop)]
pub(crate) struct Paced<W> {
    pub watch: W,
}

impl<W: Watch> Pace for Paced<W> {
    ghost seconds = { λ paced. W.seconds paced.watch };

    fn step(&mut self, steps: u64, taken: usize) {
        self.watch.step(steps, taken);
    }

    fn over(&self) -> Option<u64> {
        self.watch.over()
    }
}
