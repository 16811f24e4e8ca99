//! The deepest place that a search reached.

use crate::watch::Watch;
use std::alloc::{AllocError, Global};

/// Keeps the longest path of calls that a search took, and hands all on to another watch. What it keeps is a hint: `reached` tells how much of
/// it holds, and why it goes no further.
#[derive(Drop)]
pub struct Deepest<'w, W> {
    watch: &'w mut W,
    /// The calls that are taken now.
    path: Vec<i32>,
    /// The longest path that was left.
    longest: Vec<i32>,
    /// So many calls at the front of both are the same.
    shared: usize,
    /// Memory ran out: nothing is kept any more.
    is_lost: bool,
}

impl<'w, W: Watch> Deepest<'w, W> {
    ghost use Rattle.std.specs.Prelude.{◌≡◌};

    /// Of a search that begins now, and that this one watches too.
    pub fn new(alloc: Global, watch: &'w mut W) -> Deepest<'w, W>
        ensures { W.seconds result.watch.now ≡ W.seconds watch.old }
    {
        Deepest {
            watch,
            path: Vec::new(alloc),
            longest: Vec::new(alloc),
            shared: 0,
            is_lost: false,
        }
    }

    /// The numbers of the calls on the longest path, the first one where several are as long.
    pub fn into_calls(self) -> Result<Vec<i32>, AllocError> {
        let mut deepest = self;
        deepest.keep_longest();
        if deepest.is_lost {
            return Err(AllocError);
        }
        Ok(deepest.longest)
    }

    /// Keeps the path where it is longer than the longest so far. Each call is copied once at most for each time that it is taken.
    fn keep_longest(&mut self)
        ensures { W.seconds self.new.watch.now ≡ W.seconds self.old.watch.now }
    {
        if self.path.len() <= self.longest.len() {
            return;
        }
        self.longest.truncate(self.shared);
        let Some(rest) = self.path.get(self.shared..) else {
            return;
        };
        if self.longest.extend_from_slice(rest).is_err() {
            self.is_lost = true;
        }
        self.shared = self.path.len();
    }
}

impl<'w, W: Watch> Watch for Deepest<'w, W> {
    ghost seconds = { λ deepest. W.seconds deepest.watch.now };

    fn step(&mut self, steps: u64, taken: usize) {
        self.watch.step(steps, taken);
    }

    fn taken(&mut self, call: i32) {
        self.watch.taken(call);
        if self.is_lost {
            return;
        }
        if self.path.push(call).is_err() {
            self.is_lost = true;
        }
    }

    fn given_back(&mut self) {
        self.watch.given_back();
        if self.is_lost {
            return;
        }
        self.keep_longest();
        self.path.pop();
        self.shared = self.shared.min(self.path.len());
    }

    fn over(&self) -> Option<u64> {
        self.watch.over()
    }
}
