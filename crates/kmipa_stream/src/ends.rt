//! The end marks of a transcript that have come so far, and those of calls whose turns have not.

use crate::naming::is_passed;
use kmipa_check::FirstPlaces;
use std::alloc::{AllocError, Global};

/// An end mark: the number of its call, and its place among the marks, from 0.
#[derive(Clone, Copy)]
pub(crate) struct EndSeen {
    pub number: i32,
    pub place: usize,
}

/// The end marks that have come, in their order.
///
/// # Cost
/// The first that waits for its turn is looked for from where it stood before, so all searches together cost one pass.
#[derive(Drop)]
pub(crate) struct Ends {
    seen: Vec<EndSeen>,
    // How many of the first belong to calls whose turns have come.
    passed: usize,
}

impl Ends {
    ghost use Rattle.std.specs.Prelude.{◌≡◌, ◌≤◌, ◌∷◌, ◌++◌, ℕ, List, [], OnOk, length};
    ghost use Rattle.kmipa_record.specs.Marks.{MarkOf, ends};
    ghost use Rattle.kmipa_record.specs.declared.turn.Turn.{Turn};
    ghost use Rattle.kmipa_stream.specs.Waiting.{AreNamedAt, IsFirstWaiting, Wait};

    /// No end marks.
    pub fn new(alloc: Global) -> Ends
        ensures { (turns : List Turn) → Wait [] turns 0 result }
    {
        Ends {
            seen: Vec::new(alloc),
            passed: 0,
        }
    }

    /// Takes an end mark, behind the others.
    pub fn push(&mut self, number: i32, place: usize) -> Result<(), AllocError>
        ensures { (marks : List MarkOf) (turns : List Turn) (count : ℕ) (answered : List ℕ)
            → Wait marks turns count self.old
            → place ≡ length marks
            → OnOk result (Wait (marks ++ ends number answered ∷ []) turns count self.new) }
    {
        self.seen.push(EndSeen { number, place })?;
        Ok(())
    }

    /// The place of the first end mark whose call none of the first so many turns names.
    pub fn first_waiting(&mut self, named: &FirstPlaces, count: usize) -> Option<usize>
        ensures { (marks : List MarkOf) (turns : List Turn) (before : ℕ) → AreNamedAt turns named.now
            → before ≤ count → Wait marks turns before self.old
            → Wait marks turns count self.new × IsFirstWaiting marks turns count result }
    {
        'passed: while self.passed < self.seen.len() {
            let end = self.seen[self.passed];
            if !is_passed(named, count, end.number) {
                return Some(end.place);
            }
            self.passed += 1;
        }
        None
    }
}
