//! Verdicts.

use kmipa_ops::Why;

/// What a check says of a transcript, a declaration and a witness.
#[derive(Clone, Copy, PartialEq, Eq)]
pub enum Verdict {
    /// A run in the witness's order gives every recorded response.
    Yes,
    /// The first answer that no such run gives.
    No(Refused),
}

/// The first answer that is impossible.
#[derive(Clone, Copy, PartialEq, Eq)]
pub struct Refused {
    /// The turn, counted from 1.
    pub turn: usize,
    /// The number of its call.
    pub call: i32,
    /// The item of the call, counted from 1; 0 where the turn itself is impossible.
    pub item: usize,
    /// The lowest reason that holds there.
    pub why: Why,
}
