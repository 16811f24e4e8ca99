//! Verdicts.

use crate::tally::Tally;
use kmipa_check::Refused;

/// What a check says of a transcript, a declaration and a witness.
#[derive(Clone, Copy, PartialEq, Eq)]
pub enum Verdict {
    /// A run in the witness's order gives every recorded response that is judged; and so many are.
    Yes(Tally),
    /// The first answer that no such run gives, and the Time Stamp of its response. None where the call can't be read.
    No(Refused, Option<i64>),
}
