//! What is counted of the turns taken.

use crate::tally::Tally;

/// How many items of the steps that were taken have an answer, and what became of them, where the declaration sets aside.
#[derive(Clone, Copy, PartialEq, Eq)]
pub(crate) struct Counts {
    /// It stops at the greatest `u64`.
    pub items: u64,
    pub tally: Option<Tally>,
}
