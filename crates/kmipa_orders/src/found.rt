//! What a search finds.

use kmipa_record::Witness;

/// What a search finds.
#[derive(Drop)]
pub enum Found {
    /// A witness that a check accepts, and how many calls were tried.
    Yes(Witness, u64),
    /// No witness, and how many calls were tried.
    GaveUp(u64),
    /// No witness, how many calls were tried, and the identifiers of the objects that refute them: no order explains the answers about these.
    Refuted(u64, Vec<String>),
    /// No witness, how many calls were tried, and the place of a call, from 0, whose answer is impossible over every inventory.
    Impossible(u64, usize),
    /// No witness: how many calls were tried until the seconds of the search were over, and how many these are.
    OutOfTime(u64, u64),
}
