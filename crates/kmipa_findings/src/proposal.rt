//! What a search proposes.

use crate::finding::Finding;
use kmipa_record::Turn;

/// What a search proposes, before it is confirmed.
#[derive(Drop)]
pub struct Proposal {
    /// The turns, in the order in which they were taken.
    pub turns: Vec<Turn>,
    /// What was found on the way, in the order of turns.
    pub findings: Vec<Finding>,
    /// How many calls were tried.
    pub steps: u64,
    /// Whether all calls were taken.
    pub is_whole: bool,
    /// The seconds that are over, where the search ended for that.
    pub over: Option<u64>,
}
