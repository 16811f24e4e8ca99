//! What is found in a recording.

use kmipa_check::Refused;
use kmipa_record::{Turn, Witness};
use kmipa_trail::Tally;

/// An impossible answer that was found.
#[derive(Drop)]
pub struct Finding {
    /// The place of its turn, counted from 0.
    pub place: usize,
    /// The turn as it was tried, without what is set aside for this.
    pub tried: Turn,
    /// What is impossible there, and why.
    pub refused: Refused,
    /// The Time Stamp of the response; none of a call that can't be read.
    pub stamp: Option<i64>,
}

/// A witness that a check accepts, and what was found on the way to it.
#[derive(Drop)]
pub struct Judged {
    /// The order of the calls, with all that is set aside for what was found.
    pub witness: Witness,
    /// How many items are judged along it.
    pub tally: Tally,
    /// What was found, in the order of turns.
    pub findings: Vec<Finding>,
    /// How many calls were tried.
    pub steps: u64,
    /// Whether no order of the calls explains every answer.
    pub is_decided: bool,
}

/// What was found where nothing is confirmed of it.
#[derive(Drop)]
pub struct Undecided {
    /// What was found by then. Nothing is promised of these findings.
    pub findings: Vec<Finding>,
    /// How many calls were tried.
    pub steps: u64,
    /// The seconds that are over, where it ended for that.
    pub over: Option<u64>,
}

/// What judging comes to.
#[derive(Drop)]
pub enum Outcome {
    /// All calls are taken, and what was found is confirmed.
    Judged(Judged),
    /// The budget is used up, the seconds are over, or what was found can't be confirmed.
    Undecided(Undecided),
}
