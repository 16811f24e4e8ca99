//! Verdicts with the date of a refused call, and what is counted of the turns taken.

use crate::counts::Counts;
use kmipa_check::Verdict;

/// A verdict, when the call that it refuses was answered, and what is counted of the turns taken.
#[derive(Clone, Copy, PartialEq, Eq)]
pub(crate) struct Stamped {
    pub verdict: Verdict,
    /// Of a no, the Time Stamp of the response of the call that it refuses, as it was recorded or answered.
    pub stamp: Option<i64>,
    pub counts: Counts,
}
