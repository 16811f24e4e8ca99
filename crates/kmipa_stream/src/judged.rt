//! Verdicts with the date of a refused call, the number of items judged, what became of them, and the head of the transcript.

use crate::tally::Tally;
use kmipa_check::Verdict;
use kmipa_record::Head;

/// A verdict, when the call that it refuses was answered, how many items were judged, and what the transcript is known by.
#[derive(Drop)]
pub struct Judged {
    pub verdict: Verdict,
    /// Of a no, the Time Stamp of the response of the call that it refuses, as it was recorded or answered.
    pub stamp: Option<i64>,
    /// How many items were judged: the places of all turns taken that have a Batch Item in the request and in the response. It stops at the
    /// greatest `u64`. Only the number of a yes is promised.
    pub items: u64,
    /// What became of these items, where the declaration sets aside; `None` where what isn't judged ends the audit. Only that of a yes is
    /// promised.
    pub tally: Option<Tally>,
    /// The head of a transcript that is sealed.
    pub head: Option<Head>,
}
