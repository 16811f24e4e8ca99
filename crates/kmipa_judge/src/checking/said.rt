//! What is said of a check.

use kmipa_record::Head;
use kmipa_runs::Lines;

/// The lines, or the line of the object, with their status; and behind a verdict the head of a sealed transcript.
#[derive(Drop)]
pub(crate) struct Said {
    pub lines: Lines,
    pub head: Option<Head>,
}
