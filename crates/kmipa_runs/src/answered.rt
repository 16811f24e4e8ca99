//! What a run answers beside what it appends.

use kmipa_jobs::Status;
use kmipa_record::Head;

/// The status of a run, and of one that judged a sealed transcript the head of it.
#[derive(Drop)]
pub struct Answered {
    pub status: Status,
    pub head: Option<Head>,
}
