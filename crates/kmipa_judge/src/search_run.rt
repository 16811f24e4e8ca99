//! What a run of a search says and makes.

use kmipa_jobs::Status;
use kmipa_record::Head;

/// What a run of a search says: its status, its lines, and behind a verdict the head of a sealed transcript; and what it makes, the bytes of a witness, or
/// none.
#[derive(Drop)]
pub struct SearchRun {
    pub status: Status,
    pub lines: Vec<u8>,
    pub head: Option<Head>,
    pub witness: Vec<u8>,
}
