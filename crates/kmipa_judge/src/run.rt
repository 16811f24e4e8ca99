//! What a run of judging says and makes.

use kmipa_jobs::Status;
use kmipa_record::Head;

/// What a run of judging says: its status, its lines, and behind a verdict the head of a sealed transcript; and what it makes, the bytes of a witness and of
/// the declaration that was used, or none.
#[derive(Drop)]
pub struct JudgeRun {
    pub status: Status,
    pub lines: Vec<u8>,
    pub head: Option<Head>,
    pub witness: Vec<u8>,
    pub declaration: Vec<u8>,
}
