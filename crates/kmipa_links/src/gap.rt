//! Gaps: why a segment isn't linked behind those before it.

use kmipa_record::RecordFault;

/// Why a segment isn't linked behind those before it.
#[derive(Drop)]
pub enum Gap {
    /// A call of this number stands in the segment of this name too.
    Call(i32, String),
    /// It is of the first recording, and the segment before it is of the other one.
    Recording(String, String),
    /// It is the segment of this number, and this one was expected.
    Segment(i32, i64),
    /// It goes on from this seal, and the segment before it ends with the other one.
    Previous([u8; 32], [u8; 32]),
    /// It bears no seals, where a segment of this number was expected, of this recording.
    NoSeals(i64, String),
    /// It bears seals, and the segment before it none.
    Seals,
}

/// Why a segment wasn't linked.
#[derive(Drop)]
pub enum Unlinked {
    /// Its transcript has this fault, or can't be read.
    Fault(RecordFault),
    Gap(Gap),
}
