//! What is asked of a segment, and what is printed and made of it.

use kmipa_searches::SearchOptions;

/// What is asked of a segment of an audit that goes on from file to file.
#[derive(Clone, Copy, PartialEq, Eq)]
pub struct SegmentAsked {
    /// The moment that no Time Stamp may lie before, in seconds since 1970, where one is given.
    pub since: Option<i64>,
    /// Makes the declaration of what the segment leaves.
    pub leaves: bool,
}

/// What is asked of the search of a segment.
#[derive(Clone, Copy, PartialEq, Eq)]
pub struct SearchAsked {
    pub search: SearchOptions,
    pub segment: SegmentAsked,
}

/// The next segment of a chain, of which a witness is searched for.
#[derive(Clone, Copy, PartialEq, Eq)]
pub struct NextSearch<'a> {
    /// The name of its transcript.
    pub name: &'a str,
    /// The most steps that are made.
    pub budget: u64,
}

/// What is printed and made of a segment that is checked.
#[derive(Drop)]
pub struct CheckOutput {
    /// The lines.
    pub lines: Vec<u8>,
    /// The declaration that it leaves, as a file.
    pub left: Vec<u8>,
}

/// What is printed and made of a segment that is searched.
#[derive(Drop)]
pub struct SearchOutput {
    /// The lines.
    pub lines: Vec<u8>,
    /// The witness that is found, as a file.
    pub made: Vec<u8>,
    /// The declaration that it leaves, as a file.
    pub left: Vec<u8>,
}
