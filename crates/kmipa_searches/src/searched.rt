//! What a search finds.

use crate::options::SearchOptions;
use kmipa_orders::Found;
use kmipa_stream::Tally;

/// What a search found, and whether the transcript is forced, where that was asked for.
#[derive(Drop)]
pub struct Searched {
    pub forced: Option<bool>,
    pub found: Found,
    /// What became of the items by the witness that was found, where one was and the declaration sets aside.
    pub tally: Option<Tally>,
}

/// What is printed and made of a search.
#[derive(Drop)]
pub struct FoundOutput {
    /// The lines.
    pub lines: Vec<u8>,
    /// The witness that is found, as a file.
    pub made: Vec<u8>,
}

/// What a search of calls that were read is asked.
#[derive(Clone, Copy)]
pub struct CallsAsked {
    /// Whether the transcript is forced, where that was asked for.
    pub forced: Option<bool>,
    pub search: SearchOptions,
}
