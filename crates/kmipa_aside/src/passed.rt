//! A place that isn't judged.

use kmipa_passed::{PassedAnswer, PassedAsk};

/// An item that isn't judged, and its answer.
#[derive(Drop)]
pub struct Passed<'a> {
    /// The number of the operation that is asked for.
    pub asks: u32,
    /// The number of the one that the answer names. None where it names none, where its Operation can't be read, or where Poll is asked for.
    pub names: Option<u32>,
    pub ask: PassedAsk<'a>,
    pub answer: PassedAnswer<'a>,
}
