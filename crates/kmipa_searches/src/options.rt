//! What a search is asked.

/// What a search is asked.
#[derive(Clone, Copy, PartialEq, Eq)]
pub struct SearchOptions {
    /// How many steps it may take.
    pub budget: u64,
    /// Whether it also says whether the transcript is forced.
    pub forced: bool,
    /// Whether it also takes calls without an end mark, and batches without order in other orders.
    pub open: bool,
}
