//! How often an operation was passed.

/// How many items were passed that asked for an operation.
#[derive(Clone, Copy, PartialEq, Eq)]
pub struct Rank {
    /// The number of the operation; 0 where it can't be read.
    pub operation: u32,
    pub count: usize,
}
