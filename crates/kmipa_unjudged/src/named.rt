//! Items that name identifiers.

/// An item that names an identifier.
#[derive(Clone, Copy)]
pub struct Named<'a> {
    pub id: &'a str,
    pub origin: Origin,
}

/// Where an item stands, and what it asks for.
#[derive(Clone, Copy, PartialEq, Eq)]
pub struct Origin {
    /// The number of its call.
    pub call: i32,
    /// Its place in the call, counted from 1; 0 is the whole call, which can't be read.
    pub item: usize,
    /// The number of its operation; none of a call that can't be read.
    pub operation: Option<u32>,
}
