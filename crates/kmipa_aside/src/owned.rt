//! Whose an object is.

/// The identifier of an object, and the identity of the client whose it is.
#[derive(Clone, Copy)]
pub struct Owned<'a> {
    pub id: &'a str,
    pub owner: &'a [u8],
}
