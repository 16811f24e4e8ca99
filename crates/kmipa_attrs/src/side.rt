//! Who gives attributes.

/// Who gives a set of attributes: a client may not give all of them.
#[derive(Clone, Copy, PartialEq, Eq)]
pub enum Side {
    /// A client, in a request.
    Client,
    /// A server, in an answer or a declaration.
    Server,
}
