//! What `show` writes besides the lines of the items.

/// What is written besides the lines of a file's items. Nothing is by default.
#[derive(Clone, Copy, PartialEq, Eq)]
pub struct ShowOptions {
    /// Below a Byte String that is a whole message, the lines of that message's items.
    pub messages: bool,
    /// After the number of an Enumeration, its name.
    pub notes: bool,
}

impl ShowOptions {
    /// The lines of the items alone.
    pub const PLAIN: ShowOptions = ShowOptions {
        messages: false,
        notes: false,
    };
}
