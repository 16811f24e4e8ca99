//! What a judged item is where something is set aside.

/// Which case of judging an item is. In all but the last it is excused: any answer to it is possible.
#[derive(Clone, Copy, PartialEq, Eq)]
pub enum Case {
    /// Judging is over.
    Over,
    /// The object that the item is about is set aside.
    AboutAside,
    /// Nobody can tell which object it is about.
    AboutUnknown,
    /// A new object was refused for a name, and something is set aside that may have it.
    NameMayBeTaken,
    /// It is judged as ever.
    AsEver,
}
