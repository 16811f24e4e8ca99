//! Bytes that came or went, of which only clauses know.

ghost use Rattle.std.specs.Prelude.{◌≡◌, ℕ, List, [], ◌++◌};
ghost use Rattle.std.specs.Borrow.{ftrue};

use std::marker::{Model, PhantomData};

/// A history of bytes. It takes no memory, and its methods do nothing at run time.
#[derive(Drop)]
pub struct History {
    marker: PhantomData<u8>,
    pub ghost bytes: { List ℕ },
}

impl Model for History {
    ghost also_owns = { λ _. ftrue };
}

impl History {
    /// Nothing has come or gone.
    pub fn new() -> History
        ensures { result.bytes ≡ [] }
    {
        History {
            marker: PhantomData,
        }
    }

    /// These bytes came next, or went.
    pub fn note(&mut self, _bytes: &[u8])
        ensures { self.new.bytes ≡ self.old.bytes ++ _bytes.now }
    {}
}
