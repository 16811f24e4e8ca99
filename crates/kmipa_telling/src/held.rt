//! The bytes of the files that are judged.

use kmipa_ttlv::Input;
use std::alloc::Global;

/// The bytes of the three files of an audit, as far as they came.
#[derive(Drop)]
pub struct Held {
    pub transcript: Vec<u8>,
    pub declaration: Vec<u8>,
    pub witness: Vec<u8>,
}

impl Held {
    ghost use Rattle.kmipa_telling.specs.Held.{HoldsNothing};

    /// No bytes.
    pub fn new(alloc: Global) -> Held
        ensures { HoldsNothing result }
    {
        Held {
            transcript: Vec::new(alloc),
            declaration: Vec::new(alloc),
            witness: Vec::new(alloc),
        }
    }
}

/// The three files of an audit that were read, and what came of them.
#[derive(Clone, Copy)]
pub struct ReadFiles<'f, R> {
    pub transcript: &'f Input<R>,
    pub declaration: &'f Input<R>,
    pub witness: &'f Input<R>,
    pub held: &'f Held,
}
