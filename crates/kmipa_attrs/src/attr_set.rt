//! The judged attributes of an object, as a set.

use crate::name::Name;
use crate::names::{copy_names, differ};
use smallvec::SmallVec;
use std::alloc::{AllocError, Global};

/// How many names are kept without memory of their own: nearly every object has one.
pub const NAMES: usize = 1;

/// The judged attributes that an item says: a set of names, and at most one value of each other kind.
#[derive(Drop)]
pub struct AttrSet {
    /// Each name once, in the order of first appearance.
    pub names: SmallVec<Name, NAMES>,
    /// Object Type, by its number.
    pub object_type: Option<u32>,
    /// Cryptographic Algorithm, by its number.
    pub algorithm: Option<u32>,
    /// Cryptographic Length, in bits.
    pub length: Option<i32>,
    /// Cryptographic Usage Mask, a bit a use.
    pub mask: Option<i32>,
    /// State, by its number.
    pub state: Option<u32>,
    /// Initial Date; this and the other dates in seconds since 1970-01-01T00:00:00Z.
    pub initial: Option<i64>,
    /// Activation Date.
    pub activation: Option<i64>,
    /// Deactivation Date.
    pub deactivation: Option<i64>,
    /// Destroy Date.
    pub destroy: Option<i64>,
    /// Compromise Date.
    pub compromise: Option<i64>,
}

impl AttrSet {
    ghost use Rattle.std.specs.Prelude.{◌≡◌, ◌↔◌, IsTrue, IfOk};
    ghost use Rattle.kmipa_attrs.specs.Names.{HasNoRepeats};
    ghost use Rattle.kmipa_attrs.specs.Sets.{attributes_of, no_attributes};

    /// The set that says nothing.
    pub fn new(alloc: Global) -> AttrSet
        ensures { attributes_of result ≡ no_attributes }
    {
        AttrSet {
            names: SmallVec::new(alloc),
            object_type: None,
            algorithm: None,
            length: None,
            mask: None,
            state: None,
            initial: None,
            activation: None,
            deactivation: None,
            destroy: None,
            compromise: None,
        }
    }

    /// Whether each of its names stands in it once.
    pub fn names_differ(&self) -> bool
        ensures { IsTrue result ↔ HasNoRepeats (attributes_of self.now).names }
    {
        differ(*self.names.allocator(), self.names.as_slice())
    }

    /// The same set, with names of its own.
    pub fn copy(&self, alloc: Global) -> Result<AttrSet, AllocError>
        ensures { IfOk result (λ set. attributes_of set ≡ attributes_of self.now) }
    {
        Ok(AttrSet {
            names: copy_names(alloc, self.names.as_slice())?,
            object_type: self.object_type,
            algorithm: self.algorithm,
            length: self.length,
            mask: self.mask,
            state: self.state,
            initial: self.initial,
            activation: self.activation,
            deactivation: self.deactivation,
            destroy: self.destroy,
            compromise: self.compromise,
        })
    }
}
