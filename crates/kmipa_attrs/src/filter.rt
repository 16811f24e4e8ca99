//! What a Locate asks for.

use crate::attr_set::NAMES;
use crate::name::Name;
use crate::names::copy_names;
use smallvec::SmallVec;
use std::alloc::{AllocError, Global};

/// A Locate's filter: what its Attributes ask of an object, and how many objects may be listed (KMIP 2.1, section 6.1, Locate).
/// Of each kind that has one value the first filter counts.
#[derive(Drop)]
pub struct Filter {
    /// Names that the object must all have, each once, in the order of first appearance.
    pub names: SmallVec<Name, NAMES>,
    /// Object Type, by its number.
    pub object_type: Option<u32>,
    /// State, by its number.
    pub state: Option<u32>,
    /// Cryptographic Algorithm, by its number.
    pub algorithm: Option<u32>,
    /// Cryptographic Length, in bits.
    pub length: Option<i32>,
    /// Maximum Items, if it is above 0.
    pub maximum: Option<i32>,
    /// Not all that is asked is judged, so an object that fits may be left out: there is a filter of another kind, a second one
    /// of a kind that has one value, a Maximum Items below 1, or an item that no Locate has.
    pub is_loose: bool,
}

impl Filter {
    ghost use Rattle.std.specs.Prelude.{◌≡◌, IfOk};
    ghost use Rattle.kmipa_attrs.specs.Filters.{filter_of};

    /// The same filter, with names of its own.
    pub fn copy(&self, alloc: Global) -> Result<Filter, AllocError>
        ensures { IfOk result (λ filter. filter_of filter ≡ filter_of self.now) }
    {
        Ok(Filter {
            names: copy_names(alloc, self.names.as_slice())?,
            object_type: self.object_type,
            state: self.state,
            algorithm: self.algorithm,
            length: self.length,
            maximum: self.maximum,
            is_loose: self.is_loose,
        })
    }
}
