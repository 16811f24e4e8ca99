//! The places of what a Locate lists.

ghost use Rattle.std.specs.Prelude.{◌≡◌, ◌==◌, ℕ, cond, true, false, not, IfOk, OnOk};
ghost use Rattle.kmipa_ops.specs.Listing.{is_among};

use indexmap::IndexSet;
use std::alloc::{AllocError, Global};

/// Places of objects, in the order in which a Locate lists these.
///
/// # What a choice of places costs
/// A look-up hashes a place, by a seed that is known. A server picks among as few places as there are objects: too few for many of one hash.
#[derive(Drop)]
pub(crate) struct PlacesListed {
    places: IndexSet<usize>,
}

impl PlacesListed {
    /// No places.
    pub fn new(alloc: Global) -> PlacesListed
        ensures { (p : ℕ) → is_among result p ≡ false }
    {
        PlacesListed {
            places: IndexSet::new(alloc),
        }
    }

    /// Adds a place, and answers whether it is new.
    pub fn add(&mut self, place: usize) -> Result<bool, AllocError>
        ensures new { IfOk result (λ is_new. is_new ≡ not (is_among self.old place)) }
        ensures added { OnOk result ((p : ℕ) → is_among self.new p ≡ cond (place == p) true (is_among self.old p)) }
    {
        match self.places.insert(place) {
            Ok(is_new) => Ok(is_new),
            Err(_) => Err(AllocError),
        }
    }

    /// Whether this is one of the places.
    pub fn has(&self, place: usize) -> bool
        ensures { result ≡ is_among self.now place }
    {
        self.places.contains(&place)
    }
}
