//! Where the objects stand that have a name.

ghost use Rattle.std.specs.Prelude.{◌≡◌, ◌<◌, length, map, IfSome};
ghost use Rattle.kmipa_attrs.specs.Sets.{name_of};
ghost use Rattle.kmipa_store.specs.Ledger.{held};
ghost use Rattle.kmipa_store.specs.Queries.{next_live_named, next_named, any_live_named};
ghost use Rattle.kmipa_store.specs.Bearers.{bears, bears_live, is_named_at};

use crate::fault::StoreFault;
use crate::hashes::name_hash;
use crate::objects::{Objects, is_name};
use kmipa_attrs::Name;
use kmipa_object::Object;
use std::alloc::Global;
use std::collections::BTreeSet;
use std::ops::Bound;

/// The names of objects: the hash of each, the place of the object, and the name's own place among those of the object.
///
/// # What a name costs
/// The hashes stand in order, so that a look-up compares few of them whatever they are, and no name is copied: only those of one whole
/// hash are compared with what is looked for.
///
/// # What else is listed
/// The names of an object that found no memory may stay listed, and two names may have one hash: who asks looks whether the object at the
/// place has the name.
#[derive(Drop)]
pub struct Names {
    by_hash: BTreeSet<(u64, usize, usize)>,
}

impl Names {
    ghost use Rattle.std.specs.Prelude.{[]};
    ghost use Rattle.kmipa_store.specs.LiveNames.{CoversLive};
    ghost use Rattle.kmipa_store.specs.Names.{Covers, KeepsOthers, Notes};

    /// No names.
    pub fn new(alloc: Global) -> Names
        ensures { Covers result [] }
    {
        Names {
            by_hash: BTreeSet::new(alloc),
        }
    }

    /// The first place from this one on whose object has this name.
    pub fn next(&self, objects: &Objects, value: &str, kind: u32, from: usize) -> Option<usize>
        requires { Covers self.now objects.now }
        ensures place { result ≡ next_named value.now kind from objects.now }
        ensures within { IfSome result (λ place. place < length objects.now) }
    {
        let count = objects.len();
        if count < from {
            return None;
        }
        let hash = name_hash(value, kind);
        let start = Bound::Included((hash, from, 0));
        let end = Bound::Excluded((hash, count, 0));
        for one in self.by_hash.range((start, end)) {
            if bears(objects, one.1, one.2, value, kind) {
                return Some(one.1);
            }
        }
        None
    }

    /// The first place from this one on whose object has this name and no Destroy Date.
    pub fn next_live(&self, objects: &Objects, value: &str, kind: u32, from: usize) -> Option<usize>
        requires { CoversLive self.now objects.now }
        ensures place { result ≡ next_live_named value.now kind from objects.now }
        ensures within { IfSome result (λ place. place < length objects.now) }
    {
        let count = objects.len();
        if count < from {
            return None;
        }
        let hash = name_hash(value, kind);
        let start = Bound::Included((hash, from, 0));
        let end = Bound::Excluded((hash, count, 0));
        for one in self.by_hash.range((start, end)) {
            if bears_live(objects, one.1, one.2, value, kind) {
                return Some(one.1);
            }
        }
        None
    }

    /// Whether an object without a Destroy Date has this name. It looks at the newest first: where no two live objects have one name,
    /// the live one is the newest that has it.
    pub fn any_live(&self, objects: &Objects, value: &str, kind: u32) -> bool
        requires { Covers self.now objects.now }
        ensures { result ≡ any_live_named value.now kind objects.now }
    {
        let hash = name_hash(value, kind);
        let start = Bound::Included((hash, 0, 0));
        let end = Bound::Excluded((hash, objects.len(), 0));
        let mut left = self.by_hash.range((start, end));
        while let Some(one) = left.next_back() {
            if bears_live(objects, one.1, one.2, value, kind) {
                return true;
            }
        }
        false
    }

    /// Lists the names of the object at a place.
    pub fn note(&mut self, place: usize, names: &[Name]) -> Result<(), StoreFault>
        ensures { Notes self.old place (map name_of names.now) result self.new }
    {
        for slot in 0..names.len() {
            let name = &names[slot];
            let hash = name_hash(name.value.as_str(), name.kind);
            self.by_hash.insert((hash, place, slot))?;
        }
        Ok(())
    }

    /// Lists the names of the object at a place no longer.
    pub fn forget(&mut self, place: usize, names: &[Name])
        ensures { KeepsOthers self.old place self.new }
    {
        for slot in 0..names.len() {
            let name = &names[slot];
            let hash = name_hash(name.value.as_str(), name.kind);
            let _ = self.by_hash.remove(&(hash, place, slot));
        }
    }
}

/// Whether the object at a place has the name there.
fn bears(objects: &Objects, place: usize, slot: usize, value: &str, kind: u32) -> bool
    ensures { result ≡ bears objects.now place slot value.now kind }
{
    if place >= objects.len() {
        return false;
    }
    is_named_at(objects.at(place), slot, value, kind)
}

/// Whether the object at a place has no Destroy Date, and the name there.
fn bears_live(objects: &Objects, place: usize, slot: usize, value: &str, kind: u32) -> bool
    ensures { result ≡ bears_live objects.now place slot value.now kind }
{
    if place >= objects.len() {
        return false;
    }
    let object = objects.at(place);
    object.life.destroy.is_none() && is_named_at(object, slot, value, kind)
}

/// Whether this one of the object's names is the name.
fn is_named_at(object: &Object, slot: usize, value: &str, kind: u32) -> bool
    ensures { result ≡ is_named_at (held object.now) slot value.now kind }
{
    match object.given.names.as_slice().get(slot) {
        Some(name) => is_name(name, value, kind),
        None => false,
    }
}
