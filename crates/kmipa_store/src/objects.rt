//! Objects in the order of arrival, found by their identifiers.

ghost use Rattle.std.specs.Prelude.{◌≡◌, ◌&&◌};
ghost use Rattle.std.specs.List.{list_any};
ghost use Rattle.kmipa_attrs.specs.Sets.{name_of};
ghost use Rattle.kmipa_object.specs.Inventory.{card_of, live};
ghost use Rattle.kmipa_store.specs.Ledger.{held};
ghost use Rattle.kmipa_store.specs.Queries.{has_name, is_name};

use crate::fault::StoreFault;
use crate::feature::{Feature, has_feature};
use crate::slots::Slots;
use kmipa_attrs::Name;
use kmipa_object::{Life, Object, State, state_at};
use std::alloc::Global;
use std::marker::Model;
use std::mem;

/// So many slots are made first. It is a power of two, and so is each number of slots that follows, which is twice the one before.
const FIRST_SLOTS: usize = 32;

/// Objects in the order of arrival, and the slots of their identifiers.
///
/// # What an identifier costs
/// While there is memory no more than half of the slots are in use, so that most look-ups and most changes see one slot and one object.
/// Identifiers that were picked to meet in one slot are found by their hashes, of which few are compared whatever they are.
#[derive(Drop)]
pub struct Objects {
    alloc: Global,
    in_order: Vec<Object>,
    slots: Slots,
}

impl Model for Objects {
    ghost use Rattle.std.specs.Prelude.{List};
    ghost use Rattle.kmipa_store.specs.Ledger.{Held};
    ghost use Rattle.kmipa_store.specs.Objects.{objects_of};
    ghost use Rattle.kmipa_store.specs.Slots.{AreNoted};

    ghost Value = { List Held };

    ghost view = { λ o. objects_of o.in_order.items };

    ghost invariant = { λ o. AreNoted o.slots (objects_of o.in_order.items) };
}

impl Objects {
    ghost use Rattle.std.specs.Prelude.{◌≡◌, ◌-◌, ◌<◌, [], length, take, slice_get, string_bytes, Some, None, IfSome, IfOk, IfErr};
    ghost use Rattle.kmipa_store.specs.Ledger.{held, cards_of, place_of, relived};
    ghost use Rattle.kmipa_store.specs.Memory.{Pushes};
    ghost use Rattle.kmipa_store.specs.Objects.{GivesFormer, exchanged};
    ghost use Rattle.kmipa_store.specs.Queries.{has_name, next_live_named, next_named, next_with, any_live_named, state_of_place};

    /// No objects.
    pub fn new(alloc: Global) -> Objects
        ensures { result ≡ [] }
    {
        Objects {
            alloc,
            in_order: Vec::new(alloc),
            slots: Slots::new(alloc),
        }
    }

    /// The place of the object with this identifier.
    pub fn find(&self, id: &str) -> Option<usize>
        ensures place { result ≡ place_of id.now (cards_of self.now) }
        ensures within { IfSome result (λ place. place < length self.now) }
    {
        self.slots.find(self.in_order.as_slice(), id)
    }

    /// How many there are.
    pub fn len(&self) -> usize
        ensures { result ≡ length self.now }
    {
        self.in_order.len()
    }

    /// The object at a place.
    pub fn at(&self, place: usize) -> &Object
        requires { place < length self.now }
        ensures { slice_get self.now place ≡ Some (held result.now) }
    {
        &self.in_order[place]
    }

    /// The state of the object at a place, at a moment.
    pub fn state(&self, place: usize, t: i64) -> State
        requires { place < length self.now }
        ensures { state_of_place self.now place t ≡ Some result }
    {
        state_at(&self.at(place).life, t)
    }

    /// The first place from this one on whose object has this name.
    pub fn next_named(&self, value: &str, kind: u32, from: usize) -> Option<usize>
        ensures place { result ≡ next_named value.now kind from self.now }
        ensures within { IfSome result (λ place. place < length self.now) }
    {
        for place in from..self.len() {
            if has_name(self.at(place), value, kind) {
                return Some(place);
            }
        }
        None
    }

    /// The first place from this one on whose object has this name and no Destroy Date.
    pub fn next_live_named(&self, value: &str, kind: u32, from: usize) -> Option<usize>
        ensures place { result ≡ next_live_named value.now kind from self.now }
        ensures within { IfSome result (λ place. place < length self.now) }
    {
        for next in from..self.len() {
            if is_live_named(self.at(next), value, kind) {
                return Some(next);
            }
        }
        None
    }

    /// The first place from this one on whose object has this feature at a moment.
    pub fn next_with(&self, feature: Feature, t: i64, from: usize) -> Option<usize>
        ensures place { result ≡ next_with feature t from self.now }
        ensures within { IfSome result (λ place. place < length self.now) }
    {
        for next in from..self.len() {
            if has_feature(self.at(next), feature, t) {
                return Some(next);
            }
        }
        None
    }

    /// Whether an object without a Destroy Date has this name.
    pub fn any_live_named(&self, value: &str, kind: u32) -> bool
        ensures { result ≡ any_live_named value.now kind self.now }
    {
        for place in 0..self.len() {
            if is_live_named(self.at(place), value, kind) {
                return true;
            }
        }
        false
    }

    /// Adds an object, whose identifier no other has, after the others.
    pub fn push(&mut self, object: Object) -> Result<(), StoreFault>
        requires { place_of (string_bytes object.id) (cards_of self.old) ≡ None }
        ensures { Pushes self.old (held object) result self.new }
    {
        self.make_slots();
        let place = self.in_order.len();
        self.in_order.reserve(1)?;
        self.slots.note(object.id.as_str(), place)?;
        self.in_order.push(object)?;
        Ok(())
    }

    /// The object at a place, if there is one, leads this life.
    pub fn set_life(&mut self, place: usize, life: Life)
        ensures { self.new ≡ relived self.old place life }
    {
        let Some(object) = self.in_order.get_mut(place) else {
            return;
        };
        object.life = life;
    }

    /// The object at a place, if there is one, and another one are exchanged, but for their identifiers.
    pub fn exchange(&mut self, place: usize, other: &mut Object)
        ensures after { self.new ≡ exchanged self.old place (held other.old) }
        ensures former { GivesFormer (slice_get self.old place) (held other.old) (held other.new) }
    {
        let Some(object) = self.in_order.get_mut(place) else {
            return;
        };
        mem::swap(&mut object.kind, &mut other.kind);
        mem::swap(&mut object.given, &mut other.given);
        mem::swap(&mut object.life, &mut other.life);
    }

    /// Takes the last object away, if there is one.
    pub fn pop(&mut self)
        ensures { self.new ≡ take (length self.old - 1) self.old }
    {
        let Some(last) = self.in_order.pop() else {
            return;
        };
        self.slots.forget(last.id.as_str(), self.in_order.len());
    }

    /// Equal objects, with memory of their own.
    pub fn copy(&self, alloc: Global) -> Result<Objects, StoreFault>
        ensures same { IfOk result (λ copy. copy ≡ self.now) }
        ensures err { IfErr result (λ fault. fault ≡ StoreFault.Memory) }
    {
        let count = self.in_order.len();
        let mut copy = Objects::new(alloc);
        for place in 0..count {
            let object = self.at(place).copy(alloc)?;
            copy.push(object)?;
        }
        Ok(copy)
    }

    /// Makes more slots, where half of them would be in use with an object more, and where there is memory for them.
    fn make_slots(&mut self)
        ensures { self.new ≡ self.old }
    {
        let count = self.in_order.len();
        if count < self.slots.len() / 2 {
            return;
        }
        let more = self.slots.len().saturating_mul(2).max(FIRST_SLOTS);
        if let Ok(slots) = Slots::of(self.alloc, self.in_order.as_slice(), more) {
            self.slots = slots;
        }
    }
}

/// Whether the object is without a Destroy Date, and has this name.
fn is_live_named(object: &Object, value: &str, kind: u32) -> bool
    ensures { result ≡ (live (card_of object.now) && has_name value.now kind (held object.now)) }
{
    object.life.destroy.is_none() && has_name(object, value, kind)
}

/// Whether the object has this name.
fn has_name(object: &Object, value: &str, kind: u32) -> bool
    ensures { result ≡ has_name value.now kind (held object.now) }
{
    is_among(object.given.names.as_slice(), value, kind)
}

fn is_among(names: &[Name], value: &str, kind: u32) -> bool
    ensures { result ≡ list_any (λ (n : Name). is_name value.now kind (name_of n)) names.now }
{
    names.iter().any(|name| is_name(name, value, kind))
}

/// Whether it is the name of this value and this type.
pub fn is_name(name: &Name, value: &str, kind: u32) -> bool
    ensures { result ≡ is_name value.now kind (name_of name.now) }
{
    kind == name.kind && value == name.value.as_str()
}
