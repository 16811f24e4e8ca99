//! Objects, how many of the live ones have each name, and where these stand.
//!
//! They are counted from the first on that is destroyed.

ghost use Rattle.kmipa_store.specs.Ledger.{held};
ghost use Rattle.kmipa_store.specs.LiveNames.{Follows};

use crate::fault::StoreFault;
use crate::live_names::LiveNames;
use crate::objects::Objects;
use crate::tally::Tally;
use kmipa_object::{Life, Object};
use std::alloc::Global;
use std::marker::Model;

/// Objects, how many of the live ones have each name, and where these stand.
#[derive(Drop)]
pub struct Counted {
    alloc: Global,
    objects: Objects,
    tally: Tally,
    live: LiveNames,
}

impl Model for Counted {
    ghost use Rattle.std.specs.Prelude.{List};
    ghost use Rattle.kmipa_store.specs.Ledger.{Held};
    ghost use Rattle.kmipa_store.specs.LiveNames.{KnowsLive};
    ghost use Rattle.kmipa_store.specs.Tally.{Counts};

    ghost Value = { List Held };

    ghost view = { λ c. c.objects };

    ghost invariant = { λ c. Counts c.tally c.objects × KnowsLive c.live c.objects };
}

impl Counted {
    ghost use Rattle.std.specs.Prelude.{◌≡◌, ◌<◌, ◌-◌, [], true, false, length, slice_get, take, string_bytes, None, Some, IfSome};
    ghost use Rattle.kmipa_store.specs.Ledger.{held, cards_of, place_of, relived};
    ghost use Rattle.kmipa_store.specs.Memory.{Pushes};
    ghost use Rattle.kmipa_store.specs.Objects.{GivesFormer, exchanged};
    ghost use Rattle.kmipa_store.specs.Queries.{any_live_named, next_live_named};

    /// No objects.
    pub fn new(alloc: Global) -> Counted
        ensures { result ≡ [] }
    {
        Counted {
            alloc,
            objects: Objects::new(alloc),
            tally: Tally::new(alloc),
            live: LiveNames::new(alloc),
        }
    }

    /// The objects.
    pub fn plain(&self) -> &Objects
        ensures { result.now ≡ self.now }
    {
        &self.objects
    }

    /// How many there are.
    pub fn len(&self) -> usize
        ensures { result ≡ length self.now }
    {
        self.objects.len()
    }

    /// The object at a place.
    pub fn at(&self, place: usize) -> &Object
        requires { place < length self.now }
        ensures { slice_get self.now place ≡ Some (held result.now) }
    {
        self.objects.at(place)
    }

    /// Whether the counts say that no object without a Destroy Date has this name.
    pub fn is_none_live(&self, value: &str, kind: u32) -> bool
        ensures { result ≡ true → any_live_named value.now kind self.now ≡ false }
    {
        self.tally.is_none(value, kind)
    }

    /// The first place from this one on whose object has this name and no Destroy Date.
    pub fn next_live_named(&self, value: &str, kind: u32, from: usize) -> Option<usize>
        ensures place { result ≡ next_live_named value.now kind from self.now }
        ensures within { IfSome result (λ place. place < length self.now) }
    {
        self.live.next(&self.objects, value, kind, from)
    }

    /// Adds an object, whose identifier no other has, after the others.
    pub fn push(&mut self, object: Object) -> Result<(), StoreFault>
        requires { place_of (string_bytes object.id) (cards_of self.old) ≡ None }
        ensures { Pushes self.old (held object) result self.new }
    {
        let place = self.objects.len();
        self.objects.push(object)?;
        let added = self.objects.at(place);
        follow(&mut self.live, false, place, added);
        if self.tally.begins_with(added) {
            self.tally = Tally::of(self.alloc, &self.objects);
            return Ok(());
        }
        self.tally.add(added);
        Ok(())
    }

    /// The object at a place, if there is one, leads this life.
    pub fn set_life(&mut self, place: usize, life: Life)
        ensures { self.new ≡ relived self.old place life }
    {
        if place >= self.objects.len() {
            return;
        }
        let before = self.objects.at(place);
        let was_live = before.life.destroy.is_none();
        self.tally.remove(before);
        self.objects.set_life(place, life);
        let led = self.objects.at(place);
        follow(&mut self.live, was_live, place, led);
        if self.tally.begins_with(led) {
            self.tally = Tally::of(self.alloc, &self.objects);
            return;
        }
        self.tally.add(led);
    }

    /// The object at a place, if there is one, and another one are exchanged, but for their identifiers.
    pub fn exchange(&mut self, place: usize, other: &mut Object)
        ensures after { self.new ≡ exchanged self.old place (held other.old) }
        ensures former { GivesFormer (slice_get self.old place) (held other.old) (held other.new) }
    {
        if place >= self.objects.len() {
            return;
        }
        let before = self.objects.at(place);
        self.tally.remove(before);
        self.live.forget(place, before.given.names.as_slice());
        self.objects.exchange(place, other);
        let after = self.objects.at(place);
        follow(&mut self.live, false, place, after);
        if self.tally.begins_with(after) {
            self.tally = Tally::of(self.alloc, &self.objects);
            return;
        }
        self.tally.add(after);
    }

    /// Takes the last object away, if there is one.
    pub fn pop(&mut self)
        ensures { self.new ≡ take (length self.old - 1) self.old }
    {
        let Some(last) = self.objects.len().checked_sub(1) else {
            return;
        };
        let popped = self.objects.at(last);
        self.tally.remove(popped);
        self.live.forget(last, popped.given.names.as_slice());
        self.objects.pop();
    }
}

/// Lists the names of an object that was live or wasn't, as it is now.
fn follow(live: &mut LiveNames, was_live: bool, place: usize, led: &Object)
    ensures { Follows live.old was_live place (held led.now) live.new }
{
    let is_live = led.life.destroy.is_none();
    if was_live && !is_live {
        live.forget(place, led.given.names.as_slice());
    }
    if !was_live && is_live {
        live.note(place, led.given.names.as_slice());
    }
}
