//! Identifiers that were set aside.

ghost use Rattle.std.specs.Prelude.{◌≡◌, ◌≤◌, ◌<◌, ◌+◌, ◌^◌, true, cond, is_none, string_bytes, IfOk, IfErr};
ghost use Rattle.kmipa_object.specs.Inventory.{card_of, live};

use crate::fault::StoreFault;
use crate::objects::Objects;
use kmipa_attrs::{AttrSet, ObjectType};
use kmipa_object::{Life, Material, Object};
use std::alloc::Global;
use std::marker::Model;

/// Identifiers that were set aside, each once, and whether they still are.
///
/// # What an identifier costs
/// It is kept as an object that has nothing else, and that gets a Destroy Date when it is taken in: so it costs what an object costs.
/// Those that were taken in are counted, so that nobody goes through them to learn whether all were.
#[derive(Drop)]
pub struct AsideIds {
    alloc: Global,
    objects: Objects,
    taken_in: usize,
}

impl Model for AsideIds {
    ghost use Rattle.std.specs.Prelude.{◌≡◌, List};
    ghost use Rattle.kmipa_store.specs.Aside.{Entry};
    ghost use Rattle.kmipa_store.specs.AsideIds.{count_in, entries_of};

    ghost Value = { List Entry };

    ghost view = { λ a. entries_of a.objects };

    ghost invariant = { λ a. a.taken_in ≡ count_in (entries_of a.objects) };
}

impl AsideIds {
    ghost use Rattle.std.specs.Prelude.{◌≡◌, ◌<◌, ◌-◌, [], true, length, take, None, Some, IfSome, IfOk, IfErr};
    ghost use Rattle.kmipa_store.specs.Aside.{is_any_named, says};
    ghost use Rattle.kmipa_store.specs.AsideIds.{entry_place, said, said_at};
    ghost use Rattle.kmipa_store.specs.Memory.{Pushes};

    /// No identifiers.
    pub fn new(alloc: Global) -> AsideIds
        ensures { result ≡ [] }
    {
        AsideIds {
            alloc,
            objects: Objects::new(alloc),
            taken_in: 0,
        }
    }

    /// The place of an identifier, if it was set aside.
    pub fn find(&self, id: &str) -> Option<usize>
        ensures place { result ≡ entry_place id.now self.now }
        ensures within { IfSome result (λ place. place < length self.now) }
    {
        self.objects.find(id)
    }

    /// Whether the identifier at a place still is.
    pub fn is_at(&self, place: usize) -> bool
        requires { place < length self.now }
        ensures { said_at self.now place ≡ Some result }
    {
        self.objects.at(place).life.destroy.is_none()
    }

    /// Whether an identifier is set aside.
    pub fn is_aside(&self, id: &str) -> bool
        ensures { result ≡ says self.now id.now }
    {
        match self.find(id) {
            Some(place) => self.is_at(place),
            None => false,
        }
    }

    /// Whether some identifier is.
    pub fn is_any(&self) -> bool
        ensures { result ≡ is_any_named self.now }
    {
        self.taken_in < self.objects.len()
    }

    /// Sets an identifier aside that never was.
    pub fn push(&mut self, id: &str) -> Result<(), StoreFault>
        requires { entry_place id.now self.old ≡ None }
        ensures { Pushes self.old (id.now, true) result self.new }
    {
        let object = named(self.alloc, id)?;
        self.objects.push(object)?;
        Ok(())
    }

    /// The identifier at a place, if there is one, is set aside or taken in.
    pub fn say(&mut self, place: usize, aside: bool)
        ensures { self.new ≡ said self.old place aside }
    {
        if place >= self.objects.len() {
            return;
        }
        let before = self.objects.at(place).life.destroy.is_none();
        self.objects.set_life(place, life_of(aside));
        self.taken_in = recount(self.taken_in, before, aside);
    }

    /// Takes the last identifier away, if there is one.
    pub fn pop(&mut self)
        ensures { self.new ≡ take (length self.old - 1) self.old }
    {
        let Some(last) = self.objects.len().checked_sub(1) else {
            return;
        };
        let before = self.objects.at(last).life.destroy.is_none();
        self.objects.pop();
        self.taken_in = recount(self.taken_in, before, true);
    }

    /// Equal identifiers, with memory of their own.
    pub fn copy(&self, alloc: Global) -> Result<AsideIds, StoreFault>
        ensures same { IfOk result (λ copy. copy ≡ self.now) }
        ensures err { IfErr result (λ fault. fault ≡ StoreFault.Memory) }
    {
        let objects = self.objects.copy(alloc)?;
        Ok(AsideIds {
            alloc,
            objects,
            taken_in: self.taken_in,
        })
    }
}

/// An object that has nothing but an identifier.
fn named(alloc: Global, id: &str) -> Result<Object, StoreFault>
    ensures id { IfOk result (λ object. string_bytes object.id ≡ id.now) }
    ensures aside { IfOk result (λ object. live (card_of object) ≡ true) }
    ensures err { IfErr result (λ fault. fault ≡ StoreFault.Memory) }
{
    Ok(Object {
        id: String::from_str(alloc, id)?,
        kind: ObjectType::SecretData,
        given: AttrSet::new(alloc),
        life: life_of(true),
    })
}

/// The life of one that is set aside, or of one that was taken in.
fn life_of(aside: bool) -> Life
    ensures { is_none result.destroy ≡ aside }
{
    let destroy = if aside { None } else { Some(0) };
    Life {
        initial: None,
        activation: None,
        deactivation: None,
        destroy,
        compromise: None,
        material: Material::Gone,
    }
}

/// How many are taken in, after so many were, where one was set aside before or not, and is now or not.
fn recount(taken_in: usize, before: bool, aside: bool) -> usize
    requires counted { cond before 0 1 ≤ taken_in }
    requires fits { taken_in + cond aside 0 1 < 2 ^ 64 + cond before 0 1 }
    ensures { result + cond before 0 1 ≡ taken_in + cond aside 0 1 }
{
    match (before, aside) {
        (true, false) => taken_in + 1,
        (false, true) => taken_in - 1,
        (true, true) | (false, false) => taken_in,
    }
}
