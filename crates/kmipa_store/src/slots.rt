//! The slots of identifiers.

ghost use Rattle.std.specs.Prelude.{◌≡◌, ◌<◌};
ghost use Rattle.kmipa_store.specs.Objects.{has_id, objects_of};

use crate::fault::StoreFault;
use crate::hashes::{id_hash, id_number};
use kmipa_object::Object;
use std::alloc::Global;
use std::collections::BTreeSet;
use std::ops::Bound;

/// The places of objects by the slots of their identifiers, and by the hashes of those that found an earlier one in their slot.
///
/// # What an identifier costs
/// Its slot is told by a number of its last bytes. Where no place stands there, no object has the identifier; else the object at that
/// place is the first to be looked at. Only where two identifiers meet in one slot are hashes computed. These stand in order, so that
/// a look-up compares few of them whatever they are, and no identifier is copied.
///
/// # What else is noted
/// A place may be noted where no object stands, or another one: who finds a place looks at the object there.
#[derive(Drop)]
pub struct Slots {
    places: Vec<Option<u32>>,
    by_hash: BTreeSet<(u64, usize)>,
}

impl Slots {
    ghost use Rattle.std.specs.Prelude.{◌≡◌, [], length, IfOk, IfSome};
    ghost use Rattle.kmipa_object.specs.Inventory.{place_of};
    ghost use Rattle.kmipa_store.specs.Ledger.{cards_of};
    ghost use Rattle.kmipa_store.specs.Objects.{objects_of};
    ghost use Rattle.kmipa_store.specs.Slots.{AreAllNoted, AreListed, AreNoted, KeepsBefore, Notes, holder};

    /// No slots.
    pub fn new(alloc: Global) -> Slots
        ensures { AreNoted result [] }
    {
        Slots {
            places: Vec::new(alloc),
            by_hash: BTreeSet::new(alloc),
        }
    }

    /// So many slots, in which each object is noted.
    pub fn of(alloc: Global, objects: &[Object], count: usize) -> Result<Slots, StoreFault>
        ensures { IfOk result (λ slots. AreAllNoted slots (objects_of objects.now)) }
    {
        let mut slots = Slots {
            places: Vec::from_elem(alloc, None, count)?,
            by_hash: BTreeSet::new(alloc),
        };
        for place in 0..objects.len() {
            slots.note(objects[place].id.as_str(), place)?;
        }
        Ok(slots)
    }

    /// How many slots there are.
    pub fn len(&self) -> usize
        ensures { result ≡ length self.now.places.items }
    {
        self.places.len()
    }

    /// The place of the object with this identifier.
    pub fn find(&self, objects: &[Object], id: &str) -> Option<usize>
        requires { AreNoted self.now (objects_of objects.now) }
        ensures place { result ≡ place_of id.now (cards_of (objects_of objects.now)) }
        ensures within { IfSome result (λ place. place < length objects.now) }
    {
        let Some(place) = self.holder(id) else {
            return None;
        };
        if is_at(objects, place, id) {
            return Some(place);
        }
        self.find_by_hash(objects, id)
    }

    /// Notes an identifier with its place. What is noted with the places before it stays.
    pub fn note(&mut self, id: &str, place: usize) -> Result<(), StoreFault>
        ensures { Notes self.old id.now place result self.new }
    {
        if self.places.is_empty() {
            return Err(StoreFault::Memory);
        }
        let slot = slot_of(id, self.places.len());
        if is_before(self.places[slot], place) {
            self.by_hash.insert((id_hash(id), place))?;
            return Ok(());
        }
        // a place that four bytes can't hold finds no room
        let Ok(short) = u32::try_from(place) else {
            return Err(StoreFault::Memory);
        };
        self.places[slot] = Some(short);
        Ok(())
    }

    /// Notes an identifier no longer with its place. What is noted with the places before it stays.
    pub fn forget(&mut self, id: &str, place: usize)
        ensures { KeepsBefore self.old place self.new }
    {
        if self.places.is_empty() {
            return;
        }
        let slot = slot_of(id, self.places.len());
        if stands_there(self.places[slot], place) {
            self.places[slot] = None;
        } else {
            let _ = self.by_hash.remove(&(id_hash(id), place));
        }
    }

    /// The place that stands in the slot of an identifier.
    fn holder(&self, id: &str) -> Option<usize>
        ensures { result ≡ holder self.now id.now }
    {
        if self.places.is_empty() {
            return None;
        }
        let place = self.places[slot_of(id, self.places.len())]?;
        Some(place as usize)
    }

    /// The place of the object with this identifier, by its hash.
    fn find_by_hash(&self, objects: &[Object], id: &str) -> Option<usize>
        requires noted { AreNoted self.now (objects_of objects.now) }
        requires listed { AreListed self.now (objects_of objects.now) id.now }
        ensures place { result ≡ place_of id.now (cards_of (objects_of objects.now)) }
        ensures within { IfSome result (λ place. place < length objects.now) }
    {
        let hash = id_hash(id);
        let start = Bound::Included((hash, 0));
        for one in self.by_hash.range((start, Bound::Unbounded)) {
            if one.0 != hash {
                return None;
            }
            if is_at(objects, one.1, id) {
                return Some(one.1);
            }
        }
        None
    }
}

ghost use Rattle.std.specs.Prelude.{◌↔◌, Some, length, slice_get, true};
ghost use Rattle.kmipa_store.specs.Slots.{is_before, slot_of};

/// The slot of an identifier, among so many. Where these are a power of two each of them is the slot of some.
fn slot_of(id: &str, count: usize) -> usize
    requires { 0 < count }
    ensures slot { result ≡ slot_of id.now count }
    ensures within { result < count }
{
    (id_number(id) & (count as u64 - 1)) as usize
}

/// Whether a place stands there, and is before another.
fn is_before(standing: Option<u32>, place: usize) -> bool
    ensures { result ≡ is_before standing place }
{
    match standing {
        Some(first) => (first as usize) < place,
        None => false,
    }
}

/// Whether this very place stands there.
fn stands_there(standing: Option<u32>, place: usize) -> bool
    ensures { (result ≡ true) ↔ (standing ≡ Some place) }
{
    match standing {
        Some(first) => first as usize == place,
        None => false,
    }
}

/// Whether there is an object at a place, with this identifier.
#[inline(always)]
fn is_at(objects: &[Object], place: usize, id: &str) -> bool
    ensures { result ≡ has_id (slice_get (objects_of objects.now) place) id.now }
{
    match objects.get(place) {
        Some(object) => id == object.id.as_str(),
        None => false,
    }
}
