//! Declared objects that are looked up by their identifiers.

ghost use Rattle.std.specs.Prelude.{◌≡◌, List, OnOk, IfOk, Some, bytes_eq, cond, find, map, option_map, slice_get, ℕ};
ghost use Rattle.kmipa_record.specs.Entries.{EntryOf, entry_of};
ghost use Rattle.kmipa_explain.specs.Ids.{Indexes, place_in};

use kmipa_record::Entry;
use std::alloc::{AllocError, Global};
use std::collections::BTreeMap;

/// The places of entries, by their identifiers.
#[derive(Drop)]
pub struct EntryIndex {
    places: BTreeMap<String, usize>,
}

impl EntryIndex {
    /// The places of these entries. Where several have an identifier, the first counts.
    pub fn of(alloc: Global, entries: &[Entry]) -> Result<EntryIndex, AllocError>
        ensures { IfOk result (Indexes (map entry_of entries.now)) }
    {
        let mut index = EntryIndex {
            places: BTreeMap::new(alloc),
        };
        let mut place = entries.len();
        'entries: while place > 0 {
            place -= 1;
            index.put(alloc, entries[place].id.as_str(), place)?;
        }
        Ok(index)
    }

    /// Gives an identifier this place.
    fn put(&mut self, alloc: Global, id: &str, place: usize) -> Result<(), AllocError>
        ensures { OnOk result ((other : List ℕ)
            → place_in self.new other ≡ cond (bytes_eq id.now other) (Some place) (place_in self.old other)) }
    {
        let own = String::from_str(alloc, id)?;
        let _other = self.places.insert(own, place)?;
        Ok(())
    }

    /// The entry of this identifier among those that are indexed.
    pub fn find<'a>(&self, entries: &'a [Entry], id: &str) -> Option<&'a Entry>
        requires { Indexes (map entry_of entries.now) self.now }
        ensures { option_map (λ entry. entry_of entry.now) result ≡ find (λ (e : EntryOf). bytes_eq id.now e.id)
            (map entry_of entries.now) }
    {
        match self.places.get(id) {
            Some(place) => entry_at(entries, *place),
            None => None,
        }
    }
}

/// The entry at a place, if one stands there.
fn entry_at<'a>(entries: &'a [Entry], place: usize) -> Option<&'a Entry>
    ensures { option_map (λ entry. entry_of entry.now) result ≡ slice_get (map entry_of entries.now) place }
{
    if place < entries.len() {
        return Some(&entries[place]);
    }
    None
}
