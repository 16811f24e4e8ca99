//! How many live objects have a name.

use crate::hashes::name_hash;
use crate::objects::Objects;
use kmipa_attrs::Name;
use kmipa_object::Object;
use std::alloc::Global;
use std::collections::BTreeMap;

/// How many names of live objects have each hash. A count of zero stays, so that it can be raised again without memory.
///
/// # Counts that are not begun
/// Until an object is destroyed nothing is counted: each that has a name is live then, and the first that is looked at tells it.
///
/// # Counts that are given up
/// Where a count does not fit its number, or has no room, the counts are no longer exact, and tell nothing.
#[derive(Drop)]
pub struct Tally {
    live: BTreeMap<u64, usize>,
    exact: bool,
    begun: bool,
}

impl Tally {
    ghost use Rattle.std.specs.Prelude.{◌≡◌, ◌+◌, ◌&&◌, [], true, false, not, map, is_some};
    ghost use Rattle.kmipa_attrs.specs.Sets.{name_of};
    ghost use Rattle.kmipa_store.specs.Ledger.{held};
    ghost use Rattle.kmipa_store.specs.Hashes.{name_hash};
    ghost use Rattle.kmipa_store.specs.Tally.{Counts, Lowers, Raises, Writes, count_at, live_with, names_with, one_at};

    /// Counts that are not begun.
    pub fn new(alloc: Global) -> Tally
        ensures counts { Counts result [] }
        ensures exact { result.exact ≡ false }
        ensures begun { result.begun ≡ false }
    {
        Tally {
            live: BTreeMap::new(alloc),
            exact: false,
            begun: false,
        }
    }

    /// Counts of these objects.
    pub fn of(alloc: Global, objects: &Objects) -> Tally
        ensures { Counts result objects.now }
    {
        let mut tally = Tally {
            live: BTreeMap::new(alloc),
            exact: true,
            begun: true,
        };
        for place in 0..objects.len() {
            tally.add(objects.at(place));
        }
        tally
    }

    /// Whether the counts are not begun, and the object is destroyed.
    pub fn begins_with(&self, object: &Object) -> bool
        ensures { result ≡ (not self.now.begun && is_some object.now.life.destroy) }
    {
        !self.begun && object.life.destroy.is_some()
    }

    /// Whether it is known that no live object has a name of the hash of this one.
    pub fn is_none(&self, value: &str, kind: u32) -> bool
        ensures exact { result ≡ true → self.now.exact ≡ true }
        ensures none { result ≡ true → count_at self.now (name_hash value.now kind) ≡ 0 }
    {
        self.exact && self.count(name_hash(value, kind)) == 0
    }

    /// Counts the names of an object, unless it is destroyed.
    pub fn add(&mut self, object: &Object)
        ensures { Raises self.old (λ k. live_with k (held object.now)) self.new }
    {
        if !self.exact || object.life.destroy.is_some() {
            return;
        }
        self.raise_all(object.given.names.as_slice());
    }

    /// Counts the names of an object no longer, unless it is destroyed.
    pub fn remove(&mut self, object: &Object)
        ensures { Lowers self.old (λ k. live_with k (held object.now)) self.new }
    {
        if !self.exact || object.life.destroy.is_some() {
            return;
        }
        self.lower_all(object.given.names.as_slice());
    }

    fn raise_all(&mut self, names: &[Name])
        ensures { Raises self.old (λ k. names_with k (map name_of names.now)) self.new }
    {
        for i in 0..names.len() {
            let name = &names[i];
            let hash = name_hash(name.value.as_str(), name.kind);
            self.raise(hash);
        }
    }

    fn lower_all(&mut self, names: &[Name])
        ensures { Lowers self.old (λ k. names_with k (map name_of names.now)) self.new }
    {
        for i in 0..names.len() {
            let name = &names[i];
            let hash = name_hash(name.value.as_str(), name.kind);
            self.lower(hash);
        }
    }

    /// A hash that is not there yet is counted once, by one look at the counts.
    fn raise(&mut self, hash: u64)
        ensures { Raises self.old (λ k. one_at hash k) self.new }
    {
        match self.live.insert(hash, 1) {
            Ok(None) => {}
            Ok(Some(count)) => self.raise_from(hash, count),
            Err(_) => self.exact = false,
        }
    }

    /// One more than this count.
    fn raise_from(&mut self, hash: u64, count: usize)
        ensures { Writes self.old hash (count + 1) self.new }
    {
        let Some(more) = count.checked_add(1) else {
            self.exact = false;
            return;
        };
        self.write(hash, more);
    }

    fn lower(&mut self, hash: u64)
        ensures { Lowers self.old (λ k. one_at hash k) self.new }
    {
        let Some(fewer) = self.count(hash).checked_sub(1) else {
            self.exact = false;
            return;
        };
        self.write(hash, fewer);
    }

    /// Writes a count.
    fn write(&mut self, hash: u64, count: usize)
        ensures { Writes self.old hash count self.new }
    {
        let Err(_) = self.live.insert(hash, count) else {
            return;
        };
        self.exact = false;
    }

    fn count(&self, hash: u64) -> usize
        ensures { result ≡ count_at self.now hash }
    {
        match self.live.get(&hash) {
            Some(count) => *count,
            None => 0,
        }
    }
}
