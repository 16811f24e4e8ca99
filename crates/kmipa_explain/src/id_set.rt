//! Identifiers that are looked up.

ghost use Rattle.std.specs.Prelude.{◌≡◌, ℕ, List, bytes_eq, cond, false, true, map, not, IfOk, OnOk};
ghost use Rattle.kmipa_msgs.specs.Messages.{lent};
ghost use Rattle.kmipa_explain.specs.Ids.{HasIds, has_id};

use std::alloc::{AllocError, Global};
use std::collections::BTreeSet;

/// A set of identifiers.
#[derive(Drop)]
pub struct IdSet {
    ids: BTreeSet<String>,
}

impl IdSet {
    /// No identifiers.
    pub fn new(alloc: Global) -> IdSet
        ensures { (id : List ℕ) → has_id result id ≡ false }
    {
        IdSet {
            ids: BTreeSet::new(alloc),
        }
    }

    /// These identifiers.
    pub fn of(alloc: Global, ids: &[&str]) -> Result<IdSet, AllocError>
        ensures { IfOk result (λ set. HasIds (map lent ids.now) set) }
    {
        let mut set = IdSet::new(alloc);
        let mut place = 0;
        'ids: while place < ids.len() {
            let id = ids[place];
            let _is_new = set.add(alloc, id)?;
            place += 1;
        }
        Ok(set)
    }

    /// Adds an identifier, and answers whether it is new.
    pub fn add(&mut self, alloc: Global, id: &str) -> Result<bool, AllocError>
        ensures new { IfOk result (λ is_new. is_new ≡ not (has_id self.old id.now)) }
        ensures added { OnOk result ((other : List ℕ)
            → has_id self.new other ≡ cond (bytes_eq id.now other) true (has_id self.old other)) }
    {
        let own = String::from_str(alloc, id)?;
        let is_new = self.ids.insert(own)?;
        Ok(is_new)
    }

    /// Whether this is one of the identifiers.
    pub fn has(&self, id: &str) -> bool
        ensures { result ≡ has_id self.now id.now }
    {
        self.ids.contains(id)
    }
}
