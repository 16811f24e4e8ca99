//! What was looked for, and how far.

ghost use Rattle.std.specs.Prelude.{◌≡◌, true, map};
ghost use Rattle.kmipa_attrs.specs.Filters.{filter_of};
ghost use Rattle.kmipa_attrs.specs.Sets.{name_of};
ghost use Rattle.kmipa_store.specs.Queries.{lasting};

use kmipa_attrs::{Filter, Name};
use std::alloc::Global;
use std::collections::BTreeSet;
use std::ops::Bound;

/// Where so many filters are kept, one more lets all go.
const MOST: usize = 256;

/// A filter that was looked for.
#[derive(Drop)]
pub struct Wanted {
    filter: Filter,
    /// Each object before this place lacks something that the filter asks for, or is listed for it.
    end: usize,
}

/// Filters, and the places of objects that may have all that lasts of what one of them asks for: names, a type, an algorithm and a length.
///
/// # What else is listed
/// An object that went or became another one leaves its place listed for each filter: who asks looks at the object there.
#[derive(Drop)]
pub struct Sought {
    alloc: Global,
    wanted: Vec<Wanted>,
    by_number: BTreeSet<(usize, usize, usize)>,
}

impl Sought {
    ghost use Rattle.std.specs.Prelude.{◌≤◌, ◌<◌, List, [], length, slice_get, Some, IfSome};
    ghost use Rattle.kmipa_store.specs.Ledger.{Held};
    ghost use Rattle.kmipa_store.specs.Queries.{AllLack, Leaps};
    ghost use Rattle.kmipa_store.specs.Sought.{DifferAt, IsNumberOf, KnowsSought, asked_by};
    ghost use Rattle.kmipa_store.specs.declared.sought.Wanted.{Wanted};

    /// No filters.
    pub fn new(alloc: Global) -> Sought
        ensures { result.wanted.items ≡ [] }
    {
        Sought {
            alloc,
            wanted: Vec::new(alloc),
            by_number: BTreeSet::new(alloc),
        }
    }

    /// A place from this one on, ahead of which each object from this one on lacks something that lasts of what the filter asks for.
    pub fn ahead(&self, filter: &Filter, from: usize) -> usize
        ensures { (objects : List Held) → KnowsSought self.now objects → Leaps (lasting (filter_of filter.now)) objects from result }
    {
        match self.number_of(filter) {
            Some(number) => self.next_of(number, from),
            None => from,
        }
    }

    /// How far was looked for what the filter asks for.
    pub fn end_of(&self, filter: &Filter, most: usize) -> usize
        ensures { result ≤ most }
    {
        let Some(number) = self.number_of(filter) else {
            return 0;
        };
        let end = self.wanted[number].end;
        if most < end {
            return most;
        }
        end
    }

    /// From one place to another each object lacks something that lasts of what the filter asks for. Where the places are one, the object
    /// there may have all of it.
    pub fn remember(&mut self, filter: &Filter, from: usize, to: usize)
        ensures { (objects : List Held) → to ≤ length objects → AllLack (lasting (filter_of filter.now)) objects from to → KnowsSought self.old objects → KnowsSought self.new objects }
    {
        let Some(number) = self.number_for(filter) else {
            return;
        };
        if from < to {
            self.extend(number, from, to);
            return;
        }
        self.list(number, from);
    }

    /// Lists a place for each filter that was looked for beyond it: the object there becomes another one.
    pub fn touch(&mut self, place: usize)
        ensures { (objects others : List Held) → DifferAt place objects others → KnowsSought self.old objects → KnowsSought self.new others }
    {
        for number in 0..self.wanted.len() {
            if self.wanted[number].end <= place {
                continue;
            }
            if let Err(_) = self.by_number.insert((number, place, 0)) {
                self.let_go();
                return;
            }
        }
    }

    /// No filters any more.
    fn let_go(&mut self)
        ensures { self.new.wanted.items ≡ [] }
    {
        *self = Sought::new(self.alloc);
    }

    /// The number of a filter that asks for the same.
    fn number_of(&self, filter: &Filter) -> Option<usize>
        ensures { IfSome result (λ number. IsNumberOf self.now (lasting (filter_of filter.now)) number) }
    {
        for number in 0..self.wanted.len() {
            if asks_same(&self.wanted[number].filter, filter) {
                return Some(number);
            }
        }
        None
    }

    /// The same, where it is one of few, or becomes one.
    fn number_for(&mut self, filter: &Filter) -> Option<usize>
        ensures number { IfSome result (λ number. IsNumberOf self.new (lasting (filter_of filter.now)) number) }
        ensures knows { (objects : List Held) → KnowsSought self.old objects → KnowsSought self.new objects }
    {
        if let Some(number) = self.number_of(filter) {
            return Some(number);
        }
        let number = self.wanted.len();
        if number >= MOST {
            self.let_go();
            return None;
        }
        let Ok(own) = filter.copy(self.alloc) else {
            return None;
        };
        if let Err(_) = self.wanted.push(Wanted {
            filter: own,
            end: 0,
        }) {
            return None;
        }
        Some(number)
    }

    /// The first place from this one on that is listed for a filter, or where it was looked for no further.
    fn next_of(&self, number: usize, from: usize) -> usize
        requires { number < length self.now.wanted.items }
        ensures { (w : Wanted) (objects : List Held) → slice_get self.now.wanted.items number ≡ Some w → KnowsSought self.now objects → Leaps (asked_by w) objects from result }
    {
        let end = self.wanted[number].end;
        if end <= from {
            return from;
        }
        let first = Bound::Included((number, from, 0));
        let last = Bound::Excluded((number, end, 0));
        let mut left = self.by_number.range((first, last));
        let Some(one) = left.next() else {
            return end;
        };
        if end < one.1 {
            return end;
        }
        one.1
    }

    /// What a filter asks for was looked for up to another place, and not found.
    fn extend(&mut self, number: usize, from: usize, to: usize)
        requires { number < length self.old.wanted.items }
        ensures { (w : Wanted) (objects : List Held) → slice_get self.old.wanted.items number ≡ Some w → to ≤ length objects → AllLack (asked_by w) objects from to → KnowsSought self.old objects → KnowsSought self.new objects }
    {
        let end = self.wanted[number].end;
        if end < from {
            return;
        }
        if to <= end {
            return;
        }
        self.wanted[number].end = to;
    }

    /// Lists a place for a filter, up to which it was looked for.
    fn list(&mut self, number: usize, place: usize)
        requires { number < length self.old.wanted.items }
        ensures { (objects : List Held) → KnowsSought self.old objects → KnowsSought self.new objects }
    {
        if self.wanted[number].end != place {
            return;
        }
        let Some(end) = place.checked_add(1) else {
            return;
        };
        if let Err(_) = self.by_number.insert((number, place, 0)) {
            self.let_go();
            return;
        }
        self.wanted[number].end = end;
    }
}

/// Whether two filters ask for the same of what lasts.
fn asks_same(one: &Filter, other: &Filter) -> bool
    ensures { result ≡ true → lasting (filter_of one.now) ≡ lasting (filter_of other.now) }
{
    if one.object_type != other.object_type {
        return false;
    }
    if one.algorithm != other.algorithm {
        return false;
    }
    if one.length != other.length {
        return false;
    }
    are_same(one.names.as_slice(), other.names.as_slice())
}

/// Whether names are the same, in the same order.
fn are_same(names: &[Name], others: &[Name]) -> bool
    ensures { result ≡ true → map name_of names.now ≡ map name_of others.now }
{
    if names.len() != others.len() {
        return false;
    }
    let mut place = names.len();
    'names: while place > 0 {
        place -= 1;
        if !is_same(&names[place], &others[place]) {
            return false;
        }
    }
    true
}

fn is_same(name: &Name, other: &Name) -> bool
    ensures { result ≡ true → name_of name.now ≡ name_of other.now }
{
    if name.kind != other.kind {
        return false;
    }
    name.value.as_str() == other.value.as_str()
}
