//! Which calls a search has taken.

use std::alloc::{AllocError, Global};

/// The calls by their places: whether each is taken, and the first one that is left.
#[derive(Drop)]
pub(crate) struct Board {
    flags: Vec<bool>,
    pub low: usize,
}

impl Board {
    ghost use Rattle.std.specs.Prelude.{◌≡◌, ◌<◌, ◌≤◌, ◌∷◌, ℕ, List, [], false, true, Contains, IfOk};
    ghost use Rattle.kmipa_findings.specs.Boards.{IsBoard};

    /// So many calls, of which none is taken.
    pub(crate) fn new(alloc: Global, count: usize) -> Result<Board, AllocError>
        ensures { IfOk result (IsBoard count []) }
    {
        Ok(Board {
            flags: Vec::from_elem(alloc, false, count)?,
            low: 0,
        })
    }

    /// Whether no call is left.
    pub(crate) fn is_full(&self) -> bool
        ensures { (count : ℕ) (taken : List ℕ) → IsBoard count taken self.now → result ≡ false → self.now.low < count }
    {
        self.low >= self.flags.len()
    }

    /// Whether the call at a place is taken.
    pub(crate) fn has(&self, place: usize) -> bool
        ensures taken { (count : ℕ) (taken : List ℕ) → IsBoard count taken self.now → result ≡ true → Contains taken place }
        ensures left { (count : ℕ) (taken : List ℕ) → IsBoard count taken self.now → result ≡ false → Contains taken place → ⊥ }
    {
        is_flagged(&self.flags, place)
    }

    /// A call is taken.
    pub(crate) fn take(&mut self, place: usize)
        ensures { (count : ℕ) (taken : List ℕ) → IsBoard count taken self.old → place < count → IsBoard count (place ∷ taken) self.new }
    {
        flag(&mut self.flags, place, true);
        self.low = first_left(&self.flags, self.low);
    }

    /// The call that was taken last is left again.
    pub(crate) fn give_back(&mut self, place: usize)
        ensures { (count : ℕ) (taken : List ℕ) → IsBoard count (place ∷ taken) self.old → (Contains taken place → ⊥) → IsBoard count taken self.new }
    {
        flag(&mut self.flags, place, false);
        self.low = lower(self.low, place);
    }
}

ghost use Rattle.std.specs.Prelude.{◌≡◌, ◌<◌, ◌⊎◌, ◌≤◌, ℕ, true, false, slice_set, length};
ghost use Rattle.kmipa_findings.specs.Flags.{flag_at};

/// Flags the place, if there is one, or takes its flag away.
fn flag(flags: &mut Vec<bool>, place: usize, value: bool)
    ensures { flags.new.items ≡ slice_set flags.old.items place value }
{
    if place < flags.len() {
        flags[place] = value;
    }
}

/// Whether a place is flagged.
fn is_flagged(flags: &[bool], place: usize) -> bool
    ensures { result ≡ flag_at flags.now place }
{
    match flags.get(place) {
        Some(flag) => *flag,
        None => false,
    }
}

/// The first place from one on that isn't flagged; or the end.
fn first_left(flags: &[bool], from: usize) -> usize
    ensures flagged { ((p : ℕ) → p < from → flag_at flags.now p ≡ true) → (p : ℕ) → p < result → flag_at flags.now p ≡ true }
    ensures left { result < length flags.now → flag_at flags.now result ≡ false }
{
    let mut place = from;
    'places: while place < flags.len() {
        if !is_flagged(flags, place) {
            return place;
        }
        place += 1;
    }
    place
}

/// The lower of two places.
fn lower(low: usize, place: usize) -> usize
    ensures low { result ≤ low }
    ensures place { result ≤ place }
    ensures one { (result ≡ low) ⊎ (result ≡ place) }
{
    if place < low { place } else { low }
}
