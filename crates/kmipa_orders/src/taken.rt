//! Which calls are taken, as a set.

use std::alloc::{AllocError, Global};

/// Which calls are taken: a mark each, a place ahead of which all are, and one from which on none is.
#[derive(Drop)]
pub struct TakenCalls {
    flags: Vec<bool>,
    low: usize,
    high: usize,
    /// A hash of them, which may be that of other calls too.
    pub hash: u64,
}

/// A set of calls: so many, all ahead of a place, and of the others these.
#[derive(Drop)]
pub struct CallSet {
    pub count: usize,
    pub low: usize,
    pub rest: Vec<usize>,
}

impl TakenCalls {
    ghost use Rattle.std.specs.Prelude.{◌≡◌, ◌<◌, ◌^◌, ◌∷◌, ℕ, List, [], true, Contains, IfOk, length};
    ghost use Rattle.kmipa_orders.specs.Ends.{AreFlagged, IsSetOf};

    /// Of so many calls, none.
    pub fn new(alloc: Global, count: usize) -> Result<TakenCalls, AllocError>
        ensures { IfOk result (AreFlagged count []) }
    {
        Ok(TakenCalls {
            flags: Vec::from_elem(alloc, false, count)?,
            low: 0,
            high: 0,
            hash: 0,
        })
    }

    /// A call is taken.
    #[inline(always)]
    pub fn take(&mut self, place: usize)
        requires { place < 2 ^ 62 }
        ensures { (count : ℕ) (taken : List ℕ) → AreFlagged count taken self.old → place < count
            → AreFlagged count (place ∷ taken) self.new }
    {
        mark(&mut self.flags, place, true);
        self.high = above(self.high, place);
        self.low = first_left(&self.flags, self.low);
        self.hash = turned(self.hash, place);
    }

    /// The call that was taken last is left again.
    #[inline(always)]
    pub fn give_back(&mut self, place: usize)
        ensures { (count : ℕ) (taken : List ℕ) → AreFlagged count (place ∷ taken) self.old → (Contains taken place → ⊥)
            → AreFlagged count taken self.new }
    {
        mark(&mut self.flags, place, false);
        self.low = lower(self.low, place);
        self.high = last_taken(&self.flags, self.high);
        self.hash = turned(self.hash, place);
    }

    /// `true` only where the call at a place is left.
    #[inline(always)]
    pub fn is_left(&self, place: usize) -> bool
        ensures { (count : ℕ) (taken : List ℕ) → AreFlagged count taken self.now → result ≡ true
            → (place < count) × (Contains taken place → ⊥) }
    {
        match self.flags.get(place) {
            Some(mark) => !*mark,
            None => false,
        }
    }

    /// The set of them, which are so many.
    pub fn set(&self, alloc: Global, count: usize) -> Result<CallSet, AllocError>
        ensures { (all : ℕ) (taken : List ℕ) → AreFlagged all taken self.now → length taken ≡ count
            → IfOk result (IsSetOf taken) }
    {
        Ok(CallSet {
            count,
            low: self.low,
            rest: marked_between(
                alloc,
                &self.flags,
                self.low,
                self.high,
                count.saturating_sub(self.low),
            )?,
        })
    }

    /// Whether they, which are so many, are those of a set.
    pub fn are(&self, set: &CallSet, count: usize) -> bool
        ensures { (all : ℕ) (taken : List ℕ) → AreFlagged all taken self.now → length taken ≡ count → result ≡ true
            → IsSetOf taken set.now }
    {
        if set.count != count {
            return false;
        }
        if set.low != self.low {
            return false;
        }
        if set.rest.len() != count.saturating_sub(self.low) {
            return false;
        }
        are_marked(&self.flags, self.low, &set.rest)
    }
}

ghost use Rattle.std.specs.Prelude.{◌≡◌, ◌<◌, ◌≤◌, ◌^◌, ℕ, true, AllPairs, Contains, IfOk, slice_set};
ghost use Rattle.kmipa_orders.specs.Ends.{flag};

/// The hash with a place more, or less.
#[inline(always)]
fn turned(hash: u64, place: usize) -> u64 {
    let number = (place as u64 ^ 0x5851_F42D_4C95_7F2D).wrapping_mul(0x9E37_79B9_7F4A_7C15);
    hash ^ (number ^ (number >> 32))
        .wrapping_mul(0xD6E8_FEB8_6659_FD93)
        .rotate_left(29)
}

/// Sets the mark of a place, if there is one, or takes it away.
#[inline(always)]
fn mark(flags: &mut Vec<bool>, place: usize, value: bool)
    ensures { flags.new.items ≡ slice_set flags.old.items place value }
{
    if place < flags.len() {
        flags[place] = value;
    }
}

/// At least `high`, and above a place.
fn above(high: usize, place: usize) -> usize
    requires { place < 2 ^ 62 }
    ensures high { high ≤ result }
    ensures place { place < result }
{
    if place < high { high } else { place + 1 }
}

/// The lower of two places.
fn lower(low: usize, place: usize) -> usize
    ensures low { result ≤ low }
    ensures place { result ≤ place }
{
    if place < low { place } else { low }
}

/// The first place from one on that has no mark.
#[inline(always)]
fn first_left(flags: &[bool], from: usize) -> usize
    ensures { ((p : ℕ) → p < from → flag flags.now p ≡ true) → (p : ℕ) → p < result → flag flags.now p ≡ true }
{
    let mut place = from;
    'run: while place < flags.len() {
        if !flags[place] {
            return place;
        }
        place += 1;
    }
    place
}

/// The last place up to one behind which no other has a mark, and one more.
#[inline(always)]
fn last_taken(flags: &[bool], to: usize) -> usize
    ensures { ((p : ℕ) → flag flags.now p ≡ true → p < to) → (p : ℕ) → flag flags.now p ≡ true → p < result }
{
    let mut place = to;
    'run: while place > 0 {
        if is_marked(flags, place - 1) {
            return place;
        }
        place -= 1;
    }
    place
}

/// The places with a mark, from one up to another, with room for so many.
fn marked_between(
    alloc: Global,
    flags: &[bool],
    low: usize,
    high: usize,
    room: usize,
) -> Result<Vec<usize>, AllocError>
    ensures are { (p : ℕ) → low ≤ p → p < high → flag flags.now p ≡ true → IfOk result (λ rest. Contains rest.items p) }
    ensures only { IfOk result (λ rest. (p : ℕ) → Contains rest.items p → flag flags.now p ≡ true) }
{
    let mut rest = Vec::with_capacity(alloc, room)?;
    let mut place = low;
    'run: while place < high {
        if is_marked(flags, place) {
            rest.push(place)?;
        }
        place += 1;
    }
    Ok(rest)
}

/// Whether these places rise, from one on, and each has a mark.
fn are_marked(flags: &[bool], low: usize, rest: &[usize]) -> bool
    ensures marked { result ≡ true → (p : ℕ) → Contains rest.now p → flag flags.now p ≡ true }
    ensures past { result ≡ true → (p : ℕ) → Contains rest.now p → low ≤ p }
    ensures rising { result ≡ true → AllPairs (λ p q. p < q) rest.now }
{
    let mut least = low;
    let mut count = 0;
    'run: while count < rest.len() {
        let place = rest[count];
        if place < least {
            return false;
        }
        if place >= flags.len() {
            return false;
        }
        if !is_marked(flags, place) {
            return false;
        }
        least = place + 1;
        count += 1;
    }
    true
}

/// Whether a place has a mark.
#[inline(always)]
fn is_marked(flags: &[bool], place: usize) -> bool
    ensures { result ≡ flag flags.now place }
{
    match flags.get(place) {
        Some(mark) => *mark,
        None => false,
    }
}
