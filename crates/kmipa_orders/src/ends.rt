//! Dead ends that are remembered.

use crate::pool::Pool;
use crate::stills::{Still, stand_so};
use crate::taken::{CallSet, TakenCalls};
use crate::tried::Tried;
use kmipa_store::Ledger;
use std::alloc::{AllocError, Global};
use std::cell::Cell;
use std::rc::Rc;

/// So many ends are remembered at most, in so many bytes.
const MOST: usize = 1_000_000;

const MOST_BYTES: usize = 256 << 20;

/// What an end costs besides its calls and its objects, which it has from the pool. It is more than it takes.
const END_BYTES: usize = 256;

/// How many chains of ends there are.
const CHAINS: usize = 1 << 18;

/// So many places they have together at first: the table grows with the ends, since a large one costs more than a short search.
const FIRST_PLACES: usize = 1 << 10;

/// Where there are as many ends as places, there are so many times as many places.
const GROWTH: usize = 8;

/// So many ends of the same calls are compared with a ledger at most, the newest first. Calls that change one object may leave as
/// many ledgers as they have orders, and looking at each would cost more than trying what follows.
const MOST_COMPARED: usize = 64;

/// A dead end: the calls that were taken, and the objects as they stood. No run begins with these calls from such a
/// ledger, in whatever order they were taken and their objects arrived.
#[derive(Drop)]
pub struct End {
    pub set: CallSet,
    pub objects: Vec<Rc<Still>>,
    hash: u64,
}

/// Dead ends, in chains by a hash of their calls. It only says which ends are looked at: what is alike is
/// compared.
#[derive(Drop)]
pub struct Ends {
    ends: Vec<End>,
    /// Of each end, one more than the number of the end before it at its place of the table, or 0.
    older: Vec<usize>,
    /// One more than the number of the newest end at each place of the table, or 0; empty where there is no end.
    newest: Vec<usize>,
    pool: Pool,
    /// More bytes than the ends take, besides the pool.
    bytes: usize,
    /// Whether a search arrived at a known end just now. It goes back from there at once, and then there is nothing to note.
    is_met: Cell<bool>,
}

impl Ends {
    ghost use Rattle.std.specs.Prelude.{◌≡◌, ℕ, List, [], Some, true, IfOk, length};
    ghost use Rattle.kmipa_store.specs.Choices.{IsSound};
    ghost use Rattle.kmipa_orders.specs.Ends.{AreFlagged, HasEnd, IsAdded, IsArrival, IsNoted, IsSetOf};

    /// No ends.
    pub fn new(alloc: Global) -> Ends
        ensures { result.ends.items ≡ [] }
    {
        Ends {
            ends: Vec::new(alloc),
            older: Vec::new(alloc),
            newest: Vec::new(alloc),
            pool: Pool::new(alloc),
            bytes: 0,
            is_met: Cell::new(false),
        }
    }

    /// What is to be tried once these calls were taken, which are so many: late, nothing at an end that is known. So many objects were there
    /// when the search began, or none is compared: `front_of`.
    #[inline(always)]
    pub fn arrive<L: Ledger>(
        &self,
        ledger: &L,
        taken: &TakenCalls,
        count: usize,
        front: Option<usize>,
        late: bool,
    ) -> Result<Tried, AllocError>
        requires { IsSound (L.state ledger.now).now }
        ensures { (all : ℕ) (places : List ℕ) → AreFlagged all places taken.now → length places ≡ count
            → IfOk result (IsArrival front self.now.ends.items places (L.state ledger.now).now) }
    {
        self.is_met.set(false);
        if !late {
            return Ok(Tried::none());
        }
        if self.has(ledger, taken, count, front) {
            self.is_met.set(true);
            return Ok(Tried::all());
        }
        Ok(Tried::none())
    }

    /// These calls, which are so many, lead to no run: it is noted, if it is late, not known yet, and there is room. What a search comes to
    /// later has more calls, so where the calls were no known end when it arrived, they are none now.
    #[inline(always)]
    pub fn note<L: Ledger>(
        &mut self,
        alloc: Global,
        ledger: &L,
        taken: &TakenCalls,
        count: usize,
        front: Option<usize>,
        late: bool,
    ) -> Result<(), AllocError>
        requires { IsSound (L.state ledger.now).now }
        ensures { (all : ℕ) (places : List ℕ) → AreFlagged all places taken.now → length places ≡ count
            → IsNoted front self.old.ends.items places (L.state ledger.now).now self.new.ends.items }
    {
        let is_met = self.is_met.get();
        self.is_met.set(false);
        if is_met || !late {
            return Ok(());
        }
        if self.is_full() {
            return Ok(());
        }
        let set = taken.set(alloc, count)?;
        self.keep(alloc, ledger, set, taken.hash, front)
    }

    /// Whether an end of these calls is known, over a ledger whose objects stand as they do here.
    #[inline(always)]
    fn has<L: Ledger>(
        &self,
        ledger: &L,
        taken: &TakenCalls,
        count: usize,
        front: Option<usize>,
    ) -> bool
        requires { IsSound (L.state ledger.now).now }
        ensures { (all : ℕ) (places : List ℕ) → AreFlagged all places taken.now → length places ≡ count
            → result ≡ true → HasEnd front self.now.ends.items places (L.state ledger.now).now }
    {
        self.has_from(ledger, taken, count, front, self.alike(taken.hash))
    }

    /// The number of the newest end of this hash, and one more; or 0, where there is none.
    #[inline(always)]
    fn alike(&self, hash: u64) -> usize {
        let mut number = number_at(&self.newest, chain_place(hash, self.newest.len()));
        'chain: while number > 0 {
            if number > self.ends.len() {
                return 0;
            }
            if self.ends[number - 1].hash == hash {
                return number;
            }
            let older = number_at(&self.older, number - 1);
            if older >= number {
                return 0;
            }
            number = older;
        }
        0
    }

    /// Whether an end of these calls is among the next of a chain from a number on, over a ledger whose objects stand as
    /// they do here.
    fn has_from<L: Ledger>(
        &self,
        ledger: &L,
        taken: &TakenCalls,
        count: usize,
        front: Option<usize>,
        newest: usize,
    ) -> bool
        requires { IsSound (L.state ledger.now).now }
        ensures { (all : ℕ) (places : List ℕ) → AreFlagged all places taken.now → length places ≡ count
            → result ≡ true → HasEnd front self.now.ends.items places (L.state ledger.now).now }
    {
        let mut number = newest;
        let mut compared = 0;
        'chain: while number > 0 {
            if number > self.ends.len() {
                return false;
            }
            if compared >= MOST_COMPARED {
                return false;
            }
            let end = &self.ends[number - 1];
            compared += in_chain(end.hash, taken.hash);
            if is_end(ledger, end, taken, count, front) {
                return true;
            }
            let older = number_at(&self.older, number - 1);
            if older >= number {
                return false;
            }
            number = older;
        }
        false
    }

    /// An end of these calls is noted, if there is room. Where there was none once, none is looked for again.
    fn keep<L: Ledger>(
        &mut self,
        alloc: Global,
        ledger: &L,
        set: CallSet,
        hash: u64,
        front: Option<usize>,
    ) -> Result<(), AllocError>
        requires { IsSound (L.state ledger.now).now }
        ensures { (places : List ℕ) → IsSetOf places set
            → IsNoted front self.old.ends.items places (L.state ledger.now).now self.new.ends.items }
    {
        self.bytes = self.bytes.saturating_add(cost(&set, ledger.len()));
        match front {
            Some(front) => self.keep_objects(alloc, ledger, set, hash, front),
            None => self.add(alloc, set, Vec::new(alloc), hash),
        }
    }

    /// An end of these calls is noted with all objects, if there is room.
    fn keep_objects<L: Ledger>(
        &mut self,
        alloc: Global,
        ledger: &L,
        set: CallSet,
        hash: u64,
        front: usize,
    ) -> Result<(), AllocError>
        requires { IsSound (L.state ledger.now).now }
        ensures { (places : List ℕ) → IsSetOf places set
            → IsNoted (Some front) self.old.ends.items places (L.state ledger.now).now self.new.ends.items }
    {
        let room = MOST_BYTES.saturating_sub(self.bytes);
        match self.pool.share_all(alloc, ledger, front, room)? {
            Some(objects) => self.add(alloc, set, objects, hash),
            None => Ok(()),
        }
    }

    /// Whether there is no room left.
    fn is_full(&self) -> bool {
        self.ends.len() >= MOST || self.bytes.saturating_add(self.pool.bytes) > MOST_BYTES
    }

    /// Adds an end to its chain.
    fn add(
        &mut self,
        alloc: Global,
        set: CallSet,
        objects: Vec<Rc<Still>>,
        hash: u64,
    ) -> Result<(), AllocError>
        ensures { IsAdded self.old.ends.items set objects self.new.ends.items }
    {
        grow(alloc, &self.ends, &mut self.older, &mut self.newest)?;
        let place = chain_place(hash, self.newest.len());
        append(&mut self.older, number_at(&self.newest, place))?;
        self.ends.push(End { set, objects, hash })?;
        let number = self.ends.len();
        put(&mut self.newest, place, number);
        Ok(())
    }
}

ghost use Rattle.std.specs.Prelude.{◌≡◌, ◌≤◌, ℕ, List, true, length};
ghost use Rattle.kmipa_store.specs.Choices.{IsSound};
ghost use Rattle.kmipa_orders.specs.Ends.{AreFlagged, IsEndLike};

/// Makes a table of all ends that has more places, where one end more wants them.
fn grow(
    alloc: Global,
    ends: &[End],
    older: &mut Vec<usize>,
    newest: &mut Vec<usize>,
) -> Result<(), AllocError> {
    let places = places_for(ends.len(), newest.len());
    if places != newest.len() {
        *newest = Vec::from_elem(alloc, 0, places)?;
        spread(ends, older, newest);
    }
    Ok(())
}

/// How many places the table has with one end more than so many, where it had so many before.
fn places_for(ends: usize, places: usize) -> usize {
    if places == 0 {
        return FIRST_PLACES;
    }
    if ends < places {
        return places;
    }
    usize::min(places.saturating_mul(GROWTH), CHAINS)
}

/// Puts all ends into an empty table, the oldest first.
fn spread(ends: &[End], older: &mut Vec<usize>, newest: &mut Vec<usize>) {
    let mut count = 0;
    'ends: while count < ends.len() {
        let place = chain_place(ends[count].hash, newest.len());
        put(older, count, number_at(newest, place));
        count += 1;
        put(newest, place, count);
    }
}

/// Adds a number after the others.
fn append(numbers: &mut Vec<usize>, number: usize) -> Result<(), AllocError> {
    numbers.push(number)?;
    Ok(())
}

/// The number at a place, or 0.
fn number_at(numbers: &[usize], place: usize) -> usize {
    match numbers.get(place) {
        Some(number) => *number,
        None => 0,
    }
}

/// Writes a number at a place, if there is one.
fn put(numbers: &mut Vec<usize>, place: usize, number: usize) {
    if place < numbers.len() {
        numbers[place] = number;
    }
}

/// Whether an end is that of these calls, which are so many, over a ledger whose objects stand as they do here.
fn is_end<L: Ledger>(
    ledger: &L,
    end: &End,
    taken: &TakenCalls,
    count: usize,
    front: Option<usize>,
) -> bool
    requires { IsSound (L.state ledger.now).now }
    ensures { (all : ℕ) (places : List ℕ) → AreFlagged all places taken.now → length places ≡ count
        → result ≡ true → IsEndLike front places (L.state ledger.now).now end.now }
{
    if end.hash != taken.hash {
        return false;
    }
    if !taken.are(&end.set, count) {
        return false;
    }
    match front {
        Some(front) => stand_so(ledger, &end.objects, front),
        None => true,
    }
}

/// The chain of a hash.
fn chain_of(hash: u64) -> usize {
    (hash >> 32) as usize % CHAINS
}

/// The place of a hash in a table of so many, which it shares with other chains.
fn chain_place(hash: u64, places: usize) -> usize {
    if places == 0 {
        return 0;
    }
    chain_of(hash) & (places - 1)
}

/// 1 if two hashes are of one chain, or else 0.
fn in_chain(one: u64, other: u64) -> usize
    ensures { result ≤ 1 }
{
    if chain_of(one) == chain_of(other) {
        1
    } else {
        0
    }
}

/// More bytes than an end of this set and so many objects takes, besides their states.
fn cost(set: &CallSet, objects: usize) -> usize {
    set.rest
        .len()
        .saturating_add(objects)
        .saturating_mul(8)
        .saturating_add(END_BYTES)
}
