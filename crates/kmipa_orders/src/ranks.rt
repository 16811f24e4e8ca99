//! Calls in an order of their own.

use crate::candidate::Candidate;
use crate::idle::is_idle_call;
use std::alloc::{AllocError, Global};

/// More than the end of any call.
const EFFECT: usize = 1 << 40;

/// Places in an order: their ranks are numbered from 1 on.
#[derive(Drop)]
pub struct Ranks {
    order: Vec<usize>,
    rank: Vec<usize>,
}

impl Ranks {
    ghost use Rattle.std.specs.Prelude.{◌≡◌, ◌≢◌, ◌<◌, ◌^◌, ◌∷◌, AllPairs, IfOk, length, map};
    ghost use Rattle.kmipa_orders.specs.Candidates.{candidate_step};
    ghost use Rattle.kmipa_orders.specs.Links.{at};
    ghost use Rattle.kmipa_orders.specs.Ranks.{IsRanked, ByStamp, ByEnd, InAnyOrder, HasRank, AreNoted, rank_from};

    /// By stamps, and calls of one stamp by their places.
    pub fn by_stamp(alloc: Global, calls: &[Candidate]) -> Result<Ranks, AllocError>
        ensures { IfOk result
            (λ r. IsRanked (length calls.now) (ByStamp (map candidate_step calls.now)) r.order.items r.rank.items
            × HasRank (length calls.now) r.rank.items) }
    {
        let mut keys = Vec::with_capacity(alloc, calls.len())?;
        let mut place = 0;
        'calls: while place < calls.len() {
            keys.push((calls[place].response.stamp, place))?;
            place += 1;
        }
        keys.sort_unstable();
        let mut places = Vec::with_capacity(alloc, keys.len())?;
        'keys: for key in &keys {
            places.push(key.1)?;
        }
        Ranks::of(alloc, &places)
    }

    /// By ends.
    pub fn by_end(alloc: Global, calls: &[Candidate]) -> Result<Ranks, AllocError>
        ensures { IfOk result
            (λ r. IsRanked (length calls.now) (ByEnd (map candidate_step calls.now)) r.order.items r.rank.items
            × HasRank (length calls.now) r.rank.items) }
    {
        let mut keys = Vec::with_capacity(alloc, calls.len())?;
        let mut place = 0;
        'calls: while place < calls.len() {
            keys.push((calls[place].end, place))?;
            place += 1;
        }
        keys.sort_unstable();
        let mut places = Vec::with_capacity(alloc, keys.len())?;
        'keys: for key in &keys {
            places.push(key.1)?;
        }
        Ranks::of(alloc, &places)
    }

    /// Calls without effect first, and each by its end.
    pub fn by_wish(alloc: Global, calls: &[Candidate]) -> Result<Ranks, AllocError>
        ensures { IfOk result
            (λ r. IsRanked (length calls.now) InAnyOrder r.order.items r.rank.items
            × HasRank (length calls.now) r.rank.items) }
    {
        let mut keys = Vec::with_capacity(alloc, calls.len())?;
        let mut place = 0;
        'calls: while place < calls.len() {
            keys.push((wish(&calls[place]), place))?;
            place += 1;
        }
        keys.sort_unstable();
        let mut places = Vec::with_capacity(alloc, keys.len())?;
        'keys: for key in &keys {
            places.push(key.1)?;
        }
        Ranks::of(alloc, &places)
    }

    /// These places, each of which stands once, in their order.
    fn of(alloc: Global, places: &[usize]) -> Result<Ranks, AllocError>
        requires { length places.now < 2 ^ 62 }
        ensures { IfOk result
            (λ r. (r.order.items ≡ 0 ∷ places.now)
            × (AllPairs (λ x y. x ≢ y) places.now → AreNoted places.now (length places.now) r.rank.items)) }
    {
        let mut order = Vec::with_capacity(alloc, places.len() + 1)?;
        order.push(0)?;
        let mut rank = Vec::from_elem(alloc, 0, places.len())?;
        let mut r = 0;
        'ranks: while r < places.len() {
            let place = places[r];
            order.push(place)?;
            r += 1;
            note(&mut rank, place, r);
        }
        Ok(Ranks { order, rank })
    }

    /// The place of a rank.
    pub fn place(&self, rank: usize) -> usize
        ensures { result ≡ at self.now.order.items rank }
    {
        match self.order.get(rank) {
            Some(place) => *place,
            None => 0,
        }
    }

    /// The rank of a place.
    pub fn rank(&self, place: usize) -> usize
        ensures { result ≡ at self.now.rank.items place }
    {
        match self.rank.get(place) {
            Some(rank) => *rank,
            None => 0,
        }
    }

    /// The rank after which tries go on from a place.
    pub fn rank_from(&self, from: usize) -> usize
        ensures { result ≡ rank_from self.now.rank.items from }
    {
        if from == 0 { 0 } else { self.rank(from - 1) }
    }
}

ghost use Rattle.std.specs.Prelude.{◌≡◌, slice_set};

/// What a call is wished by: the less, the more. One that ended first was mostly done first.
fn wish(call: &Candidate) -> usize {
    if is_idle_call(call) {
        call.end
    } else {
        call.end.saturating_add(EFFECT)
    }
}

/// Writes a rank at a place, if there is one.
fn note(ranks: &mut Vec<usize>, place: usize, rank: usize)
    ensures { ranks.new.items ≡ slice_set ranks.old.items place rank }
{
    if place < ranks.len() {
        ranks[place] = rank;
    }
}
