//! The calls that remain to be taken.

use crate::candidate::Candidate;
use crate::links::Links;
use crate::ranks::Ranks;
use std::alloc::{AllocError, Global};

/// The calls that remain to be taken: linked by their stamps, and those of one stamp by their begin marks; and linked by their end marks.
/// Where the least end stands after a call's begin mark, no call ended before it. So the next calls stand together at the front of the
/// first list, and each is found, taken and given back in a few reads and writes.
#[derive(Drop)]
pub struct Remaining {
    stamps: Ranks,
    by_stamp: Links,
    ends: Ranks,
    by_end: Links,
}

impl Remaining {
    ghost use Rattle.std.specs.Prelude.{◌≡◌, ◌<◌, ◌^◌, ◌∷◌, [], ℕ, List, IfOk, IfSome, map, length};
    ghost use Rattle.kmipa_orders.specs.Candidates.{candidate_step};
    ghost use Rattle.kmipa_orders.specs.Links.{at};
    ghost use Rattle.kmipa_orders.specs.Next.{IsNext};
    ghost use Rattle.kmipa_orders.specs.Progress.{AreBegun, IsNextFrom};
    ghost use Rattle.kmipa_orders.specs.Remaining.{AreRemaining, IsCursor};

    /// All calls remain.
    pub fn new(alloc: Global, calls: &[Candidate]) -> Result<Remaining, AllocError>
        ensures { IfOk result (AreRemaining (map candidate_step calls.now) []) }
    {
        let stamps = Ranks::by_stamp(alloc, calls)?;
        let by_stamp = Links::new(alloc, calls.len())?;
        let ends = Ranks::by_end(alloc, calls)?;
        let by_end = Links::new(alloc, calls.len())?;
        Ok(Remaining {
            stamps,
            by_stamp,
            ends,
            by_end,
        })
    }

    /// The first next call from a place on: after a next one, or from the first on.
    #[inline(always)]
    pub fn next(&self, calls: &[Candidate], from: usize) -> Option<usize>
        ensures next { (taken : List ℕ) → AreBegun (map candidate_step calls.now)
            → AreRemaining (map candidate_step calls.now) taken self.now
            → IsCursor (map candidate_step calls.now) taken from
            → IsNextFrom (map candidate_step calls.now) taken from result }
        ensures within { IfSome result (λ p. p < length calls.now) }
    {
        let behind = self.stamps.rank_from(from);
        let rank = self.by_stamp.after(behind);
        if rank > calls.len() {
            return None;
        }
        let place = self.stamps.place(rank);
        let least = self.stamps.place(self.by_stamp.after(0));
        let soonest = self.ends.place(self.by_end.after(0));
        if leads(calls, place, least, soonest) {
            Some(place)
        } else {
            None
        }
    }

    /// Whether no call remains.
    pub fn is_empty(&self, calls: &[Candidate]) -> bool {
        self.by_stamp.after(0) > calls.len()
    }

    /// The place of the call with the least stamp.
    #[inline(always)]
    pub fn least(&self) -> usize
        ensures { result ≡ at self.now.stamps.order.items (at self.now.by_stamp.after.items 0) }
    {
        self.stamps.place(self.by_stamp.after(0))
    }

    /// The place of the call with the least end.
    #[inline(always)]
    pub fn soonest(&self) -> usize
        ensures { result ≡ at self.now.ends.order.items (at self.now.by_end.after.items 0) }
    {
        self.ends.place(self.by_end.after(0))
    }

    /// A next call is taken.
    #[inline(always)]
    pub fn take(&mut self, calls: &[Candidate], place: usize)
        ensures { (taken : List ℕ) → AreRemaining (map candidate_step calls.now) taken self.old
            → IsNext (map candidate_step calls.now) taken place
            → AreRemaining (map candidate_step calls.now) (place ∷ taken) self.new }
    {
        self.by_stamp.remove(self.stamps.rank(place));
        self.by_end.remove(self.ends.rank(place));
    }

    /// The call that was taken last remains again.
    #[inline(always)]
    pub fn give_back(&mut self, calls: &[Candidate], place: usize)
        ensures remaining { (taken : List ℕ) → AreRemaining (map candidate_step calls.now) (place ∷ taken) self.old
            → AreRemaining (map candidate_step calls.now) taken self.new }
        ensures cursor { (taken : List ℕ) → AreRemaining (map candidate_step calls.now) (place ∷ taken) self.old
            → IsNext (map candidate_step calls.now) taken place }
    {
        self.by_stamp.restore(self.stamps.rank(place));
        self.by_end.restore(self.ends.rank(place));
    }
}

ghost use Rattle.std.specs.Prelude.{◌≡◌, ◌<◌, true, length, map};
ghost use Rattle.kmipa_orders.specs.Candidates.{candidate_step};
ghost use Rattle.kmipa_orders.specs.Taken.{step_at};
ghost use Rattle.kmipa_orders.specs.Ranks.{allows};

/// Whether the call at a place is a next one, where those at these places have the least stamp and the least end.
#[inline(always)]
pub fn leads(calls: &[Candidate], place: usize, least: usize, soonest: usize) -> bool
    ensures reported { place < length calls.now → least < length calls.now → soonest < length calls.now
        → result
        ≡ allows (step_at (map candidate_step calls.now) place) (step_at (map candidate_step calls.now) least)
        (step_at (map candidate_step calls.now) soonest) }
    ensures within { result ≡ true → place < length calls.now }
{
    if place >= calls.len() {
        return false;
    }
    if least >= calls.len() {
        return false;
    }
    if soonest >= calls.len() {
        return false;
    }
    allows(&calls[place], &calls[least], &calls[soonest])
}

/// Whether a call is a next one, where these have the least stamp and the least end.
#[inline(always)]
fn allows(call: &Candidate, least: &Candidate, soonest: &Candidate) -> bool
    ensures { result ≡ allows (candidate_step call.now) (candidate_step least.now) (candidate_step soonest.now) }
{
    call.response.stamp <= least.response.stamp && !(soonest.end < call.begin)
}
