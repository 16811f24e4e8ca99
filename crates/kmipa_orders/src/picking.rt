//! Which call is tried next.

ghost use Rattle.std.specs.Prelude.{◌≡◌, ◌<◌, ◌≤◌, ℕ, List, true, false, IfSome, length, map};
ghost use Rattle.kmipa_orders.specs.Candidates.{candidate_step};
ghost use Rattle.kmipa_orders.specs.Ends.{AreFlagged};
ghost use Rattle.kmipa_check.specs.Steps.{StepOf};
ghost use Rattle.kmipa_orders.specs.Progress.{AreBegun};
ghost use Rattle.kmipa_orders.specs.Taken.{step_at};
ghost use Rattle.kmipa_orders.specs.Ranks.{InAnyOrder, IsRanked, WereLinked, allows};
ghost use Rattle.kmipa_orders.specs.Remaining.{AreRemaining, IsCursor};
ghost use Rattle.kmipa_orders.specs.Tries.{IsBest, IsBetter, IsFirst, IsPicked, IsPreferred};
ghost use Rattle.kmipa_orders.specs.Wished.{IsAlong, IsMostWished};

use crate::candidate::Candidate;
use crate::links::Links;
use crate::ranks::Ranks;
use crate::remaining::{Remaining, leads};
use crate::taken::TakenCalls;
use crate::tried::{Pick, Tried, Trying};

/// Where more calls than these may be next, they are tried in the order of their begin marks.
const WINDOW: usize = 64;

/// The call to try next where so many calls are left, which are linked by their wishes too. Late, and where they are few, that line is gone
/// along: the first on it that may be next and was not tried is the one that is wished most.
#[inline(always)]
pub fn pick_left(
    remaining: &Remaining,
    calls: &[Candidate],
    wishes: &Ranks,
    by_wish: &Links,
    flags: &TakenCalls,
    trying: Trying,
) -> Option<Pick>
    ensures picked { (taken : List ℕ) → AreBegun (map candidate_step calls.now)
        → AreRemaining (map candidate_step calls.now) taken remaining.now
        → IsCursor (map candidate_step calls.now) taken trying.tried.from
        → IsRanked (length (map candidate_step calls.now)) InAnyOrder wishes.now.order.items wishes.now.rank.items
        → WereLinked (length (map candidate_step calls.now)) wishes.now.rank.items taken by_wish.now.after.items
        by_wish.now.before.items → AreFlagged (length (map candidate_step calls.now)) taken flags.now
        → IsPicked (map candidate_step calls.now) taken wishes.now.rank.items trying.tried result }
    ensures within { IfSome result (λ pick. pick.place < length calls.now) }
{
    if trying.late {
        if trying.left <= WINDOW {
            return pick_wished(remaining, calls, wishes, by_wish, flags, trying.tried);
        }
    }
    pick(remaining, calls, wishes, trying.tried, trying.late)
}

/// The next call that was not tried and is wished most.
#[inline(always)]
fn pick_wished(
    remaining: &Remaining,
    calls: &[Candidate],
    wishes: &Ranks,
    by_wish: &Links,
    flags: &TakenCalls,
    tried: Tried,
) -> Option<Pick>
    ensures picked { (taken : List ℕ) → AreBegun (map candidate_step calls.now)
        → AreRemaining (map candidate_step calls.now) taken remaining.now
        → IsCursor (map candidate_step calls.now) taken tried.from
        → IsRanked (length (map candidate_step calls.now)) InAnyOrder wishes.now.order.items wishes.now.rank.items
        → WereLinked (length (map candidate_step calls.now)) wishes.now.rank.items taken by_wish.now.after.items
        by_wish.now.before.items → AreFlagged (length (map candidate_step calls.now)) taken flags.now
        → IsPicked (map candidate_step calls.now) taken wishes.now.rank.items tried result }
    ensures within { IfSome result (λ pick. pick.place < length calls.now) }
{
    if tried.closed {
        return None;
    }
    match most_wished(remaining, calls, wishes, by_wish, flags, tried) {
        Some(place) => Some(Pick {
            place,
            tried: Tried {
                from: tried.from,
                done: wishes.rank(place),
                closed: false,
            },
        }),
        None => None,
    }
}

/// Its place.
#[inline(always)]
fn most_wished(
    remaining: &Remaining,
    calls: &[Candidate],
    wishes: &Ranks,
    by_wish: &Links,
    flags: &TakenCalls,
    tried: Tried,
) -> Option<usize>
    ensures most { (taken : List ℕ) → AreRemaining (map candidate_step calls.now) taken remaining.now
        → IsRanked (length (map candidate_step calls.now)) InAnyOrder wishes.now.order.items wishes.now.rank.items
        → WereLinked (length (map candidate_step calls.now)) wishes.now.rank.items taken by_wish.now.after.items
        by_wish.now.before.items → AreFlagged (length (map candidate_step calls.now)) taken flags.now
        → IsMostWished (map candidate_step calls.now) taken wishes.now.rank.items tried result }
    ensures within { IfSome result (λ place. place < length calls.now) }
{
    let least = remaining.least();
    let soonest = remaining.soonest();
    let mut rank = first_rank(wishes, by_wish, flags, tried);
    'run: while rank <= calls.len() {
        let place = wishes.place(rank);
        if is_open(calls, tried, rank, place, least, soonest) {
            return Some(place);
        }
        let after = by_wish.after(rank);
        if after <= rank {
            return None;
        }
        rank = after;
    }
    None
}

/// The first rank on the line that may be one that was not tried: the one behind the call that was tried last, if that one is left, or
/// else the first of all.
#[inline(always)]
fn first_rank(wishes: &Ranks, by_wish: &Links, flags: &TakenCalls, tried: Tried) -> usize
    ensures { (calls : List StepOf) (taken : List ℕ)
        → IsRanked (length calls) InAnyOrder wishes.now.order.items wishes.now.rank.items
        → WereLinked (length calls) wishes.now.rank.items taken by_wish.now.after.items by_wish.now.before.items
        → AreFlagged (length calls) taken flags.now → IsAlong calls taken wishes.now.rank.items tried result }
{
    let place = wishes.place(tried.done);
    if flags.is_left(place) {
        if wishes.rank(place) == tried.done {
            return by_wish.after(tried.done);
        }
    }
    by_wish.after(0)
}

/// Whether the call of this rank, at this place, was not tried and is a next one, where those at these places have the least stamp and the
/// least end.
#[inline(always)]
fn is_open(
    calls: &[Candidate],
    tried: Tried,
    rank: usize,
    place: usize,
    least: usize,
    soonest: usize,
) -> bool
    ensures done { result ≡ true → tried.done < rank }
    ensures from { result ≡ true → tried.from ≤ place }
    ensures within { result ≡ true → place < length calls.now }
    ensures yes { result ≡ true → least < length calls.now → soonest < length calls.now
        → allows (step_at (map candidate_step calls.now) place) (step_at (map candidate_step calls.now) least)
        (step_at (map candidate_step calls.now) soonest) ≡ true }
    ensures no { result ≡ false → tried.done < rank → tried.from ≤ place → place < length calls.now
        → least < length calls.now
        → soonest < length calls.now
        → allows (step_at (map candidate_step calls.now) place) (step_at (map candidate_step calls.now) least)
        (step_at (map candidate_step calls.now) soonest) ≡ false }
{
    if rank <= tried.done {
        return false;
    }
    if place < tried.from {
        return false;
    }
    leads(calls, place, least, soonest)
}

/// The call to try next: of the next calls that were not tried the first, or, late, the one that is wished most.
pub fn pick(
    remaining: &Remaining,
    calls: &[Candidate],
    wishes: &Ranks,
    tried: Tried,
    late: bool,
) -> Option<Pick>
    ensures picked { (taken : List ℕ) → AreBegun (map candidate_step calls.now)
        → AreRemaining (map candidate_step calls.now) taken remaining.now
        → IsCursor (map candidate_step calls.now) taken tried.from → IsPreferred (length calls.now) wishes.now
        → IsPicked (map candidate_step calls.now) taken wishes.now.rank.items tried result }
    ensures within { IfSome result (λ pick. pick.place < length calls.now) }
{
    if tried.closed {
        return None;
    }
    if late {
        let place = best(remaining, calls, wishes, tried);
        if place < calls.len() {
            return Some(Pick {
                place,
                tried: Tried {
                    from: tried.from,
                    done: wishes.rank(place),
                    closed: false,
                },
            });
        }
    }
    match first(remaining, calls, wishes, tried) {
        Some(place) => Some(Pick {
            place,
            tried: Tried {
                from: place + 1,
                done: tried.done,
                closed: false,
            },
        }),
        None => None,
    }
}

/// The first next call that was not tried.
fn first(remaining: &Remaining, calls: &[Candidate], wishes: &Ranks, tried: Tried) -> Option<usize>
    ensures first { (taken : List ℕ) → AreBegun (map candidate_step calls.now)
        → AreRemaining (map candidate_step calls.now) taken remaining.now
        → IsCursor (map candidate_step calls.now) taken tried.from
        → IsFirst (map candidate_step calls.now) taken wishes.now.rank.items tried result }
    ensures within { IfSome result (λ place. place < length calls.now) }
{
    let mut from = tried.from;
    'run: while from < calls.len() {
        let Some(place) = remaining.next(calls, from) else {
            return None;
        };
        if place < from {
            return None;
        }
        if wishes.rank(place) > tried.done {
            return Some(place);
        }
        from = place + 1;
    }
    None
}

/// The next call that was not tried and is wished most; or the number of calls, where there is none, or too many may be next.
fn best(remaining: &Remaining, calls: &[Candidate], wishes: &Ranks, tried: Tried) -> usize
    ensures { (taken : List ℕ) → AreBegun (map candidate_step calls.now)
        → AreRemaining (map candidate_step calls.now) taken remaining.now
        → IsCursor (map candidate_step calls.now) taken tried.from
        → IsBest (map candidate_step calls.now) taken wishes.now.rank.items tried result }
{
    let mut from = tried.from;
    let mut best = calls.len();
    let mut seen = 0;
    'run: while from < calls.len() {
        let Some(place) = remaining.next(calls, from) else {
            return best;
        };
        if place < from {
            return calls.len();
        }
        if seen >= WINDOW {
            return calls.len();
        }
        best = better(wishes, calls.len(), tried.done, best, place);
        seen += 1;
        from = place + 1;
    }
    best
}

/// Of two calls the one that was not tried and is wished more.
fn better(wishes: &Ranks, count: usize, done: usize, best: usize, place: usize) -> usize
    ensures { IsBetter wishes.now.rank.items count done best place result }
{
    let rank = wishes.rank(place);
    if rank <= done {
        return best;
    }
    if best >= count {
        return place;
    }
    if rank < wishes.rank(best) {
        place
    } else {
        best
    }
}
