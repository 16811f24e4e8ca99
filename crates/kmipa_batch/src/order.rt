//! In which orders the items of a call may be done.

ghost use Rattle.std.specs.Prelude.{◌≡◌, ◌<◌, ◌≤◌, ◌+◌, ◌-◌, ◌↔◌, IfOk, IsTrue, ℕ, Some, length, map, slice_get};
ghost use Rattle.kmipa_msgs.specs.Messages.{answer_of, request_of, response_of};
ghost use Rattle.kmipa_batch.specs.Orders.{AreTakingOrder, is_unordered};
ghost use Rattle.kmipa_batch.specs.Standing.{EndsAt, Sees, StandOnce};

use crate::shape::first_failed;
use kmipa_msgs::{BatchOption, Request, Response};
use std::alloc::{AllocError, Global};

/// Whether a request is without order: its Batch Order Option is False, and it has more than one item.
pub fn is_unordered(request: &Request) -> bool
    ensures { result ≡ is_unordered (request_of request.now) }
{
    !request.ordered && request.items.len() > 1
}

/// Whether the items of a call without order may have been done in the order of these places, counted from 1: each place that has an item
/// and an answer stands there once, and no other; and under Stop and Undo the first that failed stands last. Only want of memory is an
/// error.
pub fn is_taking_order(
    alloc: Global,
    request: &Request,
    response: &Response,
    places: &[usize],
) -> Result<bool, AllocError>
    ensures { IfOk result
        (λ reported. IsTrue reported ↔ AreTakingOrder (request_of request.now) (response_of response.now) places.now) }
{
    if !stand_once(alloc, places, answered_count(request, response))? {
        return Ok(false);
    }
    let failed = first_failed(&response.items);
    Ok(ends_at(request.option, failed, places))
}

/// How many places have an item and an answer: the first ones.
fn answered_count(request: &Request, response: &Response) -> usize
    ensures asks { result ≤ length request.now.items.items }
    ensures answers { result ≤ length response.now.items.items }
    ensures all { (k : ℕ) → k < length request.now.items.items → k < length response.now.items.items → k < result }
{
    usize::min(request.items.len(), response.items.len())
}

/// Whether each number from 1 to `count` stands there once, and no other.
fn stand_once(alloc: Global, places: &[usize], count: usize) -> Result<bool, AllocError>
    ensures { IfOk result (λ reported. IsTrue reported ↔ StandOnce places.now count) }
{
    let mut seen = vec![in alloc; false; count]?;
    for position in 0..places.len() {
        if !see(&mut seen, places[position]) {
            return Ok(false);
        }
    }
    Ok(places.len() == count)
}

/// Sees a place, counted from 1, that was not seen yet; or tells that it was, or that it is none of these.
fn see(seen: &mut Vec<bool>, place: usize) -> bool
    ensures { Sees seen.old.items place result seen.new.items }
{
    if place == 0 || place > seen.len() {
        return false;
    }
    if seen[place - 1] {
        return false;
    }
    seen[place - 1] = true;
    true
}

/// Whether the first failed place, counted from 0, stands last where it ends the batch.
fn ends_at(option: BatchOption, failed: Option<usize>, places: &[usize]) -> bool
    ensures { IsTrue result ↔ EndsAt option failed places.now }
{
    if option == BatchOption::Continue {
        return true;
    }
    match failed {
        Some(failed) => stands_last(places, failed),
        None => true,
    }
}

/// Whether a place, counted from 0, stands last.
fn stands_last(places: &[usize], place: usize) -> bool
    ensures { IsTrue result ↔ slice_get places.now (length places.now - 1) ≡ Some (place + 1) }
{
    if places.is_empty() {
        return false;
    }
    let last = places[places.len() - 1];
    last > place && last - 1 == place
}
