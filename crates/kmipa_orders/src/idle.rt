//! Calls without effect.

ghost use Rattle.std.specs.Prelude.{◌≡◌, true, map};
ghost use Rattle.kmipa_msgs.specs.Messages.{asked_of, request_of, response_of};
ghost use Rattle.kmipa_orders.specs.Candidates.{candidate_step};
ghost use Rattle.kmipa_orders.specs.Idle.{AreIdleFrom, IsIdleAt, IsIdleStep, is_idle_item, only_looks};
ghost use Rattle.kmipa_orders.specs.Taken.{step_at};

use crate::candidate::Candidate;
use kmipa_msgs::{Asked, Request, Response, Status};
use kmipa_ops::{Effect, row_of};

/// Whether the call at a place is without effect.
#[inline(always)]
pub fn is_idle_place(calls: &[Candidate], place: usize) -> bool
    ensures { result ≡ true → IsIdleStep (step_at (map candidate_step calls.now) place) }
{
    if place >= calls.len() {
        return false;
    }
    is_idle_call(&calls[place])
}

/// Whether a call is without effect.
#[inline(always)]
pub fn is_idle_call(call: &Candidate) -> bool
    ensures { result ≡ true → IsIdleStep (candidate_step call.now) }
{
    is_idle(call.request, call.response)
}

/// Whether each item of a call failed, or only looks at what is not bytes: then the call changes nothing, and whether it is possible
/// hangs on no bytes.
#[inline(always)]
fn is_idle(request: &Request, response: &Response) -> bool
    ensures { result ≡ true → AreIdleFrom (request_of request.now) (response_of response.now) 0 }
{
    let mut place = request.items.len();
    'items: while place > 0 {
        place -= 1;
        if !is_idle_at(request, response, place) {
            return false;
        }
    }
    true
}

/// The same of one item.
#[inline(always)]
fn is_idle_at(request: &Request, response: &Response, place: usize) -> bool
    ensures { result ≡ true → IsIdleAt (request_of request.now) (response_of response.now) place }
{
    if place >= request.items.len() {
        return false;
    }
    if place >= response.items.len() {
        return false;
    }
    is_idle_item(&request.items[place].asked, response.items[place].status)
}

fn is_idle_item(asked: &Asked, status: Status) -> bool
    ensures { result ≡ is_idle_item (asked_of asked.now) status }
{
    match status {
        Status::Failed => true,
        Status::Success | Status::Undone => only_looks(asked),
    }
}

fn only_looks(asked: &Asked) -> bool
    ensures { result ≡ only_looks (asked_of asked.now) }
{
    match row_of(asked).effect {
        Effect::Lists(_) => true,
        Effect::ShowsAttributes(_) => true,
        Effect::Nothing => true,
        _ => false,
    }
}
