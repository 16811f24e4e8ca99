//! In which orders the items of a call may be done.

ghost use Rattle.std.specs.Prelude.{◌≡◌, ◌↔◌, IfOk, IsTrue, map};
ghost use Rattle.kmipa_msgs.specs.Messages.{answer_of, ask_of, request_of, response_of};
ghost use Rattle.kmipa_batch.specs.Orders.{AreTakingOrder};
ghost use Rattle.kmipa_places.specs.Calls.{read_of};
ghost use Rattle.kmipa_bundle.specs.Shapes.{answer_as, is_unordered, request_as, response_as, some_ask, status_of};

use kmipa_batch::is_taking_order as is_batch_order;
use kmipa_msgs::{Answer, Ask, Asked, Request, Response, Status};
use kmipa_passed::Outcome;
use kmipa_places::Readable;
use std::alloc::{AllocError, Global};

/// Whether a call is without order: its Batch Order Option is False, and it has more than one item.
pub fn is_unordered(call: &Readable) -> bool
    ensures { result ≡ is_unordered (read_of call.now) }
{
    !call.ordered && call.asks > 1
}

/// Whether the items of a call without order may have been done in the order of these places, counted from 1: each place that has an item
/// and an answer stands there once, and no other; and under Stop and Undo the first that failed stands last. Only want of memory is an
/// error.
pub fn is_taking_order(alloc: Global, call: &Readable, places: &[usize]) -> Result<bool, AllocError>
    ensures { IfOk result (λ reported. IsTrue reported
        ↔ AreTakingOrder (request_as (read_of call.now)) (response_as (read_of call.now)) places.now) }
{
    let request = request_as(alloc, call)?;
    let response = response_as(alloc, call)?;
    is_batch_order(alloc, &request, &response, places)
}

/// The request, as far as the order of its items goes.
fn request_as(alloc: Global, call: &Readable) -> Result<Request<'static>, AllocError>
    ensures { IfOk result (λ request. request_of request ≡ request_as (read_of call.now)) }
{
    let mut items = Vec::new(alloc);
    for _ in 0..call.asks {
        items.push(some_ask())?;
    }
    Ok(Request {
        option: call.option,
        ordered: call.ordered,
        items,
    })
}

fn some_ask() -> Ask<'static>
    ensures { ask_of result ≡ some_ask }
{
    Ask {
        batch_id: None,
        asked: Asked::Idle(0),
    }
}

/// The response, as far as the order of the items goes.
fn response_as(alloc: Global, call: &Readable) -> Result<Response<'static>, AllocError>
    ensures { IfOk result (λ response. response_of response ≡ response_as (read_of call.now)) }
{
    let mut items = Vec::new(alloc);
    for outcome in call.outcomes.iter() {
        items.push(answer_as(*outcome))?;
    }
    Ok(Response {
        stamp: call.stamp,
        items,
    })
}

fn answer_as(outcome: Outcome) -> Answer<'static>
    ensures { answer_of result ≡ answer_as outcome }
{
    Answer {
        operation: None,
        batch_id: None,
        status: status_of(outcome),
        reason: None,
        payload: None,
    }
}

/// What becomes of the others is decided by those that failed: one that is still to come didn't.
fn status_of(outcome: Outcome) -> Status
    ensures { result ≡ status_of outcome }
{
    match outcome {
        Outcome::Done | Outcome::Pending => Status::Success,
        Outcome::Undone => Status::Undone,
        Outcome::Failed => Status::Failed,
    }
}
