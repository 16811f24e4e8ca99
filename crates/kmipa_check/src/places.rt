//! The places that a turn gives: the order in which the items of its call are taken.

ghost use Rattle.std.specs.Prelude.{◌≡◌, ◌≤ℤ◌, ◌↔◌, IfOk, IsTrue, MatchOption, MatchResult, List, option_map, pos, ℕ};
ghost use Rattle.kmipa_msgs.specs.Messages.{request_of, response_of};
ghost use Rattle.kmipa_record.specs.Entries.{items_of};
ghost use Rattle.kmipa_check.specs.Places.{AreTaken, PlacesRefused, WantsOrder, place_numbers};

use crate::fault::{StepFault, WitnessKind};
use kmipa_batch::{is_refused_message, is_taking_order, is_unordered};
use kmipa_msgs::{Request, Response};
use std::alloc::{AllocError, Global};

/// The places that a turn gives, where the items of its call may be taken in their order; `None` where it gives none.
pub fn places_given(
    alloc: Global,
    request: &Request,
    response: &Response,
    numbers: &[i32],
) -> Result<Option<Vec<usize>>, StepFault>
    ensures { MatchResult result
        (λ places. AreTaken (request_of request.now) (response_of response.now) numbers.now
        (option_map items_of places))
        (PlacesRefused (request_of request.now) (response_of response.now) numbers.now) }
{
    if numbers.is_empty() {
        return Ok(None);
    }
    if !wants_order(request, response) {
        return Err(StepFault::Unfit(WitnessKind::OrderNotWanted));
    }
    let Some(order) = places_of(alloc, numbers)? else {
        return Err(StepFault::Unfit(WitnessKind::OrderForm));
    };
    if !is_taking_order(alloc, request, response, &order)? {
        return Err(StepFault::Unfit(WitnessKind::OrderForm));
    }
    Ok(Some(order))
}

/// Whether the items of a call may be taken in an order of their own: the request is without order, and wasn't refused as a whole.
fn wants_order(request: &Request, response: &Response) -> bool
    ensures { IsTrue result ↔ WantsOrder (request_of request.now) (response_of response.now) }
{
    is_unordered(request) && !is_refused_message(response)
}

/// The places of these numbers; `None` where one of them is below 0.
pub fn places_of(alloc: Global, numbers: &[i32]) -> Result<Option<Vec<usize>>, AllocError>
    ensures { IfOk result
        (λ reported. MatchOption reported ((places : List ℕ) → numbers.now ≡ place_numbers places → ⊥)
        (λ places. numbers.now ≡ place_numbers places.items)) }
{
    let mut places = Vec::new(alloc);
    let mut at = 0;
    'numbers: while at < numbers.len() {
        if numbers[at] < 0 {
            return Ok(None);
        }
        places.push(listed_place(numbers[at]))?;
        at += 1;
    }
    Ok(Some(places))
}

/// The place of a number.
fn listed_place(number: i32) -> usize
    requires { pos 0 ≤ℤ number }
    ensures { number ≡ pos result }
{
    number as usize
}
