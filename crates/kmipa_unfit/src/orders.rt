//! The places that a turn gives: why none are wanted, or why they are no order of the answered items.

ghost use Rattle.std.specs.Prelude.{◌≡◌, ◌+◌, ◌≤◌, ◌≤ℤ◌, IfOk, MatchOption, length, map, pos};
ghost use Rattle.kmipa_msgs.specs.Messages.{answer_of, request_of, response_of};
ghost use Rattle.kmipa_batch.specs.Shapes.{is_failed};
ghost use Rattle.kmipa_check.specs.Deciding.{Decided};
ghost use Rattle.kmipa_check.specs.Places.{WantsOrder};
ghost use Rattle.kmipa_unfit.specs.UnfitOrders.{AreAnswered, IsDisordered, IsOrderTold, IsOrdered, IsTwice, IsWrong};
ghost use Rattle.kmipa_unfit.specs.OrderFinding.{AreOnce, AreWithin, FailsFirst, HasItem, HaveAll, IsAhead, IsBeyond, IsLeft, IsOrderless, IsWithin, StandsAhead};

use crate::explanation::{Disorder, OrderTold, Ordered, Wrong};
use kmipa_batch::is_refused_message;
use kmipa_msgs::{Answer, Request, Response, Status};
use std::alloc::{AllocError, Global};

/// The places that a turn gives to a call that wants none, and why.
pub fn ordered(
    alloc: Global,
    request: &Request,
    response: &Response,
    numbers: &[i32],
) -> Result<Ordered, AllocError>
    requires { WantsOrder (request_of request.now) (response_of response.now) → ⊥ }
    ensures { IfOk result (IsOrdered (request_of request.now) (response_of response.now) numbers.now) }
{
    Ok(Ordered {
        places: Vec::from_slice(alloc, numbers)?,
        why: order_told(request, response),
    })
}

/// Why a call wants no places.
fn order_told(request: &Request, response: &Response) -> OrderTold
    requires { WantsOrder (request_of request.now) (response_of response.now) → ⊥ }
    ensures { IsOrderTold (request_of request.now) (response_of response.now) result }
{
    if is_refused_message(response) {
        return OrderTold::Refused;
    }
    let count = request.items.len();
    if count < 2 {
        return OrderTold::Few(count);
    }
    OrderTold::InOrder
}

/// The places that a turn gives, and what is wrong with them.
pub fn disordered(
    alloc: Global,
    request: &Request,
    response: &Response,
    numbers: &[i32],
) -> Result<Disorder, AllocError>
    requires { IsOrderless (request_of request.now) (response_of response.now) numbers.now }
    ensures { IfOk result (IsDisordered (request_of request.now) (response_of response.now) numbers.now) }
{
    let answered = answered_count(request, response);
    Ok(Disorder {
        places: Vec::from_slice(alloc, numbers)?,
        answered,
        wrong: wrong_of(request, response, numbers, answered),
    })
}

/// How many items are answered: the first ones.
pub fn answered_count(request: &Request, response: &Response) -> usize
    ensures { AreAnswered (request_of request.now) (response_of response.now) result }
{
    usize::min(request.items.len(), response.items.len())
}

/// What is wrong with these places, where so many items are answered.
fn wrong_of(request: &Request, response: &Response, numbers: &[i32], answered: usize) -> Wrong
    requires counted { AreAnswered (request_of request.now) (response_of response.now) answered }
    requires orderless { IsOrderless (request_of request.now) (response_of response.now) numbers.now }
    ensures { IsWrong (request_of request.now) (response_of response.now) numbers.now result }
{
    if let Some(number) = first_unanswered(numbers, answered) {
        return Wrong::Unanswered(number);
    }
    if let Some(number) = first_twice(numbers) {
        return Wrong::Twice(number);
    }
    if let Some(item) = first_left(numbers, answered) {
        return Wrong::LeftOut(item);
    }
    match first_failed(&response.items) {
        Some(item) => Wrong::NotLast(item),
        None => Wrong::NotLast(0),
    }
}

/// The first of these numbers that is that of no item up to this one.
fn first_unanswered(numbers: &[i32], answered: usize) -> Option<i32>
    ensures { MatchOption result (AreWithin numbers.now answered) (IsBeyond numbers.now answered) }
{
    let mut at = 0;
    'numbers: while at < numbers.len() {
        if !is_within(numbers[at], answered) {
            return Some(numbers[at]);
        }
        at += 1;
    }
    None
}

/// Whether a number is that of an item up to this one.
fn is_within(number: i32, answered: usize) -> bool
    ensures { Decided result (IsWithin answered number) }
{
    if number < 1 {
        return false;
    }
    item_place(number) < answered
}

/// The place, counted from 0, of the item of this number.
pub fn item_place(item: i32) -> usize
    requires { pos 1 ≤ℤ item }
    ensures { item ≡ pos (result + 1) }
{
    (item - 1) as usize
}

/// The first of these numbers that stands ahead, too.
fn first_twice(numbers: &[i32]) -> Option<i32>
    ensures { MatchOption result (AreOnce numbers.now) (IsTwice numbers.now) }
{
    let mut at = 0;
    'numbers: while at < numbers.len() {
        if stands_ahead(numbers, at, numbers[at]) {
            return Some(numbers[at]);
        }
        at += 1;
    }
    None
}

/// Whether a number stands before a place.
fn stands_ahead(numbers: &[i32], place: usize, number: i32) -> bool
    requires { place ≤ length numbers.now }
    ensures { Decided result (StandsAhead numbers.now place number) }
{
    earlier_place(numbers, place, number).is_some()
}

/// The first place before this one, counted from 0, where a number stands.
pub fn earlier_place(numbers: &[i32], place: usize, number: i32) -> Option<usize>
    requires { place ≤ length numbers.now }
    ensures { MatchOption result (StandsAhead numbers.now place number → ⊥) (IsAhead numbers.now place number) }
{
    let mut at = 0;
    'numbers: while at < place {
        if numbers[at] == number {
            return Some(at);
        }
        at += 1;
    }
    None
}

/// The first item up to this one whose number isn't there.
fn first_left(numbers: &[i32], answered: usize) -> Option<usize>
    ensures { MatchOption result (HaveAll numbers.now answered) (IsLeft numbers.now answered) }
{
    let mut place = 0;
    'items: while place < answered {
        if !has_item(numbers, place) {
            return Some(place + 1);
        }
        place += 1;
    }
    None
}

/// Whether the number of the item at a place, counted from 0, is there.
fn has_item(numbers: &[i32], place: usize) -> bool
    ensures { Decided result (HasItem numbers.now place) }
{
    let mut at = 0;
    'numbers: while at < numbers.len() {
        if is_item(numbers[at], place) {
            return true;
        }
        at += 1;
    }
    false
}

/// Whether a number is that of the item at a place, counted from 0.
pub fn is_item(number: i32, place: usize) -> bool
    ensures { Decided result (number ≡ pos (place + 1)) }
{
    if number < 1 {
        return false;
    }
    item_place(number) == place
}

/// The first item that failed, counted from 1.
fn first_failed(answers: &[Answer]) -> Option<usize>
    ensures { FailsFirst (map answer_of answers.now) result }
{
    let mut place = 0;
    'answers: while place < answers.len() {
        if has_failed(&answers[place]) {
            return Some(place + 1);
        }
        place += 1;
    }
    None
}

/// Whether an answer is one of a failure.
fn has_failed(answer: &Answer) -> bool
    ensures { result ≡ is_failed (answer_of answer.now).status }
{
    match answer.status {
        Status::Failed => true,
        Status::Success | Status::Undone => false,
    }
}
