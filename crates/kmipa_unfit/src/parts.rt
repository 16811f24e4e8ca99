//! The parts of a turn that name an item, fills and births: which is the first that isn't wanted, and why.

ghost use Rattle.std.specs.Prelude.{◌≡◌, ◌<◌, MatchOption, length};
ghost use Rattle.kmipa_msgs.specs.Messages.{answer_of, ask_of, request_of, response_of};
ghost use Rattle.kmipa_msgs.specs.Wanted.{IsOwn, Wanted};
ghost use Rattle.kmipa_check.specs.Births.{Bears, BringsForth};
ghost use Rattle.kmipa_check.specs.Deciding.{Decided};
ghost use Rattle.kmipa_unfit.specs.PartFinding.{AreWantedParts, IsWantedPart, UnwantedAt, WantsPart};
ghost use Rattle.kmipa_unfit.specs.UnfitParts.{IsUnwantedPart, IsWantedFor, NamesOther, UnwantedAnswer, UnwantedAttributes, UnwantedItem, UnwantedPayload, number_asked};

use crate::explanation::{Part, Unwanted, UnwantedPart};
use crate::orders::{answered_count, earlier_place, item_place};
use kmipa_msgs::{Answer, Ask, Operation, Request, Response, Status, is_wanted};

/// The first part that isn't wanted, of those that name these items.
pub fn unwanted_part(
    request: &Request,
    response: &Response,
    items: &[i32],
    part: Part,
) -> UnwantedPart
    requires { AreWantedParts part (request_of request.now) (response_of response.now) items.now → ⊥ }
    ensures { IsUnwantedPart part (request_of request.now) (response_of response.now) items.now result }
{
    let mut at = 0;
    'parts: while at < items.len() {
        if let Some(why) = unwanted_at(request, response, items, at, part) {
            return UnwantedPart {
                number: at + 1,
                item: items[at],
                why,
            };
        }
        at += 1;
    }
    UnwantedPart {
        number: 0,
        item: 0,
        why: Unwanted::Present,
    }
}

/// Why the part at a place, counted from 0, isn't wanted.
fn unwanted_at(
    request: &Request,
    response: &Response,
    items: &[i32],
    at: usize,
    part: Part,
) -> Option<Unwanted>
    requires { at < length items.now }
    ensures { MatchOption result
        (IsWantedPart part (request_of request.now) (response_of response.now) items.now at)
        (UnwantedAt part (request_of request.now) (response_of response.now) items.now at) }
{
    let item = items[at];
    if let Some(why) = item_unwanted(request, response, item, part) {
        return Some(why);
    }
    match earlier_place(items, at, item) {
        Some(earlier) => Some(Unwanted::Second(earlier + 1)),
        None => None,
    }
}

/// Why no such part is wanted for the item of this number.
fn item_unwanted(request: &Request, response: &Response, item: i32, part: Part) -> Option<Unwanted>
    ensures { MatchOption result
        (IsWantedFor part (request_of request.now) (response_of response.now) item)
        (UnwantedItem part (request_of request.now) (response_of response.now) item) }
{
    let answered = answered_count(request, response);
    if item < 1 {
        return Some(Unwanted::Unanswered(answered));
    }
    let place = item_place(item);
    if place >= answered {
        return Some(Unwanted::Unanswered(answered));
    }
    answer_unwanted(&request.items[place], &response.items[place], part)
}

/// Why what was asked and answered wants no such part.
fn answer_unwanted(ask: &Ask, answer: &Answer, part: Part) -> Option<Unwanted>
    ensures { MatchOption result (WantsPart part (ask_of ask.now) (answer_of answer.now))
        (UnwantedAnswer part (ask_of ask.now) (answer_of answer.now)) }
{
    match part {
        Part::Fill => payload_unwanted(ask, answer),
        Part::Birth => attributes_unwanted(ask, answer),
    }
}

/// Why the payload of an answer isn't wanted.
fn payload_unwanted(ask: &Ask, answer: &Answer) -> Option<Unwanted>
    ensures { MatchOption result (Wanted (ask_of ask.now) (answer_of answer.now))
        (UnwantedPayload (ask_of ask.now) (answer_of answer.now)) }
{
    if answer.status != Status::Undone {
        return Some(Unwanted::Status(answer.status));
    }
    if answer.payload.is_some() {
        return Some(Unwanted::Present);
    }
    if is_wanted(ask, answer) {
        return None;
    }
    match other_operation(ask, answer) {
        Some(named) => Some(Unwanted::Operations(ask.number(), named)),
        None => Some(Unwanted::Needless(ask.number())),
    }
}

/// Why no attributes of a new object are wanted.
fn attributes_unwanted(ask: &Ask, answer: &Answer) -> Option<Unwanted>
    ensures { MatchOption result (Bears (ask_of ask.now) (answer_of answer.now))
        (UnwantedAttributes (ask_of ask.now) (answer_of answer.now)) }
{
    if !brings_forth(ask.operation()) {
        return Some(Unwanted::Needless(ask.number()));
    }
    match answer.status {
        Status::Failed => Some(Unwanted::Status(Status::Failed)),
        Status::Success | Status::Undone => {
            let named = other_operation(ask, answer)?;
            Some(Unwanted::Operations(ask.number(), named))
        }
    }
}

/// The operation that an answer names, where it isn't the one that is asked for.
fn other_operation(ask: &Ask, answer: &Answer) -> Option<u32>
    ensures { MatchOption result (IsOwn (number_asked (ask_of ask.now)) (answer_of answer.now).operation)
        (NamesOther (ask_of ask.now) (answer_of answer.now)) }
{
    match answer.operation {
        Some(named) if named != ask.number() => Some(named),
        _ => None,
    }
}

/// Whether an operation makes an object.
fn brings_forth(operation: Operation) -> bool
    ensures { Decided result (BringsForth operation) }
{
    match operation {
        Operation::Create | Operation::Register => true,
        _ => false,
    }
}
