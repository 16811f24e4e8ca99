//! Calls whose answer is impossible over every inventory.

ghost use Rattle.std.specs.Prelude.{◌≡◌, ◌≢◌, ◌≤◌, IfErr, IfOk, IfSome, List, Some, map, option_and_then, option_map, slice_get, true, ℕ};
ghost use Rattle.kmipa_attrs.specs.Filters.{filter_of};
ghost use Rattle.kmipa_msgs.specs.Messages.{answer_of, ask_of, lent, located_of, payload_of, request_of, response_of};
ghost use Rattle.kmipa_ops.specs.Locate.{seen_located};
ghost use Rattle.kmipa_record.specs.Declarations.{DeclarationOf};
ghost use Rattle.kmipa_record.specs.Marks.{AreRecorded, MarkOf};
ghost use Rattle.kmipa_check.specs.Calls.{AreCalls, call_of};
ghost use Rattle.kmipa_orders.specs.Found.{Finds};
ghost use Rattle.kmipa_orders.specs.Hopeless.{IsHopeless, IsHopelessAmong, IsListedWrongly, IsOff, SomePlaceOff};

use crate::candidate::Candidate;
use crate::found::Found;
use crate::laws_of_check::check_laws;
use crate::order::EARLY;
use crate::unheld::is_unheld_call;
use kmipa_attrs::Filter;
use kmipa_batch::{first_failed, is_refused_message, is_shaped_at};
use kmipa_check::CheckFault;
use kmipa_msgs::{Answer, Ask, Asked, Located, Payload, Request, Response, Status};
use kmipa_ops::{clash_bytes, is_other_number, is_over};
use kmipa_record::Call;
use std::alloc::{AllocError, Global};

/// That the answer of one call is impossible over every inventory, where one is found to be: with the steps that a search makes first.
pub fn search_hopeless(
    alloc: Global,
    calls: &[Call],
    budget: u64,
) -> Result<Option<Found>, CheckFault>
    ensures finds { (marks : List MarkOf) (declared : DeclarationOf) → AreRecorded marks
        → AreCalls marks (map call_of calls.now)
        → IfOk result (λ found. IfSome found (Finds marks declared budget)) }
    ensures memory { IfErr result (λ fault. fault ≡ CheckFault.Memory) }
{
    if budget < EARLY {
        return Ok(None);
    }
    found_hopeless(alloc, calls, EARLY)
}

/// The same, found after so many steps.
pub(crate) fn found_hopeless(
    alloc: Global,
    calls: &[Call],
    steps: u64,
) -> Result<Option<Found>, CheckFault>
    ensures finds { (marks : List MarkOf) (declared : DeclarationOf) (budget : ℕ) → steps ≤ budget → AreRecorded marks
        → AreCalls marks (map call_of calls.now)
        → IfOk result (λ found. IfSome found (Finds marks declared budget)) }
    ensures memory { IfErr result (λ fault. fault ≡ CheckFault.Memory) }
{
    check_laws();
    let Ok(hopeless) = hopeless_call(alloc, calls) else {
        return Err(CheckFault::Memory);
    };
    match hopeless {
        Some(place) => Ok(Some(Found::Impossible(steps, place))),
        None => Ok(None),
    }
}

/// The place of the first call that is found whose answer is impossible over every inventory. Nothing is promised where none is found.
fn hopeless_call(alloc: Global, calls: &[Call]) -> Result<Option<usize>, AllocError>
    ensures { IfOk result (λ place. IfSome place (IsHopelessAmong (map call_of calls.now))) }
{
    let mut place = 0;
    'calls: while place < calls.len() {
        if is_hopeless(alloc, &calls[place])? {
            return Ok(Some(place));
        }
        place += 1;
    }
    Ok(None)
}

/// Whether a call has ended, isn't refused as a whole, and a place of its answer is off, or means an ID Placeholder that was empty.
fn is_hopeless(alloc: Global, call: &Call) -> Result<bool, AllocError>
    ensures { IfOk result (λ hopeless. hopeless ≡ true → IsHopeless (call_of call.now)) }
{
    let Some(own) = Candidate::of(call) else {
        return Ok(false);
    };
    if is_refused_message(own.response) {
        return Ok(false);
    }
    if is_unheld_call(own.request, own.response) {
        return Ok(true);
    }
    is_off(alloc, own.request, own.response)
}

/// Whether a place of an answer is off.
fn is_off(alloc: Global, request: &Request, response: &Response) -> Result<bool, AllocError>
    ensures { IfOk result
        (λ off. off ≡ true → SomePlaceOff (request_of request.now) (response_of response.now)) }
{
    if is_misshapen(request, response) {
        return Ok(true);
    }
    let mut place = 0;
    'places: while place < request.items.len() && place < response.items.len() {
        if is_answer_off(alloc, &request.items[place], &response.items[place])? {
            return Ok(true);
        }
        place += 1;
    }
    Ok(false)
}

/// Whether a place hasn't its shape.
fn is_misshapen(request: &Request, response: &Response) -> bool
    ensures { result ≡ true → SomePlaceOff (request_of request.now) (response_of response.now) }
{
    let failed = first_failed(&response.items);
    for place in 0..usize::max(request.items.len(), response.items.len()) {
        if !is_shaped_at(request, response, failed, place) {
            return true;
        }
    }
    false
}

/// Whether an answer names another operation or another Unique Batch Item ID than the ask, or is a Locate that was done and is listed wrongly.
fn is_answer_off(alloc: Global, ask: &Ask, answer: &Answer) -> Result<bool, AllocError>
    ensures { IfOk result (λ off. off ≡ true → IsOff (ask_of ask.now) (answer_of answer.now)) }
{
    if is_other_number(answer.operation, ask.number()) {
        return Ok(true);
    }
    if clash_bytes(answer.batch_id, ask.batch_id) {
        return Ok(true);
    }
    match answer.status {
        Status::Failed => Ok(false),
        Status::Success | Status::Undone => is_list_off(alloc, ask, answer),
    }
}

/// Whether an answer that isn't failed is a Locate that is listed wrongly.
fn is_list_off(alloc: Global, ask: &Ask, answer: &Answer) -> Result<bool, AllocError>
    requires { answer.now.status ≢ Status.Failed }
    ensures { IfOk result (λ off. off ≡ true → IsOff (ask_of ask.now) (answer_of answer.now)) }
{
    match &ask.asked {
        Asked::Locate(locate) => match listed_in(&answer.payload) {
            Some(located) => is_listed_wrongly(alloc, &locate.filter, located.ids.as_slice()),
            None => Ok(false),
        },
        _ => Ok(false),
    }
}

/// What a payload lists, if it is one of a Locate.
fn listed_in<'a>(payload: &'a Option<Payload<'a>>) -> Option<&'a Located<'a>>
    ensures { option_map (λ x. located_of x.now) result
        ≡ option_and_then seen_located (option_map payload_of payload.now) }
{
    match payload {
        Some(Payload::Locate(located)) => Some(located),
        _ => None,
    }
}

/// Whether more is listed than the maximum, or something twice.
fn is_listed_wrongly(alloc: Global, filter: &Filter, listed: &[&str]) -> Result<bool, AllocError>
    ensures { IfOk result (λ wrong. wrong ≡ true → IsListedWrongly (filter_of filter.now) (map lent listed.now)) }
{
    if is_over(filter.maximum, listed.len()) {
        return Ok(true);
    }
    match repeated(alloc, listed)? {
        Some((first, second)) => Ok(are_one(listed, first, second)),
        None => Ok(false),
    }
}

/// Whether one identifier stands at two places.
fn are_one(listed: &[&str], first: usize, second: usize) -> bool
    ensures { result ≡ true → (id : List ℕ) × (slice_get (map lent listed.now) first ≡ Some id)
        × (slice_get (map lent listed.now) second ≡ Some id) × (first ≢ second) }
{
    if first == second {
        return false;
    }
    if first >= listed.len() {
        return false;
    }
    if second >= listed.len() {
        return false;
    }
    let one = listed[first];
    let other = listed[second];
    one == other
}

/// The places of an identifier that stands twice. Nothing is promised of them: `are_one` looks.
fn repeated(alloc: Global, listed: &[&str]) -> Result<Option<(usize, usize)>, AllocError> {
    let mut sorted = Vec::with_capacity(alloc, listed.len())?;
    for (place, id) in listed.iter().enumerate() {
        sorted.push((*id, place))?;
    }
    sorted.sort()?;
    let mut before: Option<(&str, usize)> = None;
    for (id, place) in &sorted {
        if let Some((other, first)) = before {
            if other == *id {
                return Ok(Some((first, *place)));
            }
        }
        before = Some((*id, *place));
    }
    Ok(None)
}
