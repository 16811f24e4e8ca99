//! The items of a response.

ghost use Rattle.std.specs.Prelude.{◌≡◌, map, None};
ghost use Rattle.std.specs.Option.{option_map};
ghost use Rattle.std.specs.List.{slice_get};
ghost use Rattle.kmipa_ttlv.specs.ViewTree.{view_tree, view_trees};
ghost use Rattle.kmipa_attrs.specs.Fields.{every, first, at};
ghost use Rattle.kmipa_attrs.specs.Readings.{map_ok};
ghost use Rattle.kmipa_attrs.specs.Tags.{batch_item, response_payload};
ghost use Rattle.kmipa_msgs.specs.Messages.{ask_of, payload_of, answer_of, answers_of};
ghost use Rattle.kmipa_msgs.specs.Outside.{Gives, each_in, from_one};
ghost use Rattle.kmipa_msgs.specs.Replies.{own, or_empty, status_in, is_bare, required_in, judged_in, unjudged_in, shown_in, outcome_in, outcome_of, answer_in};
ghost use Rattle.kmipa_msgs.specs.Yields.{Yields};

use crate::fault::ReadFault;
use crate::kind::OutsideKind;
use crate::operation::Operation;
use crate::reading::operations::read_done;
use crate::reading::payload::read_payload_of;
use crate::reading::rows::both_read;
use crate::reading::unread::Unread;
use crate::request::Ask;
use crate::response::{Answer, Payload, Status};
use kmipa_attrs::fields::{as_structure, bytes_at, enumeration_at, first};
use kmipa_attrs::tags::{
    BATCH_ITEM, OPERATION, RESPONSE_PAYLOAD, RESULT_REASON, RESULT_STATUS, UNIQUE_BATCH_ITEM_ID,
};
use kmipa_attrs::{Field, both};
use kmipa_ttlv::{Children, View};
use std::alloc::Global;

/// Result Status of an answer that is still to come.
const PENDING: u32 = 2;

/// The items of a message with these children, each beside the request's item at its place, up to the first that is outside;
/// there is room for `count` from the start.
pub fn read_answers<'a>(
    alloc: Global,
    count: usize,
    children: Children<'a>,
    asks: &[Ask],
) -> Result<Vec<Answer<'a>>, ReadFault>
    ensures { Gives answers_of result
        (from_one (each_in (λ place. answer_in (slice_get (map ask_of asks.now) place))
        (every batch_item (view_trees children.entry)))) }
{
    let mut answers = Vec::with_capacity(alloc, count)?;
    let mut left = children;
    'children: while let Some(child) = left.next_of(BATCH_ITEM) {
        let place = answers.len();
        match read_answer(alloc, asks.get(place), &child) {
            Ok(answer) => answers.push(answer)?,
            Err(unread) => return Err(unread.at(place + 1)),
        }
    }
    Ok(answers)
}

/// The item of a response that stands beside this item of the request, if there is one.
#[tactic(auto, unfolding(crate::specs::Replies::answer_in))]
pub fn read_answer<'a>(
    alloc: Global,
    ask: Option<&Ask>,
    view: &View<'a>,
) -> Result<Answer<'a>, Unread>
    ensures { Yields answer_of result (answer_in (option_map (λ a. ask_of a.now) ask.entry) (view_tree view.now)) }
{
    let children = as_structure(view).ok_or(OutsideKind::Missing)?;
    let named = enumeration_at(children, OPERATION);
    let own = own_operation(ask, named);
    let operation = named.optional(OutsideKind::Missing);
    let reason = enumeration_at(children, RESULT_REASON).optional(OutsideKind::Missing);
    let outcome = read_outcome(alloc, own, children);
    let ((operation, reason), (status, payload)) = both_read(both(operation, reason), outcome)?;
    Ok(Answer {
        operation,
        batch_id: bytes_at(children, UNIQUE_BATCH_ITEM_ID).value(),
        status,
        reason,
        payload,
    })
}

/// The operation whose payload may be read: the request's, where the answer names none or the same.
fn own_operation(ask: Option<&Ask>, field: Field<u32>) -> Option<Operation>
    ensures { result ≡ own (option_map (λ a. ask_of a.now) ask.entry) field }
{
    let operation = ask?.operation();
    match field {
        Field::Absent => Some(operation),
        Field::There(number) if number == operation.number() => Some(operation),
        _ => None,
    }
}

/// The status, and the payload where it is read.
fn read_outcome<'a>(
    alloc: Global,
    own: Option<Operation>,
    children: Children<'a>,
) -> Result<(Status, Option<Payload<'a>>), Unread>
    ensures { Yields outcome_of result (outcome_in own (view_trees children.entry)) }
{
    let status = status(enumeration_at(children, RESULT_STATUS))?;
    let payload = shown(alloc, own, status, children)?;
    Ok((status, payload))
}

fn status(field: Field<u32>) -> Result<Status, OutsideKind>
    ensures { result ≡ status_in field }
{
    match field {
        Field::There(PENDING) => Err(OutsideKind::Pending),
        Field::There(number) => Status::of(number).ok_or(OutsideKind::Missing),
        _ => Err(OutsideKind::Missing),
    }
}

/// The payload of an answer with these children. An operation without effect shows none, and any other that isn't judged may only fail.
fn shown<'a>(
    alloc: Global,
    own: Option<Operation>,
    status: Status,
    children: Children<'a>,
) -> Result<Option<Payload<'a>>, Unread>
    ensures { Yields (option_map payload_of) result
        (shown_in own status (first response_payload (view_trees children.entry))) }
{
    let Some(operation) = own else {
        return Ok(None);
    };
    match operation {
        Operation::Idle(_) => Ok(None),
        Operation::Other(_) => Ok(unjudged(status)?),
        _ => judged(alloc, operation, status, children),
    }
}

fn unjudged<'a>(status: Status) -> Result<Option<Payload<'a>>, OutsideKind>
    ensures { map_ok (option_map payload_of) result ≡ unjudged_in status }
{
    match status {
        Status::Failed => Ok(None),
        Status::Success | Status::Undone => Err(OutsideKind::Operation),
    }
}

/// The payload of what was done. It may be absent where it was undone, and there one without children counts as absent.
fn judged<'a>(
    alloc: Global,
    operation: Operation,
    status: Status,
    children: Children<'a>,
) -> Result<Option<Payload<'a>>, Unread>
    ensures { Yields (option_map payload_of) result
        (judged_in operation status (first response_payload (view_trees children.entry))) }
{
    match (status, first(children, RESPONSE_PAYLOAD)) {
        (Status::Failed, _) => Ok(None),
        (Status::Success, None) => absent(alloc, operation),
        (Status::Undone, None) => Ok(None),
        (Status::Undone, Some(view)) if is_empty(&view) => Ok(None),
        (_, Some(view)) => Ok(Some(read_payload_of(alloc, operation, &view)?)),
    }
}

/// What an absent payload shows of what was done: where one may be absent, as much as an empty one.
fn absent<'a>(alloc: Global, operation: Operation) -> Result<Option<Payload<'a>>, Unread>
    ensures { Yields (option_map payload_of) result (required_in operation (or_empty operation None)) }
{
    if !operation.may_be_bare() {
        return Err(Unread::Outside(OutsideKind::Missing));
    }
    Ok(Some(read_done(alloc, operation, Children::none())?))
}

/// Whether an item is a structure without children.
fn is_empty(view: &View) -> bool
    ensures { result ≡ is_bare (view_tree view.now) }
{
    match as_structure(view) {
        Some(mut children) => children.next().is_none(),
        None => false,
    }
}
