//! What a call leaves that can't be read.

ghost use Rattle.std.specs.Prelude.{◌≡◌, IfOk, option_map, map};
ghost use Rattle.kmipa_ttlv.specs.ViewTree.{view_tree, view_trees};
ghost use Rattle.kmipa_attrs.specs.Fields.{every, inside};
ghost use Rattle.kmipa_attrs.specs.Tags.{batch_item, request_payload};
ghost use Rattle.kmipa_msgs.specs.Tables.{children};
ghost use Rattle.kmipa_passed.specs.Identifiers.{asked_of, identifier_asked};
ghost use Rattle.kmipa_passed.specs.Leaving.{aside_of};
ghost use Rattle.kmipa_passed.specs.Names.{named_in};
ghost use Rattle.kmipa_places.specs.Calls.{message_of};
ghost use Rattle.kmipa_places.specs.Places.{number_in, operation_at};
ghost use Rattle.kmipa_places.specs.Unread.{all_failed, answered, aside_by, asked, counted, is_end, left, left_by, may_be_pending, names_with, only_named, or_nothing, shown_first, some_end, some_pending, touched, touched_in};

use crate::item::{children_of, operation_at};
use crate::opened::allows_pending;
use crate::outcomes::{has_failed, is_pending, outcome_at};
use crate::passed::number_in;
use kmipa_attrs::fields::inside;
use kmipa_attrs::tags::{
    BATCH_ITEM, REQUEST_HEADER, REQUEST_MESSAGE, REQUEST_PAYLOAD, RESPONSE_HEADER,
    RESPONSE_MESSAGE, RESPONSE_PAYLOAD,
};
use kmipa_msgs::{is_count, item_count, message_parts};
use kmipa_passed::{Asked, SetAside, Sort, identifier_asked, sort_of, texts_named};
use kmipa_ttlv::{Children, View};
use std::alloc::{AllocError, Global};

/// What a call leaves that can't be read, by its request and its response, each none where its bytes aren't exactly one item.
pub fn left<'a>(
    alloc: Global,
    request: Option<&View<'a>>,
    response: Option<&View<'a>>,
) -> Result<SetAside<'a>, AllocError>
    ensures { IfOk result (λ a. aside_of a ≡ left (message_of request.entry) (message_of response.entry)) }
{
    let answers = answered(response);
    if all_failed(answers) {
        return Ok(SetAside::These(Vec::new(alloc)));
    }
    left_by(alloc, asked(request), may_be_pending(request), answers)
}

/// The children of a request whose items are counted.
pub(crate) fn asked<'a>(request: Option<&View<'a>>) -> Option<Children<'a>>
    ensures { option_map (λ c. every batch_item (view_trees c)) result ≡ asked (message_of request.entry) }
{
    counted(request?, REQUEST_MESSAGE, REQUEST_HEADER)
}

/// The children of a response whose items are counted.
pub(crate) fn answered<'a>(response: Option<&View<'a>>) -> Option<Children<'a>>
    ensures { option_map (λ c. every batch_item (view_trees c)) result ≡ answered (message_of response.entry) }
{
    counted(response?, RESPONSE_MESSAGE, RESPONSE_HEADER)
}

/// The children of a message, whatever its version; none where it is no message, or its Batch Count isn't that of its items.
fn counted<'a>(message: &View<'a>, tag: u32, header: u32) -> Option<Children<'a>>
    ensures { option_map (λ c. every batch_item (view_trees c)) result ≡ counted tag header (view_tree message.now) }
{
    let (children, header) = message_parts(message, tag, header)?;
    if !is_count(header, item_count(children)) {
        return None;
    }
    Some(children)
}

/// Whether the header of a request allows an answer that is still to come.
fn may_be_pending(request: Option<&View>) -> bool
    ensures { result ≡ may_be_pending (message_of request.entry) }
{
    match request {
        Some(request) => allows_pending(inside(children_of(request), REQUEST_HEADER)),
        None => false,
    }
}

/// Whether each answer failed.
fn all_failed(answers: Option<Children>) -> bool
    ensures { result ≡ all_failed (option_map (λ c. every batch_item (view_trees c)) answers.entry) }
{
    let Some(mut left) = answers else {
        return false;
    };
    'items: while let Some(answer) = left.next_of(BATCH_ITEM) {
        if !has_failed(outcome_at(&answer)) {
            return false;
        }
    }
    true
}

/// Whether some answer is still to come.
fn some_pending(answers: Option<Children>) -> bool
    ensures { result ≡ some_pending (option_map (λ c. every batch_item (view_trees c)) answers.entry) }
{
    let Some(mut left) = answers else {
        return false;
    };
    'items: while let Some(answer) = left.next_of(BATCH_ITEM) {
        if is_pending(outcome_at(&answer)) {
            return true;
        }
    }
    false
}

/// What is left, by the items of the request, whether it allows an answer to come, and the answers.
fn left_by<'a>(
    alloc: Global,
    asked: Option<Children<'a>>,
    pending: bool,
    answers: Option<Children<'a>>,
) -> Result<SetAside<'a>, AllocError>
    ensures { IfOk result (λ a. aside_of a ≡ left_by
        (option_map (λ c. every batch_item (view_trees c)) asked.entry) pending
        (option_map (λ c. every batch_item (view_trees c)) answers.entry)) }
{
    let Some(items) = asked else {
        return Ok(SetAside::All);
    };
    if some_end(items) || some_pending(answers) || (answers.is_none() && pending) {
        return Ok(SetAside::Over);
    }
    touched_in(alloc, items, or_none(answers))
}

/// The children that are there.
pub(crate) fn or_none<'a>(children: Option<Children<'a>>) -> Children<'a>
    ensures { every batch_item (view_trees result)
        ≡ or_nothing (option_map (λ c. every batch_item (view_trees c)) children.entry) }
{
    match children {
        Some(children) => children,
        None => Children::none(),
    }
}

/// Whether an item of a request with these children ends judging.
fn some_end(children: Children) -> bool
    ensures { result ≡ some_end (every batch_item (view_trees children.entry)) }
{
    let mut left = children;
    'items: while let Some(item) = left.next_of(BATCH_ITEM) {
        if is_end(sort_of(asks(&item), payload_of(&item))) {
            return true;
        }
    }
    false
}

fn is_end(sort: Sort) -> bool
    ensures { result ≡ is_end sort }
{
    matches!(sort, Sort::EndsJudging)
}

/// The number of the operation that an item asks for.
fn asks(item: &View) -> u32
    ensures { result ≡ number_in (operation_at (view_tree item.now)) }
{
    number_in(operation_at(item))
}

/// The children of the Request Payload of an item.
fn payload_of<'a>(item: &View<'a>) -> Children<'a>
    ensures { view_trees result ≡ inside request_payload (children (view_tree item.now)) }
{
    inside(children_of(item), REQUEST_PAYLOAD)
}

/// Which objects the items may have changed or made; all, where nobody can tell of one.
fn touched_in<'a>(
    alloc: Global,
    asked: Children<'a>,
    answered: Children<'a>,
) -> Result<SetAside<'a>, AllocError>
    ensures { IfOk result (λ a. aside_of a ≡ aside_by
        (touched_in (every batch_item (view_trees asked.entry)) (every batch_item (view_trees answered.entry)))) }
{
    let mut ids = Vec::new(alloc);
    let mut left = asked;
    let mut answers = answered;
    'items: while let Some(item) = left.next_of(BATCH_ITEM) {
        let shown = shown_by(answers.next_of(BATCH_ITEM));
        let Some(names) = touched(alloc, &item, shown)? else {
            return Ok(SetAside::All);
        };
        ids.extend_from_slice(&names)?;
    }
    Ok(SetAside::These(ids))
}

/// The object that an answer shows first, if there is one.
fn shown_by<'a>(answer: Option<View<'a>>) -> Asked<'a>
    ensures { asked_of result ≡ shown_first (option_map view_tree answer.entry) }
{
    match answer {
        Some(answer) => identifier_asked(inside(children_of(&answer), RESPONSE_PAYLOAD)),
        None => Asked::Placeholder,
    }
}

/// Which objects an item may have changed or made, whose answer shows this one; none where nobody can tell.
fn touched<'a>(
    alloc: Global,
    item: &View<'a>,
    shown: Asked<'a>,
) -> Result<Option<Vec<&'a str>>, AllocError>
    ensures { IfOk result (λ o. option_map (λ v. map (λ s. s.now) v.items) o
        ≡ touched (view_tree item.now) (asked_of shown.entry)) }
{
    let payload = payload_of(item);
    match sort_of(asks(item), payload) {
        Sort::Looks | Sort::EndsJudging => Ok(Some(Vec::new(alloc))),
        Sort::Changes => changed(alloc, payload),
        Sort::Makes => made(alloc, shown),
        Sort::MayMake => Ok(None),
    }
}

/// The objects that a payload names, where it asks for one of them.
fn changed<'a>(alloc: Global, payload: Children<'a>) -> Result<Option<Vec<&'a str>>, AllocError>
    ensures { IfOk result (λ o. option_map (λ v. map (λ s. s.now) v.items) o
        ≡ names_with (identifier_asked (view_trees payload.entry)) (named_in (view_trees payload.entry))) }
{
    match identifier_asked(payload) {
        Asked::Named(_) => Ok(Some(texts_named(alloc, payload)?)),
        Asked::Placeholder | Asked::Unnamed => Ok(None),
    }
}

/// The object that is shown.
fn made<'a>(alloc: Global, shown: Asked<'a>) -> Result<Option<Vec<&'a str>>, AllocError>
    ensures { IfOk result (λ o. option_map (λ v. map (λ s. s.now) v.items) o ≡ only_named (asked_of shown.entry)) }
{
    match shown {
        Asked::Named(id) => {
            let mut ids = Vec::new(alloc);
            ids.push(id)?;
            Ok(Some(ids))
        }
        Asked::Placeholder | Asked::Unnamed => Ok(None),
    }
}
