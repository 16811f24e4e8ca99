//! How the Response Payload of an answer is read.

ghost use Rattle.std.specs.Prelude.{◌≡◌, ◌++◌, IfOk, is_some};
ghost use Rattle.std.specs.Option.{option_map};
ghost use Rattle.kmipa_ttlv.specs.ViewTree.{view_tree, view_trees};
ghost use Rattle.kmipa_attrs.specs.Fields.{map_field};
ghost use Rattle.kmipa_msgs.specs.Messages.{ask_of};
ghost use Rattle.kmipa_msgs.specs.Replies.{filled, is_bare, own};
ghost use Rattle.kmipa_outside.specs.DoneDemands.{answer_demands};
ghost use Rattle.kmipa_outside.specs.Responses.{judged_as, outcome_demands, shape_wanted, shown_as, shown_demands, shown_in, status_in};

use crate::demand::{Demand, Inside, Numbers, Step, Wanted, wants};
use crate::done_demands::answer_demands;
use crate::operations::may_be_bare;
use crate::tables::{done_demands, joined};
use crate::types::ItemType;
use kmipa_attrs::Field;
use kmipa_attrs::fields::{as_structure, enumeration_at, first};
use kmipa_attrs::tags::{OPERATION, RESPONSE_PAYLOAD, RESULT_STATUS};
use kmipa_msgs::{Ask, Operation, OutsideKind, Status};
use kmipa_ttlv::{Children, View};
use std::alloc::{AllocError, Global};

/// How the Response Payload of an answer is read.
#[derive(Clone, Copy)]
pub(crate) enum Shown {
    /// It isn't.
    Unread,
    /// It isn't, since its operation isn't judged; such an operation may only fail.
    Unjudged,
    /// As that of an operation, and whether it has to be there.
    Judged(Operation, bool),
}

/// How the payload of an answer with these children is read, beside the request's item at its place.
pub(crate) fn shown_in(ask: Option<&Ask>, children: Children) -> Shown
    ensures { result ≡ shown_in (option_map (λ a. ask_of a.now) ask.entry) (view_trees children.entry) }
{
    let own = own_operation(ask, enumeration_at(children, OPERATION));
    shown_as(own, status_in(children), first(children, RESPONSE_PAYLOAD))
}

/// The operation whose payload may be read: the request's, where the answer names none or the same.
fn own_operation(ask: Option<&Ask>, field: Field<u32>) -> Option<Operation>
    ensures { result ≡ own (option_map (λ a. ask_of a.now) ask.entry) field }
{
    let operation = ask?.operation();
    match field {
        Field::Absent => Some(operation),
        Field::There(number) if number == operation.number() => Some(operation),
        _ => None,
    }
}

/// The Result Status, where it is one.
fn status_in(children: Children) -> Option<Status>
    ensures { result ≡ status_in (view_trees children.entry) }
{
    Status::of(enumeration_at(children, RESULT_STATUS).value()?)
}

fn shown_as(own: Option<Operation>, status: Option<Status>, payload: Option<View>) -> Shown
    ensures { result ≡ shown_as own status (option_map view_tree payload.entry) }
{
    let Some(operation) = own else {
        return Shown::Unread;
    };
    let Some(status) = status else {
        return Shown::Unread;
    };
    match operation {
        Operation::Idle(_) => Shown::Unread,
        Operation::Other(_) => Shown::Unjudged,
        _ => judged_as(operation, status, payload),
    }
}

/// The same of an operation that is judged.
fn judged_as(operation: Operation, status: Status, payload: Option<View>) -> Shown
    ensures { result ≡ judged_as operation status (option_map view_tree payload.entry) }
{
    match status {
        Status::Success => Shown::Judged(operation, !may_be_bare(operation)),
        Status::Failed => Shown::Unread,
        Status::Undone if is_filled(payload) => Shown::Judged(operation, false),
        Status::Undone => Shown::Unread,
    }
}

/// Whether a payload is there, and not without children.
fn is_filled(payload: Option<View>) -> bool
    ensures { result ≡ is_some (filled (option_map view_tree payload.entry)) }
{
    match payload {
        Some(view) => !is_bare(&view),
        None => false,
    }
}

/// Whether an item is a structure without children.
fn is_bare(view: &View) -> bool
    ensures { result ≡ is_bare (view_tree view.now) }
{
    match as_structure(view) {
        Some(mut children) => children.next().is_none(),
        None => false,
    }
}

/// The demands on an answer itself.
pub(crate) fn own_demands(alloc: Global, shown: Shown) -> Result<Vec<Demand>, AllocError>
    ensures { IfOk result (λ demands. demands.items ≡ answer_demands ++ outcome_demands shown) }
{
    match shown {
        Shown::Unread => Vec::from_slice(alloc, &answer_demands()),
        Shown::Unjudged => joined(
            alloc,
            &answer_demands(),
            &[wants(
                Inside::Here,
                Step::Tag(RESULT_STATUS),
                Wanted::OneOf(Numbers::Failure),
                OutsideKind::Operation,
            )],
        ),
        Shown::Judged(_, required) => joined(
            alloc,
            &answer_demands(),
            &[wants(
                Inside::Here,
                Step::Tag(RESPONSE_PAYLOAD),
                shape_wanted(required),
                OutsideKind::Missing,
            )],
        ),
    }
}

fn shape_wanted(required: bool) -> Wanted
    ensures { result ≡ shape_wanted required }
{
    if required {
        Wanted::Typed(ItemType::Structure)
    } else {
        Wanted::MaybeTyped(ItemType::Structure)
    }
}

/// The demands on its Response Payload, where there is one.
pub(crate) fn shown_demands(
    alloc: Global,
    shown: Shown,
    payload: Field<Children>,
) -> Result<Vec<Demand>, AllocError>
    ensures { IfOk result (λ demands. demands.items ≡ shown_demands shown (map_field view_trees payload.entry)) }
{
    match (shown, payload) {
        (Shown::Judged(operation, _), Field::There(_)) => done_demands(alloc, operation),
        _ => Ok(Vec::new(alloc)),
    }
}
