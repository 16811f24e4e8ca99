//! The items of a request.

ghost use Rattle.std.specs.Prelude.{◌≡◌};
ghost use Rattle.kmipa_ttlv.specs.ViewTree.{view_tree, view_trees};
ghost use Rattle.kmipa_attrs.specs.Fields.{every, map_field};
ghost use Rattle.kmipa_attrs.specs.Tags.{batch_item};
ghost use Rattle.kmipa_msgs.specs.Messages.{asked_of, ask_of, asks_of};
ghost use Rattle.kmipa_msgs.specs.Outside.{Gives, each_in, from_one};
ghost use Rattle.kmipa_msgs.specs.Asks.{operation_in, form_in, payload_asked, ask_in, item_in, means_placeholder};
ghost use Rattle.kmipa_msgs.specs.Yields.{Yields};

use crate::fault::ReadFault;
use crate::kind::OutsideKind;
use crate::operation::Operation;
use crate::reading::operations::read_asked;
use crate::reading::rows::both_read;
use crate::reading::unread::Unread;
use crate::request::{Ask, Asked};
use kmipa_attrs::Field;
use kmipa_attrs::fields::{as_structure, bytes_at, children_in, enumeration_at, structure_at};
use kmipa_attrs::tags::{BATCH_ITEM, OPERATION, REQUEST_PAYLOAD, UNIQUE_BATCH_ITEM_ID};
use kmipa_ttlv::{Children, View};
use std::alloc::Global;

/// The items of a message with these children, up to the first that is outside; there is room for `count` from the start.
pub fn read_asks<'a>(
    alloc: Global,
    unordered: bool,
    count: usize,
    children: Children<'a>,
) -> Result<Vec<Ask<'a>>, ReadFault>
    ensures { Gives asks_of result
        (from_one (each_in (λ place. item_in unordered) (every batch_item (view_trees children.entry)))) }
{
    let mut asks = Vec::with_capacity(alloc, count)?;
    let mut left = children;
    'children: while let Some(child) = left.next_of(BATCH_ITEM) {
        match read_item(alloc, unordered, &child) {
            Ok(ask) => asks.push(ask)?,
            Err(unread) => return Err(unread.at(asks.len() + 1)),
        }
    }
    Ok(asks)
}

/// An item of a request; in one without order no item may mean the ID Placeholder.
pub fn read_item<'a>(alloc: Global, unordered: bool, view: &View<'a>) -> Result<Ask<'a>, Unread>
    ensures { Yields ask_of result (item_in unordered (view_tree view.now)) }
{
    let ask = read_ask(alloc, view)?;
    if unordered && means_placeholder(&ask) {
        return Err(Unread::Outside(OutsideKind::Unordered));
    }
    Ok(ask)
}

/// Whether an operation on an object names none, so that the ID Placeholder is meant.
fn means_placeholder(ask: &Ask) -> bool
    ensures { result ≡ means_placeholder (ask_of ask.now).asked }
{
    ask.operation().is_on_object() && ask.asked.id().is_none()
}

#[tactic(auto, unfolding(crate::specs::Asks::ask_in))]
fn read_ask<'a>(alloc: Global, view: &View<'a>) -> Result<Ask<'a>, Unread>
    ensures { Yields ask_of result (ask_in (view_tree view.now)) }
{
    let children = as_structure(view).ok_or(OutsideKind::Missing)?;
    let operation = operation(children)?;
    let asked = read_request_payload(alloc, operation, children)?;
    Ok(Ask {
        batch_id: bytes_at(children, UNIQUE_BATCH_ITEM_ID).value(),
        asked,
    })
}

fn operation(children: Children) -> Result<Operation, OutsideKind>
    ensures { result ≡ operation_in (view_trees children.entry) }
{
    match enumeration_at(children, OPERATION) {
        Field::There(number) => Ok(Operation::of(number)),
        _ => Err(OutsideKind::Missing),
    }
}

/// What an item's Request Payload asks for; an absent one is read as empty.
fn read_request_payload<'a>(
    alloc: Global,
    operation: Operation,
    children: Children<'a>,
) -> Result<Asked<'a>, Unread>
    ensures { Yields asked_of result (payload_asked operation (view_trees children.entry)) }
{
    let payload = structure_at(children, REQUEST_PAYLOAD);
    let shape = payload_shape(operation, payload);
    let asked = read_asked(alloc, operation, children_in(payload));
    let (_, asked) = both_read(shape, asked)?;
    Ok(asked)
}

/// That a Request Payload is a structure, where it is read.
fn payload_shape(operation: Operation, payload: Field<Children>) -> Result<(), OutsideKind>
    ensures { result ≡ form_in operation (map_field view_trees payload.entry) }
{
    if !operation.is_judged() {
        return Ok(());
    }
    match payload {
        Field::Wrong => Err(OutsideKind::Missing),
        _ => Ok(()),
    }
}
