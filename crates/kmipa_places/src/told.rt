//! Items of requests, which may mean the ID Placeholder by the Enumeration 1 (KMIP 2.1, section 11).

ghost use Rattle.std.specs.Prelude.{◌≡◌};
ghost use Rattle.std.specs.Option.{option_map};
ghost use Rattle.kmipa_ttlv.specs.ViewTree.{view_tree, view_trees};
ghost use Rattle.kmipa_attrs.specs.Fields.{first};
ghost use Rattle.kmipa_attrs.specs.Tags.{unique_identifier};
ghost use Rattle.kmipa_msgs.specs.Asks.{item_in};
ghost use Rattle.kmipa_msgs.specs.Messages.{ask_of};
ghost use Rattle.kmipa_msgs.specs.Yields.{Yields};
ghost use Rattle.kmipa_places.specs.Readings.{item_beside, told_operation};
ghost use Rattle.kmipa_places.specs.Told.{is_placeholder, is_some_placeholder, told};

use crate::item::{children_of, operation_at};
use kmipa_attrs::Field;
use kmipa_attrs::fields::{bytes_at, first, inside};
use kmipa_attrs::tags::{REQUEST_PAYLOAD, UNIQUE_BATCH_ITEM_ID, UNIQUE_IDENTIFIER};
use kmipa_msgs::{Ask, Operation, OutsideKind, Unread, read_asked_beside, read_item};
use kmipa_ttlv::{Children, View, ViewValue};
use std::alloc::Global;

/// The Enumeration by which a request means the ID Placeholder.
const ID_PLACEHOLDER: u32 = 1;

/// What an item of a request with or without order asks for: the Enumeration that means the ID Placeholder is read as no identifier.
pub fn read_told<'a>(alloc: Global, unordered: bool, item: &View<'a>) -> Result<Ask<'a>, Unread>
    ensures { Yields ask_of result (item_in unordered (told (view_tree item.now))) }
{
    match told_operation(item) {
        Some(operation) => read_beside(alloc, unordered, operation, item),
        None => read_item(alloc, unordered, item),
    }
}

/// The operation of an item that means the ID Placeholder so.
fn told_operation(item: &View) -> Option<Operation>
    ensures { result ≡ told_operation (view_tree item.now) }
{
    let Field::There(number) = operation_at(item) else {
        return None;
    };
    let operation = Operation::of(number);
    let payload = inside(children_of(item), REQUEST_PAYLOAD);
    if operation.is_on_object() && means_placeholder(payload) {
        Some(operation)
    } else {
        None
    }
}

/// Whether the Unique Identifier of a payload is the Enumeration that means the ID Placeholder.
fn means_placeholder(payload: Children) -> bool
    ensures { result ≡ is_some_placeholder (first unique_identifier (view_trees payload.entry)) }
{
    match first(payload, UNIQUE_IDENTIFIER) {
        Some(identifier) => is_placeholder(&identifier),
        None => false,
    }
}

fn is_placeholder(identifier: &View) -> bool
    ensures { result ≡ is_placeholder (view_tree identifier.now) }
{
    match &identifier.value {
        ViewValue::Enumeration(number) => *number == ID_PLACEHOLDER,
        ViewValue::Structure(_)
        | ViewValue::Integer(_)
        | ViewValue::LongInteger(_)
        | ViewValue::BigInteger(_)
        | ViewValue::Boolean(_)
        | ViewValue::Text(_)
        | ViewValue::Bytes(_)
        | ViewValue::DateTime(_)
        | ViewValue::Interval(_)
        | ViewValue::DateTimeExtended(_) => false,
    }
}

/// What such an item asks for: in a request without order it may not stand.
fn read_beside<'a>(
    alloc: Global,
    unordered: bool,
    operation: Operation,
    item: &View<'a>,
) -> Result<Ask<'a>, Unread>
    ensures { Yields ask_of result (item_beside unordered operation (view_tree item.now)) }
{
    let children = children_of(item);
    let asked = read_asked_beside(alloc, operation, inside(children, REQUEST_PAYLOAD))?;
    if unordered {
        return Err(Unread::Outside(OutsideKind::Unordered));
    }
    Ok(Ask {
        batch_id: bytes_at(children, UNIQUE_BATCH_ITEM_ID).value(),
        asked,
    })
}
