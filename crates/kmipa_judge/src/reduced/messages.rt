//! Messages of which some items are left out.

use super::items::Part;
use super::scope::Scope;
use kmipa_attrs::tags::{
    BATCH_COUNT, BATCH_ITEM, MAXIMUM_ITEMS, REQUEST_HEADER, REQUEST_PAYLOAD, RESPONSE_HEADER,
    RESPONSE_PAYLOAD, UNIQUE_IDENTIFIER,
};
use kmipa_orders::spelling_of;
use kmipa_ttlv::{Children, Item, View, ViewValue, copy_item};
use std::alloc::{AllocError, Global};

/// The tag of Located Items.
const LOCATED_ITEMS: u32 = 0x42_00D5;

/// The bytes of a message with these of its items alone. None where it can't be spelled.
pub(crate) fn with_parts<'a>(
    alloc: Global,
    scope: Scope<'_, 'a>,
    message: &View<'a>,
    parts: &[Part],
) -> Result<Option<Vec<u8>>, AllocError> {
    let item = message_of(alloc, scope, message, parts)?;
    spelling_of(alloc, &item)
}

fn message_of<'a>(
    alloc: Global,
    scope: Scope<'_, 'a>,
    message: &View<'a>,
    parts: &[Part],
) -> Result<Item, AllocError> {
    let mut children = Vec::new(alloc);
    let mut place = 0usize;
    'children: for child in views_in(alloc, message)?.iter() {
        if child.tag.number == BATCH_ITEM {
            if let Some(part) = part_at(parts, place) {
                children.push(item_of(alloc, scope, child, part)?)?;
            }
            place = place.saturating_add(1);
        } else {
            children.push(header_of(alloc, child, parts.len())?)?;
        }
    }
    Ok(Item::structure(message.tag, children))
}

/// The children of an item.
fn views_in<'a>(alloc: Global, item: &View<'a>) -> Result<Vec<View<'a>>, AllocError> {
    let mut views = Vec::new(alloc);
    if let ViewValue::Structure(children) = &item.value {
        push_views(*children, &mut views)?;
    }
    Ok(views)
}

fn push_views<'a>(children: Children<'a>, views: &mut Vec<View<'a>>) -> Result<(), AllocError> {
    let mut left = children;
    'children: while let Some(child) = left.next() {
        views.push(child)?;
    }
    Ok(())
}

/// The item at a place, where it is among these.
fn part_at(parts: &[Part], place: usize) -> Option<Part> {
    'parts: for part in parts {
        if part.place == place {
            return Some(*part);
        }
    }
    None
}

/// The header of a message with so many items, or another child as it is.
fn header_of(alloc: Global, child: &View, count: usize) -> Result<Item, AllocError> {
    if child.tag.number != REQUEST_HEADER && child.tag.number != RESPONSE_HEADER {
        return copy_item(alloc, child);
    }
    let count = i32::try_from(count).unwrap_or(i32::MAX);
    let mut fields = Vec::new(alloc);
    'fields: for field in views_in(alloc, child)?.iter() {
        if field.tag.number == BATCH_COUNT {
            fields.push(Item::integer(field.tag, count))?;
        } else {
            fields.push(copy_item(alloc, field)?)?;
        }
    }
    Ok(Item::structure(child.tag, fields))
}

/// An item, shortened where it is to be.
fn item_of<'a>(
    alloc: Global,
    scope: Scope<'_, 'a>,
    item: &View<'a>,
    part: Part,
) -> Result<Item, AllocError> {
    if !part.shortened {
        return copy_item(alloc, item);
    }
    let mut fields = Vec::new(alloc);
    'fields: for field in views_in(alloc, item)?.iter() {
        if field.tag.number == REQUEST_PAYLOAD || field.tag.number == RESPONSE_PAYLOAD {
            fields.push(payload_of(alloc, scope, field, part)?)?;
        } else {
            fields.push(copy_item(alloc, field)?)?;
        }
    }
    Ok(Item::structure(item.tag, fields))
}

/// The payload of a Locate or of its answer, without what is listed out of the scope.
fn payload_of<'a>(
    alloc: Global,
    scope: Scope<'_, 'a>,
    payload: &View<'a>,
    part: Part,
) -> Result<Item, AllocError> {
    let mut fields = Vec::new(alloc);
    'fields: for field in views_in(alloc, payload)?.iter() {
        match (field.tag.number, part.maximum) {
            (MAXIMUM_ITEMS, Some(maximum)) => fields.push(Item::integer(field.tag, maximum))?,
            (LOCATED_ITEMS, _) => {}
            (UNIQUE_IDENTIFIER, _) if is_out(scope, field) => {}
            _ => fields.push(copy_item(alloc, field)?)?,
        }
    }
    Ok(Item::structure(payload.tag, fields))
}

/// Whether an identifier is one of an object out of the scope.
fn is_out<'a>(scope: Scope<'_, 'a>, identifier: &View<'a>) -> bool {
    match &identifier.value {
        ViewValue::Text(id) => scope.leaves_out(id),
        _ => false,
    }
}
