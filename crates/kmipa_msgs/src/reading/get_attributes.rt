//! Get Attributes and its answer.

ghost use Rattle.std.specs.Prelude.{◌≡◌, IfOk};
ghost use Rattle.kmipa_ttlv.specs.ViewTree.{view_tree, view_trees};
ghost use Rattle.kmipa_msgs.specs.Messages.{get_attributes_of, got_attributes_of};
ghost use Rattle.kmipa_msgs.specs.GetsAttributes.{references, is_selective, as_reference, is_other, some_other, has_others, get_attributes_in, got_attributes_in};
ghost use Rattle.kmipa_msgs.specs.Yields.{Yields};

use crate::reading::attributes::{read_attributes, type_known};
use crate::reading::identifier::read_identifier;
use crate::reading::rows::both_read;
use crate::reading::unread::Unread;
use crate::request::GetAttributes;
use crate::response::GotAttributes;
use kmipa_attrs::fields::{as_enumeration, children_in, first, structure_at};
use kmipa_attrs::tags::{ATTRIBUTE_REFERENCE, ATTRIBUTES, UNIQUE_IDENTIFIER};
use kmipa_attrs::{Side, both};
use kmipa_ttlv::{Children, View};
use std::alloc::{AllocError, Global};

/// What the children of a Get Attributes's Request Payload ask for.
#[tactic(auto, unfolding(crate::specs::GetsAttributes::get_attributes_in))]
pub fn read_get_attributes<'a>(
    alloc: Global,
    payload: Children<'a>,
) -> Result<GetAttributes<'a>, Unread>
    ensures { Yields get_attributes_of result (get_attributes_in (view_trees payload.entry)) }
{
    Ok(GetAttributes {
        id: read_identifier(payload)?,
        references: read_references(alloc, payload)?,
        is_selective: is_selective(payload),
        has_others: has_others(payload),
    })
}

/// The tags that Attribute References name as Enumerations.
pub fn read_references(alloc: Global, payload: Children) -> Result<Vec<u32>, AllocError>
    ensures { IfOk result (λ tags. tags.items ≡ references (view_trees payload.entry)) }
{
    let mut tags = Vec::new(alloc);
    let mut left = payload;
    'children: while let Some(child) = left.next_of(ATTRIBUTE_REFERENCE) {
        if let Some(tag) = as_enumeration(&child) {
            tags.push(tag)?;
        }
    }
    Ok(tags)
}

/// The tag that an Attribute Reference names as an Enumeration.
fn reference(view: &View) -> Option<u32>
    ensures { result ≡ as_reference (view_tree view.now) }
{
    if view.tag.number == ATTRIBUTE_REFERENCE {
        as_enumeration(view)
    } else {
        None
    }
}

/// Whether there is an Attribute Reference of any type.
pub fn is_selective(payload: Children) -> bool
    ensures { result ≡ is_selective (view_trees payload.entry) }
{
    first(payload, ATTRIBUTE_REFERENCE).is_some()
}

/// Whether there is an item beside the identifier and Attribute References as Enumerations.
pub fn has_others(payload: Children) -> bool
    ensures { result ≡ has_others (view_trees payload.entry) }
{
    some_other(payload) || payload.count_of(UNIQUE_IDENTIFIER) > 1
}

fn some_other(payload: Children) -> bool
    ensures { result ≡ some_other (view_trees payload.entry) }
{
    let mut left = payload;
    'children: while let Some(child) = left.next() {
        if is_other(&child) {
            return true;
        }
    }
    false
}

/// Whether an item is neither an identifier nor an Attribute Reference as an Enumeration.
fn is_other(view: &View) -> bool
    ensures { result ≡ is_other (view_tree view.now) }
{
    view.tag.number != UNIQUE_IDENTIFIER && reference(view).is_none()
}

/// What the children of a Get Attributes's Response Payload show.
#[tactic(auto, unfolding(crate::specs::GetsAttributes::got_attributes_in))]
pub fn read_got_attributes<'a>(
    alloc: Global,
    payload: Children<'a>,
) -> Result<GotAttributes<'a>, Unread>
    ensures { Yields got_attributes_of result (got_attributes_in (view_trees payload.entry)) }
{
    let given = structure_at(payload, ATTRIBUTES);
    let type_known = type_known(children_in(given));
    let id = read_identifier(payload);
    let attributes = read_attributes(alloc, given, Side::Server);
    let ((_, id), attributes) = both_read(both(type_known, id), attributes)?;
    Ok(GotAttributes {
        id,
        attributes: Box::new(alloc, attributes)?,
    })
}
