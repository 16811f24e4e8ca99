//! Locate and its answer.

ghost use Rattle.std.specs.Prelude.{◌≡◌};
ghost use Rattle.kmipa_ttlv.specs.ViewTree.{view_trees};
ghost use Rattle.kmipa_attrs.specs.Fields.{map_field};
ghost use Rattle.kmipa_attrs.specs.Filters.{filter_of, filter_in, is_repeated};
ghost use Rattle.kmipa_msgs.specs.Messages.{locate_of, located_of};
ghost use Rattle.kmipa_msgs.specs.Tables.{unless_wrong};
ghost use Rattle.kmipa_msgs.specs.Locates.{is_unknown, some_unknown, has_unknown, filter_kind, locate_in, located_in};
ghost use Rattle.kmipa_msgs.specs.Yields.{Yields};

use crate::kind::OutsideKind;
use crate::reading::attributes::type_known;
use crate::reading::rows::{both_read, unless_wrong};
use crate::reading::unread::Unread;
use crate::request::Locate;
use crate::response::Located;
use kmipa_attrs::fields::{as_text, children_in, integer_at, structure_at};
use kmipa_attrs::tags::{ATTRIBUTES, MAXIMUM_ITEMS, UNIQUE_IDENTIFIER};
use kmipa_attrs::{Field, Filter, both, read_filter_children};
use kmipa_ttlv::Children;
use std::alloc::Global;

/// What the children of a Locate's Request Payload ask for.
pub fn read_locate(alloc: Global, payload: Children) -> Result<Locate, Unread>
    ensures { Yields locate_of result (locate_in (view_trees payload.entry)) }
{
    let given = structure_at(payload, ATTRIBUTES);
    let inner = children_in(given);
    let maximum = integer_at(payload, MAXIMUM_ITEMS);
    let count = unless_wrong(maximum, OutsideKind::Missing);
    let shape = both(count, attributes_shape(given));
    let plain = both(shape, type_known(inner));
    let filter = sought(alloc, inner, maximum.value(), has_unknown(payload));
    let (_, filter) = both_read(plain, filter)?;
    Ok(Locate {
        filter: Box::new(alloc, filter)?,
    })
}

/// That Attributes are a structure, where they are there.
fn attributes_shape(given: Field<Children>) -> Result<(), OutsideKind>
    ensures { result ≡ unless_wrong (map_field view_trees given.entry) OutsideKind.Missing }
{
    match given {
        Field::Wrong => Err(OutsideKind::Missing),
        _ => Ok(()),
    }
}

/// The filter that the children of Attributes say beside a Maximum Items and whether there is an unknown item.
fn sought(
    alloc: Global,
    attributes: Children,
    maximum: Option<i32>,
    is_unknown: bool,
) -> Result<Filter, Unread>
    ensures { Yields filter_of result (filter_kind (filter_in maximum is_unknown (view_trees attributes.entry))) }
{
    Ok(read_filter_children(alloc, attributes, maximum, is_unknown)?)
}

/// Whether there is an item beside one Maximum Items and one Attributes.
fn has_unknown(payload: Children) -> bool
    ensures { result ≡ has_unknown (view_trees payload.entry) }
{
    some_unknown(payload)
        || (is_repeated(payload, MAXIMUM_ITEMS) || is_repeated(payload, ATTRIBUTES))
}

/// Whether a second child has the tag.
fn is_repeated(payload: Children, tag: u32) -> bool
    ensures { result ≡ is_repeated tag (view_trees payload.entry) }
{
    payload.count_of(tag) > 1
}

/// Whether some item is neither Maximum Items nor Attributes.
fn some_unknown(payload: Children) -> bool
    ensures { result ≡ some_unknown (view_trees payload.entry) }
{
    let mut left = payload;
    'children: while let Some(child) = left.next() {
        if is_unknown(child.tag.number) {
            return true;
        }
    }
    false
}

fn is_unknown(tag: u32) -> bool
    ensures { result ≡ is_unknown tag }
{
    !(tag == MAXIMUM_ITEMS || tag == ATTRIBUTES)
}

/// The identifiers that the children of a Locate's Response Payload list.
pub fn read_located<'a>(alloc: Global, payload: Children<'a>) -> Result<Located<'a>, Unread>
    ensures { Yields located_of result (located_in (view_trees payload.entry)) }
{
    let mut ids = Vec::with_capacity(alloc, payload.count_of(UNIQUE_IDENTIFIER))?;
    let mut left = payload;
    'children: while let Some(child) = left.next_of(UNIQUE_IDENTIFIER) {
        let Some(id) = as_text(&child) else {
            return Err(Unread::Outside(OutsideKind::IdentifierForm));
        };
        ids.push(id)?;
    }
    Ok(Located { ids })
}
