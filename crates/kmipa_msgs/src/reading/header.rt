//! What the headers of requests and responses share.

ghost use Rattle.std.specs.Prelude.{◌≡◌, length};
ghost use Rattle.kmipa_ttlv.specs.ViewTree.{view_tree, view_trees};
ghost use Rattle.kmipa_attrs.specs.Fields.{every};
ghost use Rattle.kmipa_attrs.specs.Tags.{batch_item};
ghost use Rattle.kmipa_msgs.specs.Headers.{is_number, is_version, counts, is_count, Opens};

use kmipa_attrs::Field;
use kmipa_attrs::fields::{as_structure, inside, integer_at, structure_at};
use kmipa_attrs::tags::{
    BATCH_COUNT, BATCH_ITEM, PROTOCOL_VERSION, PROTOCOL_VERSION_MAJOR, PROTOCOL_VERSION_MINOR,
};
use kmipa_ttlv::{Children, View};

/// The children of a message and those of its header, where the item is the message with this tag.
pub fn message_parts<'a>(
    message: &View<'a>,
    tag: u32,
    header: u32,
) -> Option<(Children<'a>, Children<'a>)>
    ensures { Opens tag header (view_tree message.now) result }
{
    if message.tag.number != tag {
        return None;
    }
    let Some(children) = as_structure(message) else {
        return None;
    };
    match structure_at(children, header) {
        Field::There(inner) => Some((children, inner)),
        _ => None,
    }
}

/// How many Batch Items there are.
pub fn item_count(children: Children) -> usize
    ensures { result ≡ length (every batch_item (view_trees children.entry)) }
{
    children.count_of(BATCH_ITEM)
}

/// Whether the Protocol Version in a header is 2.1.
#[inline(always)]
pub fn is_version(header: Children) -> bool
    ensures { result ≡ is_version (view_trees header.entry) }
{
    let version = inside(header, PROTOCOL_VERSION);
    is_number(integer_at(version, PROTOCOL_VERSION_MAJOR), 2)
        && is_number(integer_at(version, PROTOCOL_VERSION_MINOR), 1)
}

/// Whether the Batch Count in a header is the number of items, and there are some.
pub fn is_count(header: Children, items: usize) -> bool
    ensures { result ≡ is_count (view_trees header.entry) items }
{
    match integer_at(header, BATCH_COUNT) {
        Field::There(count) => counts(count, items),
        _ => false,
    }
}

fn counts(count: i32, items: usize) -> bool
    ensures { result ≡ counts count items }
{
    count > 0 && count.unsigned_abs() as usize == items
}

fn is_number(field: Field<i32>, number: i32) -> bool
    ensures { result ≡ is_number field number }
{
    match field {
        Field::There(value) => value == number,
        _ => false,
    }
}
