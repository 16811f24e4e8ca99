//! Where the fields of headers, items and payloads stand.

ghost use Rattle.std.specs.Prelude.{◌≡◌};
ghost use Rattle.std.specs.Option.{option_map};
ghost use Rattle.kmipa_ttlv.specs.ViewTree.{view_tree, view_trees};
ghost use Rattle.kmipa_attrs.specs.Fields.{as_structure, inside, or_none};
ghost use Rattle.kmipa_attrs.specs.Tags.{key_block};
ghost use Rattle.kmipa_msgs.specs.Objects.{is_object, object_in, block_inside};
ghost use Rattle.kmipa_outside.specs.Demands.{all_at, first_in, inward};

use crate::demand::{Inside, Step};
use kmipa_attrs::fields::{as_structure, first, inside};
use kmipa_attrs::tags::{
    ATTRIBUTES, KEY_BLOCK, KEY_VALUE, PROTOCOL_VERSION, REVOCATION_REASON, SECRET_DATA,
    SYMMETRIC_KEY,
};
use kmipa_ttlv::{Children, View};

/// The children of the structure that a field stands in, from those of the header, the item or the payload.
pub(crate) fn inward<'a>(children: Children<'a>, place: Inside) -> Children<'a>
    ensures { view_trees result ≡ inward place (view_trees children.entry) }
{
    match place {
        Inside::Here => children,
        Inside::Version => inside(children, PROTOCOL_VERSION),
        Inside::Attributes => inside(children, ATTRIBUTES),
        Inside::Revocation => inside(children, REVOCATION_REASON),
        Inside::Block => block_inside(children),
        Inside::Value => inside(block_inside(children), KEY_VALUE),
    }
}

/// The first of the children that a step finds.
pub(crate) fn first_at<'a>(children: Children<'a>, step: Step) -> Option<View<'a>>
    ensures { option_map view_tree result ≡ first_in (all_at step (view_trees children.entry)) }
{
    match step {
        Step::Tag(tag) => first(children, tag),
        Step::Object => object(children),
    }
}

/// The children of the Key Block of a payload's object.
pub(crate) fn block_inside<'a>(payload: Children<'a>) -> Children<'a>
    ensures { view_trees result ≡ block_inside (view_trees payload.entry) }
{
    match object(payload) {
        Some(view) => block_of(&view),
        None => Children::none(),
    }
}

/// The children of an object's Key Block.
fn block_of<'a>(object: &View<'a>) -> Children<'a>
    ensures { view_trees result ≡ inside key_block (or_none (as_structure (view_tree object.now))) }
{
    match as_structure(object) {
        Some(children) => inside(children, KEY_BLOCK),
        None => Children::none(),
    }
}

/// The first child with either of the tags of objects.
pub(crate) fn object<'a>(payload: Children<'a>) -> Option<View<'a>>
    ensures { option_map view_tree result ≡ object_in (view_trees payload.entry) }
{
    let mut left = payload;
    'children: while let Some(child) = left.next() {
        if is_object(child.tag.number) {
            return Some(child);
        }
    }
    None
}

fn is_object(tag: u32) -> bool
    ensures { result ≡ is_object tag }
{
    tag == SYMMETRIC_KEY || tag == SECRET_DATA
}
