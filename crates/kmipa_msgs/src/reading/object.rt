//! The object of a payload.

ghost use Rattle.std.specs.Prelude.{◌≡◌};
ghost use Rattle.std.specs.Option.{option_map};
ghost use Rattle.kmipa_ttlv.specs.ViewTree.{view_tree, view_trees};
ghost use Rattle.kmipa_attrs.specs.Fields.{as_structure, inside, or_none};
ghost use Rattle.kmipa_attrs.specs.Readings.{needed};
ghost use Rattle.kmipa_attrs.specs.Tags.{key_block};
ghost use Rattle.kmipa_msgs.specs.Objects.{is_object, object_in, shape_of, shape_in, block_inside};

use crate::kind::OutsideKind;
use kmipa_attrs::ObjectType;
use kmipa_attrs::fields::{as_structure, inside};
use kmipa_attrs::tags::{KEY_BLOCK, SECRET_DATA, SYMMETRIC_KEY};
use kmipa_ttlv::{Children, View};

/// The type that the object's tag tells, and the children of its Key Block.
pub fn read_object<'a>(payload: Children<'a>) -> (Result<ObjectType, OutsideKind>, Children<'a>)
    ensures shape { result.0 ≡ needed (shape_in (view_trees payload.entry)) OutsideKind.Missing OutsideKind.Missing }
    ensures block { view_trees result.1 ≡ block_inside (view_trees payload.entry) }
{
    match object(payload) {
        Some(view) => (Ok(shape_of(view.tag.number)), block_of(&view)),
        None => (Err(OutsideKind::Missing), Children::none()),
    }
}

/// The children of an object's Key Block.
fn block_of<'a>(object: &View<'a>) -> Children<'a>
    ensures { view_trees result ≡ inside key_block (or_none (as_structure (view_tree object.now))) }
{
    match as_structure(object) {
        Some(children) => inside(children, KEY_BLOCK),
        None => Children::none(),
    }
}

/// The first child with either of the two tags.
fn object<'a>(payload: Children<'a>) -> Option<View<'a>>
    ensures { option_map view_tree result ≡ object_in (view_trees payload.entry) }
{
    let mut left = payload;
    'children: while let Some(child) = left.next() {
        if is_object(child.tag.number) {
            return Some(child);
        }
    }
    None
}

fn is_object(tag: u32) -> bool
    ensures { result ≡ is_object tag }
{
    tag == SYMMETRIC_KEY || tag == SECRET_DATA
}

fn shape_of(tag: u32) -> ObjectType
    ensures { result ≡ shape_of tag }
{
    if tag == SYMMETRIC_KEY {
        ObjectType::SymmetricKey
    } else {
        ObjectType::SecretData
    }
}
