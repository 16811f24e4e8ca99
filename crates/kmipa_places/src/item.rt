//! Items of messages.

ghost use Rattle.std.specs.Prelude.{◌≡◌};
ghost use Rattle.kmipa_ttlv.specs.ViewTree.{view_tree, view_trees};
ghost use Rattle.kmipa_msgs.specs.Tables.{children};
ghost use Rattle.kmipa_places.specs.Places.{operation_at};

use kmipa_attrs::Field;
use kmipa_attrs::fields::{as_structure, enumeration_at};
use kmipa_attrs::tags::OPERATION;
use kmipa_ttlv::{Children, View};

/// The children of an item, none where it isn't a structure.
pub fn children_of<'a>(item: &View<'a>) -> Children<'a>
    ensures { view_trees result ≡ children (view_tree item.now) }
{
    match as_structure(item) {
        Some(children) => children,
        None => Children::none(),
    }
}

/// The Operation of an item.
pub fn operation_at(item: &View) -> Field<u32>
    ensures { result ≡ operation_at (view_tree item.now) }
{
    enumeration_at(children_of(item), OPERATION)
}
