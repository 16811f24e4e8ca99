//! The types of values that single-valued attributes hold.

ghost use Rattle.std.specs.Prelude.{◌≡◌, Option};
ghost use Rattle.kmipa_ttlv.specs.Tree.{Tree, Scalar, scalar};
ghost use Rattle.kmipa_ttlv.specs.Tree;
ghost use Rattle.kmipa_ttlv.specs.ItemTree.{tree};
ghost use Rattle.kmipa_ttlv.specs.ViewTree.{view_tree};
ghost use Rattle.kmipa_attrs.specs.Fields.{as_integer, as_enumeration, as_date};

use crate::fields::{as_date, as_enumeration, as_integer};
use kmipa_ttlv::{Item, Tag, View};

/// A value as it stands in an item: a `u32` as Enumeration, an `i32` as Integer, an `i64` as Date-Time.
pub(crate) trait Held: Copy {
    ghost how: { Tree → Option Self };

    ghost made: { Self → Scalar };

    /// The value of a view of this type.
    fn of(view: &View) -> Option<Self>
        ensures { result ≡ how (view_tree view.now) };

    /// The item with this value.
    fn item(self, tag: Tag) -> Item
        ensures { tree result ≡ scalar tag.number (made self) };
}

impl Held for u32 {
    ghost how = { as_enumeration };

    ghost made = { Tree.enumeration };

    fn of(view: &View) -> Option<u32> {
        as_enumeration(view)
    }

    fn item(self, tag: Tag) -> Item {
        Item::enumeration(tag, self)
    }
}

impl Held for i32 {
    ghost how = { as_integer };

    ghost made = { Tree.integer };

    fn of(view: &View) -> Option<i32> {
        as_integer(view)
    }

    fn item(self, tag: Tag) -> Item {
        Item::integer(tag, self)
    }
}

impl Held for i64 {
    ghost how = { as_date };

    ghost made = { Tree.date_time };

    fn of(view: &View) -> Option<i64> {
        as_date(view)
    }

    fn item(self, tag: Tag) -> Item {
        Item::date_time(tag, self)
    }
}
