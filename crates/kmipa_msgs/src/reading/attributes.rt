//! The Attributes of payloads.

ghost use Rattle.std.specs.Prelude.{◌≡◌};
ghost use Rattle.kmipa_ttlv.specs.ViewTree.{view_trees};
ghost use Rattle.kmipa_attrs.specs.Fields.{at, as_enumeration, map_field};
ghost use Rattle.kmipa_attrs.specs.ObjectTypes.{type_of};
ghost use Rattle.kmipa_attrs.specs.Sets.{attributes_of};
ghost use Rattle.kmipa_attrs.specs.Tags.{object_type_tag};
ghost use Rattle.kmipa_msgs.specs.Tables.{unless_unlisted};
ghost use Rattle.kmipa_msgs.specs.AttributeFields.{agree, given_in};
ghost use Rattle.kmipa_msgs.specs.Yields.{Yields};

use crate::kind::OutsideKind;
use crate::reading::unread::Unread;
use kmipa_attrs::fields::enumeration_at;
use kmipa_attrs::tags::OBJECT_TYPE;
use kmipa_attrs::{AttrSet, Field, ObjectType, Side, read_children};
use kmipa_ttlv::Children;
use std::alloc::Global;

/// The attributes that a side gives in a payload's Attributes; where those are absent there are none.
pub fn read_attributes(alloc: Global, given: Field<Children>, side: Side) -> Result<AttrSet, Unread>
    ensures { Yields attributes_of result (given_in side (map_field view_trees given.entry)) }
{
    match given {
        Field::There(children) => Ok(read_children(alloc, children, side)?),
        Field::Absent => Ok(AttrSet::new(alloc)),
        Field::Wrong => Err(Unread::Outside(OutsideKind::Missing)),
    }
}

/// That an Object Type attribute has a number of a judged type.
pub fn type_known(attributes: Children) -> Result<(), OutsideKind>
    ensures { result ≡ unless_unlisted
        (at as_enumeration object_type_tag (view_trees attributes.entry)) type_of OutsideKind.ObjectType }
{
    match enumeration_at(attributes, OBJECT_TYPE) {
        Field::There(number) if ObjectType::of(number).is_none() => Err(OutsideKind::ObjectType),
        _ => Ok(()),
    }
}

/// Whether two values are the same where both are there.
pub fn agree<T: PartialEq + Copy>(one: Option<T>, other: Option<T>) -> bool
    ensures { result ≡ agree T.eq one other }
{
    match (one, other) {
        (Some(one), Some(other)) => one == other,
        _ => true,
    }
}
