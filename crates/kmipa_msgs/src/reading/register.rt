//! Register and its answer.

ghost use Rattle.std.specs.Prelude.{◌≡◌};
ghost use Rattle.kmipa_ttlv.specs.ViewTree.{view_trees};
ghost use Rattle.kmipa_attrs.specs.Fields.{at, as_enumeration};
ghost use Rattle.kmipa_attrs.specs.ObjectTypes.{type_of};
ghost use Rattle.kmipa_attrs.specs.Readings.{map_ok};
ghost use Rattle.kmipa_attrs.specs.Tags.{object_type_tag};
ghost use Rattle.kmipa_msgs.specs.Messages.{register_of, registered_of};
ghost use Rattle.kmipa_msgs.specs.Tables.{listed};
ghost use Rattle.kmipa_msgs.specs.Brought.{brought_of};
ghost use Rattle.kmipa_msgs.specs.Registers.{brought_in, register_in, registered_in};
ghost use Rattle.kmipa_msgs.specs.Yields.{Yields};

use crate::kind::OutsideKind;
use crate::reading::attributes::{read_attributes, type_known};
use crate::reading::brought::Brought;
use crate::reading::key_block::read_key_block;
use crate::reading::object::read_object;
use crate::reading::rows::both_read;
use crate::reading::unread::Unread;
use crate::request::Register;
use crate::response::Registered;
use kmipa_attrs::fields::{children_in, enumeration_at, structure_at, text_at};
use kmipa_attrs::tags::{ATTRIBUTES, OBJECT_TYPE, UNIQUE_IDENTIFIER};
use kmipa_attrs::{Field, ObjectType, Side, both};
use kmipa_ttlv::Children;
use std::alloc::Global;

/// What the children of a Register's Request Payload bring.
#[tactic(auto, unfolding(crate::specs::Registers::register_in))]
pub fn read_register<'a>(alloc: Global, payload: Children<'a>) -> Result<Register<'a>, Unread>
    ensures { Yields register_of result (register_in (view_trees payload.entry)) }
{
    let brought = read_brought(alloc, payload)?;
    if !brought.agrees() {
        return Err(Unread::Outside(OutsideKind::Disagree));
    }
    Ok(Register {
        object_type: brought.object_type,
        attributes: Box::new(alloc, brought.attributes)?,
        block: brought.block,
    })
}

fn read_brought<'a>(alloc: Global, payload: Children<'a>) -> Result<Brought<'a>, Unread>
    ensures { Yields brought_of result (brought_in (view_trees payload.entry)) }
{
    let (shape, block) = read_object(payload);
    let given = structure_at(payload, ATTRIBUTES);
    let types = both(type_brought(payload), shape);
    let type_known = type_known(children_in(given));
    let plain = both(both(types, type_known), read_key_block(block));
    let rows = both_read(plain, read_attributes(alloc, given, Side::Client));
    let ((((object_type, shape), _), block), attributes) = rows?;
    Ok(Brought {
        object_type,
        shape,
        attributes,
        block,
    })
}

fn type_brought(payload: Children) -> Result<ObjectType, OutsideKind>
    ensures { result ≡ listed
        (at as_enumeration object_type_tag
        (view_trees payload.entry)) type_of OutsideKind.Missing OutsideKind.ObjectType }
{
    match enumeration_at(payload, OBJECT_TYPE) {
        Field::There(number) => ObjectType::of(number).ok_or(OutsideKind::ObjectType),
        _ => Err(OutsideKind::Missing),
    }
}

/// What the children of the Response Payload of a Create or a Register say.
#[tactic(auto, unfolding(crate::specs::Registers::registered_in))]
pub fn read_registered<'a>(payload: Children<'a>) -> Result<Registered<'a>, OutsideKind>
    ensures { map_ok registered_of result ≡ registered_in (view_trees payload.entry) }
{
    let object_type = enumeration_at(payload, OBJECT_TYPE).optional(OutsideKind::Missing);
    let id = text_at(payload, UNIQUE_IDENTIFIER).needed(
        OutsideKind::Missing,
        OutsideKind::IdentifierForm,
    );
    let (object_type, id) = both(object_type, id)?;
    Ok(Registered { object_type, id })
}
