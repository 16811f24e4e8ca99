//! Get and its answer.

ghost use Rattle.std.specs.Prelude.{◌≡◌};
ghost use Rattle.kmipa_ttlv.specs.ViewTree.{view_trees};
ghost use Rattle.kmipa_attrs.specs.Fields.{at, as_enumeration};
ghost use Rattle.kmipa_attrs.specs.ObjectTypes.{type_of};
ghost use Rattle.kmipa_attrs.specs.Readings.{map_ok};
ghost use Rattle.kmipa_attrs.specs.Tags.{object_type_tag};
ghost use Rattle.kmipa_msgs.specs.Messages.{id_of, got_of};
ghost use Rattle.kmipa_msgs.specs.Tables.{maybe_listed};
ghost use Rattle.kmipa_msgs.specs.Gets.{get_in, got_in};

use crate::kind::OutsideKind;
use crate::reading::key_block::read_key_block;
use crate::reading::object::read_object;
use crate::reading::rows::unless_there;
use crate::request::Get;
use crate::response::Got;
use kmipa_attrs::fields::{enumeration_at, text_at};
use kmipa_attrs::tags::{KEY_WRAPPING_SPECIFICATION, OBJECT_TYPE, UNIQUE_IDENTIFIER};
use kmipa_attrs::{Field, ObjectType, both};
use kmipa_ttlv::Children;

/// What the children of a Get's Request Payload ask for.
#[tactic(auto, unfolding(crate::specs::Gets::get_in))]
pub fn read_get<'a>(payload: Children<'a>) -> Result<Get<'a>, OutsideKind>
    ensures { map_ok id_of result ≡ get_in (view_trees payload.entry) }
{
    let unwrapped = unless_there(payload, KEY_WRAPPING_SPECIFICATION, OutsideKind::Wrapped);
    let id = text_at(payload, UNIQUE_IDENTIFIER).optional(OutsideKind::IdentifierForm);
    let (_, id) = both(unwrapped, id)?;
    Ok(Get { id })
}

/// What the children of a Get's Response Payload show.
pub fn read_got<'a>(payload: Children<'a>) -> Result<Got<'a>, OutsideKind>
    ensures { map_ok got_of result ≡ got_in (view_trees payload.entry) }
{
    let id = text_at(payload, UNIQUE_IDENTIFIER).optional(OutsideKind::IdentifierForm);
    let (shape, block) = read_object(payload);
    let types = both(type_shown(payload), shape);
    let block = read_key_block(block);
    let (((object_type, shape), id), block) = both(both(types, id), block)?;
    Ok(Got {
        object_type,
        shape,
        id,
        block,
    })
}

fn type_shown(payload: Children) -> Result<Option<ObjectType>, OutsideKind>
    ensures { result ≡ maybe_listed
        (at as_enumeration object_type_tag
        (view_trees payload.entry)) type_of OutsideKind.Missing OutsideKind.ObjectType }
{
    match enumeration_at(payload, OBJECT_TYPE) {
        Field::There(number) => {
            let object_type = ObjectType::of(number).ok_or(OutsideKind::ObjectType)?;
            Ok(Some(object_type))
        }
        Field::Absent => Ok(None),
        Field::Wrong => Err(OutsideKind::Missing),
    }
}
