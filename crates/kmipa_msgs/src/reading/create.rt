//! Create.

ghost use Rattle.std.specs.Prelude.{◌≡◌};
ghost use Rattle.kmipa_ttlv.specs.ViewTree.{view_trees};
ghost use Rattle.kmipa_attrs.specs.Fields.{at, as_enumeration};
ghost use Rattle.kmipa_attrs.specs.Sets.{attributes_of};
ghost use Rattle.kmipa_attrs.specs.Tags.{object_type_tag};
ghost use Rattle.kmipa_msgs.specs.Tables.{listed};
ghost use Rattle.kmipa_msgs.specs.Creates.{created_of, is_of_key, described_rows, new_key_in, create_in};
ghost use Rattle.kmipa_msgs.specs.Yields.{Yields};

use crate::kind::OutsideKind;
use crate::reading::attributes::{agree, read_attributes, type_known};
use crate::reading::rows::{both_read, unless_absent};
use crate::reading::unread::Unread;
use crate::request::Create;
use kmipa_attrs::fields::{children_in, enumeration_at, structure_at};
use kmipa_attrs::tags::{
    ATTRIBUTES, CRYPTOGRAPHIC_ALGORITHM, CRYPTOGRAPHIC_LENGTH, CRYPTOGRAPHIC_USAGE_MASK,
    OBJECT_TYPE,
};
use kmipa_attrs::{AttrSet, Field, ObjectType, Side, both};
use kmipa_ttlv::Children;
use std::alloc::Global;

/// What the children of a Create's Request Payload ask for.
#[tactic(auto, unfolding(crate::specs::Creates::create_in))]
pub fn read_create(alloc: Global, payload: Children) -> Result<Create, Unread>
    ensures { Yields (λ c. attributes_of c.attributes.value) result (create_in (view_trees payload.entry)) }
{
    let attributes = read_new_key(alloc, payload)?;
    if !is_of_key(&attributes) {
        return Err(Unread::Outside(OutsideKind::Disagree));
    }
    Ok(Create {
        attributes: Box::new(alloc, attributes)?,
    })
}

/// The attributes of the new key, before its type is compared.
fn read_new_key(alloc: Global, payload: Children) -> Result<AttrSet, Unread>
    ensures { Yields attributes_of result (new_key_in (view_trees payload.entry)) }
{
    let given = structure_at(payload, ATTRIBUTES);
    let inner = children_in(given);
    let types = both(type_created(payload), type_known(inner));
    let plain = both(types, described(inner));
    let (_, attributes) = both_read(plain, read_attributes(alloc, given, Side::Client))?;
    Ok(attributes)
}

/// The Object Type of what is created: a Symmetric Key.
fn type_created(payload: Children) -> Result<ObjectType, OutsideKind>
    ensures { result ≡ listed
        (at as_enumeration object_type_tag
        (view_trees payload.entry)) created_of OutsideKind.Missing OutsideKind.ObjectType }
{
    match enumeration_at(payload, OBJECT_TYPE) {
        Field::There(number) if number == ObjectType::SymmetricKey.number() => {
            Ok(ObjectType::SymmetricKey)
        }
        Field::There(_) => Err(OutsideKind::ObjectType),
        _ => Err(OutsideKind::Missing),
    }
}

/// That there are an algorithm, a length and a usage mask.
fn described(attributes: Children) -> Result<(((), ()), ()), OutsideKind>
    ensures { result ≡ described_rows (view_trees attributes.entry) }
{
    let algorithm = unless_absent(attributes, CRYPTOGRAPHIC_ALGORITHM, OutsideKind::Missing);
    let length = unless_absent(attributes, CRYPTOGRAPHIC_LENGTH, OutsideKind::Missing);
    let mask = unless_absent(attributes, CRYPTOGRAPHIC_USAGE_MASK, OutsideKind::Missing);
    both(both(algorithm, length), mask)
}

/// Whether an Object Type attribute is a Symmetric Key's.
fn is_of_key(attributes: &AttrSet) -> bool
    ensures { result ≡ is_of_key (attributes_of attributes.now) }
{
    agree(
        attributes.object_type,
        Some(ObjectType::SymmetricKey.number()),
    )
}
