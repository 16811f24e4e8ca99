//! Create: what is asked for.

ghost use Rattle.std.specs.Prelude.{◌≡◌, IfOk};
ghost use Rattle.kmipa_ttlv.specs.Tree.{structure};
ghost use Rattle.kmipa_ttlv.specs.ItemTree.{tree};
ghost use Rattle.kmipa_attrs.specs.Sets.{attributes_of};
ghost use Rattle.kmipa_attrs.specs.Tags.{request_payload};
ghost use Rattle.kmipa_msgs.specs.WrittenFields.{in_order};
ghost use Rattle.kmipa_msgs.specs.Creates.{create_fields};

use super::fields::Fields;
use crate::request::Create;
use kmipa_attrs::tags::{OBJECT_TYPE, REQUEST_PAYLOAD};
use kmipa_attrs::{ObjectType, write_attrs};
use kmipa_ttlv::Item;
use std::alloc::{AllocError, Global};

/// The Request Payload of a Create.
pub(super) fn write_create(alloc: Global, create: &Create) -> Result<Item, AllocError>
    ensures { IfOk result
        (λ item. tree item
        ≡ structure request_payload (in_order (create_fields (attributes_of create.now.attributes.value)))) }
{
    let mut fields = Fields::new(alloc);
    fields.enumeration(OBJECT_TYPE, Some(ObjectType::SymmetricKey.number()))?;
    fields.item(write_attrs(alloc, &create.attributes)?)?;
    Ok(fields.structure(REQUEST_PAYLOAD))
}
