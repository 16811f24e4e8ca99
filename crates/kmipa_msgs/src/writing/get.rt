//! Get: what is asked for, and its answer.

ghost use Rattle.std.specs.Prelude.{◌≡◌, IfOk};
ghost use Rattle.kmipa_ttlv.specs.Tree.{structure};
ghost use Rattle.kmipa_ttlv.specs.ItemTree.{tree};
ghost use Rattle.kmipa_attrs.specs.Tags.{request_payload, response_payload};
ghost use Rattle.kmipa_msgs.specs.Messages.{maybe_lent, got_of};
ghost use Rattle.kmipa_msgs.specs.WrittenFields.{in_order, identifier_fields};
ghost use Rattle.kmipa_msgs.specs.Gets.{got_fields};

use super::fields::Fields;
use super::object::write_object;
use crate::request::Get;
use crate::response::Got;
use kmipa_attrs::ObjectType;
use kmipa_attrs::tags::{OBJECT_TYPE, REQUEST_PAYLOAD, RESPONSE_PAYLOAD, UNIQUE_IDENTIFIER};
use kmipa_ttlv::Item;
use std::alloc::{AllocError, Global};

/// The Request Payload of a Get.
pub(super) fn write_get(alloc: Global, get: &Get) -> Result<Item, AllocError>
    ensures { IfOk result
        (λ item. tree item ≡ structure request_payload (in_order (identifier_fields (maybe_lent get.now.id)))) }
{
    let mut fields = Fields::new(alloc);
    fields.text(UNIQUE_IDENTIFIER, get.id)?;
    Ok(fields.structure(REQUEST_PAYLOAD))
}

/// The Response Payload of a Get.
pub(super) fn write_got(alloc: Global, got: &Got) -> Result<Item, AllocError>
    ensures { IfOk result (λ item. tree item ≡ structure response_payload (in_order (got_fields (got_of got.now)))) }
{
    let mut fields = Fields::new(alloc);
    fields.enumeration(OBJECT_TYPE, got.object_type.map(ObjectType::number))?;
    fields.text(UNIQUE_IDENTIFIER, got.id)?;
    fields.item(write_object(alloc, got.shape, &got.block)?)?;
    Ok(fields.structure(RESPONSE_PAYLOAD))
}
