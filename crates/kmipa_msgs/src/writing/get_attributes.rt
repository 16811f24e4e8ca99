//! Get Attributes: what is asked for, and its answer.

ghost use Rattle.std.specs.Prelude.{◌≡◌, IfOk};
ghost use Rattle.kmipa_ttlv.specs.Tree.{structure};
ghost use Rattle.kmipa_ttlv.specs.ItemTree.{tree};
ghost use Rattle.kmipa_attrs.specs.Tags.{request_payload, response_payload};
ghost use Rattle.kmipa_msgs.specs.Messages.{get_attributes_of, got_attributes_of};
ghost use Rattle.kmipa_msgs.specs.WrittenFields.{in_order};
ghost use Rattle.kmipa_msgs.specs.GetsAttributes.{get_attributes_fields, got_attributes_fields};

use super::fields::Fields;
use crate::request::GetAttributes;
use crate::response::GotAttributes;
use kmipa_attrs::tags::{
    ATTRIBUTE_REFERENCE, REQUEST_PAYLOAD, RESPONSE_PAYLOAD, UNIQUE_IDENTIFIER,
};
use kmipa_attrs::write_attrs;
use kmipa_ttlv::Item;
use std::alloc::{AllocError, Global};

/// The Request Payload of a Get Attributes, with the references that have a tag.
pub(super) fn write_get_attributes(alloc: Global, get: &GetAttributes) -> Result<Item, AllocError>
    ensures { IfOk result
        (λ item. tree item ≡ structure request_payload (in_order (get_attributes_fields (get_attributes_of get.now)))) }
{
    let mut fields = Fields::new(alloc);
    fields.text(UNIQUE_IDENTIFIER, get.id)?;
    for tag in &get.references {
        fields.enumeration(ATTRIBUTE_REFERENCE, Some(*tag))?;
    }
    Ok(fields.structure(REQUEST_PAYLOAD))
}

/// The Response Payload of a Get Attributes. Its Attributes are there also where they are empty.
pub(super) fn write_got_attributes(alloc: Global, got: &GotAttributes) -> Result<Item, AllocError>
    ensures { IfOk result
        (λ item. tree item
        ≡ structure response_payload (in_order (got_attributes_fields (got_attributes_of got.now)))) }
{
    let mut fields = Fields::new(alloc);
    fields.text(UNIQUE_IDENTIFIER, got.id)?;
    fields.item(write_attrs(alloc, &got.attributes)?)?;
    Ok(fields.structure(RESPONSE_PAYLOAD))
}
