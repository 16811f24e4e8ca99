//! Register: what is brought, and its answer.

ghost use Rattle.std.specs.Prelude.{◌≡◌, IfOk};
ghost use Rattle.kmipa_ttlv.specs.Tree.{structure};
ghost use Rattle.kmipa_ttlv.specs.ItemTree.{tree};
ghost use Rattle.kmipa_attrs.specs.Tags.{request_payload, response_payload};
ghost use Rattle.kmipa_msgs.specs.Messages.{register_of, registered_of};
ghost use Rattle.kmipa_msgs.specs.WrittenFields.{in_order};
ghost use Rattle.kmipa_msgs.specs.Registers.{register_fields, registered_fields};

use super::fields::Fields;
use super::object::write_object;
use crate::request::Register;
use crate::response::Registered;
use kmipa_attrs::tags::{OBJECT_TYPE, REQUEST_PAYLOAD, RESPONSE_PAYLOAD, UNIQUE_IDENTIFIER};
use kmipa_attrs::write_attrs;
use kmipa_ttlv::Item;
use std::alloc::{AllocError, Global};

/// The Request Payload of a Register. Its Attributes are there also where they are empty.
pub(super) fn write_register(alloc: Global, register: &Register) -> Result<Item, AllocError>
    ensures { IfOk result
        (λ item. tree item ≡ structure request_payload (in_order (register_fields (register_of register.now)))) }
{
    let mut fields = Fields::new(alloc);
    fields.enumeration(OBJECT_TYPE, Some(register.object_type.number()))?;
    fields.item(write_attrs(alloc, &register.attributes)?)?;
    fields.item(write_object(alloc, register.object_type, &register.block)?)?;
    Ok(fields.structure(REQUEST_PAYLOAD))
}

/// The Response Payload of a Create or a Register.
pub(super) fn write_registered(alloc: Global, registered: &Registered) -> Result<Item, AllocError>
    ensures { IfOk result
        (λ item. tree item ≡ structure response_payload (in_order (registered_fields (registered_of registered.now)))) }
{
    let mut fields = Fields::new(alloc);
    fields.enumeration(OBJECT_TYPE, registered.object_type)?;
    fields.text(UNIQUE_IDENTIFIER, Some(registered.id))?;
    Ok(fields.structure(RESPONSE_PAYLOAD))
}
