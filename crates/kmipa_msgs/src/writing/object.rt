//! Objects: Symmetric Key and Secret Data.

ghost use Rattle.std.specs.Prelude.{◌≡◌, IfOk};
ghost use Rattle.kmipa_ttlv.specs.ItemTree.{tree};
ghost use Rattle.kmipa_msgs.specs.Messages.{block_of};
ghost use Rattle.kmipa_msgs.specs.WrittenKeys.{written_object};

use super::fields::Fields;
use super::key_block::write_block;
use crate::key_block::KeyBlock;
use kmipa_attrs::ObjectType;
use kmipa_attrs::tags::{SECRET_DATA, SYMMETRIC_KEY};
use kmipa_ttlv::Item;
use std::alloc::{AllocError, Global};

/// An object of a type, with its Key Block.
pub(super) fn write_object(
    alloc: Global,
    object_type: ObjectType,
    block: &KeyBlock,
) -> Result<Item, AllocError>
    ensures { IfOk result (λ item. tree item ≡ written_object object_type (block_of block.now)) }
{
    let mut fields = Fields::new(alloc);
    fields.item(write_block(alloc, block)?)?;
    match object_type {
        ObjectType::SymmetricKey => Ok(fields.structure(SYMMETRIC_KEY)),
        ObjectType::SecretData => Ok(fields.structure(SECRET_DATA)),
    }
}
