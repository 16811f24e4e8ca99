//! Key Blocks.

ghost use Rattle.std.specs.Prelude.{◌≡◌, IfOk};
ghost use Rattle.kmipa_ttlv.specs.ItemTree.{tree};
ghost use Rattle.kmipa_msgs.specs.Messages.{block_of};
ghost use Rattle.kmipa_msgs.specs.WrittenKeys.{written_value, written_block};

use super::fields::Fields;
use crate::key_block::KeyBlock;
use kmipa_attrs::tags::{
    CRYPTOGRAPHIC_ALGORITHM, CRYPTOGRAPHIC_LENGTH, KEY_BLOCK, KEY_FORMAT_TYPE, KEY_MATERIAL,
    KEY_VALUE,
};
use kmipa_ttlv::Item;
use std::alloc::{AllocError, Global};

/// Key Block.
pub(super) fn write_block(alloc: Global, block: &KeyBlock) -> Result<Item, AllocError>
    ensures { IfOk result (λ item. tree item ≡ written_block (block_of block.now)) }
{
    let mut fields = Fields::new(alloc);
    fields.enumeration(KEY_FORMAT_TYPE, Some(block.format.number()))?;
    fields.item(write_value(alloc, block.material)?)?;
    fields.enumeration(CRYPTOGRAPHIC_ALGORITHM, block.algorithm)?;
    fields.integer(CRYPTOGRAPHIC_LENGTH, block.length)?;
    Ok(fields.structure(KEY_BLOCK))
}

/// Key Value.
fn write_value(alloc: Global, material: &[u8]) -> Result<Item, AllocError>
    ensures { IfOk result (λ item. tree item ≡ written_value material.now) }
{
    let mut fields = Fields::new(alloc);
    fields.bytes(KEY_MATERIAL, Some(material))?;
    Ok(fields.structure(KEY_VALUE))
}
