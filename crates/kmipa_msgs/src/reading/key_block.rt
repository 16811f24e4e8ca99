//! Key blocks.

ghost use Rattle.std.specs.Prelude.{◌≡◌};
ghost use Rattle.kmipa_ttlv.specs.ViewTree.{view_trees};
ghost use Rattle.kmipa_attrs.specs.Fields.{at, as_enumeration, map_field};
ghost use Rattle.kmipa_attrs.specs.Readings.{map_ok};
ghost use Rattle.kmipa_attrs.specs.Tags.{key_format_type};
ghost use Rattle.kmipa_msgs.specs.Messages.{block_of};
ghost use Rattle.kmipa_msgs.specs.Numbers.{format_of};
ghost use Rattle.kmipa_msgs.specs.Tables.{listed, there};
ghost use Rattle.kmipa_msgs.specs.KeyBlocks.{block_in};

use crate::key_block::{KeyBlock, KeyFormat};
use crate::kind::OutsideKind;
use crate::reading::rows::unless_there;
use kmipa_attrs::fields::{bytes_at, children_in, enumeration_at, integer_at, structure_at};
use kmipa_attrs::tags::{
    CRYPTOGRAPHIC_ALGORITHM, CRYPTOGRAPHIC_LENGTH, KEY_FORMAT_TYPE, KEY_MATERIAL, KEY_VALUE,
    KEY_WRAPPING_DATA,
};
use kmipa_attrs::{Field, both};
use kmipa_ttlv::Children;

/// The key that the children of a Key Block say.
#[tactic(auto, unfolding(crate::specs::KeyBlocks::block_in))]
pub fn read_key_block<'a>(block: Children<'a>) -> Result<KeyBlock<'a>, OutsideKind>
    ensures { map_ok block_of result ≡ block_in (view_trees block.entry) }
{
    let algorithm = enumeration_at(block, CRYPTOGRAPHIC_ALGORITHM).optional(OutsideKind::Missing);
    let length = integer_at(block, CRYPTOGRAPHIC_LENGTH).optional(OutsideKind::Missing);
    let unwrapped = unless_there(block, KEY_WRAPPING_DATA, OutsideKind::Wrapped);
    let value = structure_at(block, KEY_VALUE);
    let material = bytes_at(children_in(value), KEY_MATERIAL).needed(
        OutsideKind::Missing,
        OutsideKind::Format,
    );
    let rows = both(
        both(
            both(both(format(block), algorithm), length),
            both(unwrapped, value_there(value)),
        ),
        material,
    );
    let ((((format, algorithm), length), _), material) = rows?;
    Ok(KeyBlock {
        format,
        material,
        algorithm,
        length,
    })
}

fn format(block: Children) -> Result<KeyFormat, OutsideKind>
    ensures { result ≡ listed
        (at as_enumeration key_format_type (view_trees block.entry)) format_of OutsideKind.Missing OutsideKind.Format }
{
    match enumeration_at(block, KEY_FORMAT_TYPE) {
        Field::There(number) => KeyFormat::of(number).ok_or(OutsideKind::Format),
        _ => Err(OutsideKind::Missing),
    }
}

/// That there is a Key Value.
fn value_there(value: Field<Children>) -> Result<(), OutsideKind>
    ensures { result ≡ there (map_field view_trees value.entry) OutsideKind.Missing OutsideKind.Format }
{
    match value {
        Field::There(_) => Ok(()),
        Field::Absent => Err(OutsideKind::Missing),
        Field::Wrong => Err(OutsideKind::Format),
    }
}
