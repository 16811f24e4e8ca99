//! Payloads that have at most an identifier.

ghost use Rattle.std.specs.Prelude.{◌≡◌, ◌<◌, IfOk};
ghost use Rattle.kmipa_ttlv.specs.Tree.{structure};
ghost use Rattle.kmipa_ttlv.specs.ItemTree.{tree};
ghost use Rattle.kmipa_msgs.specs.Messages.{maybe_lent};
ghost use Rattle.kmipa_msgs.specs.WrittenFields.{in_order, identifier_fields};

use super::fields::Fields;
use kmipa_attrs::tags::UNIQUE_IDENTIFIER;
use kmipa_ttlv::Item;
use std::alloc::{AllocError, Global};

/// The payload with this tag.
pub(super) fn write_identifier(
    alloc: Global,
    tag: u32,
    id: Option<&str>,
) -> Result<Item, AllocError>
    requires { tag < 0x100_0000 }
    ensures { IfOk result (λ item. tree item ≡ structure tag (in_order (identifier_fields (maybe_lent id.entry)))) }
{
    let mut fields = Fields::new(alloc);
    fields.text(UNIQUE_IDENTIFIER, id)?;
    Ok(fields.structure(tag))
}
