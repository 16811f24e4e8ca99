//! What the headers of requests and responses share.

ghost use Rattle.std.specs.Prelude.{◌≡◌, IfOk};
ghost use Rattle.kmipa_ttlv.specs.ItemTree.{tree};
ghost use Rattle.kmipa_msgs.specs.Written.{written_version};

use super::fields::Fields;
use kmipa_attrs::tags::{PROTOCOL_VERSION, PROTOCOL_VERSION_MAJOR, PROTOCOL_VERSION_MINOR};
use kmipa_ttlv::Item;
use std::alloc::{AllocError, Global};

/// Protocol Version 2.1.
pub(super) fn write_version(alloc: Global) -> Result<Item, AllocError>
    ensures { IfOk result (λ item. tree item ≡ written_version) }
{
    let mut fields = Fields::new(alloc);
    fields.integer(PROTOCOL_VERSION_MAJOR, Some(2))?;
    fields.integer(PROTOCOL_VERSION_MINOR, Some(1))?;
    Ok(fields.structure(PROTOCOL_VERSION))
}
