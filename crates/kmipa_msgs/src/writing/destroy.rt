//! Destroy: what is asked for.

ghost use Rattle.std.specs.Prelude.{◌≡◌, IfOk};
ghost use Rattle.kmipa_ttlv.specs.Tree.{structure};
ghost use Rattle.kmipa_ttlv.specs.ItemTree.{tree};
ghost use Rattle.kmipa_attrs.specs.Tags.{request_payload};
ghost use Rattle.kmipa_msgs.specs.Messages.{destroy_of};
ghost use Rattle.kmipa_msgs.specs.WrittenFields.{in_order, identifier_fields};

use super::identifier::write_identifier;
use crate::request::Destroy;
use kmipa_attrs::tags::REQUEST_PAYLOAD;
use kmipa_ttlv::Item;
use std::alloc::{AllocError, Global};

/// The Request Payload of a Destroy.
pub(super) fn write_destroy(alloc: Global, destroy: &Destroy) -> Result<Item, AllocError>
    ensures { IfOk result
        (λ item. tree item ≡ structure request_payload (in_order (identifier_fields (destroy_of destroy.now)))) }
{
    write_identifier(alloc, REQUEST_PAYLOAD, destroy.id)
}
