//! Revoke: what is asked for.

ghost use Rattle.std.specs.Prelude.{◌≡◌, IfOk};
ghost use Rattle.kmipa_ttlv.specs.Tree.{structure};
ghost use Rattle.kmipa_ttlv.specs.ItemTree.{tree};
ghost use Rattle.kmipa_attrs.specs.Tags.{request_payload};
ghost use Rattle.kmipa_msgs.specs.Messages.{revoke_of};
ghost use Rattle.kmipa_msgs.specs.WrittenFields.{in_order};
ghost use Rattle.kmipa_msgs.specs.Revokes.{written_reason, revoke_fields};

use super::fields::Fields;
use crate::request::Revoke;
use kmipa_attrs::tags::{
    REQUEST_PAYLOAD, REVOCATION_REASON, REVOCATION_REASON_CODE, UNIQUE_IDENTIFIER,
};
use kmipa_ttlv::Item;
use std::alloc::{AllocError, Global};

/// The Request Payload of a Revoke.
pub(super) fn write_revoke(alloc: Global, revoke: &Revoke) -> Result<Item, AllocError>
    ensures { IfOk result
        (λ item. tree item ≡ structure request_payload (in_order (revoke_fields (revoke_of revoke.now)))) }
{
    let mut fields = Fields::new(alloc);
    fields.text(UNIQUE_IDENTIFIER, revoke.id)?;
    fields.item(write_reason(alloc, revoke.code)?)?;
    Ok(fields.structure(REQUEST_PAYLOAD))
}

/// Revocation Reason.
fn write_reason(alloc: Global, code: u32) -> Result<Item, AllocError>
    ensures { IfOk result (λ item. tree item ≡ written_reason code) }
{
    let mut fields = Fields::new(alloc);
    fields.enumeration(REVOCATION_REASON_CODE, Some(code))?;
    Ok(fields.structure(REVOCATION_REASON))
}
