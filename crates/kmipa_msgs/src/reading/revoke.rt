//! Revoke.

ghost use Rattle.std.specs.Prelude.{◌≡◌};
ghost use Rattle.kmipa_ttlv.specs.ViewTree.{view_trees};
ghost use Rattle.kmipa_attrs.specs.Readings.{map_ok};
ghost use Rattle.kmipa_msgs.specs.Messages.{revoke_of};
ghost use Rattle.kmipa_msgs.specs.Revokes.{revoke_in};

use crate::kind::OutsideKind;
use crate::reading::identifier::read_identifier;
use crate::request::Revoke;
use kmipa_attrs::both;
use kmipa_attrs::fields::{enumeration_at, inside};
use kmipa_attrs::tags::{REVOCATION_REASON, REVOCATION_REASON_CODE};
use kmipa_ttlv::Children;

/// What the children of a Revoke's Request Payload ask for.
#[tactic(auto, unfolding(crate::specs::Revokes::revoke_in))]
pub fn read_revoke<'a>(payload: Children<'a>) -> Result<Revoke<'a>, OutsideKind>
    ensures { map_ok revoke_of result ≡ revoke_in (view_trees payload.entry) }
{
    let reason = inside(payload, REVOCATION_REASON);
    let code = enumeration_at(reason, REVOCATION_REASON_CODE).needed(
        OutsideKind::Missing,
        OutsideKind::Missing,
    );
    let id = read_identifier(payload);
    let (code, id) = both(code, id)?;
    Ok(Revoke { id, code })
}
