//! Payloads that have at most an identifier.

ghost use Rattle.std.specs.Prelude.{◌≡◌};
ghost use Rattle.kmipa_ttlv.specs.ViewTree.{view_trees};
ghost use Rattle.kmipa_attrs.specs.Readings.{map_ok};
ghost use Rattle.kmipa_msgs.specs.Messages.{maybe_lent, changed_of};
ghost use Rattle.kmipa_msgs.specs.Identifiers.{identifier_in};

use crate::kind::OutsideKind;
use crate::response::Changed;
use kmipa_attrs::fields::text_at;
use kmipa_attrs::tags::UNIQUE_IDENTIFIER;
use kmipa_ttlv::Children;

/// The Unique Identifier among the children of a payload, if it is there.
pub fn read_identifier<'a>(payload: Children<'a>) -> Result<Option<&'a str>, OutsideKind>
    ensures { map_ok maybe_lent result ≡ identifier_in (view_trees payload.entry) }
{
    text_at(payload, UNIQUE_IDENTIFIER).optional(OutsideKind::IdentifierForm)
}

/// What the children of the Response Payload of an Activate, a Revoke or a Destroy say.
pub fn read_changed<'a>(payload: Children<'a>) -> Result<Changed<'a>, OutsideKind>
    ensures { map_ok changed_of result ≡ identifier_in (view_trees payload.entry) }
{
    Ok(Changed {
        id: read_identifier(payload)?,
    })
}
