//! Destroy.

ghost use Rattle.std.specs.Prelude.{◌≡◌};
ghost use Rattle.kmipa_ttlv.specs.ViewTree.{view_trees};
ghost use Rattle.kmipa_attrs.specs.Readings.{map_ok};
ghost use Rattle.kmipa_msgs.specs.Messages.{destroy_of};
ghost use Rattle.kmipa_msgs.specs.Identifiers.{identifier_in};

use crate::kind::OutsideKind;
use crate::reading::identifier::read_identifier;
use crate::request::Destroy;
use kmipa_ttlv::Children;

/// What the children of a Destroy's Request Payload ask for.
pub fn read_destroy<'a>(payload: Children<'a>) -> Result<Destroy<'a>, OutsideKind>
    ensures { map_ok destroy_of result ≡ identifier_in (view_trees payload.entry) }
{
    Ok(Destroy {
        id: read_identifier(payload)?,
    })
}
