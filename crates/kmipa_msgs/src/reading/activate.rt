//! Activate.

ghost use Rattle.std.specs.Prelude.{◌≡◌};
ghost use Rattle.kmipa_ttlv.specs.ViewTree.{view_trees};
ghost use Rattle.kmipa_attrs.specs.Readings.{map_ok};
ghost use Rattle.kmipa_msgs.specs.Messages.{activate_of};
ghost use Rattle.kmipa_msgs.specs.Identifiers.{identifier_in};

use crate::kind::OutsideKind;
use crate::reading::identifier::read_identifier;
use crate::request::Activate;
use kmipa_ttlv::Children;

/// What the children of an Activate's Request Payload ask for.
pub fn read_activate<'a>(payload: Children<'a>) -> Result<Activate<'a>, OutsideKind>
    ensures { map_ok activate_of result ≡ identifier_in (view_trees payload.entry) }
{
    Ok(Activate {
        id: read_identifier(payload)?,
    })
}
