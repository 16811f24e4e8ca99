//! Ways in which calls are judged.

ghost use Rattle.kmipa_beside.specs.Ways.{IsWay};

use kmipa_msgs::{Unjudged, Visibility};
use kmipa_record::Settings;

/// How the calls of a recording are judged by a declaration.
#[derive(Clone, Copy)]
pub enum Way {
    /// Nothing is set aside, and clients see every object.
    AsEver,
    /// Nothing is set aside, and a server may hide the objects of other clients, or has to.
    InSight,
    /// What isn't judged is set aside.
    Beside,
}

/// The way that these settings ask for.
pub fn way_of(settings: &Settings) -> Way
    ensures { IsWay settings.now result }
{
    match (settings.unjudged, settings.visibility) {
        (Unjudged::SetAside | Unjudged::Unknown, _) => Way::Beside,
        (Unjudged::Refused, Visibility::Everyone) => Way::AsEver,
        (Unjudged::Refused, Visibility::MayHide | Visibility::MustHide) => Way::InSight,
    }
}
