//! How far files are read and written.

ghost use Rattle.std.specs.Prelude.{◌↔◌, IsTrue};
ghost use Rattle.kmipa_record.specs.Reaches.{ReachesAsides, ReachesSettings};

use crate::settings::Settings;
use kmipa_msgs::{Unjudged, Visibility};

/// How far a file goes that is read or written.
#[derive(Clone, Copy)]
pub enum Reach {
    /// As far as calls are judged by it where nothing is set aside: no further than `read_declaration` and `read_witness` go.
    Judged,
    /// As far as calls are judged by it, whether or not something is set aside: all of a declaration.
    Aside,
    /// All that the format has.
    Whole,
}

impl Reach {
    /// Whether a declaration with these settings is within reach.
    pub fn reaches_settings(self, settings: &Settings) -> bool
        ensures { IsTrue result ↔ ReachesSettings self settings.now }
    {
        match self {
            Reach::Aside | Reach::Whole => true,
            Reach::Judged => match (settings.unjudged, settings.visibility) {
                (Unjudged::Refused | Unjudged::SetAside, Visibility::Everyone) => true,
                _ => false,
            },
        }
    }

    /// Whether a declaration with these settings may set identifiers aside.
    pub fn reaches_asides(self, settings: &Settings) -> bool
        ensures { IsTrue result ↔ ReachesAsides self settings.now }
    {
        match (self, settings.unjudged) {
            (Reach::Judged, _) => false,
            (Reach::Aside | Reach::Whole, Unjudged::Refused) => false,
            (Reach::Aside | Reach::Whole, Unjudged::SetAside | Unjudged::Unknown) => true,
        }
    }
}
