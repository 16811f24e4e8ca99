//! Settings: what the header of a declaration says.

ghost use Rattle.std.specs.Prelude.{◌≡◌, ◌↔◌, IsTrue};
ghost use Rattle.kmipa_record.specs.Settings.{plain_settings, IsTolerance};

use kmipa_msgs::{Unjudged, Visibility};

/// The longest tolerance, in seconds: a day.
const LONGEST_TOLERANCE: i32 = 86_400;

/// What the header of a declaration says.
#[derive(Clone, Copy)]
pub struct Settings {
    /// Whether no two live objects may have a name in common.
    pub unique_names: bool,
    /// What becomes of what isn't judged.
    pub unjudged: Unjudged,
    /// How far the moment of a call may be from the stamp of its response, in seconds.
    pub tolerance: i32,
    /// Whether clients see the objects of others.
    pub visibility: Visibility,
}

impl Settings {
    /// The settings that a declaration of version 1 stands for.
    pub fn plain(unique_names: bool) -> Settings
        ensures { result ≡ plain_settings unique_names }
    {
        Settings {
            unique_names,
            unjudged: Unjudged::Refused,
            tolerance: 0,
            visibility: Visibility::Everyone,
        }
    }

    /// Whether a declaration of version 1 stands for them.
    pub fn are_plain(&self) -> bool
        ensures { IsTrue result ↔ (self.now ≡ plain_settings self.now.unique_names) }
    {
        match (self.unjudged, self.visibility) {
            (Unjudged::Refused, Visibility::Everyone) => self.tolerance == 0,
            _ => false,
        }
    }
}

/// Whether a declaration may have this tolerance.
pub fn is_tolerance(seconds: i32) -> bool
    ensures { IsTrue result ↔ IsTolerance seconds }
{
    0 <= seconds && seconds <= LONGEST_TOLERANCE
}
