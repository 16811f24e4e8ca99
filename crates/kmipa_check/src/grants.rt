//! What a declaration grants its server.

use kmipa_record::{Declaration, OwnAttribute};

/// What a declaration grants its server.
#[derive(Clone, Copy)]
pub struct Grants<'a> {
    /// How far the moment of a call may be from the Time Stamp of its response, in seconds.
    pub tolerance: i32,
    /// The attributes that the server itself may give an object at birth.
    pub own: &'a [OwnAttribute],
}

impl<'a> Grants<'a> {
    ghost use Rattle.std.specs.Prelude.{◌≡◌};
    ghost use Rattle.kmipa_record.specs.Declarations.{declaration_of};
    ghost use Rattle.kmipa_check.specs.Grants.{grants_declared, grants_of};

    /// What this declaration grants.
    pub fn of(declaration: &'a Declaration) -> Grants<'a>
        ensures { grants_of result ≡ grants_declared (declaration_of declaration.now) }
    {
        Grants {
            tolerance: declaration.settings.tolerance,
            own: declaration.own_attributes.as_slice(),
        }
    }
}
