//! What a declaration grants its server, as far as a search asks.

ghost use Rattle.std.specs.Prelude.{◌↔◌, IsTrue};
ghost use Rattle.kmipa_record.specs.Declarations.{declaration_of};
ghost use Rattle.kmipa_check.specs.Grants.{GrantsNothing, grants_declared};

use kmipa_record::Declaration;

/// Whether the declaration grants nothing: each call is taken at its Time Stamp, and what is born has what its client asked for.
pub fn grants_nothing(declaration: &Declaration) -> bool
    ensures { IsTrue result ↔ GrantsNothing (grants_declared (declaration_of declaration.now)) }
{
    declaration.settings.tolerance == 0 && declaration.own_attributes.is_empty()
}
