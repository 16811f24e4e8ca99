//! The declaration by which a recording is judged.

ghost use Rattle.std.specs.Prelude.{◌≡◌};
ghost use Rattle.kmipa_record.specs.Declarations.{declaration_of};
ghost use Rattle.kmipa_judge.specs.Declaring.{aside_for, is_presumed, judging_by, nothing_known};

use kmipa_msgs::{Unjudged, Visibility};
use kmipa_record::{Declaration, Mark, Settings};
use std::alloc::Global;

/// The declaration that is used for one that is given: what isn't judged is set aside, and doesn't end the audit.
pub(crate) fn judging_by(declaration: Declaration) -> Declaration
    ensures { declaration_of result ≡ judging_by (declaration_of declaration) }
{
    let mut declaration = declaration;
    declaration.settings.unjudged = aside_for(declaration.settings.unjudged);
    declaration
}

fn aside_for(unjudged: Unjudged) -> Unjudged
    ensures { result ≡ aside_for unjudged }
{
    match unjudged {
        Unjudged::Refused => Unjudged::SetAside,
        Unjudged::SetAside => Unjudged::SetAside,
        Unjudged::Unknown => Unjudged::Unknown,
    }
}

/// Of so many marks at most it is assumed that a server may hide objects: what may be hidden costs each list as much as there are objects.
const MOST: usize = 20_000;

/// Who sees whose objects, as it is assumed where nothing is declared.
pub(crate) fn assumed_visibility(marks: &[Mark]) -> Visibility {
    if marks.len() <= MOST {
        Visibility::MayHide
    } else {
        Visibility::Everyone
    }
}

/// Whether that each client sees every object is assumed alone, and not declared.
pub(crate) fn is_presumed(assumed: bool, visibility: Visibility) -> bool
    ensures { result ≡ is_presumed assumed visibility }
{
    match visibility {
        Visibility::Everyone => assumed,
        Visibility::MayHide | Visibility::MustHide => false,
    }
}

/// The declaration that is used where none is given, by what is assumed of who sees whose objects.
pub(crate) fn nothing_known(alloc: Global, visibility: Visibility) -> Declaration
    ensures { declaration_of result ≡ nothing_known visibility }
{
    Declaration {
        settings: Settings {
            unique_names: false,
            unjudged: Unjudged::Unknown,
            tolerance: 0,
            visibility,
        },
        rows: Vec::new(alloc),
        allow_lines: Vec::new(alloc),
        own_attributes: Vec::new(alloc),
        entries: Vec::new(alloc),
        asides: Vec::new(alloc),
    }
}
