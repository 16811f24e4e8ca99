//! Many names, looked up in a set.

ghost use Rattle.std.specs.Prelude.{◌≡◌, IfOk, map, not};
ghost use Rattle.std.specs.List.{list_any};
ghost use Rattle.kmipa_attrs.specs.Sets.{name_of};
ghost use Rattle.kmipa_ops.specs.KnownNames.{HasNames, is_in};

use crate::lent_name::LentName;
use kmipa_attrs::Name;
use std::alloc::{AllocError, Global};
use std::collections::BTreeSet;

/// The set of these names.
pub(crate) fn set_of(alloc: Global, names: &[Name]) -> Result<BTreeSet<LentName<'_>>, AllocError>
    ensures { IfOk result (λ set. HasNames (map name_of names.now) set) }
{
    let mut set = BTreeSet::new(alloc);
    for name in names {
        let _is_new = set.insert(LentName::of(name))?;
    }
    Ok(set)
}

/// Whether one of the names isn't in the set.
pub(crate) fn any_unknown<'a>(set: &BTreeSet<LentName<'a>>, names: &'a [Name]) -> bool
    ensures { result ≡ list_any (λ (n : Name). not (is_in set.now (name_of n))) names.now }
{
    for name in names {
        if !is_in(set, name) {
            return true;
        }
    }
    false
}

/// Whether a name is in the set.
fn is_in<'a>(set: &BTreeSet<LentName<'a>>, name: &'a Name) -> bool
    ensures { result ≡ is_in set.now (name_of name.now) }
{
    set.contains(&LentName::of(name))
}
