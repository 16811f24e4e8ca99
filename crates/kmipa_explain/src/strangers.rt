//! Names that aren't among others.

ghost use Rattle.std.specs.Prelude.{◌≡◌, ◌++◌, IfOk, OnOk, map};
ghost use Rattle.std.specs.List.{list_any};
ghost use Rattle.kmipa_attrs.specs.Sets.{name_of};
ghost use Rattle.kmipa_ops.specs.Objects.{same_name};
ghost use Rattle.kmipa_explain.specs.Kept.{one_if};
ghost use Rattle.kmipa_explain.specs.Values.{is_stranger, strangers};

use kmipa_attrs::Name;
use std::alloc::{AllocError, Global};

/// Those of the names that aren't among the known ones, in their order.
pub(crate) fn strangers(
    alloc: Global,
    known: &[Name],
    names: &[Name],
) -> Result<Vec<Name>, AllocError>
    ensures { IfOk result (λ found. map name_of found.items
        ≡ strangers (map name_of known.now) (map name_of names.now)) }
{
    let mut found = Vec::new(alloc);
    let mut place = 0;
    'names: while place < names.len() {
        note(alloc, &mut found, known, &names[place])?;
        place += 1;
    }
    Ok(found)
}

/// Notes a name, where it isn't among the known ones.
fn note(alloc: Global, found: &mut Vec<Name>, known: &[Name], name: &Name) -> Result<(), AllocError>
    ensures { OnOk result (map name_of found.new.items
        ≡ map name_of found.old.items
        ++ one_if (name_of name.now) (is_stranger (map name_of known.now) (name_of name.now))) }
{
    if !is_among(name, known) {
        found.push(name.copy(alloc)?)?;
    }
    Ok(())
}

/// Whether a name is one of these.
fn is_among(name: &Name, names: &[Name]) -> bool
    ensures { result ≡ list_any (λ (other : Name). same_name (name_of other) (name_of name.now)) names.now }
{
    names.iter().any(|other| is_same(other, name))
}

fn is_same(a: &Name, b: &Name) -> bool
    ensures { result ≡ same_name (name_of a.now) (name_of b.now) }
{
    a.kind == b.kind && a.value == b.value
}
