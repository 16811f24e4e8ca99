//! Names beside other names.

ghost use Rattle.std.specs.Prelude.{◌≡◌, ◌<◌, IfOk, is_some, length, map, not};
ghost use Rattle.std.specs.List.{list_any};
ghost use Rattle.kmipa_attrs.specs.Sets.{name_of};
ghost use Rattle.kmipa_store.specs.Ledger.{cards_of};
ghost use Rattle.kmipa_store.specs.Queries.{any_live_named as any_live_has, next_named};
ghost use Rattle.kmipa_ops.specs.GetAttributes.{has_stranger};
ghost use Rattle.kmipa_ops.specs.Listing.{LacksAt, is_place};
ghost use Rattle.kmipa_ops.specs.Objects.{any_live_named, any_named, same_name};

use crate::known_names::{any_unknown, set_of};
use kmipa_attrs::Name;
use kmipa_store::Ledger;
use std::alloc::{AllocError, Global};

/// With at most so many names on one side each is compared with each of the other, and no set is built.
const FEW: usize = 16;

/// Whether an object has one of these names, destroyed or not.
pub(crate) fn any_named<L: Ledger>(ledger: &L, names: &[Name]) -> bool
    ensures { result ≡ any_named (cards_of (L.state ledger.now).now.objects) (map name_of names.now) }
{
    any_had(ledger, names)
}

fn any_had<L: Ledger>(ledger: &L, names: &[Name]) -> bool
    ensures { result ≡ list_any
        (λ (name : Name). is_some
        (next_named (name_of name).value name.kind 0 (L.state ledger.now).now.objects)) names.now }
{
    names.iter().any(|name| is_had(ledger, name))
}

/// Whether an object has this name.
fn is_had<L: Ledger>(ledger: &L, name: &Name) -> bool
    ensures { result ≡ is_some (next_named (name_of name.now).value name.now.kind 0 (L.state ledger.now).now.objects) }
{
    ledger
        .next_named(name.value.as_str(), name.kind, 0)
        .is_some()
}

/// Whether a live object has one of these names.
pub(crate) fn any_live_named<L: Ledger>(ledger: &L, names: &[Name]) -> bool
    ensures { result ≡ any_live_named (cards_of (L.state ledger.now).now.objects) (map name_of names.now) }
{
    any_live_had(ledger, names)
}

fn any_live_had<L: Ledger>(ledger: &L, names: &[Name]) -> bool
    ensures { result ≡ list_any
        (λ (name : Name). any_live_has (name_of name).value name.kind (L.state ledger.now).now.objects) names.now }
{
    names.iter().any(|name| is_had_alive(ledger, name))
}

/// Whether a live object has this name.
fn is_had_alive<L: Ledger>(ledger: &L, name: &Name) -> bool
    ensures { result ≡ any_live_has (name_of name.now).value name.now.kind (L.state ledger.now).now.objects }
{
    ledger.any_live_named(name.value.as_str(), name.kind)
}

/// Whether the object at a place lacks one of these names. Where it has many, they are asked of the ledger, which has them in order.
pub(crate) fn lacks_at<L: Ledger>(ledger: &L, names: &[Name], place: usize) -> bool
    requires { place < length (L.state ledger.now).now.objects }
    ensures { LacksAt (L.state ledger.now).now.objects (map name_of names.now) place result }
{
    let own = ledger.at(place).given.names.as_slice();
    if own.len() <= FEW {
        return has_stranger(own, names);
    }
    any_lacks(ledger, names, place)
}

fn any_lacks<L: Ledger>(ledger: &L, names: &[Name], place: usize) -> bool
    ensures { result ≡ list_any
        (λ (name : Name). not
        (is_place place (next_named (name_of name).value name.kind place (L.state ledger.now).now.objects))) names.now }
{
    names.iter().any(|name| !is_had_at(ledger, name, place))
}

/// Whether the first object from a place on that has this name is the one there.
fn is_had_at<L: Ledger>(ledger: &L, name: &Name, place: usize) -> bool
    ensures { result ≡ is_place place
        (next_named (name_of name.now).value name.now.kind place (L.state ledger.now).now.objects) }
{
    match ledger.next_named(name.value.as_str(), name.kind, place) {
        Some(next) => place == next,
        None => false,
    }
}

/// Whether one of the names isn't among those known; where both are many, they are looked up in a set.
pub(crate) fn finds_stranger<'a>(
    alloc: Global,
    known: &'a [Name],
    names: &'a [Name],
) -> Result<bool, AllocError>
    ensures { IfOk result (λ found. found ≡ has_stranger (map name_of known.now) (map name_of names.now)) }
{
    if known.len() <= FEW || names.len() <= FEW {
        return Ok(has_stranger(known, names));
    }
    let set = set_of(alloc, known)?;
    Ok(any_unknown(&set, names))
}

/// The same without memory: each name is compared with each of those known.
pub(crate) fn has_stranger(known: &[Name], names: &[Name]) -> bool
    ensures { result ≡ has_stranger (map name_of known.now) (map name_of names.now) }
{
    any_stranger(known, names)
}

fn any_stranger(known: &[Name], names: &[Name]) -> bool
    ensures { result ≡ list_any
        (λ (n : Name). not (list_any (λ (k : Name). same_name (name_of k) (name_of n)) known.now)) names.now }
{
    names.iter().any(|name| !is_among(name, known))
}

/// Whether a name is one of these.
fn is_among(name: &Name, names: &[Name]) -> bool
    ensures { result ≡ list_any (λ (asked : Name). same_name (name_of asked) (name_of name.now)) names.now }
{
    names.iter().any(|asked| is_same(asked, name))
}

fn is_same(a: &Name, b: &Name) -> bool
    ensures { result ≡ same_name (name_of a.now) (name_of b.now) }
{
    a.kind == b.kind && a.value == b.value
}
