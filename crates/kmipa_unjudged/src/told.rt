//! Which identifiers are told to be set aside.

ghost use Rattle.std.specs.Prelude.{◌≡◌, ◌++◌, ◌∷◌, [], IfOk, OnOk, filter, map};
ghost use Rattle.kmipa_aside.specs.Becoming.{stand_in};
ghost use Rattle.kmipa_unjudged.specs.Asides.{has_id, is_of_another, told_each, told_one};
ghost use Rattle.kmipa_unjudged.specs.Known.{AreIds};
ghost use Rattle.kmipa_unjudged.specs.Told.{named_of};

use crate::named::Named;
use kmipa_aside::is_aside;
use kmipa_store::Ledger;
use std::alloc::{AllocError, Global};
use std::collections::BTreeSet;

/// What is told of identifiers so far: each with the item since which it is set aside.
#[derive(Drop)]
pub(crate) struct Told<'a> {
    pub list: Vec<Named<'a>>,
    /// The identifiers of the list.
    pub ids: BTreeSet<&'a str>,
}

/// Nothing yet.
pub(crate) fn nothing_told<'a>(alloc: Global) -> Told<'a>
    ensures list { result.list.items ≡ [] }
    ensures ids { AreIds [] result.ids }
{
    Told {
        list: Vec::new(alloc),
        ids: BTreeSet::new(alloc),
    }
}

/// What is told behind a step that names these.
pub(crate) fn tell_each<'a, L: Ledger>(
    alloc: Global,
    ledger: &L,
    named: &[Named<'a>],
    told: &mut Told<'a>,
) -> Result<(), AllocError>
    requires { AreIds (map named_of told.old.list.items) told.old.ids }
    ensures told { OnOk result (map named_of told.new.list.items
        ≡ told_each (stand_in (L.state ledger.now).now) (map named_of told.old.list.items) (map named_of named.now)) }
    ensures ids { OnOk result (AreIds (map named_of told.new.list.items) told.new.ids) }
{
    'named: for one in named {
        tell(alloc, ledger, *one, told)?;
    }
    Ok(())
}

/// What is told behind an item that names an identifier.
fn tell<'a, L: Ledger>(
    alloc: Global,
    ledger: &L,
    named: Named<'a>,
    told: &mut Told<'a>,
) -> Result<(), AllocError>
    requires { AreIds (map named_of told.old.list.items) told.old.ids }
    ensures told { OnOk result (map named_of told.new.list.items
        ≡ told_one (stand_in (L.state ledger.now).now) (map named_of told.old.list.items) (named_of named.entry)) }
    ensures ids { OnOk result (AreIds (map named_of told.new.list.items) told.new.ids) }
{
    let is_told = has_id(told, named.id);
    if is_aside(ledger, named.id) {
        if is_told {
            return Ok(());
        }
        return add(told, named);
    }
    if is_told {
        return take_out(alloc, told, named.id);
    }
    Ok(())
}

/// Whether an identifier is told.
fn has_id(told: &Told, id: &str) -> bool
    requires { AreIds (map named_of told.now.list.items) told.now.ids }
    ensures { result ≡ has_id (map named_of told.now.list.items) id.now }
{
    told.ids.contains(id)
}

/// One more is told.
fn add<'a>(told: &mut Told<'a>, named: Named<'a>) -> Result<(), AllocError>
    requires { AreIds (map named_of told.old.list.items) told.old.ids }
    ensures list { OnOk result (map named_of told.new.list.items
        ≡ map named_of told.old.list.items ++ named_of named.entry ∷ []) }
    ensures ids { OnOk result (AreIds (map named_of told.new.list.items) told.new.ids) }
{
    told.list.push(named)?;
    told.ids.insert(named.id)?;
    Ok(())
}

/// An identifier is told no more.
fn take_out<'a>(alloc: Global, told: &mut Told<'a>, id: &'a str) -> Result<(), AllocError>
    requires { AreIds (map named_of told.old.list.items) told.old.ids }
    ensures list { OnOk result (map named_of told.new.list.items
        ≡ filter (is_of_another id.now) (map named_of told.old.list.items)) }
    ensures ids { OnOk result (AreIds (map named_of told.new.list.items) told.new.ids) }
{
    told.list = without(alloc, &told.list, id)?;
    told.ids.remove(id);
    Ok(())
}

/// Those of other identifiers.
fn without<'a>(alloc: Global, told: &[Named<'a>], id: &str) -> Result<Vec<Named<'a>>, AllocError>
    ensures { IfOk result (λ left. map named_of left.items ≡ filter (is_of_another id.now) (map named_of told.now)) }
{
    let mut left = Vec::new(alloc);
    'told: for one in told {
        if one.id != id {
            left.push(*one)?;
        }
    }
    Ok(left)
}
