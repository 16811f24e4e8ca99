//! The names of an object, each once.

ghost use Rattle.std.specs.Prelude.{◌≡◌, ◌↔◌, IsTrue, IfOk, OnOk, map};
ghost use Rattle.kmipa_ttlv.specs.ViewTree.{view_tree, view_trees};
ghost use Rattle.kmipa_attrs.specs.Names.{HasNoRepeats, as_name, with_name};
ghost use Rattle.kmipa_attrs.specs.Sets.{name_of, names_of};
ghost use Rattle.kmipa_attrs.specs.Attributes.{Gives, named, names_in};

use crate::attr_set::NAMES;
use crate::fault::AttrFault;
use crate::fields::{Field, as_structure, enumeration_at, text_at};
use crate::name::Name;
use crate::tags::{NAME, NAME_TYPE, NAME_VALUE};
use kmipa_ttlv::{Children, View};
use smallvec::SmallVec;
use std::alloc::{AllocError, Global};
use std::collections::BTreeSet;

/// While at most so many names differ, each is compared with those before it, and no set is built.
const FEW: usize = 16;

/// A name whose value is lent from what it was read from.
#[derive(Clone, Copy, PartialEq, Eq, PartialOrd, Ord)]
struct LentName<'a> {
    value: &'a str,
    kind: u32,
}

/// The names that children say, in the order of first appearance.
pub(crate) fn read_names(
    alloc: Global,
    children: Children,
) -> Result<SmallVec<Name, NAMES>, AttrFault>
    ensures { Gives names_of result (names_in (view_trees children.entry)) }
{
    let mut names = SmallVec::new(alloc);
    let mut left = children;
    'children: while let Some(child) = left.next_of(NAME) {
        if names.len() >= FEW {
            return read_many(alloc, children);
        }
        let name = read_name(alloc, &child)?;
        add_name(&mut names, name)?;
    }
    Ok(names)
}

/// The same names, each looked up among those before it.
fn read_many(alloc: Global, children: Children) -> Result<SmallVec<Name, NAMES>, AttrFault>
    ensures { Gives names_of result (names_in (view_trees children.entry)) }
{
    let mut names = SmallVec::new(alloc);
    let mut seen = BTreeSet::new(alloc);
    let mut left = children;
    'children: while let Some(child) = left.next_of(NAME) {
        let name = lent_name(&child)?;
        if seen.insert(name)? {
            names.push(name.copy(alloc)?)?;
        }
    }
    Ok(names)
}

fn read_name(alloc: Global, view: &View) -> Result<Name, AttrFault>
    ensures { Gives name_of result (named (as_name (view_tree view.now))) }
{
    let name = lent_name(view)?;
    Ok(name.copy(alloc)?)
}

#[inline(always)]
fn lent_name<'a>(view: &View<'a>) -> Result<LentName<'a>, AttrFault>
    ensures { Gives (λ n. record { value = n.value.now; kind = n.kind }) result (named (as_name (view_tree view.now))) }
{
    let Some(children) = as_structure(view) else {
        return Err(AttrFault::WrongType);
    };
    let Field::There(value) = text_at(children, NAME_VALUE) else {
        return Err(AttrFault::WrongType);
    };
    let kind = match enumeration_at(children, NAME_TYPE) {
        Field::There(kind) => kind,
        Field::Absent => 1,
        Field::Wrong => return Err(AttrFault::WrongType),
    };
    Ok(LentName { value, kind })
}

impl<'a> LentName<'a> {
    /// A name, lent.
    fn of(name: &'a Name) -> LentName<'a>
        ensures { record { value = result.value.now; kind = result.kind } ≡ name_of name.now }
    {
        LentName {
            value: name.value.as_str(),
            kind: name.kind,
        }
    }

    fn copy(self, alloc: Global) -> Result<Name, AllocError>
        ensures { IfOk result (λ name. name_of name ≡ record { value = self.entry.value.now; kind = self.entry.kind }) }
    {
        Ok(Name {
            value: String::from_str(alloc, self.value)?,
            kind: self.kind,
        })
    }
}

fn add_name(names: &mut SmallVec<Name, NAMES>, name: Name) -> Result<(), AllocError>
    ensures { OnOk result (names_of names.new ≡ with_name (names_of names.old) (name_of name)) }
{
    if !names.as_slice().contains(&name) {
        names.push(name)?;
    }
    Ok(())
}

/// Whether no name stands again after itself. Many are looked up among those before them, where there is memory for that.
pub(crate) fn differ(alloc: Global, names: &[Name]) -> bool
    ensures { IsTrue result ↔ HasNoRepeats (map name_of names.now) }
{
    if names.len() > FEW {
        if let Ok(differ) = many_differ(alloc, names) {
            return differ;
        }
    }
    few_differ(names)
}

/// The same, each looked up among those before it.
fn many_differ(alloc: Global, names: &[Name]) -> Result<bool, AllocError>
    ensures { IfOk result (λ differ. IsTrue differ ↔ HasNoRepeats (map name_of names.now)) }
{
    let mut seen = BTreeSet::new(alloc);
    for name in names {
        if !seen.insert(LentName::of(name))? {
            return Ok(false);
        }
    }
    Ok(true)
}

/// The same without memory: each is compared with those behind it.
fn few_differ(names: &[Name]) -> bool
    ensures { IsTrue result ↔ HasNoRepeats (map name_of names.now) }
{
    let mut left = names;
    'names: while let Some((name, rest)) = left.split_first() {
        if rest.contains(name) {
            return false;
        }
        left = rest;
    }
    true
}

/// The same names, each with a value of its own.
pub(crate) fn copy_names(alloc: Global, names: &[Name]) -> Result<SmallVec<Name, NAMES>, AllocError>
    ensures { IfOk result (λ copies. names_of copies ≡ map name_of names.now) }
{
    let mut copies = SmallVec::new(alloc);
    for name in names {
        copies.push(name.copy(alloc)?)?;
    }
    Ok(copies)
}
