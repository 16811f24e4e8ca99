//! Births: the attributes that a server itself gives an object, which a witness puts in.

ghost use Rattle.std.specs.Prelude.{◌≡◌, ◌≢◌, ◌↔◌, ◌∷◌, ◌++◌, List, map, IsTrue, IfOk, OnOk, MatchOption};
ghost use Rattle.kmipa_ttlv.specs.Tree.{Tree};
ghost use Rattle.kmipa_ttlv.specs.ItemTree.{tree};
ghost use Rattle.kmipa_ttlv.specs.ViewTree.{view_tree, view_trees};
ghost use Rattle.kmipa_record.specs.Witnesses.{BirthOf, birth_of, birth_item, IsAttributes, AreBirths};
ghost use Rattle.kmipa_record.specs.WitnessReading.{HasAttributes, Leads, list_of};

use crate::placed::{is_structure, placed_in, write_placed};
use crate::tags::BIRTH;
use kmipa_attrs::tags::ATTRIBUTES;
use kmipa_ttlv::{Children, Item, View, copy_item};
use std::alloc::{AllocError, Global};

/// Attributes that the server itself gives the object that is born at an item's place.
#[derive(Drop)]
pub struct Birth {
    /// The place of the item, counted from 1.
    pub item: i32,
    /// An Attributes Structure.
    pub attributes: Item,
}

/// The births that the children begin with, and the children after them.
pub fn births_before<'a>(
    alloc: Global,
    children: Children<'a>,
) -> Result<(Vec<Birth>, Children<'a>), AllocError>
    ensures { IfOk result
        (λ r. Leads HasAttributes birth_item (list_of (view_trees children.entry)) (map birth_of r.0.items)
        (list_of (view_trees r.1))) }
{
    let mut births = Vec::new(alloc);
    let mut left = children;
    'births: while let Some((birth, rest)) = birth_before(alloc, left)? {
        births.push(birth)?;
        left = rest;
    }
    Ok((births, left))
}

/// The birth that the children begin with, and the children after it.
fn birth_before<'a>(
    alloc: Global,
    children: Children<'a>,
) -> Result<Option<(Birth, Children<'a>)>, AllocError>
    ensures { IfOk result
        (λ o. MatchOption o
        ((birth : BirthOf) (more : List Tree) → IsAttributes birth.attributes
        → list_of (view_trees children.entry) ≢ birth_item birth ∷ more)
        (λ r. (list_of (view_trees children.entry) ≡ birth_item (birth_of r.0) ∷ list_of (view_trees r.1))
        × IsAttributes (birth_of r.0).attributes)) }
{
    let mut rest = children;
    let Some(item) = rest.next() else {
        return Ok(None);
    };
    match placed_in(&item, BIRTH, ATTRIBUTES) {
        Some((place, attributes)) => Ok(Some((
            Birth {
                item: place,
                attributes: copy_item(alloc, &attributes)?,
            },
            rest,
        ))),
        None => Ok(None),
    }
}

/// Puts the items that say the births after the others.
pub fn push_births(
    alloc: Global,
    children: &mut Vec<Item>,
    births: &[Birth],
) -> Result<(), AllocError>
    ensures { OnOk result
        (map tree children.new.items ≡ map tree children.old.items ++ map birth_item (map birth_of births.now)) }
{
    for birth in births {
        children.push(write_placed(alloc, BIRTH, birth.item, &birth.attributes)?)?;
    }
    Ok(())
}

/// Whether the attributes of each are an Attributes Structure.
pub fn are_births(births: &[Birth]) -> bool
    ensures { IsTrue result ↔ AreBirths (map birth_of births.now) }
{
    for birth in births {
        if !are_attributes(&birth.attributes) {
            return false;
        }
    }
    true
}

fn are_attributes(item: &Item) -> bool
    ensures { IsTrue result ↔ IsAttributes (tree item.now) }
{
    is_structure(item, ATTRIBUTES)
}
