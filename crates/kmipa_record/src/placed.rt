//! Items that say an item's place, and what is put in there.

ghost use Rattle.std.specs.Prelude.{◌≡◌, ◌≢◌, ◌<◌, ◌↔◌, ℤ, IsTrue, IfOk, MatchOption};
ghost use Rattle.kmipa_ttlv.specs.Tree.{Trees, structure};
ghost use Rattle.kmipa_ttlv.specs.ItemTree.{tree};
ghost use Rattle.kmipa_ttlv.specs.ViewTree.{view_tree};
ghost use Rattle.kmipa_record.specs.WitnessReading.{IsStructure, placed_item};

use crate::shape::{children_of, integer_of};
use crate::tags::FILLED_ITEM;
use kmipa_ttlv::{Item, Tag, Value, View, copy_item, lend};
use std::alloc::{AllocError, Global};

/// The place that an item with this tag says, and the Structure with that tag which is put in there.
pub fn placed_in<'a>(item: &View<'a>, tag: u32, held: u32) -> Option<(i32, View<'a>)>
    ensures { MatchOption result
        ((place : ℤ) (children : Trees) → view_tree item.now ≢ placed_item tag place (structure held children))
        (λ parts. (view_tree item.now ≡ placed_item tag parts.0 (view_tree parts.1))
        × IsStructure held (view_tree parts.1)) }
{
    let mut children = children_of(item, tag)?;
    let place = integer_of(&children.next()?, FILLED_ITEM)?;
    let structure = children.next()?;
    children_of(&structure, held)?;
    if children.next().is_some() {
        return None;
    }
    Some((place, structure))
}

/// The item with this tag that says the place, and what is put in there.
pub fn write_placed(alloc: Global, tag: u32, place: i32, held: &Item) -> Result<Item, AllocError>
    requires { tag < 0x100_0000 }
    ensures { IfOk result (λ item. tree item ≡ placed_item tag place (tree held.now)) }
{
    let number = Item::integer(
        Tag {
            number: FILLED_ITEM,
        },
        place,
    );
    let copy = copy_item(alloc, &lend(held))?;
    let mut parts = Vec::with_capacity(alloc, 2)?;
    parts.push(number)?;
    parts.push(copy)?;
    Ok(Item::structure(Tag { number: tag }, parts))
}

/// Whether an item is a Structure with this tag.
pub fn is_structure(item: &Item, tag: u32) -> bool
    ensures { IsTrue result ↔ IsStructure tag (tree item.now) }
{
    if item.tag.number != tag {
        return false;
    }
    match &item.value {
        Value::Structure(_) => true,
        _ => false,
    }
}
