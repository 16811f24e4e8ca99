//! Fills: the payloads that a witness puts in where a response leaves them out.

ghost use Rattle.std.specs.Prelude.{◌≡◌, ◌≢◌, ◌↔◌, ◌∷◌, ◌++◌, List, map, IsTrue, IfOk, OnOk, MatchOption};
ghost use Rattle.kmipa_ttlv.specs.Tree.{Tree};
ghost use Rattle.kmipa_ttlv.specs.ItemTree.{tree};
ghost use Rattle.kmipa_ttlv.specs.ViewTree.{view_tree, view_trees};
ghost use Rattle.kmipa_record.specs.Witnesses.{FillOf, fill_of, fill_item, IsPayload, ArePayloads};
ghost use Rattle.kmipa_record.specs.WitnessReading.{HasPayload, Leads, list_of};

use crate::placed::{is_structure, placed_in, write_placed};
use crate::tags::FILL;
use kmipa_attrs::tags::RESPONSE_PAYLOAD;
use kmipa_ttlv::{Children, Item, View, copy_item};
use std::alloc::{AllocError, Global};

/// A payload that a response leaves out.
#[derive(Drop)]
pub struct Fill {
    /// The place of its item in the response, counted from 1.
    pub item: i32,
    /// A Response Payload.
    pub payload: Item,
}

/// The fills that the children begin with, and the children after them.
pub fn fills_before<'a>(
    alloc: Global,
    children: Children<'a>,
) -> Result<(Vec<Fill>, Children<'a>), AllocError>
    ensures { IfOk result
        (λ r. Leads HasPayload fill_item (list_of (view_trees children.entry)) (map fill_of r.0.items)
        (list_of (view_trees r.1))) }
{
    let mut fills = Vec::new(alloc);
    let mut left = children;
    'fills: while let Some((fill, rest)) = fill_before(alloc, left)? {
        fills.push(fill)?;
        left = rest;
    }
    Ok((fills, left))
}

/// The fill that the children begin with, and the children after it.
fn fill_before<'a>(
    alloc: Global,
    children: Children<'a>,
) -> Result<Option<(Fill, Children<'a>)>, AllocError>
    ensures { IfOk result
        (λ o. MatchOption o
        ((fill : FillOf) (more : List Tree) → IsPayload fill.payload
        → list_of (view_trees children.entry) ≢ fill_item fill ∷ more)
        (λ r. (list_of (view_trees children.entry) ≡ fill_item (fill_of r.0) ∷ list_of (view_trees r.1))
        × IsPayload (fill_of r.0).payload)) }
{
    let mut rest = children;
    let Some(item) = rest.next() else {
        return Ok(None);
    };
    match placed_in(&item, FILL, RESPONSE_PAYLOAD) {
        Some((place, payload)) => Ok(Some((
            Fill {
                item: place,
                payload: copy_item(alloc, &payload)?,
            },
            rest,
        ))),
        None => Ok(None),
    }
}

/// Puts the items that say the fills after the others.
pub fn push_fills(alloc: Global, children: &mut Vec<Item>, fills: &[Fill]) -> Result<(), AllocError>
    ensures { OnOk result
        (map tree children.new.items ≡ map tree children.old.items ++ map fill_item (map fill_of fills.now)) }
{
    for fill in fills {
        children.push(write_placed(alloc, FILL, fill.item, &fill.payload)?)?;
    }
    Ok(())
}

/// Whether each payload is a Response Payload.
pub fn are_payloads(fills: &[Fill]) -> bool
    ensures { IsTrue result ↔ ArePayloads (map fill_of fills.now) }
{
    for fill in fills {
        if !is_payload(&fill.payload) {
            return false;
        }
    }
    true
}

fn is_payload(item: &Item) -> bool
    ensures { IsTrue result ↔ IsPayload (tree item.now) }
{
    is_structure(item, RESPONSE_PAYLOAD)
}
