//! The payloads that are guessed where a call waits for them.

ghost use Rattle.std.specs.Prelude.{◌≡◌, IfOk, OnOk};
ghost use Rattle.kmipa_store.specs.Choices.{IsSound};

use kmipa_aside::Sight;
use kmipa_attrs::Filter;
use kmipa_attrs::tags::{RESPONSE_PAYLOAD, UNIQUE_IDENTIFIER};
use kmipa_msgs::{Ask, is_wanted};
use kmipa_ops::{Effect, Fit, matches, row_of};
use kmipa_places::{Place, Readable};
use kmipa_record::{Fill, Turn};
use kmipa_store::Ledger;
use kmipa_ttlv::{Item, Tag};
use std::alloc::{AllocError, Global};

/// The turn of a call of this number, with a guess for each payload that it waits for: what was made is named `undone-2` at item 2, and a Locate lists what
/// has to be listed as the call begins.
pub(crate) fn guessed_turn<L: Ledger>(
    alloc: Global,
    ledger: &mut L,
    sight: Sight,
    number: i32,
    said: &Readable,
) -> Result<Turn, AllocError>
    ensures { L.state ledger.new ≡ L.state ledger.old }
{
    ledger.set_moment(said.stamp);
    let mut turn = Turn::bare(alloc, number);
    turn.fills = guessed_fills(alloc, ledger, sight, &said.places)?;
    Ok(turn)
}

fn guessed_fills<L: Ledger>(
    alloc: Global,
    ledger: &L,
    sight: Sight,
    places: &[Place],
) -> Result<Vec<Fill>, AllocError> {
    let mut fills = Vec::new(alloc);
    let mut item = 0i32;
    'places: for place in places {
        item = item.saturating_add(1);
        let Some(ask) = waiting_ask(place) else {
            continue;
        };
        let payload = guessed_payload(alloc, ledger, sight, ask, item)?;
        fills.push(Fill { item, payload })?;
    }
    Ok(fills)
}

/// What is asked at a place that waits for its payload.
fn waiting_ask<'b, 'a>(place: &'b Place<'a>) -> Option<&'b Ask<'a>> {
    match place {
        Place::Judged(ask, answer) if is_wanted(ask, answer) => Some(ask),
        _ => None,
    }
}

fn guessed_payload<L: Ledger>(
    alloc: Global,
    ledger: &L,
    sight: Sight,
    ask: &Ask,
    item: i32,
) -> Result<Item, AllocError> {
    let ids = match row_of(&ask.asked).effect {
        Effect::Lists(filter) => fitting(alloc, ledger, sight, filter)?,
        _ => undone(alloc, item)?,
    };
    let tag = Tag {
        number: RESPONSE_PAYLOAD,
    };
    Ok(Item::structure(tag, ids))
}

/// The identifier of an object that was made and undone.
fn undone(alloc: Global, item: i32) -> Result<Vec<Item>, AllocError> {
    let id = format!(in alloc; "undone-{item}")?;
    let mut ids = Vec::new(alloc);
    ids.push(identifier(alloc, id.as_str())?)?;
    Ok(ids)
}

/// The identifiers of the objects that have to be listed, as many as may be.
fn fitting<L: Ledger>(
    alloc: Global,
    ledger: &L,
    sight: Sight,
    filter: &Filter,
) -> Result<Vec<Item>, AllocError> {
    let count = ledger.len();
    let most = most_listed(filter, count);
    let mut ids = Vec::new(alloc);
    'objects: for place in 0..count {
        if ids.len() >= most {
            break;
        }
        let object = ledger.at(place);
        let id = object.id.as_str();
        if matches(object, filter, ledger.state(place)) == Fit::Must && !is_hidden(sight, id) {
            ids.push(identifier(alloc, id)?)?;
        }
    }
    Ok(ids)
}

/// How many objects may be listed, of so many.
fn most_listed(filter: &Filter, count: usize) -> usize {
    match filter.maximum {
        Some(most) => usize::try_from(most).unwrap_or(0),
        None => count,
    }
}

/// Whether an object is another's: it needn't be listed.
fn is_hidden(sight: Sight, id: &str) -> bool {
    'owners: for owned in sight.owners {
        if owned.id == id && owned.owner != sight.me {
            return true;
        }
    }
    false
}

fn identifier(alloc: Global, id: &str) -> Result<Item, AllocError> {
    let tag = Tag {
        number: UNIQUE_IDENTIFIER,
    };
    Item::text(alloc, tag, id)
}
