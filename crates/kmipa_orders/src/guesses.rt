//! What a search fills in where a response leaves a payload out: one guess for each.

ghost use Rattle.std.specs.Prelude.{◌≡◌, IfOk};

use crate::candidate::Candidate;
use kmipa_attrs::Filter;
use kmipa_attrs::tags::{RESPONSE_PAYLOAD, UNIQUE_IDENTIFIER};
use kmipa_msgs::{Ask, is_wanted};
use kmipa_ops::{Effect, Fit, matches, row_of};
use kmipa_record::{Fill, Turn};
use kmipa_store::Ledger;
use kmipa_ttlv::{Item, Tag};
use std::alloc::{AllocError, Global};

/// The turn that is tried of a call: it fills in a guess where the call waits for a payload, and gives nothing else.
pub fn guessed_turn<L: Ledger>(
    alloc: Global,
    ledger: &L,
    call: &Candidate,
) -> Result<Turn, AllocError>
    ensures { IfOk result (λ turn. turn.call ≡ call.now.call.now.number) }
{
    let asks = call.request.items.as_slice();
    let answers = call.response.items.as_slice();
    let count = asks.len().min(answers.len());
    let mut fills = Vec::new(alloc);
    let mut place = 0;
    'items: while place < count {
        if is_wanted(&asks[place], &answers[place]) {
            let item = i32::try_from(place + 1).unwrap_or(0);
            let payload = guessed_payload(alloc, ledger, &asks[place], item)?;
            fills.push(Fill { item, payload })?;
        }
        place += 1;
    }
    let mut turn = Turn::bare(alloc, call.call.number);
    turn.fills = fills;
    Ok(turn)
}

/// The payload that is guessed: of a Locate each object that has to be listed, in the order of the inventory; of a Create or Register at
/// item 2 the identifier `undone-2`.
fn guessed_payload<L: Ledger>(
    alloc: Global,
    ledger: &L,
    ask: &Ask,
    item: i32,
) -> Result<Item, AllocError> {
    let ids = match row_of(&ask.asked).effect {
        Effect::Lists(filter) => fitting(alloc, ledger, filter)?,
        _ => undone(alloc, item)?,
    };
    let tag = Tag {
        number: RESPONSE_PAYLOAD,
    };
    Ok(Item::structure(tag, ids))
}

/// The payload that is guessed of an item at its own place: as above, but with the identifier that a later answer shows, if one does.
pub fn payload_at<L: Ledger>(
    alloc: Global,
    ledger: &L,
    ask: &Ask,
    item: i32,
    shown: Option<&str>,
) -> Result<Item, AllocError> {
    let Some(id) = shown else {
        return guessed_payload(alloc, ledger, ask, item);
    };
    if let Effect::Lists(filter) = row_of(&ask.asked).effect {
        if filter.maximum != Some(1) {
            return guessed_payload(alloc, ledger, ask, item);
        }
    }
    let mut ids = Vec::new(alloc);
    ids.push(identifier(alloc, id)?)?;
    let tag = Tag {
        number: RESPONSE_PAYLOAD,
    };
    Ok(Item::structure(tag, ids))
}

/// The identifier of an object that was made and undone.
fn undone(alloc: Global, item: i32) -> Result<Vec<Item>, AllocError> {
    let id = format!(in alloc; "undone-{item}")?;
    let mut ids = Vec::new(alloc);
    ids.push(identifier(alloc, id.as_str())?)?;
    Ok(ids)
}

/// The identifiers of the objects that have to be listed, as many as may be.
fn fitting<L: Ledger>(alloc: Global, ledger: &L, filter: &Filter) -> Result<Vec<Item>, AllocError> {
    let count = ledger.len();
    let most = match filter.maximum {
        Some(most) => usize::try_from(most).unwrap_or(0),
        None => count,
    };
    let mut ids = Vec::new(alloc);
    let mut place = 0;
    'objects: while place < count {
        let object = ledger.at(place);
        if ids.len() < most && matches(object, filter, ledger.state(place)) == Fit::Must {
            ids.push(identifier(alloc, object.id.as_str())?)?;
        }
        place += 1;
    }
    Ok(ids)
}

fn identifier(alloc: Global, id: &str) -> Result<Item, AllocError> {
    let tag = Tag {
        number: UNIQUE_IDENTIFIER,
    };
    Item::text(alloc, tag, id)
}
