//! The answer that is guessed of a call without an end mark.

use super::call::OpenCall;
use kmipa_msgs::{Answer, Ask, Changed, Payload, Response, Status, write_response};
use kmipa_ops::{Effect, row_of};
use kmipa_ttlv::{Item, encode, spelled_len};
use std::alloc::{AllocError, Global};

/// The bytes of the response that says the success of a call at a Time Stamp, its object being the one with this identifier; none where no
/// bytes are one.
pub fn guessed_answer(
    alloc: Global,
    open: &OpenCall,
    id: &str,
    stamp: i64,
) -> Result<Option<Vec<u8>>, AllocError> {
    let mut items = Vec::new(alloc);
    items.push(Answer {
        operation: Some(open.ask.number()),
        batch_id: open.ask.batch_id,
        status: Status::Success,
        reason: None,
        payload: guessed_payload(open.ask, id),
    })?;
    let item = write_response(alloc, &Response { stamp, items })?;
    spelling_of(alloc, &item)
}

fn guessed_payload<'p>(ask: &Ask, id: &'p str) -> Option<Payload<'p>> {
    match row_of(&ask.asked).effect {
        Effect::Makes(new) => Some(new.payload(id)),
        _ => Some(Payload::Change(Changed { id: Some(id) })),
    }
}

/// The bytes that spell an item, where some do.
pub fn spelling_of(alloc: Global, item: &Item) -> Result<Option<Vec<u8>>, AllocError> {
    if spelled_len(item).is_none() {
        return Ok(None);
    }
    let mut bytes = Vec::new(alloc);
    encode(item, &mut bytes)?;
    Ok(Some(bytes))
}
