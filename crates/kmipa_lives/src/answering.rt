//! Answers that say that an item was done.

use crate::fates::Aim;
use kmipa_msgs::{Answer, Ask, Changed, Payload, Registered, Status};
use kmipa_ops::New;

/// The answer that says that an item that makes or changes the object with this identifier was done.
pub fn answer_of<'p>(ask: &Ask<'p>, id: &'p str, status: Status) -> Answer<'p> {
    Answer {
        operation: Some(ask.number()),
        batch_id: ask.batch_id,
        status,
        reason: None,
        payload: Some(match Aim::of(ask).newborn() {
            Some(new) => born(new, id),
            None => Payload::Change(Changed { id: Some(id) }),
        }),
    }
}

/// What is answered of a new object: it is registered where its bytes are brought, or else created.
fn born<'p>(new: New<'_>, id: &'p str) -> Payload<'p> {
    let registered = Registered {
        object_type: Some(new.kind.number()),
        id,
    };
    match new.block {
        Some(_) => Payload::Register(registered),
        None => Payload::Create(registered),
    }
}
