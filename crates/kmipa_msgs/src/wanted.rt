//! Payloads that only a witness can give.

ghost use Rattle.std.specs.Prelude.{IsTrue, ◌↔◌};
ghost use Rattle.kmipa_msgs.specs.Messages.{ask_of, answer_of};
ghost use Rattle.kmipa_msgs.specs.Wanted.{IsOwn, Wanted};

use crate::request::Ask;
use crate::response::{Answer, Status};

/// Whether a witness has to give the payload of this answer: it was undone without one, and what it did can't be judged so.
pub fn is_wanted(ask: &Ask, answer: &Answer) -> bool
    ensures { IsTrue result ↔ Wanted (ask_of ask.now) (answer_of answer.now) }
{
    ask.operation().needs_payload()
        && answer.status == Status::Undone
        && answer.payload.is_none()
        && is_own(ask.number(), answer.operation)
}

/// Whether an answer names no operation, or this one.
fn is_own(number: u32, operation: Option<u32>) -> bool
    ensures { IsTrue result ↔ IsOwn number operation }
{
    match operation {
        Some(named) => named == number,
        None => true,
    }
}
