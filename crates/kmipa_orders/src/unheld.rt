//! Items that were done on an object that they don't name, while the ID Placeholder was empty.

ghost use Rattle.std.specs.Prelude.{◌≡◌, drop, map, None, true};
ghost use Rattle.kmipa_msgs.specs.Messages.{answer_of, ask_of, asked_of, maybe_lent, request_of, response_of};
ghost use Rattle.kmipa_orders.specs.Unheld.{IsUnheld, IsUnheldAmong, IsUnheldCall, is_unnamed, is_whole};

use kmipa_msgs::{Answer, Ask, Asked, Request, Response, Status};
use kmipa_ops::{Subject, row_of};
use kmipa_parts::held_after;

/// Whether an item of a call was done on an object that it doesn't name, while the ID Placeholder was empty whatever the inventory. Nothing is said of
/// a call without order, and of the items behind an answer that doesn't tell what the placeholder holds.
pub(crate) fn is_unheld_call(request: &Request, response: &Response) -> bool
    ensures { result ≡ true → IsUnheldCall (request_of request.now) (response_of response.now) }
{
    if !request.ordered {
        return false;
    }
    let mut held: Option<&str> = None;
    let mut place = 0;
    'places: while place < request.items.len() && place < response.items.len() {
        let ask = &request.items[place];
        let answer = &response.items[place];
        if is_unheld(held, ask, answer) {
            return true;
        }
        if !is_whole(answer) {
            return false;
        }
        held = held_after(held, ask, answer);
        place += 1;
    }
    false
}

/// Whether an item was done, names no object, and the ID Placeholder is empty.
fn is_unheld(held: Option<&str>, ask: &Ask, answer: &Answer) -> bool
    ensures { result ≡ true → IsUnheld (maybe_lent held.entry) (ask_of ask.now) (answer_of answer.now) }
{
    if held.is_some() {
        return false;
    }
    match answer.status {
        Status::Failed => false,
        Status::Success | Status::Undone => is_unnamed(&ask.asked),
    }
}

/// Whether an operation is on an object, and names none.
fn is_unnamed(asked: &Asked) -> bool
    ensures { result ≡ is_unnamed (asked_of asked.now) }
{
    match row_of(asked).subject {
        Subject::Object(None, _, _) => true,
        Subject::Object(Some(_), _, _) | Subject::Names(_) | Subject::Nothing => false,
    }
}

/// Whether an answer left no payload out.
fn is_whole(answer: &Answer) -> bool
    ensures { result ≡ is_whole answer.now.status (answer_of answer.now).payload }
{
    match answer.status {
        Status::Undone => answer.payload.is_some(),
        Status::Success | Status::Failed => true,
    }
}
