//! Whether a call has what there is to judge.

ghost use Rattle.std.specs.Prelude.{◌↔◌, IsTrue, map};
ghost use Rattle.std.specs.List.{zip};
ghost use Rattle.kmipa_msgs.specs.Messages.{answer_of, ask_of, request_of, response_of};
ghost use Rattle.kmipa_batch.specs.Readable.{AreReadable, IsReadableCall};

use crate::shape::is_refused_message;
use kmipa_msgs::{Answer, Ask, Request, Response};
use kmipa_ops::is_readable;

/// Whether each answer to what was asked for has what there is to judge, unless the message is refused as a whole: then there is nothing
/// to judge. `take_call` wants it.
pub fn is_readable_call(request: &Request, response: &Response) -> bool
    ensures { IsTrue result ↔ IsReadableCall (request_of request.now) (response_of response.now) }
{
    is_refused_message(response) || are_readable(&request.items, &response.items)
}

fn are_readable(asks: &[Ask], answers: &[Answer]) -> bool
    ensures { IsTrue result ↔ AreReadable (zip (map ask_of asks.now) (map answer_of answers.now)) }
{
    for (ask, answer) in asks.iter().zip(answers.iter()) {
        if !is_readable(ask, answer) {
            return false;
        }
    }
    true
}
