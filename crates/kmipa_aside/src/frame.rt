//! What an answer repeats of its item: the operation, and the Unique Batch Item ID.

ghost use Rattle.std.specs.Prelude.{◌≡◌};
ghost use Rattle.kmipa_msgs.specs.Messages.{answer_of, ask_of};
ghost use Rattle.kmipa_aside.specs.Taking.{frame_lowest};

use kmipa_msgs::{Answer, Ask};
use kmipa_ops::{Why, clash_bytes, is_other_number};

/// The lowest reason against an answer that names another operation, or another item.
pub(crate) fn frame_why(ask: &Ask, answer: &Answer) -> Option<Why>
    ensures { result ≡ frame_lowest (ask_of ask.now) (answer_of answer.now) }
{
    if is_other_number(answer.operation, ask.number()) {
        return Some(Why::OperationDiffers);
    }
    if clash_bytes(answer.batch_id, ask.batch_id) {
        return Some(Why::EchoDiffers);
    }
    None
}
