//! What has to be there to judge an answer.

ghost use Rattle.std.specs.Prelude.{◌≡◌, option_map};
ghost use Rattle.kmipa_msgs.specs.Messages.{answer_of, asked_of, ask_of, payload_of};
ghost use Rattle.kmipa_ops.specs.Completes.{can_judge, has_payload, may_have};
ghost use Rattle.kmipa_ops.specs.Explains.{is_readable};

use crate::change::Change;
use crate::changing::Changing;
use crate::deed::Deed;
use crate::deeds::with_deed;
use crate::echo::is_other_number;
use crate::idle::Unjudged;
use kmipa_msgs::{Answer, Ask, Asked, Payload, Status};

/// Whether an answer has what there is to judge: a Success of the operation asked for has its payload, and so has an Undone Create,
/// Register or Locate; an Undone answer of another operation has it or none. An operation without effect has none. An answer of
/// another operation and a failed one have nothing to judge in theirs.
pub fn is_readable(ask: &Ask, answer: &Answer) -> bool
    ensures { result ≡ is_readable (ask_of ask.now) (answer_of answer.now) }
{
    is_other_number(answer.operation, ask.number())
        || can_judge(answer.status, &ask.asked, &answer.payload)
}

fn can_judge(status: Status, asked: &Asked, payload: &Option<Payload>) -> bool
    ensures { result ≡ can_judge status (asked_of asked.now) (option_map payload_of payload.now) }
{
    with_deed!(asked, deed, can_judge_deed(status, deed, payload))
}

fn can_judge_deed<D: Deed>(status: Status, deed: &D, payload: &Option<Payload>) -> bool
    ensures { result ≡ can_judge status (D.asked deed.now) (option_map payload_of payload.now) }
{
    match status {
        Status::Success => has_payload(deed, payload),
        Status::Undone => may_have(deed, payload),
        Status::Failed => true,
    }
}

fn has_payload<D: Deed>(deed: &D, payload: &Option<Payload>) -> bool
    ensures { result ≡ has_payload (D.asked deed.now) (option_map payload_of payload.now) }
{
    match payload {
        Some(payload) => deed.is_of(payload),
        None => deed.is_idle(),
    }
}

fn may_have<D: Deed>(deed: &D, payload: &Option<Payload>) -> bool
    ensures { result ≡ may_have (D.asked deed.now) (option_map payload_of payload.now) }
{
    match payload {
        Some(payload) => deed.is_of(payload),
        None => deed.may_lack(),
    }
}
