//! The object that a judged item is about.

ghost use Rattle.std.specs.Prelude.{◌≡◌, option_and_then, option_map};
ghost use Rattle.kmipa_msgs.specs.Messages.{answer_of, ask_of, maybe_lent, payload_of};
ghost use Rattle.kmipa_passed.specs.Leaving.{held_of};
ghost use Rattle.kmipa_aside.specs.Aims.{aim, id_in, id_shown, or_shown};

use kmipa_msgs::{Answer, Ask, Payload, Status};
use kmipa_ops::{Subject, row_of};
use kmipa_passed::Held;

/// The object that an item is about, where the ID Placeholder held this: none, this one, or nobody can tell.
pub(crate) fn aim<'p>(before: Held<'p>, ask: &'p Ask<'p>, answer: &'p Answer<'p>) -> Held<'p>
    ensures { held_of result ≡ aim (held_of before.entry) (ask_of ask.now) (answer_of answer.now) }
{
    match row_of(&ask.asked).subject {
        Subject::Object(Some(id), _, _) => Held::Holds(id),
        Subject::Object(None, _, _) => or_shown(before, id_shown(answer)),
        Subject::Names(_) | Subject::Nothing => Held::Empty,
    }
}

/// Where nobody can tell what the placeholder held, the object that is shown is meant.
pub(crate) fn or_shown<'p>(before: Held<'p>, shown: Option<&'p str>) -> Held<'p>
    ensures { held_of result ≡ or_shown (held_of before.entry) (maybe_lent shown.entry) }
{
    match (before, shown) {
        (Held::Unknown, Some(id)) => Held::Holds(id),
        (Held::Unknown, None) => Held::Unknown,
        (Held::Empty, _) => Held::Empty,
        (Held::Holds(id), _) => Held::Holds(id),
    }
}

/// The identifier that an answer shows of the object that its item is about, where it says that this was done.
pub(crate) fn id_shown<'p>(answer: &'p Answer<'p>) -> Option<&'p str>
    ensures { maybe_lent result ≡ id_shown answer.now.status (answer_of answer.now).payload }
{
    match answer.status {
        Status::Success | Status::Undone => id_in(&answer.payload),
        Status::Failed => None,
    }
}

fn id_in<'p>(payload: &'p Option<Payload<'p>>) -> Option<&'p str>
    ensures { maybe_lent result ≡ option_and_then id_in (option_map payload_of payload.now) }
{
    match payload {
        Some(Payload::Get(got)) => got.id,
        Some(Payload::GetAttributes(got)) => got.id,
        Some(Payload::Change(changed)) => changed.id,
        Some(Payload::Create(_)) | Some(Payload::Register(_)) | Some(Payload::Locate(_)) => None,
        None => None,
    }
}
