//! Which object an item is about.

ghost use Rattle.std.specs.Prelude.{◌≡◌};
ghost use Rattle.kmipa_msgs.specs.Messages.{answer_of, ask_of, maybe_lent};
ghost use Rattle.kmipa_ops.specs.Objects.{meant};
ghost use Rattle.kmipa_parts.specs.Making.{unless_failed};
ghost use Rattle.kmipa_parts.specs.Parts.{about, held_after};

use kmipa_msgs::{Answer, Ask, Status};
use kmipa_ops::{Subject, held_after as held_done, row_of};

/// The identifier of the object that an item is about, where the ID Placeholder holds this: that of the object which it made, or the one
/// that is meant. A Locate is about none, and neither is a Create or a Register that failed.
pub fn about<'a>(held: Option<&'a str>, ask: &Ask<'a>, answer: &Answer<'a>) -> Option<&'a str>
    ensures { maybe_lent result
        ≡ about (maybe_lent held.entry) (ask_of ask.now).asked (answer_of answer.now).status (answer_of answer.now).payload }
{
    match row_of(&ask.asked).subject {
        Subject::Object(_, _, _) => meant(ask.asked.id(), held),
        Subject::Names(_) => made(answer.status, held_done(&ask.asked, None, &answer.payload)),
        Subject::Nothing => None,
    }
}

/// What the ID Placeholder holds after an item.
pub fn held_after<'a>(held: Option<&'a str>, ask: &Ask<'a>, answer: &Answer<'a>) -> Option<&'a str>
    ensures { maybe_lent result
        ≡ held_after (maybe_lent held.entry) (ask_of ask.now).asked (answer_of answer.now).status
        (answer_of answer.now).payload }
{
    match answer.status {
        Status::Failed => held,
        Status::Success => held_done(&ask.asked, held, &answer.payload),
        Status::Undone => held_done(&ask.asked, held, &answer.payload),
    }
}

/// The identifier that is named, or else the one that is held.
fn meant<'a>(named: Option<&'a str>, held: Option<&'a str>) -> Option<&'a str>
    ensures { maybe_lent result ≡ meant (maybe_lent named.entry) (maybe_lent held.entry) }
{
    match named {
        Some(id) => Some(id),
        None => held,
    }
}

/// The identifier of the object that was made, where it was.
fn made<'a>(status: Status, new: Option<&'a str>) -> Option<&'a str>
    ensures { maybe_lent result ≡ unless_failed status (maybe_lent new.entry) }
{
    match status {
        Status::Failed => None,
        Status::Success => new,
        Status::Undone => new,
    }
}
