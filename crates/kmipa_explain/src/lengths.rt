//! Bytes that can't be the key of what is asked for, registered or meant.

ghost use Rattle.std.specs.Prelude.{◌≡◌, option_map};
ghost use Rattle.kmipa_msgs.specs.Messages.{answer_of, ask_of};
ghost use Rattle.kmipa_record.specs.Entries.{entry_of};
ghost use Rattle.kmipa_ops.specs.Subjects.{new_of};
ghost use Rattle.kmipa_explain.specs.Lengths.{IsImpossible, ShowsNoKey, TellsLength, TellsShown, new_length};
ghost use Rattle.kmipa_explain.specs.declared.held.LengthHeld.{LengthHeld};

use crate::explanation::Cause;
use crate::held::LengthHeld;
use kmipa_msgs::{Answer, Ask, Payload};
use kmipa_ops::{Effect, New, row_of};
use kmipa_record::Entry;

/// What these bytes, or any, can't be the key of: the new object, or the one that is meant.
pub(crate) fn length_cause(object: Option<&Entry>, ask: &Ask, answer: &Answer) -> Cause
    requires { (l : LengthHeld)
        × IsImpossible (option_map (λ entry. entry_of entry.now) object) (ask_of ask.now).asked
        (answer_of answer.now).payload l }
    ensures { TellsLength (option_map (λ entry. entry_of entry.now) object.entry) (ask_of ask.now).asked
        (answer_of answer.now).payload result }
{
    match row_of(&ask.asked).effect {
        Effect::Makes(new) => Cause::Length(new_length(new)),
        Effect::ShowsBytes => shown_cause(object, answer),
        _ => Cause::Object,
    }
}

/// What is told of a new object.
fn new_length(new: New) -> LengthHeld
    ensures { result ≡ new_length (new_of new.entry) }
{
    match new.block {
        Some(block) => LengthHeld {
            object_type: new.kind,
            algorithm: new.attributes.algorithm.or(block.algorithm),
            length: new.attributes.length.or(block.length),
            bytes: Some(block.material.len()),
        },
        None => LengthHeld {
            object_type: new.kind,
            algorithm: new.attributes.algorithm,
            length: new.attributes.length,
            bytes: None,
        },
    }
}

/// The same of the bytes that an answer shows of the object that is meant.
fn shown_cause(object: Option<&Entry>, answer: &Answer) -> Cause
    requires { (l : LengthHeld)
        × ShowsNoKey (option_map (λ entry. entry_of entry.now) object) (answer_of answer.now).payload l }
    ensures { TellsShown (option_map (λ entry. entry_of entry.now) object.entry) (answer_of answer.now).payload result }
{
    let Some(entry) = object else {
        return Cause::Object;
    };
    match &answer.payload {
        Some(Payload::Get(got)) => Cause::Length(LengthHeld {
            object_type: entry.kind,
            algorithm: entry.attrs.algorithm,
            length: entry.attrs.length,
            bytes: Some(got.block.material.len()),
        }),
        _ => Cause::Object,
    }
}
