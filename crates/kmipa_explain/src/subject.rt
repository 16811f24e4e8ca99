//! The object of which a cause speaks.

ghost use Rattle.std.specs.Prelude.{◌≡◌, IfOk, Some, option_map};
ghost use Rattle.kmipa_msgs.specs.Messages.{maybe_lent};
ghost use Rattle.kmipa_record.specs.Declarations.{declaration_of};
ghost use Rattle.kmipa_record.specs.Entries.{entry_of};
ghost use Rattle.kmipa_explain.specs.Reading.{seen_subject};
ghost use Rattle.kmipa_explain.specs.Meant.{text_of};
ghost use Rattle.kmipa_explain.specs.Whence.{id_of_cause, subject_at, subject_held};

use crate::explanation::Cause;
use crate::filters::state_of;
use crate::held::DatesHeld;
use crate::holding::{dates_in, entry_named};
use kmipa_object::State;
use kmipa_record::{Declaration, Entry};
use std::alloc::{AllocError, Global};

/// What a reason rests on.
#[derive(Drop)]
pub struct Resting {
    pub cause: Cause,
    /// The object of which the cause speaks, if there is one.
    pub subject: Option<Subject>,
}

/// An object that was held.
#[derive(Drop)]
pub struct Subject {
    pub identifier: String,
    pub dates: DatesHeld,
    /// Its state at the moment of the call.
    pub state: State,
    /// Whether its bytes are known.
    pub bytes: bool,
}

/// The object of which a cause speaks, where this identifier is meant.
pub fn subject_held(
    alloc: Global,
    held: &Declaration,
    meant: &Option<String>,
    t: i64,
    cause: &Cause,
) -> Result<Option<Subject>, AllocError>
    ensures { IfOk result (λ subject. option_map seen_subject subject
        ≡ subject_held t cause.now (declaration_of held.now) (text_of meant.now)) }
{
    let Some(id) = id_of_cause(cause, meant) else {
        return Ok(None);
    };
    match entry_named(&held.entries, id) {
        Some(entry) => Ok(Some(subject_at(alloc, entry, t)?)),
        None => Ok(None),
    }
}

/// The identifier of the object of which a cause speaks.
fn id_of_cause<'c>(cause: &'c Cause, meant: &'c Option<String>) -> Option<&'c str>
    ensures { maybe_lent result ≡ id_of_cause cause.now (text_of meant.now) }
{
    match cause {
        Cause::Name(held) => Some(held.bearer.as_str()),
        Cause::State(_) | Cause::Bytes(_) | Cause::Identifier(_) => lent(meant),
        Cause::Differing(_) | Cause::Missing(_) => lent(meant),
        Cause::Reason(held) if held.object.is_some() => lent(meant),
        _ => None,
    }
}

/// The text, where there is one.
fn lent(text: &Option<String>) -> Option<&str>
    ensures { maybe_lent result ≡ text_of text.now }
{
    match text {
        Some(text) => Some(text.as_str()),
        None => None,
    }
}

/// A declared object at a moment.
fn subject_at(alloc: Global, entry: &Entry, t: i64) -> Result<Subject, AllocError>
    ensures { IfOk result (λ subject. seen_subject subject ≡ subject_at t (entry_of entry.now)) }
{
    Ok(Subject {
        identifier: String::from_str(alloc, entry.id.as_str())?,
        dates: dates_in(&entry.attrs),
        state: state_of(entry, t),
        bytes: entry.bytes.is_some(),
    })
}
