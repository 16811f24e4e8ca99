//! The lines of what a reason rests on, reason by reason.

ghost use Rattle.std.specs.Prelude.{◌≡◌, IfOk, codes, string_bytes};
ghost use Rattle.kmipa_explain.specs.Meant.{text_of};
ghost use Rattle.kmipa_telling.specs.AttributeCauses.{PrintsAttributes};
ghost use Rattle.kmipa_telling.specs.Sources.{object_source};
ghost use Rattle.kmipa_telling.specs.Causes.{PrintsBefore, PrintsCause, absent_line, answered_text, asked_text, bytes_lines, failed_text, operations_lines, option_text, shape_lines, status_text};

use crate::attribute_causes::attributes_lines;
use crate::echo_causes::echo_line;
use crate::failing_causes::reason_lines;
use crate::listing_causes::{left_out_lines, listed_lines};
use crate::making_causes::{identifier_line, length_lines, name_line};
use crate::phrases::{calls_text, named_text, operation_text};
use crate::sources::object_source;
use crate::state_causes::state_lines;
use kmipa_explain::{AttributesHeld, BytesHeld, Cause, Operations, Shape, TurnBefore, Whence};
use kmipa_msgs::{BatchOption, Status as ItemStatus};
use kmipa_runs::{date_text, quoted_text};
use std::alloc::{AllocError, Global};

/// The lines of what the reason rests on.
pub fn cause_lines(
    alloc: Global,
    cause: &Cause,
    whence: Option<Whence>,
) -> Result<String, AllocError>
    ensures { IfOk result (λ text. PrintsCause cause.now whence (string_bytes text)) }
{
    match cause {
        Cause::EarlierCalls(numbers) => {
            let calls = calls_text(alloc, numbers)?;
            format!(in alloc; "ended before it began, and later: {calls}\n")
        }
        Cause::StampBefore(before) => before_line(alloc, before),
        Cause::BatchShape(shape) => shape_lines(alloc, shape),
        Cause::Operations(operations) => operations_lines(alloc, operations),
        Cause::NoObject(meant) => absent_line(alloc, meant),
        Cause::State(held) => state_lines(alloc, held, whence),
        Cause::Bytes(held) => bytes_lines(alloc, held),
        Cause::Identifier(id) => identifier_line(alloc, id.as_str()),
        Cause::Name(held) => name_line(alloc, held),
        Cause::Length(held) => length_lines(alloc, held),
        Cause::Differing(held) => attributes_lines(alloc, " shown, not held", None, whence, held),
        Cause::Missing(held) => missing_lines(alloc, whence, held),
        Cause::Listed(held) => listed_lines(alloc, held),
        Cause::LeftOut(left) => left_out_lines(alloc, left),
        Cause::Reason(held) => reason_lines(alloc, held, whence),
        Cause::Echo(held) => echo_line(alloc, held),
        Cause::Object => Ok(String::new(alloc)),
    }
}

/// The lines of required attributes that aren't shown; the names are from where the object is.
fn missing_lines(
    alloc: Global,
    whence: Option<Whence>,
    held: &AttributesHeld,
) -> Result<String, AllocError>
    ensures { IfOk result (λ text. PrintsAttributes (codes " held, not shown") (object_source whence) whence held.now
        (string_bytes text)) }
{
    let source = object_source(whence);
    attributes_lines(alloc, " held, not shown", source, whence, held)
}

/// The line of the turn before.
fn before_line(alloc: Global, before: &TurnBefore) -> Result<String, AllocError>
    ensures { IfOk result (λ text. PrintsBefore before.now (string_bytes text)) }
{
    let TurnBefore { turn, call, stamp } = *before;
    let date = date_text(alloc, stamp)?;
    format!(in alloc; "turn before: turn {turn} call {call} at {date}\n")
}

/// The lines of what a shape is judged by.
fn shape_lines(alloc: Global, shape: &Shape) -> Result<String, AllocError>
    ensures { IfOk result (λ text. string_bytes text ≡ shape_lines shape.now) }
{
    let option = option_text(shape.option);
    let failed = failed_text(alloc, shape.failed)?;
    let asked = asked_text(shape.asked);
    let answered = answered_text(alloc, shape.status)?;
    format!(in alloc;
        "on errors: {option}\nfirst failed: {failed}\nthis item: {asked}, {answered}\n"
    )
}

/// What the request wants where an item fails.
pub fn option_text(option: BatchOption) -> &'static str
    ensures { result.now ≡ option_text option }
{
    match option {
        BatchOption::Stop => "Stop",
        BatchOption::Continue => "Continue",
        BatchOption::Undo => "Undo",
    }
}

fn failed_text(alloc: Global, failed: Option<usize>) -> Result<String, AllocError>
    ensures { IfOk result (λ text. string_bytes text ≡ failed_text failed) }
{
    match failed {
        Some(item) => format!(in alloc; "item {item}"),
        None => String::from_str(alloc, "none"),
    }
}

fn asked_text(asked: bool) -> &'static str
    ensures { result.now ≡ asked_text asked }
{
    match asked {
        true => "asked for",
        false => "not asked for",
    }
}

fn answered_text(alloc: Global, status: Option<ItemStatus>) -> Result<String, AllocError>
    ensures { IfOk result (λ text. string_bytes text ≡ answered_text status) }
{
    match status {
        Some(status) => {
            let name = status_text(status);
            format!(in alloc; "answered {name}")
        }
        None => String::from_str(alloc, "not answered"),
    }
}

/// The name of an item's status, as the standard writes it.
pub fn status_text(status: ItemStatus) -> &'static str
    ensures { result.now ≡ status_text status }
{
    match status {
        ItemStatus::Success => "Success",
        ItemStatus::Failed => "Operation Failed",
        ItemStatus::Undone => "Operation Undone",
    }
}

/// The lines of two operations that differ.
fn operations_lines(alloc: Global, operations: &Operations) -> Result<String, AllocError>
    ensures { IfOk result (λ text. string_bytes text ≡ operations_lines operations.now) }
{
    let asked = operation_text(alloc, operations.asked)?;
    let answered = named_text(alloc, operations.answered)?;
    format!(in alloc; "asked: {asked}\nanswered: {answered}\n")
}

/// The line of an identifier of which there is no object.
fn absent_line(alloc: Global, meant: &Option<String>) -> Result<String, AllocError>
    ensures { IfOk result (λ text. string_bytes text ≡ absent_line (text_of meant.now)) }
{
    match meant {
        Some(id) => {
            let identifier = quoted_text(alloc, id.as_str())?;
            format!(in alloc; "no object: {identifier}\n")
        }
        None => String::from_str(alloc, "no object: the ID Placeholder is empty\n"),
    }
}

/// The lines of bytes that differ.
fn bytes_lines(alloc: Global, held: &BytesHeld) -> Result<String, AllocError>
    ensures { IfOk result (λ text. string_bytes text ≡ bytes_lines held.now) }
{
    let BytesHeld {
        known,
        shown,
        differ_at,
    } = *held;
    format!(in alloc;
        "known bytes: {known}\nshown bytes: {shown}\nfirst difference: offset {differ_at}\n"
    )
}
