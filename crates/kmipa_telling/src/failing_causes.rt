//! The lines of a Result Reason of which no cause holds, and of what stands against its causes.

ghost use Rattle.std.specs.Prelude.{◌≡◌, IfOk, flat_map, string_bytes};
ghost use Rattle.kmipa_telling.specs.FailingCauses.{PrintsAgainst, PrintsJudged, PrintsReason, allow_text, behind_line, behind_text, judged_line, reason_line};

use crate::naming::number_text;
use crate::state_causes::{act_text, line_text, since_lines};
use kmipa_explain::{ReasonHeld, StateHeld, Whence};
use kmipa_msgs::Cause as FailureCause;
use kmipa_object::Allow;
use kmipa_runs::result_reason_name;
use std::alloc::{AllocError, Global};

/// The lines of a reason, of what may be behind it, and of what stands against that.
pub fn reason_lines(
    alloc: Global,
    held: &ReasonHeld,
    whence: Option<Whence>,
) -> Result<String, AllocError>
    ensures { IfOk result (λ text. PrintsReason held.now whence (string_bytes text)) }
{
    let reason = reason_line(alloc, held.reason)?;
    let causes = behind_lines(alloc, &held.causes)?;
    let against = against_lines(alloc, held.object, whence)?;
    format!(in alloc; "{reason}{causes}{against}")
}

fn reason_line(alloc: Global, reason: u32) -> Result<String, AllocError>
    ensures { IfOk result (λ text. string_bytes text ≡ reason_line reason) }
{
    let named = number_text(alloc, i64::from(reason), result_reason_name(reason))?;
    format!(in alloc; "reason: {named}\n")
}

/// The lines of what may be behind a reason.
fn behind_lines(alloc: Global, causes: &[FailureCause]) -> Result<String, AllocError>
    ensures { IfOk result (λ text. string_bytes text ≡ flat_map behind_line causes.now) }
{
    let mut text = String::new(alloc);
    'causes: for cause in causes {
        let one = behind_line(alloc, *cause)?;
        text.push_str(one.as_str())?;
    }
    Ok(text)
}

fn behind_line(alloc: Global, cause: FailureCause) -> Result<String, AllocError>
    ensures { IfOk result (λ text. string_bytes text ≡ behind_line cause) }
{
    let behind = behind_text(cause);
    format!(in alloc; "may be behind it: {behind}\n")
}

fn behind_text(cause: FailureCause) -> &'static str
    ensures { result.now ≡ behind_text cause }
{
    match cause {
        FailureCause::NotFound => "the object is not there, or destroyed",
        FailureCause::WrongState => "the state of the object",
        FailureCause::TakenName => "an object has one of the names",
    }
}

/// The lines of what stands against it: the object that is there, or that there is no such one.
fn against_lines(
    alloc: Global,
    object: Option<StateHeld>,
    whence: Option<Whence>,
) -> Result<String, AllocError>
    ensures { IfOk result (λ text. PrintsAgainst object whence (string_bytes text)) }
{
    match object {
        Some(held) => judged_lines(alloc, held, whence),
        None => String::from_str(alloc, "held: no such object\n"),
    }
}

/// The lines of a state, with what it says of an operation, of whence it is, and of the dates that it follows from.
fn judged_lines(
    alloc: Global,
    held: StateHeld,
    whence: Option<Whence>,
) -> Result<String, AllocError>
    ensures { IfOk result (λ text. PrintsJudged held whence (string_bytes text)) }
{
    let judged = judged_line(alloc, held)?;
    let since = since_lines(alloc, held.dates, whence)?;
    format!(in alloc; "{judged}{since}")
}

fn judged_line(alloc: Global, held: StateHeld) -> Result<String, AllocError>
    ensures { IfOk result (λ text. string_bytes text ≡ judged_line held) }
{
    let name = held.state.name();
    let allow = allow_text(held.allow);
    let operation = act_text(held.act);
    let source = line_text(held.by_line);
    format!(in alloc; "state: {name}, which {allow} {operation}{source}\n")
}

fn allow_text(allow: Allow) -> &'static str
    ensures { result.now ≡ allow_text allow }
{
    match allow {
        Allow::Must => "allows",
        Allow::May => "may exclude",
        Allow::Not => "excludes",
    }
}
