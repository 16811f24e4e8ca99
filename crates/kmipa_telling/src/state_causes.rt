//! The lines of an object's state, of the operation that it bears on, and of the dates that it follows from.

ghost use Rattle.std.specs.Prelude.{◌≡◌, IfOk, string_bytes};
ghost use Rattle.kmipa_telling.specs.Sources.{attribute_source};
ghost use Rattle.kmipa_telling.specs.StateCauses.{PrintsDate, PrintsDates, PrintsMoment, PrintsSince, PrintsState, act_text, line_text, state_line};

use crate::sources::{attribute_source, source_line, with_source};
use kmipa_explain::{DatesHeld, StateHeld, Whence};
use kmipa_object::Act;
use kmipa_ops::Judged;
use kmipa_runs::date_text;
use std::alloc::{AllocError, Global};

/// The lines of a state that excludes an operation, of whence it is, and of the dates that it follows from.
pub fn state_lines(
    alloc: Global,
    held: &StateHeld,
    whence: Option<Whence>,
) -> Result<String, AllocError>
    ensures { IfOk result (λ text. PrintsState held.now whence (string_bytes text)) }
{
    let excluding = state_line(alloc, held)?;
    let since = since_lines(alloc, held.dates, whence)?;
    format!(in alloc; "{excluding}{since}")
}

/// The line of a state, and of the operation that it excludes.
fn state_line(alloc: Global, held: &StateHeld) -> Result<String, AllocError>
    ensures { IfOk result (λ text. string_bytes text ≡ state_line held.now) }
{
    let name = held.state.name();
    let excluded = act_text(held.act);
    let source = line_text(held.by_line);
    format!(in alloc; "state: {name}, which excludes {excluded}{source}\n")
}

/// That a line of the declaration says so, and not the table.
pub fn line_text(by_line: bool) -> &'static str
    ensures { result.now ≡ line_text by_line }
{
    if by_line {
        " by a line of the declaration"
    } else {
        ""
    }
}

/// What a row of the table of states is called.
pub fn act_text(act: Act) -> &'static str
    ensures { result.now ≡ act_text act }
{
    match act {
        Act::Get => "Get",
        Act::GetAttributes => "Get Attributes",
        Act::Activate => "Activate",
        Act::RevokeCompromised => "Revoke for a compromise",
        Act::RevokeOther => "Revoke",
        Act::Destroy => "Destroy",
    }
}

/// The lines of whence a state is, and of the dates that it follows from.
pub fn since_lines(
    alloc: Global,
    dates: DatesHeld,
    whence: Option<Whence>,
) -> Result<String, AllocError>
    ensures { IfOk result (λ text. PrintsSince whence dates (string_bytes text)) }
{
    let state = source_line(alloc, "held since", attribute_source(whence, Judged::State))?;
    let dates = dates_lines(alloc, dates, whence)?;
    format!(in alloc; "{state}{dates}")
}

/// The lines of the dates of an object, with whence they are.
fn dates_lines(
    alloc: Global,
    dates: DatesHeld,
    whence: Option<Whence>,
) -> Result<String, AllocError>
    ensures { IfOk result (λ text. PrintsDates whence dates (string_bytes text)) }
{
    let initial = date_lines(
        alloc,
        "initial date",
        dates.initial,
        whence,
        Judged::InitialDate,
    )?;
    let activation = date_lines(
        alloc,
        "activation date",
        dates.activation,
        whence,
        Judged::ActivationDate,
    )?;
    let deactivation = date_lines(
        alloc,
        "deactivation date",
        dates.deactivation,
        whence,
        Judged::DeactivationDate,
    )?;
    let destroy = date_lines(
        alloc,
        "destroy date",
        dates.destroy,
        whence,
        Judged::DestroyDate,
    )?;
    let compromise = date_lines(
        alloc,
        "compromise date",
        dates.compromise,
        whence,
        Judged::CompromiseDate,
    )?;
    format!(in alloc; "{initial}{activation}{deactivation}{destroy}{compromise}")
}

/// The line of a date behind its name, and whence it is.
fn date_lines(
    alloc: Global,
    name: &str,
    moment: Option<i64>,
    whence: Option<Whence>,
    attribute: Judged,
) -> Result<String, AllocError>
    ensures { IfOk result (λ text. PrintsDate name.now moment (attribute_source whence attribute)
        (string_bytes text)) }
{
    let told = moment_line(alloc, name, moment)?;
    let source = attribute_source(whence, attribute);
    with_source(alloc, told.as_str(), "held since", source)
}

/// The line of a moment behind its name.
pub fn moment_line(alloc: Global, name: &str, moment: Option<i64>) -> Result<String, AllocError>
    ensures { IfOk result (λ text. PrintsMoment name.now moment (string_bytes text)) }
{
    match moment {
        Some(second) => {
            let date = date_text(alloc, second)?;
            format!(in alloc; "{name}: {date}\n")
        }
        None => format!(in alloc; "{name}: none\n"),
    }
}
