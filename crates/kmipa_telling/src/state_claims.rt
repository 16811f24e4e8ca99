//! An object's state, the operation that it bears on, and the dates that it follows from, as members of a JSON object.

ghost use Rattle.std.specs.Prelude.{◌≡◌, IfOk, OnOk, Some};
ghost use Rattle.serde_json.specs.Data.{no_members};
ghost use Rattle.kmipa_json.specs.Told.{members_of};
ghost use Rattle.kmipa_telling.specs.StateClaims.{TellsDates, TellsMoment, TellsState, line_members, state_members};
ghost use Rattle.kmipa_telling.specs.Telling.{TellsDate};

use crate::state_causes::act_text;
use crate::telling::tell_date;
use kmipa_explain::{DatesHeld, StateHeld};
use kmipa_json::JsonObject;
use std::alloc::{AllocError, Global};

/// A state that excludes an operation, and the dates that it follows from.
pub fn state_object(alloc: Global, held: &StateHeld) -> Result<JsonObject, AllocError>
    ensures { IfOk result (λ told. TellsState held.now (members_of told)) }
{
    let mut told = excluding_object(alloc, held)?;
    tell_dates(alloc, &mut told, held.dates)?;
    Ok(told)
}

/// A state, and the operation that it excludes.
fn excluding_object(alloc: Global, held: &StateHeld) -> Result<JsonObject, AllocError>
    ensures { IfOk result (λ told. members_of told ≡ state_members held.now) }
{
    let mut told = JsonObject::new(alloc);
    told.put_text("name", held.state.name())?;
    told.put_text("excludes", act_text(held.act))?;
    tell_line(&mut told, held.by_line)?;
    Ok(told)
}

/// Puts into an object that a line of the declaration says so, where one does.
pub fn tell_line(told: &mut JsonObject, by_line: bool) -> Result<(), AllocError>
    ensures { OnOk result (members_of told.new ≡ line_members by_line (members_of told.old)) }
{
    if by_line {
        return told.put_text("by", "declaration");
    }
    Ok(())
}

/// Puts the dates of an object into an object, each under its name, those that it has.
pub fn tell_dates(alloc: Global, told: &mut JsonObject, dates: DatesHeld) -> Result<(), AllocError>
    ensures { OnOk result (TellsDates dates (members_of told.old) (members_of told.new)) }
{
    tell_moment(alloc, told, "initial_date", dates.initial)?;
    tell_moment(alloc, told, "activation_date", dates.activation)?;
    tell_moment(alloc, told, "deactivation_date", dates.deactivation)?;
    tell_moment(alloc, told, "destroy_date", dates.destroy)?;
    tell_moment(alloc, told, "compromise_date", dates.compromise)
}

/// A moment under a name, where there is one.
pub fn tell_moment(
    alloc: Global,
    told: &mut JsonObject,
    key: &str,
    moment: Option<i64>,
) -> Result<(), AllocError>
    ensures { OnOk result (TellsMoment key.now moment (members_of told.old) (members_of told.new)) }
{
    match moment {
        Some(second) => told.put_object(key, moment_object(alloc, second)?),
        None => Ok(()),
    }
}

/// A moment in seconds, and its date.
pub fn moment_object(alloc: Global, second: i64) -> Result<JsonObject, AllocError>
    ensures { IfOk result (λ told. TellsDate (Some second) no_members (members_of told)) }
{
    let mut told = JsonObject::new(alloc);
    tell_date(alloc, &mut told, Some(second))?;
    Ok(told)
}
