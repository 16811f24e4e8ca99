//! A Result Reason of which no cause holds, as members of a JSON object.

ghost use Rattle.std.specs.Prelude.{◌≡◌, IfOk, OnOk};
ghost use Rattle.kmipa_json.specs.Told.{items_of, members_of};
ghost use Rattle.kmipa_telling.specs.Lists.{objects};
ghost use Rattle.kmipa_telling.specs.FailingClaims.{TellsAgainst, TellsJudged, TellsReason, allow_name, behind_members, behind_name, judged_members, reason_members};

use crate::naming_claims::number_object;
use crate::state_causes::act_text;
use crate::state_claims::{tell_dates, tell_line};
use kmipa_explain::{ReasonHeld, StateHeld};
use kmipa_json::{JsonList, JsonObject};
use kmipa_msgs::Cause as FailureCause;
use kmipa_object::Allow;
use kmipa_runs::result_reason_name;
use std::alloc::{AllocError, Global};

/// A reason, what may be behind it, and the object that stands against that.
pub fn reason_object(alloc: Global, held: &ReasonHeld) -> Result<JsonObject, AllocError>
    ensures { IfOk result (λ told. TellsReason held.now (members_of told)) }
{
    let mut told = number_object(
        alloc,
        i64::from(held.reason),
        result_reason_name(held.reason),
    )?;
    told.put_list("causes", causes_list(alloc, &held.causes)?)?;
    tell_against(alloc, &mut told, held.object)?;
    Ok(told)
}

/// What may be behind a reason.
fn causes_list(alloc: Global, causes: &[FailureCause]) -> Result<JsonList, AllocError>
    ensures { IfOk result (λ list. items_of list ≡ objects behind_members causes.now) }
{
    let mut list = JsonList::new(alloc);
    'causes: for cause in causes {
        list.push_object(behind_object(alloc, *cause)?)?;
    }
    Ok(list)
}

/// A cause by its number in a declaration, and its name.
fn behind_object(alloc: Global, cause: FailureCause) -> Result<JsonObject, AllocError>
    ensures { IfOk result (λ told. members_of told ≡ behind_members cause) }
{
    number_object(alloc, i64::from(cause.number()), Some(behind_name(cause)))
}

fn behind_name(cause: FailureCause) -> &'static str
    ensures { result.now ≡ behind_name cause }
{
    match cause {
        FailureCause::NotFound => "NotFound",
        FailureCause::WrongState => "WrongState",
        FailureCause::TakenName => "TakenName",
    }
}

/// Puts the object that stands against the causes into an object, where there is one.
fn tell_against(
    alloc: Global,
    told: &mut JsonObject,
    object: Option<StateHeld>,
) -> Result<(), AllocError>
    ensures { OnOk result (TellsAgainst object (members_of told.old) (members_of told.new)) }
{
    match object {
        Some(held) => told.put_object("state", judged_object(alloc, held)?),
        None => Ok(()),
    }
}

/// A state, what it says of an operation, and the dates that it follows from.
fn judged_object(alloc: Global, held: StateHeld) -> Result<JsonObject, AllocError>
    ensures { IfOk result (λ told. TellsJudged held (members_of told)) }
{
    let mut told = allowing_object(alloc, held)?;
    tell_dates(alloc, &mut told, held.dates)?;
    Ok(told)
}

fn allowing_object(alloc: Global, held: StateHeld) -> Result<JsonObject, AllocError>
    ensures { IfOk result (λ told. members_of told ≡ judged_members held) }
{
    let mut told = JsonObject::new(alloc);
    told.put_text("name", held.state.name())?;
    told.put_text("operation", act_text(held.act))?;
    told.put_text("allows", allow_name(held.allow))?;
    tell_line(&mut told, held.by_line)?;
    Ok(told)
}

fn allow_name(allow: Allow) -> &'static str
    ensures { result.now ≡ allow_name allow }
{
    match allow {
        Allow::Must => "must",
        Allow::May => "may",
        Allow::Not => "not",
    }
}
