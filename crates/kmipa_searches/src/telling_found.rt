//! What a search found tells, as members of a JSON object.

ghost use Rattle.std.specs.Prelude.{◌≡◌, IfOk, OnOk};
ghost use Rattle.kmipa_json.specs.Told.{items_of, members_of};
ghost use Rattle.kmipa_searches.specs.Searches.{found_status};
ghost use Rattle.kmipa_telling.specs.Claims.{call_items};
ghost use Rattle.kmipa_searches.specs.JsonSearches.{decision_members, found_members, object_items, objects_members, steps_members, told_found};

use crate::deepest_claims::tell_reached;
use crate::judged::{Decision, Judged};
use kmipa_jobs::Status;
use kmipa_json::{JsonList, JsonObject};
use kmipa_orders::Found;
use kmipa_telling::{calls_list, tell_tally};
use std::alloc::{AllocError, Global};

/// Puts what a search found into an object, and answers its status.
pub fn tell_judged(
    alloc: Global,
    told: &mut JsonObject,
    judged: &Judged,
) -> Result<Status, AllocError>
    ensures status { IfOk result (λ status. status ≡ found_status judged.now.searched.found) }
    ensures told { OnOk result (members_of told.new ≡ found_members judged.now (members_of told.old)) }
{
    if let Some(forced) = judged.searched.forced {
        told.put_truth("forced", forced)?;
    }
    match &judged.searched.found {
        Found::Yes(_, count) => {
            tell_steps(told, "yes", *count)?;
            tell_tally(alloc, told, judged.searched.tally)?;
            Ok(Status::Done)
        }
        Found::GaveUp(count) => tell_given_up(alloc, told, judged, *count),
        Found::Refuted(count, _) => tell_given_up(alloc, told, judged, *count),
        Found::Impossible(count, _) => tell_given_up(alloc, told, judged, *count),
        Found::OutOfTime(count, _) => tell_given_up(alloc, told, judged, *count),
    }
}

/// Puts what a search that gave up says into an object.
fn tell_given_up(
    alloc: Global,
    told: &mut JsonObject,
    judged: &Judged,
    count: u64,
) -> Result<Status, AllocError>
    ensures status { IfOk result (λ status. status ≡ found_status (Found.GaveUp count)) }
    ensures told { OnOk result
        (members_of told.new
        ≡ told_found (Found.GaveUp count) judged.now.searched.tally judged.now.decision judged.now.reached (members_of told.old)) }
{
    tell_steps(told, "gave up", count)?;
    if let Some(decision) = &judged.decision {
        tell_decision(alloc, told, decision)?;
    }
    tell_reached(alloc, told, &judged.reached)?;
    Ok(Status::GaveUp)
}

fn tell_steps(told: &mut JsonObject, verdict: &str, count: u64) -> Result<(), AllocError>
    ensures { OnOk result (members_of told.new ≡ steps_members verdict.now count (members_of told.old)) }
{
    told.put_text("verdict", verdict)?;
    told.put_count("steps", count)
}

fn tell_decision(
    alloc: Global,
    told: &mut JsonObject,
    decision: &Decision,
) -> Result<(), AllocError>
    ensures { OnOk result (members_of told.new ≡ decision_members decision.now (members_of told.old)) }
{
    match decision {
        Decision::Decided => told.put_truth("decided", true),
        Decision::Impossible => told.put_truth("decided", true),
        Decision::Objects(objects) => {
            told.put_truth("decided", true)?;
            tell_objects(alloc, told, objects)
        }
        Decision::UsedUp(steps) => {
            told.put_truth("decided", false)?;
            told.put_count("budget", *steps)
        }
        Decision::NotPlain(numbers) => {
            told.put_truth("decided", false)?;
            told.put_list("not_plain", calls_list(alloc, numbers)?)
        }
        Decision::OutOfTime(seconds) => {
            told.put_truth("decided", false)?;
            told.put_count("seconds", *seconds)
        }
        Decision::Tolerant(seconds) => {
            told.put_truth("decided", false)?;
            told.put_integer("tolerance", i64::from(*seconds))
        }
        Decision::Births => {
            told.put_truth("decided", false)?;
            told.put_truth("births", true)
        }
    }
}

/// Puts the identifiers of objects into an object: that of one alone, or a list.
fn tell_objects(alloc: Global, told: &mut JsonObject, objects: &[String]) -> Result<(), AllocError>
    ensures { OnOk result (members_of told.new ≡ objects_members objects.now (members_of told.old)) }
{
    match objects {
        [object] => told.put_text("object", object.as_str()),
        _ => told.put_list("objects", texts_list(alloc, objects)?),
    }
}

/// A list of texts.
fn texts_list(alloc: Global, texts: &[String]) -> Result<JsonList, AllocError>
    ensures { IfOk result (λ list. items_of list ≡ object_items texts.now) }
{
    let mut list = JsonList::new(alloc);
    'texts: for text in texts {
        list.push_text(text.as_str())?;
    }
    Ok(list)
}
