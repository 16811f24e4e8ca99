//! What an explanation claims, as members of a JSON object: each claim under a name.

ghost use Rattle.std.specs.Prelude.{◌≡◌, IfOk, OnOk};
ghost use Rattle.kmipa_json.specs.Told.{items_of, members_of};
ghost use Rattle.kmipa_explain.specs.Meant.{text_of};
ghost use Rattle.kmipa_telling.specs.Lists.{AreObjects};
ghost use Rattle.kmipa_telling.specs.Claims.{TellsBefore, TellsCause, TellsClaims, TellsLater, TellsMeaning, TellsStory, TellsStoryOf, bytes_members, call_items, call_members, missing_members, operations_members, shape_members};
ghost use Rattle.kmipa_telling.specs.EventClaims.{TellsEvent};

use crate::attribute_claims::attributes_object;
use crate::causes::{option_text, status_text};
use crate::echo_claims::echo_object;
use crate::event_claims::{event_object, operation_object, tell_operation};
use crate::failing_claims::reason_object;
use crate::listing_claims::{left_out_list, listed_object};
use crate::making_claims::{length_object, taken_object};
use crate::source_claims::tell_whence;
use crate::state_claims::state_object;
use crate::telling::tell_date;
use kmipa_explain::{BytesHeld, Cause, Event, Explanation, Operations, Shape, Story, TurnBefore};
use kmipa_json::{JsonList, JsonObject};
use std::alloc::{AllocError, Global};

/// Puts what a no means into an object, where it is explained.
pub fn tell_meaning(
    alloc: Global,
    told: &mut JsonObject,
    explanation: &Option<Explanation>,
) -> Result<(), AllocError>
    ensures { OnOk result (TellsMeaning explanation.now (members_of told.old) (members_of told.new)) }
{
    match explanation {
        Some(explanation) => told.put_object("explanation", claims_object(alloc, explanation)?),
        None => Ok(()),
    }
}

/// The claims of an explanation.
fn claims_object(alloc: Global, explanation: &Explanation) -> Result<JsonObject, AllocError>
    ensures { IfOk result (λ told. TellsClaims explanation.now (members_of told)) }
{
    let mut told = call_object(alloc, explanation)?;
    tell_cause(alloc, &mut told, &explanation.cause)?;
    tell_whence(alloc, &mut told, explanation.whence)?;
    tell_story(alloc, &mut told, &explanation.story)?;
    Ok(told)
}

/// The client of the call, its operation, and the calls that overlap it.
fn call_object(alloc: Global, explanation: &Explanation) -> Result<JsonObject, AllocError>
    ensures { IfOk result (λ told. members_of told ≡ call_members explanation.now) }
{
    let mut told = JsonObject::new(alloc);
    told.put_text("client", explanation.client.as_str())?;
    tell_operation(alloc, &mut told, "operation", explanation.operation)?;
    told.put_list("overlapping", calls_list(alloc, &explanation.overlapping)?)?;
    Ok(told)
}

/// Calls by their numbers.
pub fn calls_list(alloc: Global, numbers: &[i32]) -> Result<JsonList, AllocError>
    ensures { IfOk result (λ list. items_of list ≡ call_items numbers.now) }
{
    let mut list = JsonList::new(alloc);
    'numbers: for number in numbers {
        list.push_integer(*number as i64)?;
    }
    Ok(list)
}

/// Puts what the reason rests on into an object.
fn tell_cause(alloc: Global, told: &mut JsonObject, cause: &Cause) -> Result<(), AllocError>
    ensures { OnOk result (TellsCause cause.now (members_of told.old) (members_of told.new)) }
{
    match cause {
        Cause::EarlierCalls(numbers) => {
            told.put_list("ended_before", calls_list(alloc, numbers)?)
        }
        Cause::StampBefore(before) => {
            told.put_object("turn_before", before_object(alloc, before)?)
        }
        Cause::BatchShape(shape) => told.put_object("shape", shape_object(alloc, shape)?),
        Cause::Operations(operations) => {
            told.put_object("operations", operations_object(alloc, operations)?)
        }
        Cause::NoObject(meant) => told.put_object("missing", missing_object(alloc, meant)?),
        Cause::State(held) => told.put_object("state", state_object(alloc, held)?),
        Cause::Bytes(held) => told.put_object("bytes", bytes_object(alloc, held)?),
        Cause::Identifier(id) => told.put_text("identifier", id.as_str()),
        Cause::Name(held) => told.put_object("name", taken_object(alloc, held)?),
        Cause::Length(held) => told.put_object("length", length_object(alloc, held)?),
        Cause::Differing(held) => told.put_object("differing", attributes_object(alloc, held)?),
        Cause::Missing(held) => {
            told.put_object("missing_attributes", attributes_object(alloc, held)?)
        }
        Cause::Listed(held) => told.put_object("listed", listed_object(alloc, held)?),
        Cause::LeftOut(left) => told.put_list("left_out", left_out_list(alloc, left)?),
        Cause::Reason(held) => told.put_object("reason", reason_object(alloc, held)?),
        Cause::Echo(held) => told.put_object("echo", echo_object(alloc, held)?),
        Cause::Object => Ok(()),
    }
}

/// The turn before.
fn before_object(alloc: Global, before: &TurnBefore) -> Result<JsonObject, AllocError>
    ensures { IfOk result (λ told. TellsBefore before.now (members_of told)) }
{
    let mut told = JsonObject::new(alloc);
    told.put_count("turn", before.turn as u64)?;
    told.put_integer("call", before.call as i64)?;
    tell_date(alloc, &mut told, Some(before.stamp))?;
    Ok(told)
}

/// What a shape is judged by.
fn shape_object(alloc: Global, shape: &Shape) -> Result<JsonObject, AllocError>
    ensures { IfOk result (λ told. members_of told ≡ shape_members shape.now) }
{
    let mut told = JsonObject::new(alloc);
    told.put_text("option", option_text(shape.option))?;
    if let Some(failed) = shape.failed {
        told.put_count("first_failed", failed as u64)?;
    }
    told.put_truth("asked", shape.asked)?;
    if let Some(status) = shape.status {
        told.put_text("answered", status_text(status))?;
    }
    Ok(told)
}

/// Two operations that differ.
fn operations_object(alloc: Global, operations: &Operations) -> Result<JsonObject, AllocError>
    ensures { IfOk result (λ told. members_of told ≡ operations_members operations.now) }
{
    let mut told = JsonObject::new(alloc);
    told.put_object("asked", operation_object(alloc, operations.asked)?)?;
    tell_operation(alloc, &mut told, "answered", operations.answered)?;
    Ok(told)
}

/// The identifier of which there is no object, where one is meant.
fn missing_object(alloc: Global, meant: &Option<String>) -> Result<JsonObject, AllocError>
    ensures { IfOk result (λ told. members_of told ≡ missing_members (text_of meant.now)) }
{
    let mut told = JsonObject::new(alloc);
    if let Some(id) = meant {
        told.put_text("identifier", id.as_str())?;
    }
    Ok(told)
}

/// How many bytes are known and shown, and where they differ first.
fn bytes_object(alloc: Global, held: &BytesHeld) -> Result<JsonObject, AllocError>
    ensures { IfOk result (λ told. members_of told ≡ bytes_members held.now) }
{
    let BytesHeld {
        known,
        shown,
        differ_at,
    } = *held;
    let mut told = JsonObject::new(alloc);
    told.put_count("known", known as u64)?;
    told.put_count("shown", shown as u64)?;
    told.put_count("differ_at", differ_at as u64)?;
    Ok(told)
}

/// Puts the story of the object into an object, where there is one.
fn tell_story(alloc: Global, told: &mut JsonObject, story: &Option<Story>) -> Result<(), AllocError>
    ensures { OnOk result (TellsStoryOf story.now (members_of told.old) (members_of told.new)) }
{
    match story {
        Some(story) => told.put_object("object", story_object(alloc, story)?),
        None => Ok(()),
    }
}

/// The story of an object.
fn story_object(alloc: Global, story: &Story) -> Result<JsonObject, AllocError>
    ensures { IfOk result (λ told. TellsStory story.now (members_of told)) }
{
    let mut told = JsonObject::new(alloc);
    told.put_text("identifier", story.identifier.as_str())?;
    told.put_truth("declared", story.declared)?;
    told.put_list("events", events_list(alloc, &story.events)?)?;
    tell_later(alloc, &mut told, story.born_later)?;
    Ok(told)
}

/// Items that were done, one after the other.
fn events_list(alloc: Global, events: &[Event]) -> Result<JsonList, AllocError>
    ensures { IfOk result (λ list. AreObjects TellsEvent events.now (items_of list)) }
{
    let mut list = JsonList::new(alloc);
    'events: for event in events {
        list.push_object(event_object(alloc, event)?)?;
    }
    Ok(list)
}

/// The item that made the object later, where there is one.
fn tell_later(alloc: Global, told: &mut JsonObject, later: Option<Event>) -> Result<(), AllocError>
    ensures { OnOk result (TellsLater later (members_of told.old) (members_of told.new)) }
{
    match later {
        Some(event) => told.put_object("made_later", event_object(alloc, &event)?),
        None => Ok(()),
    }
}
