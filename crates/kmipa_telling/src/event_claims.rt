//! Operations, and items that were done, as members of a JSON object.

ghost use Rattle.std.specs.Prelude.{◌≡◌, IfOk, OnOk};
ghost use Rattle.kmipa_json.specs.Told.{members_of};
ghost use Rattle.kmipa_telling.specs.EventClaims.{TellsEvent, operation_members, operation_told};

use crate::telling::tell_date;
use kmipa_explain::Event;
use kmipa_json::JsonObject;
use kmipa_runs::operation_name;
use std::alloc::{AllocError, Global};

/// An operation under a name, where there is one.
pub fn tell_operation(
    alloc: Global,
    told: &mut JsonObject,
    key: &str,
    operation: Option<u32>,
) -> Result<(), AllocError>
    ensures { OnOk result (members_of told.new ≡ operation_told key.now operation (members_of told.old)) }
{
    match operation {
        Some(number) => told.put_object(key, operation_object(alloc, number)?),
        None => Ok(()),
    }
}

/// The number of an operation, and its name where it has one.
pub fn operation_object(alloc: Global, number: u32) -> Result<JsonObject, AllocError>
    ensures { IfOk result (λ told. members_of told ≡ operation_members number) }
{
    let mut told = JsonObject::new(alloc);
    told.put_count("number", number as u64)?;
    if let Some(name) = operation_name(number) {
        told.put_text("name", name)?;
    }
    Ok(told)
}

/// An item that was done.
pub fn event_object(alloc: Global, event: &Event) -> Result<JsonObject, AllocError>
    ensures { IfOk result (λ told. TellsEvent event.now (members_of told)) }
{
    let mut told = JsonObject::new(alloc);
    told.put_count("turn", event.turn as u64)?;
    told.put_integer("call", event.call as i64)?;
    told.put_count("item", event.item as u64)?;
    told.put_object("operation", operation_object(alloc, event.operation)?)?;
    told.put_truth("undone", event.undone)?;
    tell_date(alloc, &mut told, Some(event.stamp))?;
    Ok(told)
}
