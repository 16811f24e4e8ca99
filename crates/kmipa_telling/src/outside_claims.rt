//! What makes a message outside, as members of a JSON object.

ghost use Rattle.std.specs.Prelude.{◌≡◌, IfOk, OnOk};
ghost use Rattle.kmipa_json.specs.Told.{items_of, members_of};
ghost use Rattle.kmipa_telling.specs.Lists.{objects};
ghost use Rattle.kmipa_telling.specs.OutsideClaims.{field_members, message_told, outside_members};

use crate::event_claims::tell_operation;
use crate::outside_lines::{message_text, whole_text};
use crate::outside_phrases::{field_text, stands_text, wanted_text};
use kmipa_check::Side;
use kmipa_json::{JsonList, JsonObject};
use kmipa_outside::{FieldTold, MessageTold, OutsideExplanation};
use std::alloc::{AllocError, Global};

/// What makes a message outside.
pub fn outside_object(alloc: Global, outside: &OutsideExplanation) -> Result<JsonObject, AllocError>
    ensures { IfOk result (λ told. members_of told ≡ outside_members outside.now) }
{
    let mut told = JsonObject::new(alloc);
    told.put_text("client", outside.client.as_str())?;
    tell_operation(alloc, &mut told, "operation", outside.operation)?;
    tell_message(alloc, &mut told, outside.side, &outside.told)?;
    Ok(told)
}

/// What stands in place of the message, or of each of its fields that isn't as wanted.
fn tell_message(
    alloc: Global,
    told: &mut JsonObject,
    side: Side,
    message: &MessageTold,
) -> Result<(), AllocError>
    ensures { OnOk result (members_of told.new ≡ message_told side message.now (members_of told.old)) }
{
    match message {
        MessageTold::Fields(fields) => told.put_list("fields", fields_list(alloc, fields)?),
        _ => {
            let stands = whole_text(alloc, message)?;
            told.put_text("stands", stands.as_str())?;
            told.put_text("wanted", message_text(side))
        }
    }
}

fn fields_list(alloc: Global, fields: &[FieldTold]) -> Result<JsonList, AllocError>
    ensures { IfOk result (λ list. items_of list ≡ objects field_members fields.now) }
{
    let mut list = JsonList::new(alloc);
    'fields: for field in fields {
        list.push_object(field_object(alloc, field)?)?;
    }
    Ok(list)
}

/// A field that isn't as wanted.
fn field_object(alloc: Global, field: &FieldTold) -> Result<JsonObject, AllocError>
    ensures { IfOk result (λ told. members_of told ≡ field_members field.now) }
{
    let place = field_text(alloc, field)?;
    let stands = stands_text(alloc, field)?;
    let wanted = wanted_text(alloc, field)?;
    let mut told = JsonObject::new(alloc);
    told.put_text("field", place.as_str())?;
    told.put_text("stands", stands.as_str())?;
    told.put_text("wanted", wanted.as_str())?;
    Ok(told)
}
