//! The lines of what makes a message outside.

ghost use Rattle.std.specs.Prelude.{◌≡◌, IfOk, flat_map, string_bytes};
ghost use Rattle.kmipa_telling.specs.OutsideLines.{field_lines, message_text, outside_lines, told_lines, whole_text};

use crate::explanation::operation_line;
use crate::outside_phrases::{field_text, stands_text, tag_text, wanted_text};
use kmipa_check::Side;
use kmipa_outside::{FieldTold, MessageTold, OutsideExplanation};
use kmipa_runs::quoted_text;
use std::alloc::{AllocError, Global};

/// The client, the operation, and what isn't as wanted.
pub fn outside_text(alloc: Global, outside: &OutsideExplanation) -> Result<String, AllocError>
    ensures { IfOk result (λ text. string_bytes text ≡ outside_lines outside.now) }
{
    let client = quoted_text(alloc, outside.client.as_str())?;
    let operation = operation_line(alloc, outside.operation)?;
    let told = told_lines(alloc, outside.side, &outside.told)?;
    format!(in alloc; "client: {client}\n{operation}{told}")
}

/// What stands in place of the message, or of each of its fields that isn't as wanted.
fn told_lines(alloc: Global, side: Side, told: &MessageTold) -> Result<String, AllocError>
    ensures { IfOk result (λ text. string_bytes text ≡ told_lines side told.now) }
{
    match told {
        MessageTold::Fields(fields) => fields_lines(alloc, fields),
        _ => {
            let stands = whole_text(alloc, told)?;
            let wanted = message_text(side);
            format!(in alloc; "stands: {stands}\nwanted: {wanted}\n")
        }
    }
}

fn fields_lines(alloc: Global, fields: &[FieldTold]) -> Result<String, AllocError>
    ensures { IfOk result (λ text. string_bytes text ≡ flat_map field_lines fields.now) }
{
    let mut text = String::new(alloc);
    'fields: for field in fields {
        let one = field_lines(alloc, field)?;
        text.push_str(one.as_str())?;
    }
    Ok(text)
}

/// The lines of a field.
fn field_lines(alloc: Global, field: &FieldTold) -> Result<String, AllocError>
    ensures { IfOk result (λ text. string_bytes text ≡ field_lines field.now) }
{
    let place = field_text(alloc, field)?;
    let stands = stands_text(alloc, field)?;
    let wanted = wanted_text(alloc, field)?;
    format!(in alloc; "field: {place}\nstands: {stands}\nwanted: {wanted}\n")
}

/// What stands in place of a whole message.
pub fn whole_text(alloc: Global, told: &MessageTold) -> Result<String, AllocError>
    ensures { IfOk result (λ text. string_bytes text ≡ whole_text told.now) }
{
    match told {
        MessageTold::Flaw(fault) => {
            let name = fault.kind.name();
            let offset = fault.offset;
            format!(in alloc; "no item, {name} at offset {offset}")
        }
        MessageTold::Longer(size) => format!(in alloc; "an item of {size} bytes, and more"),
        MessageTold::Tagged(tag) => String::from_str(alloc, tag_text(*tag)),
        MessageTold::Fields(_) => Ok(String::new(alloc)),
    }
}

/// The message that is wanted on a side.
pub fn message_text(side: Side) -> &'static str
    ensures { result.now ≡ message_text side }
{
    match side {
        Side::Client => "a Request Message",
        Side::Server => "a Response Message",
    }
}
