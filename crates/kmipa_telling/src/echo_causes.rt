//! The line of what an answer repeats otherwise than it was asked.

ghost use Rattle.std.specs.Prelude.{◌≡◌, IfOk, string_bytes};
ghost use Rattle.kmipa_telling.specs.EchoCauses.{batch_item_line, digits_text, echo_line, repeated_line, type_line};

use crate::naming::object_type_text;
use kmipa_attrs::ObjectType;
use kmipa_explain::EchoHeld;
use kmipa_runs::quoted_text;
use std::alloc::{AllocError, Global};

/// The line of an echo: as it was asked, and as it is answered.
pub fn echo_line(alloc: Global, held: &EchoHeld) -> Result<String, AllocError>
    ensures { IfOk result (λ text. string_bytes text ≡ echo_line held.now) }
{
    match held {
        EchoHeld::BatchItem(asked, answered) => batch_item_line(alloc, asked, answered),
        EchoHeld::Identifier(meant, answered) => {
            repeated_line(alloc, meant.as_str(), answered.as_str())
        }
        EchoHeld::ObjectType(asked, answered) => type_line(alloc, *asked, *answered),
    }
}

fn batch_item_line(alloc: Global, asked: &[u8], answered: &[u8]) -> Result<String, AllocError>
    ensures { IfOk result (λ text. string_bytes text ≡ batch_item_line asked.now answered.now) }
{
    let first = digits_text(alloc, asked)?;
    let second = digits_text(alloc, answered)?;
    format!(in alloc; "batch item: asked {first}, answered {second}\n")
}

/// The digits of bytes, or that there are none.
fn digits_text(alloc: Global, bytes: &[u8]) -> Result<String, AllocError>
    ensures { IfOk result (λ text. string_bytes text ≡ digits_text bytes.now) }
{
    if bytes.is_empty() {
        return String::from_str(alloc, "no bytes");
    }
    hex::encode(alloc, bytes)
}

fn repeated_line(alloc: Global, meant: &str, answered: &str) -> Result<String, AllocError>
    ensures { IfOk result (λ text. string_bytes text ≡ repeated_line meant.now answered.now) }
{
    let first = quoted_text(alloc, meant)?;
    let second = quoted_text(alloc, answered)?;
    format!(in alloc; "identifier: meant {first}, answered {second}\n")
}

fn type_line(alloc: Global, asked: ObjectType, answered: u32) -> Result<String, AllocError>
    ensures { IfOk result (λ text. string_bytes text ≡ type_line asked answered) }
{
    let first = object_type_text(alloc, asked.number())?;
    let second = object_type_text(alloc, answered)?;
    format!(in alloc; "object type: asked {first}, answered {second}\n")
}
