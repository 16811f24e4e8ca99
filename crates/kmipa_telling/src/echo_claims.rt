//! What an answer repeats otherwise than it was asked, as members of a JSON object.

ghost use Rattle.std.specs.Prelude.{◌≡◌, IfOk};
ghost use Rattle.kmipa_json.specs.Told.{members_of};
ghost use Rattle.kmipa_telling.specs.EchoClaims.{digits_members, echo_members, texts_members, types_members};

use crate::naming_claims::type_object;
use kmipa_attrs::ObjectType;
use kmipa_explain::EchoHeld;
use kmipa_json::JsonObject;
use std::alloc::{AllocError, Global};

/// An echo under the name of what is repeated: as it was asked, and as it is answered.
pub fn echo_object(alloc: Global, held: &EchoHeld) -> Result<JsonObject, AllocError>
    ensures { IfOk result (λ told. members_of told ≡ echo_members held.now) }
{
    let mut told = JsonObject::new(alloc);
    match held {
        EchoHeld::BatchItem(asked, answered) => {
            told.put_object("batch_item", digits_object(alloc, asked, answered)?)?;
        }
        EchoHeld::Identifier(meant, answered) => {
            let both = texts_object(alloc, meant.as_str(), answered.as_str())?;
            told.put_object("identifier", both)?;
        }
        EchoHeld::ObjectType(asked, answered) => {
            told.put_object("object_type", types_object(alloc, *asked, *answered)?)?;
        }
    }
    Ok(told)
}

/// Two byte strings, in hexadecimal digits.
fn digits_object(alloc: Global, asked: &[u8], answered: &[u8]) -> Result<JsonObject, AllocError>
    ensures { IfOk result (λ told. members_of told ≡ digits_members asked.now answered.now) }
{
    let first = hex::encode(alloc, asked)?;
    let second = hex::encode(alloc, answered)?;
    texts_object(alloc, first.as_str(), second.as_str())
}

/// Two texts.
fn texts_object(alloc: Global, asked: &str, answered: &str) -> Result<JsonObject, AllocError>
    ensures { IfOk result (λ told. members_of told ≡ texts_members asked.now answered.now) }
{
    let mut told = JsonObject::new(alloc);
    told.put_text("asked", asked)?;
    told.put_text("answered", answered)?;
    Ok(told)
}

/// Two Object Types.
fn types_object(alloc: Global, asked: ObjectType, answered: u32) -> Result<JsonObject, AllocError>
    ensures { IfOk result (λ told. members_of told ≡ types_members asked answered) }
{
    let mut told = JsonObject::new(alloc);
    told.put_object("asked", type_object(alloc, asked.number())?)?;
    told.put_object("answered", type_object(alloc, answered)?)?;
    Ok(told)
}
