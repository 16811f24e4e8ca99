//! Numbers and names of objects as members of a JSON object: as the standard names them.

ghost use Rattle.std.specs.Prelude.{◌≡◌, IfOk, option_map, pos};
ghost use Rattle.kmipa_json.specs.Told.{members_of};
ghost use Rattle.kmipa_telling.specs.NamingClaims.{name_members, number_members, type_members};

use kmipa_attrs::Name;
use kmipa_json::JsonObject;
use kmipa_runs::{name_type_name, object_type_name};
use std::alloc::{AllocError, Global};

/// A number, and the name that it has.
pub fn number_object(
    alloc: Global,
    number: i64,
    name: Option<&str>,
) -> Result<JsonObject, AllocError>
    ensures { IfOk result (λ told. members_of told ≡ number_members number (option_map (λ word. word.now) name.entry)) }
{
    let mut told = JsonObject::new(alloc);
    told.put_integer("number", number)?;
    if let Some(word) = name {
        told.put_text("name", word)?;
    }
    Ok(told)
}

/// An Object Type by its number, and its name.
pub fn type_object(alloc: Global, number: u32) -> Result<JsonObject, AllocError>
    ensures { IfOk result (λ told. members_of told ≡ type_members number) }
{
    number_object(alloc, i64::from(number), object_type_name(number))
}

/// A name of an object: its value and its type.
pub fn name_object(alloc: Global, name: &Name) -> Result<JsonObject, AllocError>
    ensures { IfOk result (λ told. members_of told ≡ name_members name.now) }
{
    let kind = number_object(alloc, i64::from(name.kind), name_type_name(name.kind))?;
    let mut told = JsonObject::new(alloc);
    told.put_text("value", name.value.as_str())?;
    told.put_object("type", kind)?;
    Ok(told)
}
