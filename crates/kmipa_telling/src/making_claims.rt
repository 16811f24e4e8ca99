//! Why an object can't be made, or be as it is shown, as members of a JSON object.

ghost use Rattle.std.specs.Prelude.{◌≡◌, IfOk, OnOk};
ghost use Rattle.kmipa_json.specs.Told.{members_of};
ghost use Rattle.kmipa_telling.specs.MakingClaims.{algorithm_told, length_members, taken_members};

use crate::naming_claims::{name_object, number_object, type_object};
use kmipa_explain::{LengthHeld, NameHeld};
use kmipa_json::JsonObject;
use kmipa_runs::algorithm_name;
use std::alloc::{AllocError, Global};

/// A name that a live object has already, and that object.
pub fn taken_object(alloc: Global, held: &NameHeld) -> Result<JsonObject, AllocError>
    ensures { IfOk result (λ told. members_of told ≡ taken_members held.now) }
{
    let mut told = name_object(alloc, &held.name)?;
    told.put_text("bearer", held.bearer.as_str())?;
    Ok(told)
}

/// What bytes, or none, can't be the key of.
pub fn length_object(alloc: Global, held: &LengthHeld) -> Result<JsonObject, AllocError>
    ensures { IfOk result (λ told. members_of told ≡ length_members held.now) }
{
    let mut told = JsonObject::new(alloc);
    told.put_object(
        "object_type",
        type_object(alloc, held.object_type.number())?,
    )?;
    tell_algorithm(alloc, &mut told, held.algorithm)?;
    if let Some(bits) = held.length {
        told.put_integer("bits", bits as i64)?;
    }
    if let Some(bytes) = held.bytes {
        told.put_count("bytes", bytes as u64)?;
    }
    Ok(told)
}

fn tell_algorithm(
    alloc: Global,
    told: &mut JsonObject,
    algorithm: Option<u32>,
) -> Result<(), AllocError>
    ensures { OnOk result (members_of told.new ≡ algorithm_told algorithm (members_of told.old)) }
{
    let Some(number) = algorithm else {
        return Ok(());
    };
    let named = number_object(alloc, i64::from(number), algorithm_name(number))?;
    told.put_object("algorithm", named)
}
