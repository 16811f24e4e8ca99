//! Attributes that are shown otherwise than the object has them, or that are missing, as members of a JSON object.

ghost use Rattle.std.specs.Prelude.{◌≡◌, IfOk, OnOk};
ghost use Rattle.kmipa_json.specs.Told.{items_of, members_of};
ghost use Rattle.kmipa_telling.specs.AttributeClaims.{TellsAttributes, TellsSide, TellsValue, TellsValueHeld};
ghost use Rattle.kmipa_telling.specs.Lists.{AreObjects, objects};
ghost use Rattle.kmipa_telling.specs.NamingClaims.{name_members};

use crate::naming::{attribute_name, is_moment, value_name};
use crate::naming_claims::{name_object, number_object};
use crate::state_claims::moment_object;
use kmipa_attrs::Name;
use kmipa_explain::{AttributesHeld, ValueHeld};
use kmipa_json::{JsonList, JsonObject};
use kmipa_ops::Judged;
use std::alloc::{AllocError, Global};

/// Names, and other attributes.
pub fn attributes_object(alloc: Global, held: &AttributesHeld) -> Result<JsonObject, AllocError>
    ensures { IfOk result (λ told. TellsAttributes held.now (members_of told)) }
{
    let mut told = JsonObject::new(alloc);
    told.put_list("names", names_list(alloc, &held.names)?)?;
    told.put_list("values", values_list(alloc, &held.values)?)?;
    Ok(told)
}

/// Names, one after the other.
fn names_list(alloc: Global, names: &[Name]) -> Result<JsonList, AllocError>
    ensures { IfOk result (λ list. items_of list ≡ objects name_members names.now) }
{
    let mut list = JsonList::new(alloc);
    'names: for name in names {
        list.push_object(name_object(alloc, name)?)?;
    }
    Ok(list)
}

/// Attributes other than names, one after the other.
fn values_list(alloc: Global, values: &[ValueHeld]) -> Result<JsonList, AllocError>
    ensures { IfOk result (λ list. AreObjects TellsValueHeld values.now (items_of list)) }
{
    let mut list = JsonList::new(alloc);
    'values: for held in values {
        list.push_object(value_held_object(alloc, held)?)?;
    }
    Ok(list)
}

/// An attribute: what is shown of it, and what the object has.
fn value_held_object(alloc: Global, held: &ValueHeld) -> Result<JsonObject, AllocError>
    ensures { IfOk result (λ told. TellsValueHeld held.now (members_of told)) }
{
    let attribute = held.attribute;
    let mut told = JsonObject::new(alloc);
    told.put_text("attribute", attribute_name(attribute))?;
    tell_side(alloc, &mut told, "shown", attribute, held.shown)?;
    tell_side(alloc, &mut told, "held", attribute, held.held)?;
    Ok(told)
}

/// A value of an attribute under a name, where there is one.
fn tell_side(
    alloc: Global,
    told: &mut JsonObject,
    key: &str,
    attribute: Judged,
    value: Option<i64>,
) -> Result<(), AllocError>
    ensures { OnOk result (TellsSide key.now attribute value (members_of told.old) (members_of told.new)) }
{
    match value {
        Some(number) => told.put_object(key, value_object(alloc, attribute, number)?),
        None => Ok(()),
    }
}

/// A value of an attribute: a moment, or a number with the name that it has.
fn value_object(alloc: Global, attribute: Judged, value: i64) -> Result<JsonObject, AllocError>
    ensures { IfOk result (λ told. TellsValue attribute value (members_of told)) }
{
    if is_moment(attribute) {
        return moment_object(alloc, value);
    }
    number_object(alloc, value, value_name(attribute, value))
}
