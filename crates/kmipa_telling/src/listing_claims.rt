//! A list that holds what may not be listed, or leaves out what must be, as members of a JSON object.

ghost use Rattle.std.specs.Prelude.{◌≡◌, IfOk, OnOk};
ghost use Rattle.kmipa_json.specs.Told.{items_of, members_of};
ghost use Rattle.kmipa_telling.specs.ListingClaims.{TellsLeftOut, fault_told, listed_members, wrong_members};
ghost use Rattle.kmipa_telling.specs.Lists.{AreObjects, objects};

use crate::naming::attribute_name;
use crate::state_claims::tell_moment;
use kmipa_explain::{LeftOutHeld, ListFault, ListHeld, WronglyListed};
use kmipa_json::{JsonList, JsonObject};
use std::alloc::{AllocError, Global};

/// A list that holds what may not be listed, or too much.
pub fn listed_object(alloc: Global, held: &ListHeld) -> Result<JsonObject, AllocError>
    ensures { IfOk result (λ told. members_of told ≡ listed_members held.now) }
{
    let mut told = JsonObject::new(alloc);
    told.put_count("identifiers", held.listed as u64)?;
    if let Some(most) = held.maximum {
        told.put_integer("maximum_items", most as i64)?;
    }
    told.put_list("wrong", wrong_list(alloc, &held.wrong)?)?;
    Ok(told)
}

/// The identifiers that may not be listed.
fn wrong_list(alloc: Global, wrong: &[WronglyListed]) -> Result<JsonList, AllocError>
    ensures { IfOk result (λ list. items_of list ≡ objects wrong_members wrong.now) }
{
    let mut list = JsonList::new(alloc);
    'wrong: for held in wrong {
        list.push_object(wrong_object(alloc, held)?)?;
    }
    Ok(list)
}

/// An identifier that may not be listed, and why.
fn wrong_object(alloc: Global, held: &WronglyListed) -> Result<JsonObject, AllocError>
    ensures { IfOk result (λ told. members_of told ≡ wrong_members held.now) }
{
    let mut told = JsonObject::new(alloc);
    told.put_text("identifier", held.identifier.as_str())?;
    tell_fault(&mut told, held.fault)?;
    Ok(told)
}

fn tell_fault(told: &mut JsonObject, fault: ListFault) -> Result<(), AllocError>
    ensures { OnOk result (members_of told.new ≡ fault_told fault (members_of told.old)) }
{
    match fault {
        ListFault::Again => told.put_text("fault", "Again"),
        ListFault::Absent => told.put_text("fault", "Absent"),
        ListFault::Excluded(filter) => {
            told.put_text("fault", "Excluded")?;
            told.put_text("filter", attribute_name(filter))
        }
    }
}

/// The objects that must be listed and aren't.
pub fn left_out_list(alloc: Global, left: &[LeftOutHeld]) -> Result<JsonList, AllocError>
    ensures { IfOk result (λ list. AreObjects TellsLeftOut left.now (items_of list)) }
{
    let mut list = JsonList::new(alloc);
    'left: for held in left {
        list.push_object(left_out_object(alloc, held)?)?;
    }
    Ok(list)
}

/// An object that must be listed and isn't, and when it was made.
fn left_out_object(alloc: Global, held: &LeftOutHeld) -> Result<JsonObject, AllocError>
    ensures { IfOk result (λ told. TellsLeftOut held.now (members_of told)) }
{
    let mut told = JsonObject::new(alloc);
    told.put_text("identifier", held.identifier.as_str())?;
    tell_moment(alloc, &mut told, "initial_date", held.initial)?;
    Ok(told)
}
