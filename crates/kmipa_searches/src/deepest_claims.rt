//! The deepest place of a search that gave up, as members of a JSON object.

ghost use Rattle.std.specs.Prelude.{◌≡◌, IfOk, OnOk};
ghost use Rattle.kmipa_json.specs.Told.{items_of, members_of};
ghost use Rattle.kmipa_searches.specs.DeepestClaims.{against_members, next_members, reached_members, told_reached};
ghost use Rattle.kmipa_telling.specs.Lists.{objects};

use kmipa_check::Refused;
use kmipa_json::{JsonList, JsonObject};
use kmipa_orders::{NextCall, Reached};
use kmipa_telling::{calls_list, named};
use std::alloc::{AllocError, Global};

/// Puts the deepest place into an object, where it is told.
pub fn tell_reached(
    alloc: Global,
    told: &mut JsonObject,
    reached: &Option<Reached>,
) -> Result<(), AllocError>
    ensures { OnOk result (members_of told.new ≡ told_reached reached.now (members_of told.old)) }
{
    match reached {
        Some(reached) => told.put_object("deepest", reached_object(alloc, reached)?),
        None => Ok(()),
    }
}

/// The calls that were taken, and those that may be next.
fn reached_object(alloc: Global, reached: &Reached) -> Result<JsonObject, AllocError>
    ensures { IfOk result (λ told. members_of told ≡ reached_members reached.now) }
{
    let mut told = JsonObject::new(alloc);
    told.put_list("taken", calls_list(alloc, &reached.taken)?)?;
    told.put_list("next", next_list(alloc, &reached.next)?)?;
    Ok(told)
}

/// The calls that may be next.
fn next_list(alloc: Global, next: &[NextCall]) -> Result<JsonList, AllocError>
    ensures { IfOk result (λ list. items_of list ≡ objects next_members next.now) }
{
    let mut list = JsonList::new(alloc);
    'next: for call in next {
        list.push_object(next_object(alloc, call)?)?;
    }
    Ok(list)
}

/// A call that may be next.
fn next_object(alloc: Global, next: &NextCall) -> Result<JsonObject, AllocError>
    ensures { IfOk result (λ told. members_of told ≡ next_members next.now) }
{
    let mut told = JsonObject::new(alloc);
    told.put_integer("call", next.call as i64)?;
    tell_against(alloc, &mut told, next.refused)?;
    Ok(told)
}

/// Whether a call is possible; if not, the item that isn't, and the reason.
fn tell_against(
    alloc: Global,
    told: &mut JsonObject,
    refused: Option<Refused>,
) -> Result<(), AllocError>
    ensures { OnOk result (members_of told.new ≡ against_members refused (members_of told.old)) }
{
    let Some(refused) = refused else {
        return told.put_truth("possible", true);
    };
    told.put_truth("possible", false)?;
    told.put_count("item", refused.item as u64)?;
    told.put_object(
        "why",
        named(alloc, refused.why.number(), refused.why.name())?,
    )
}
