//! What isn't judged, as members of a JSON object.

ghost use Rattle.std.specs.Prelude.{◌≡◌, IfOk, OnOk, map};
ghost use Rattle.kmipa_json.specs.Told.{items_of, members_of};
ghost use Rattle.kmipa_judge.specs.Object.{named_members, operation_told, passed_members, unjudged_told};
ghost use Rattle.kmipa_telling.specs.Lists.{objects};
ghost use Rattle.kmipa_unjudged.specs.Told.{named_of};

use crate::unjudged_lines::operation_text;
use kmipa_json::{JsonList, JsonObject};
use kmipa_unjudged::{Named, Rank, Unjudged};
use std::alloc::{AllocError, Global};

/// Puts all that isn't judged into an object: the operations that were passed, and the identifiers that are set aside.
pub(crate) fn tell_unjudged(
    alloc: Global,
    told: &mut JsonObject,
    unjudged: &Unjudged,
) -> Result<(), AllocError>
    ensures { OnOk result (members_of told.new
        ≡ unjudged_told unjudged.now.passed.items (map named_of unjudged.now.aside.items) (members_of told.old)) }
{
    told.put_list("passed", passed_list(alloc, unjudged.passed.as_slice())?)?;
    told.put_list("aside", aside_list(alloc, unjudged.aside.as_slice())?)
}

/// The operations that were passed.
fn passed_list(alloc: Global, ranks: &[Rank]) -> Result<JsonList, AllocError>
    ensures { IfOk result (λ list. items_of list ≡ objects passed_members ranks.now) }
{
    let mut list = JsonList::new(alloc);
    let mut count = 0;
    'ranks: while count < ranks.len() {
        let one = passed_object(alloc, &ranks[count])?;
        list.push_object(one)?;
        count += 1;
    }
    Ok(list)
}

fn passed_object(alloc: Global, rank: &Rank) -> Result<JsonObject, AllocError>
    ensures { IfOk result (λ told. members_of told ≡ passed_members rank.now) }
{
    let name = operation_text(alloc, rank.operation)?;
    let mut told = JsonObject::new(alloc);
    told.put_text("operation", name.as_str())?;
    told.put_count("items", rank.count as u64)?;
    Ok(told)
}

/// The identifiers that are set aside.
fn aside_list(alloc: Global, aside: &[Named]) -> Result<JsonList, AllocError>
    ensures { IfOk result (λ list. items_of list ≡ objects named_members (map named_of aside.now)) }
{
    let mut list = JsonList::new(alloc);
    let mut count = 0;
    'aside: while count < aside.len() {
        let one = named_object(alloc, &aside[count])?;
        list.push_object(one)?;
        count += 1;
    }
    Ok(list)
}

/// An identifier that is set aside, with the item since which it is.
fn named_object(alloc: Global, named: &Named) -> Result<JsonObject, AllocError>
    ensures { IfOk result (λ told. members_of told ≡ named_members (named_of named.now)) }
{
    let mut told = JsonObject::new(alloc);
    told.put_text("identifier", named.id)?;
    told.put_integer("call", named.origin.call as i64)?;
    told.put_count("item", named.origin.item as u64)?;
    tell_operation(alloc, &mut told, named.origin.operation)?;
    Ok(told)
}

/// The operation of an item, where it is told.
fn tell_operation(
    alloc: Global,
    told: &mut JsonObject,
    operation: Option<u32>,
) -> Result<(), AllocError>
    ensures { OnOk result (members_of told.new ≡ operation_told operation (members_of told.old)) }
{
    let Some(number) = operation else {
        return Ok(());
    };
    let name = operation_text(alloc, number)?;
    told.put_text("operation", name.as_str())
}
