//! Why a witness doesn't fit its transcript, as members of a JSON object.

ghost use Rattle.std.specs.Prelude.{◌≡◌, IfOk, OnOk};
ghost use Rattle.kmipa_json.specs.Told.{items_of, members_of};
ghost use Rattle.kmipa_telling.specs.Lists.{objects};
ghost use Rattle.kmipa_telling.specs.EventClaims.{operation_members};
ghost use Rattle.kmipa_telling.specs.UnfitClaims.{answer_members, answer_told, birth_told, disordered_told, fill_told, given_told, kind_members, moment_told, ordered_told, place_members, stands_told, unfit_members, unwanted_told, wrong_members};

use crate::causes::status_text;
use crate::claims::calls_list;
use crate::event_claims::operation_object;
use crate::naming_claims::number_object;
use crate::unfit_phrases::wanted_text;
use kmipa_json::{JsonList, JsonObject};
use kmipa_msgs::{Outside, OutsideKind};
use kmipa_unfit::{
    Disorder, FarMoment, OrderTold, Ordered, Unfit, Unwanted, WitnessExplanation, Wrong,
};
use std::alloc::{AllocError, Global};

/// The client, the turn and its call, what stands there, and what is wanted.
pub fn unfit_object(
    alloc: Global,
    explanation: &WitnessExplanation,
) -> Result<JsonObject, AllocError>
    ensures { IfOk result (λ told. members_of told ≡ unfit_members explanation.now) }
{
    let mut told = place_object(alloc, explanation)?;
    tell_stands(alloc, &mut told, &explanation.unfit)?;
    told.put_text("wanted", wanted_text(&explanation.unfit))?;
    Ok(told)
}

/// The client, the turn and its call.
fn place_object(alloc: Global, explanation: &WitnessExplanation) -> Result<JsonObject, AllocError>
    ensures { IfOk result (λ told. members_of told ≡ place_members explanation.now) }
{
    let mut told = JsonObject::new(alloc);
    if let Some(client) = &explanation.client {
        told.put_text("client", client.as_str())?;
    }
    if let Some(turn) = explanation.turn {
        told.put_count("turn", turn as u64)?;
    }
    told.put_integer("call", explanation.call as i64)?;
    Ok(told)
}

/// Puts what stands there into an object.
fn tell_stands(alloc: Global, told: &mut JsonObject, unfit: &Unfit) -> Result<(), AllocError>
    ensures { OnOk result (members_of told.new ≡ stands_told unfit.now (members_of told.old)) }
{
    match unfit {
        Unfit::Unknown(count) => told.put_count("calls", *count as u64),
        Unfit::Twice(turn) => told.put_count("named_before", *turn as u64),
        Unfit::LeftOut(operations) => {
            told.put_list("operations", operations_list(alloc, operations)?)
        }
        _ => tell_given(alloc, told, unfit),
    }
}

/// Puts what a turn gives to its call into an object.
fn tell_given(alloc: Global, told: &mut JsonObject, unfit: &Unfit) -> Result<(), AllocError>
    ensures { OnOk result (members_of told.new ≡ given_told unfit.now (members_of told.old)) }
{
    match unfit {
        Unfit::Ended => told.put_truth("ended", true),
        Unfit::Open => told.put_truth("ended", false),
        Unfit::Answer(outside) => tell_answer(alloc, told, *outside),
        Unfit::Untimely(far) => tell_moment(told, *far),
        Unfit::Ordered(ordered) => tell_ordered(alloc, told, ordered),
        Unfit::Disordered(disorder) => tell_disordered(alloc, told, disorder),
        _ => tell_fill(alloc, told, unfit),
    }
}

/// Puts where an answer is outside into an object.
fn tell_answer(alloc: Global, told: &mut JsonObject, outside: Outside) -> Result<(), AllocError>
    ensures { OnOk result (members_of told.new ≡ answer_told outside (members_of told.old)) }
{
    told.put_object("answer", answer_object(alloc, outside)?)
}

/// Puts a fill, or an item without one, into an object.
fn tell_fill(alloc: Global, told: &mut JsonObject, unfit: &Unfit) -> Result<(), AllocError>
    ensures { OnOk result (members_of told.new ≡ fill_told unfit.now (members_of told.old)) }
{
    match unfit {
        Unfit::FillUnwanted(unwanted) => {
            told.put_count("fill", unwanted.number as u64)?;
            told.put_integer("item", unwanted.item as i64)?;
            tell_unwanted(alloc, told, unwanted.why)
        }
        Unfit::FillMissing(missing) => {
            told.put_count("item", missing.item as u64)?;
            told.put_object("operation", operation_object(alloc, missing.operation)?)
        }
        Unfit::FillFormless(formless) => {
            told.put_count("fill", formless.fill as u64)?;
            told.put_count("item", formless.item as u64)?;
            told.put_object("operation", operation_object(alloc, formless.operation)?)?;
            told.put_object("payload", kind_object(alloc, formless.kind)?)
        }
        _ => tell_birth(alloc, told, unfit),
    }
}

/// Puts a birth, or what is set aside, into an object.
fn tell_birth(alloc: Global, told: &mut JsonObject, unfit: &Unfit) -> Result<(), AllocError>
    ensures { OnOk result (members_of told.new ≡ birth_told unfit.now (members_of told.old)) }
{
    match unfit {
        Unfit::BirthUnwanted(unwanted) => {
            told.put_count("birth", unwanted.number as u64)?;
            told.put_integer("item", unwanted.item as i64)?;
            tell_unwanted(alloc, told, unwanted.why)
        }
        Unfit::BirthFormless(formless) => {
            told.put_count("birth", formless.birth as u64)?;
            told.put_integer("item", formless.item as i64)
        }
        Unfit::Aside(item) => told.put_integer("set_aside", *item as i64),
        _ => Ok(()),
    }
}

/// Puts a moment, the Time Stamp, and how far they may be apart into an object.
fn tell_moment(told: &mut JsonObject, far: FarMoment) -> Result<(), AllocError>
    ensures { OnOk result (members_of told.new ≡ moment_told far (members_of told.old)) }
{
    told.put_integer("moment", far.moment)?;
    told.put_integer("stamp", far.stamp)?;
    told.put_integer("tolerance", far.tolerance as i64)
}

/// Operations by their numbers, and their names.
fn operations_list(alloc: Global, operations: &[u32]) -> Result<JsonList, AllocError>
    ensures { IfOk result (λ list. items_of list ≡ objects operation_members operations.now) }
{
    let mut list = JsonList::new(alloc);
    'operations: for operation in operations {
        list.push_object(operation_object(alloc, *operation)?)?;
    }
    Ok(list)
}

/// Where an answer is outside.
fn answer_object(alloc: Global, outside: Outside) -> Result<JsonObject, AllocError>
    ensures { IfOk result (λ told. members_of told ≡ answer_members outside) }
{
    let mut told = JsonObject::new(alloc);
    told.put_count("item", outside.item as u64)?;
    told.put_object("kind", kind_object(alloc, outside.kind)?)?;
    Ok(told)
}

/// A kind of what is outside.
fn kind_object(alloc: Global, kind: OutsideKind) -> Result<JsonObject, AllocError>
    ensures { IfOk result (λ told. members_of told ≡ kind_members kind) }
{
    number_object(alloc, i64::from(kind.number()), Some(kind.name()))
}

/// Puts places that aren't wanted into an object, and why they aren't.
fn tell_ordered(alloc: Global, told: &mut JsonObject, ordered: &Ordered) -> Result<(), AllocError>
    ensures { OnOk result (members_of told.new ≡ ordered_told ordered.now (members_of told.old)) }
{
    told.put_list("places", calls_list(alloc, &ordered.places)?)?;
    match ordered.why {
        OrderTold::Refused => told.put_truth("message_refused", true),
        OrderTold::Few(items) => told.put_count("items", items as u64),
        OrderTold::InOrder => told.put_truth("in_order", true),
    }
}

/// Puts places that are no order into an object, and what is wrong with them.
fn tell_disordered(
    alloc: Global,
    told: &mut JsonObject,
    disorder: &Disorder,
) -> Result<(), AllocError>
    ensures { OnOk result (members_of told.new ≡ disordered_told disorder.now (members_of told.old)) }
{
    told.put_list("places", calls_list(alloc, &disorder.places)?)?;
    told.put_count("answered", disorder.answered as u64)?;
    told.put_object("wrong", wrong_object(alloc, disorder.wrong)?)
}

fn wrong_object(alloc: Global, wrong: Wrong) -> Result<JsonObject, AllocError>
    ensures { IfOk result (λ told. members_of told ≡ wrong_members wrong) }
{
    let mut told = JsonObject::new(alloc);
    match wrong {
        Wrong::Unanswered(place) => told.put_integer("unanswered", place as i64)?,
        Wrong::Twice(place) => told.put_integer("twice", place as i64)?,
        Wrong::LeftOut(item) => told.put_count("left_out", item as u64)?,
        Wrong::NotLast(item) => told.put_count("not_last", item as u64)?,
    }
    Ok(told)
}

/// Puts why a fill or a birth isn't wanted into an object.
fn tell_unwanted(alloc: Global, told: &mut JsonObject, why: Unwanted) -> Result<(), AllocError>
    ensures { OnOk result (members_of told.new ≡ unwanted_told why (members_of told.old)) }
{
    match why {
        Unwanted::Unanswered(answered) => told.put_count("answered", answered as u64),
        Unwanted::Status(status) => told.put_text("status", status_text(status)),
        Unwanted::Present => told.put_truth("payload_there", true),
        Unwanted::Needless(number) => {
            told.put_object("operation", operation_object(alloc, number)?)
        }
        Unwanted::Operations(asked, answered) => {
            told.put_object("asked", operation_object(alloc, asked)?)?;
            told.put_object("named", operation_object(alloc, answered)?)
        }
        Unwanted::Second(number) => told.put_count("named_before", number as u64),
    }
}
