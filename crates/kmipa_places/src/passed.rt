//! A place that isn't judged.

ghost use Rattle.std.specs.Prelude.{◌≡◌, IfOk};
ghost use Rattle.kmipa_ttlv.specs.ViewTree.{view_tree};
ghost use Rattle.kmipa_attrs.specs.Fields.{at, inside, as_structure};
ghost use Rattle.kmipa_attrs.specs.Tags.{request_payload, response_payload};
ghost use Rattle.kmipa_msgs.specs.Tables.{children};
ghost use Rattle.kmipa_passed.specs.Identifiers.{asked_of};
ghost use Rattle.kmipa_passed.specs.Passed.{ask_of};
ghost use Rattle.kmipa_aside.specs.Passed.{passed_of};
ghost use Rattle.kmipa_places.specs.Places.{is_poll, names_to, number_in, operation_at};
ghost use Rattle.kmipa_places.specs.Readings.{passed_as};
ghost use Rattle.kmipa_places.specs.Unordered.{about, asks_in, untold};

use crate::item::{children_of, operation_at};
use kmipa_aside::Passed;
use kmipa_attrs::Field;
use kmipa_attrs::fields::{inside, structure_at};
use kmipa_attrs::tags::{REQUEST_PAYLOAD, RESPONSE_PAYLOAD};
use kmipa_passed::{Asked, Outcome, PassedAsk, Sort, passed_answer, passed_ask};
use kmipa_ttlv::View;
use std::alloc::{AllocError, Global};

/// The number of Poll (KMIP 2.1, section 11).
const POLL: u32 = 0x1A;

/// What an item of a request with or without order, and its answer, which ends so, say where they aren't judged.
pub(crate) fn read_passed<'a>(
    alloc: Global,
    unordered: bool,
    outcome: Outcome,
    item: &View<'a>,
    answer: &View<'a>,
) -> Result<Passed<'a>, AllocError>
    ensures { IfOk result (λ p. passed_of p
        ≡ passed_as unordered outcome (view_tree item.now) (view_tree answer.now)) }
{
    let operation = operation_at(item);
    let asks = number_in(operation);
    let payload = inside(children_of(item), REQUEST_PAYLOAD);
    let shown = structure_at(children_of(answer), RESPONSE_PAYLOAD);
    Ok(Passed {
        asks,
        names: names_to(operation, operation_at(answer)),
        ask: asks_in(unordered, passed_ask(alloc, asks, payload)?),
        answer: passed_answer(alloc, outcome, shown)?,
    })
}

/// What an item asks for that says this, in a request with or without order.
fn asks_in<'a>(unordered: bool, said: PassedAsk<'a>) -> PassedAsk<'a>
    ensures { ask_of result ≡ asks_in unordered (ask_of said.entry) }
{
    PassedAsk {
        asked: about(unordered, said.sort, said.asked),
        ..said
    }
}

/// The object that an item of this sort is about.
fn about<'a>(unordered: bool, sort: Sort, asked: Asked<'a>) -> Asked<'a>
    ensures { asked_of result ≡ about unordered sort (asked_of asked.entry) }
{
    match sort {
        Sort::Changes if unordered => untold(asked),
        Sort::Looks | Sort::Changes | Sort::Makes | Sort::MayMake | Sort::EndsJudging => asked,
    }
}

/// Nobody can tell what the ID Placeholder holds.
fn untold<'a>(asked: Asked<'a>) -> Asked<'a>
    ensures { asked_of result ≡ untold (asked_of asked.entry) }
{
    match asked {
        Asked::Placeholder | Asked::Unnamed => Asked::Unnamed,
        Asked::Named(id) => Asked::Named(id),
    }
}

/// The number of an Operation, 0 where it can't be read.
pub(crate) fn number_in(operation: Field<u32>) -> u32
    ensures { result ≡ number_in operation }
{
    match operation {
        Field::There(number) => number,
        Field::Absent | Field::Wrong => 0,
    }
}

/// Whether Poll is asked for.
pub(crate) fn is_poll(operation: Field<u32>) -> bool
    ensures { result ≡ is_poll operation }
{
    match operation {
        Field::There(number) => number == POLL,
        Field::Absent | Field::Wrong => false,
    }
}

/// The operation that an answer names, where this one is asked for.
fn names_to(operation: Field<u32>, named: Field<u32>) -> Option<u32>
    ensures { result ≡ names_to operation named }
{
    match operation {
        Field::There(POLL) | Field::Absent | Field::Wrong => None,
        Field::There(_) => named.value(),
    }
}
