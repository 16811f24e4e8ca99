//! Births: attributes that a turn says the server itself gave to what its call brought forth.

ghost use Rattle.std.specs.Prelude.{◌↔◌, IsTrue, None, Some, map, MatchResult};
ghost use Rattle.kmipa_msgs.specs.Messages.{answer_of, ask_of, request_of, response_of};
ghost use Rattle.kmipa_msgs.specs.Wanted.{IsOwn};
ghost use Rattle.kmipa_record.specs.Witnesses.{birth_of};
ghost use Rattle.kmipa_check.specs.Bearing.{BirthsRefused, HaveNumbers};
ghost use Rattle.kmipa_check.specs.Births.{AreBirthsWanted, Bears, BringsForth, IsBirth, IsBirthWanted, IsBorn, WasDone};
ghost use Rattle.kmipa_check.specs.Deciding.{Decided};
ghost use Rattle.kmipa_check.specs.Grants.{grants_of};
ghost use Rattle.kmipa_check.specs.Numbers.{Indexes};
ghost use Rattle.kmipa_check.specs.Steps.{posed_of};

use crate::completing::completed;
use crate::fault::{StepFault, WitnessKind};
use crate::filling::item_place;
use crate::grants::Grants;
use crate::numbers::FirstPlaces;
use crate::step::Posed;
use kmipa_msgs::{Answer, Ask, Operation, Request, Response, Status};
use kmipa_record::Birth;
use std::alloc::Global;

/// The request of a call with the births of a turn put in; or why they are refused.
pub fn born_in<'b, 'a>(
    alloc: Global,
    grants: &Grants,
    request: &'b Request<'a>,
    response: &Response,
    births: &[Birth],
) -> Result<Posed<'b, 'a>, StepFault>
    ensures { MatchResult result
        (λ posed. IsBorn (grants_of grants.now) (request_of request.now) (response_of response.now)
        (map birth_of births.now) (posed_of posed))
        (BirthsRefused (grants_of grants.now) (request_of request.now) (response_of response.now)
        (map birth_of births.now)) }
{
    if births.is_empty() {
        return Ok(Posed::Recorded(request));
    }
    let places = FirstPlaces::of(alloc, births)?;
    if !are_births_wanted(request, response, births, &places) {
        return Err(StepFault::Unfit(WitnessKind::BirthNotWanted));
    }
    match completed(alloc, grants, request, births, &places) {
        Ok(full) => Ok(Posed::completed(alloc, full)?),
        Err(fault) => Err(fault),
    }
}

/// Whether each birth is for an item that brings forth an object, and no two are for one item. The places are those where an item's number
/// first stands among the births.
fn are_births_wanted(
    request: &Request,
    response: &Response,
    births: &[Birth],
    places: &FirstPlaces,
) -> bool
    requires { Indexes (map (λ birth. Some birth.item) births.now) places.now }
    ensures decided { Decided result
        (AreBirthsWanted (request_of request.now) (response_of response.now) (map birth_of births.now)) }
    ensures numbered { IsTrue result → HaveNumbers (map birth_of births.now) }
{
    let mut at = 0;
    'births: while at < births.len() {
        let item = births[at].item;
        if !places.is_first(item, at) {
            return false;
        }
        if !is_birth_wanted(request, response, item) {
            return false;
        }
        at += 1;
    }
    true
}

/// Whether the item of this number, counted from 1, brings forth an object.
fn is_birth_wanted(request: &Request, response: &Response, item: i32) -> bool
    ensures { Decided result (IsBirthWanted (request_of request.now) (response_of response.now) item) }
{
    if item < 1 {
        return false;
    }
    is_birth_at(request, response, item_place(item))
}

/// Whether what was done at a place brings forth an object.
fn is_birth_at(request: &Request, response: &Response, place: usize) -> bool
    ensures { Decided result (IsBirth (request_of request.now) (response_of response.now) place) }
{
    if place >= request.items.len() {
        return false;
    }
    if place >= response.items.len() {
        return false;
    }
    bears(&request.items[place], &response.items[place])
}

/// Whether what was asked brings forth an object, and the answer says, at its own operation, that it was done.
fn bears(ask: &Ask, answer: &Answer) -> bool
    ensures { IsTrue result ↔ Bears (ask_of ask.now) (answer_of answer.now) }
{
    brings_forth(ask.operation())
        && was_done(answer.status)
        && is_own(ask.number(), answer.operation)
}

/// Whether an operation brings forth an object.
fn brings_forth(operation: Operation) -> bool
    ensures { IsTrue result ↔ BringsForth operation }
{
    match operation {
        Operation::Create | Operation::Register => true,
        _ => false,
    }
}

/// Whether an item with this status was done.
fn was_done(status: Status) -> bool
    ensures { IsTrue result ↔ WasDone status }
{
    match status {
        Status::Success | Status::Undone => true,
        Status::Failed => false,
    }
}

/// Whether an answer names no operation, or this one.
fn is_own(number: u32, operation: Option<u32>) -> bool
    ensures { IsTrue result ↔ IsOwn number operation }
{
    match operation {
        Some(named) => named == number,
        None => true,
    }
}
