//! What a turn gives to the call that it names.

ghost use Rattle.std.specs.Prelude.{◌≡◌, ◌<◌, IfErr, IfOk, List, MatchOption, None, length, map, ℕ};
ghost use Rattle.kmipa_msgs.specs.Messages.{request_of, response_of};
ghost use Rattle.kmipa_record.specs.Marks.{MarkOf};
ghost use Rattle.kmipa_record.specs.Witnesses.{turn_of};
ghost use Rattle.kmipa_check.specs.CallReading.{ItemRead};
ghost use Rattle.kmipa_check.specs.Calls.{IsRecorded, call_of};
ghost use Rattle.kmipa_check.specs.Grants.{grants_of};
ghost use Rattle.kmipa_check.specs.Moments.{IsUntimely};
ghost use Rattle.kmipa_check.specs.Orders.{GivenFault, NamesBefore};
ghost use Rattle.kmipa_unfit.specs.Finding.{AnswerSays, IsAnsweredFault, IsEarliest, IsNamedFault, TellsNamed, unread};
ghost use Rattle.kmipa_unfit.specs.UnfitTurns.{IsFarMoment, TellsAnswered, TellsGiven, numbers_asked};

use crate::births::{formless_birth, unwanted_birth};
use crate::explanation::{FarMoment, Unfit};
use crate::fills::fill_unfit;
use crate::orders::{disordered, ordered};
use kmipa_check::{CheckFault, Grants, WitnessKind};
use kmipa_msgs::{Outside, OutsideKind, ReadFault, Request, Response, read_response};
use kmipa_record::{Call, Turn};
use kmipa_ttlv::{View, decode_view};
use std::alloc::{AllocError, Global};

/// The first turn before a place that names the call of this number.
fn first_named(turns: &[Turn], place: usize, number: i32) -> Option<usize>
    requires { place < length turns.now }
    ensures { MatchOption result (NamesBefore (map turn_of turns.now) place number → ⊥)
        (IsEarliest (map turn_of turns.now) place number) }
{
    let mut earlier = 0;
    'turns: while earlier < place {
        if turns[earlier].call == number {
            return Some(earlier);
        }
        earlier += 1;
    }
    None
}

/// The operations that a request asks for, item by item, by their numbers.
pub fn operations_of(alloc: Global, request: &Request) -> Result<Vec<u32>, AllocError>
    ensures { IfOk result (λ numbers. numbers.items ≡ numbers_asked (request_of request.now)) }
{
    let mut numbers = Vec::new(alloc);
    for ask in &request.items {
        numbers.push(ask.number())?;
    }
    Ok(numbers)
}

/// What is wrong with the turn at a place, counted from 0, that names this call.
pub fn named_unfit(
    alloc: Global,
    grants: &Grants,
    call: &Call,
    turns: &[Turn],
    place: usize,
    kind: WitnessKind,
) -> Result<Unfit, CheckFault>
    requires recorded { (marks : List MarkOf) × IsRecorded marks (call_of call.now) }
    requires named { IsNamedFault (grants_of grants.now) (call_of call.now) (map turn_of turns.now) place kind }
    ensures tells { IfOk result (TellsNamed (grants_of grants.now) (call_of call.now) (map turn_of turns.now) place kind) }
    ensures memory { IfErr result (λ fault. fault ≡ CheckFault.Memory) }
{
    let turn = &turns[place];
    match first_named(turns, place, turn.call) {
        Some(earlier) => Ok(Unfit::Twice(earlier + 1)),
        None => given_unfit(alloc, grants, call, turn, kind),
    }
}

/// What is wrong with what a turn gives to the call that it is the first to name.
fn given_unfit(
    alloc: Global,
    grants: &Grants,
    call: &Call,
    turn: &Turn,
    kind: WitnessKind,
) -> Result<Unfit, CheckFault>
    requires recorded { (marks : List MarkOf) × IsRecorded marks (call_of call.now) }
    requires given { GivenFault (grants_of grants.now) (call_of call.now) (turn_of turn.now) kind }
    ensures tells { IfOk result (TellsGiven (grants_of grants.now) (call_of call.now) (turn_of turn.now) kind) }
    ensures memory { IfErr result (λ fault. fault ≡ CheckFault.Memory) }
{
    let Some(response) = &call.response else {
        return open_unfit(alloc, grants, call, turn, kind);
    };
    if turn.answer.is_some() {
        return Ok(Unfit::Ended);
    }
    answered_unfit(alloc, grants, &call.request, response, turn, kind)
}

/// What is wrong with what a turn gives to an open call.
fn open_unfit(
    alloc: Global,
    grants: &Grants,
    call: &Call,
    turn: &Turn,
    kind: WitnessKind,
) -> Result<Unfit, CheckFault>
    requires recorded { (marks : List MarkOf) × IsRecorded marks (call_of call.now) }
    requires open { (call_of call.now).response ≡ None }
    requires given { GivenFault (grants_of grants.now) (call_of call.now) (turn_of turn.now) kind }
    ensures tells { IfOk result (TellsGiven (grants_of grants.now) (call_of call.now) (turn_of turn.now) kind) }
    ensures memory { IfErr result (λ fault. fault ≡ CheckFault.Memory) }
{
    let Some(answer) = &turn.answer else {
        return Ok(Unfit::Open);
    };
    match answer_in(alloc, answer, &call.request) {
        Ok(response) => answered_unfit(alloc, grants, &call.request, &response, turn, kind),
        Err(fault) => unread(fault),
    }
}

/// What it comes to that an answer can't be read.
fn unread(fault: ReadFault) -> Result<Unfit, CheckFault>
    ensures { result ≡ unread fault }
{
    match fault {
        ReadFault::Outside(outside) => Ok(Unfit::Answer(outside)),
        ReadFault::Memory => Err(CheckFault::Memory),
    }
}

/// What the bytes of an answer say to a request.
fn answer_in<'a>(
    alloc: Global,
    answer: &'a [u8],
    request: &Request,
) -> Result<Response<'a>, ReadFault>
    ensures { AnswerSays (request_of request.now) answer.now result }
{
    match whole_item(answer) {
        Some(view) => read_response(alloc, &view, request),
        None => Err(ReadFault::Outside(Outside {
            item: 0,
            kind: OutsideKind::NotAMessage,
        })),
    }
}

/// The item that the bytes spell, all of them; `None` where they spell none.
fn whole_item(bytes: &[u8]) -> Option<View<'_>>
    ensures { ItemRead bytes.now result }
{
    match decode_view(bytes) {
        Ok((view, taken)) if taken == bytes.len() => Some(view),
        _ => None,
    }
}

/// What is wrong with what a turn gives to a call with this response.
fn answered_unfit(
    alloc: Global,
    grants: &Grants,
    request: &Request,
    response: &Response,
    turn: &Turn,
    kind: WitnessKind,
) -> Result<Unfit, CheckFault>
    requires { IsAnsweredFault (grants_of grants.now) (request_of request.now) (response_of response.now) (turn_of turn.now) kind }
    ensures tells { IfOk result (TellsAnswered (grants_of grants.now) (request_of request.now) (response_of response.now)
        (turn_of turn.now) kind) }
    ensures memory { IfErr result (λ fault. fault ≡ CheckFault.Memory) }
{
    match kind {
        WitnessKind::MomentForm => {
            Ok(Unfit::Untimely(far_moment(grants, response, turn.moment)))
        }
        WitnessKind::OrderNotWanted => Ok(Unfit::Ordered(ordered(
            alloc,
            request,
            response,
            &turn.places,
        )?)),
        WitnessKind::OrderForm => Ok(Unfit::Disordered(disordered(
            alloc,
            request,
            response,
            &turn.places,
        )?)),
        WitnessKind::BirthNotWanted => Ok(Unfit::BirthUnwanted(unwanted_birth(
            alloc,
            request,
            response,
            &turn.births,
        )?)),
        WitnessKind::BirthForm => Ok(Unfit::BirthFormless(formless_birth(
            alloc,
            grants,
            &turn.births,
        )?)),
        WitnessKind::AsideForm => Ok(Unfit::Aside(turn.asides[0])),
        _ => fill_unfit(alloc, request, response, &turn.fills, kind),
    }
}

/// The moment that isn't near the Time Stamp of the response.
fn far_moment(grants: &Grants, response: &Response, given: Option<i64>) -> FarMoment
    requires { IsUntimely (grants_of grants.now) (response_of response.now).stamp given }
    ensures { IsFarMoment (grants_of grants.now) (response_of response.now) given result }
{
    FarMoment {
        moment: given.unwrap_or(response.stamp),
        stamp: response.stamp,
        tolerance: grants.tolerance,
    }
}
