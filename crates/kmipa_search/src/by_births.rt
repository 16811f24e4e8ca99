//! The search with what the server itself gives at birth, where the declaration has own lines.

ghost use Rattle.std.specs.Prelude.{◌≡◌, IfErr};
ghost use Rattle.kmipa_record.specs.Declarations.{AreDeclared, declaration_of};
ghost use Rattle.kmipa_record.specs.Marks.{AreRecorded};
ghost use Rattle.kmipa_record.specs.Transcripts.{transcript_of};
ghost use Rattle.kmipa_check.specs.Grants.{GrantsNothing, grants_declared};
ghost use Rattle.kmipa_orders.specs.ByMoments.{FindsBehind};

use crate::births::{GivenAtBirth, given_at_birth};
use crate::by_lives::places_by_lives;
use crate::by_moments::{or_turns, places_by_end, tolerance_of, try_turns, turns_by_end};
use kmipa_check::{CheckFault, Grants, Posed, StepFault, born_in, read_calls};
use kmipa_msgs::Request;
use kmipa_orders::{Found, dates_left};
use kmipa_record::{Call, Declaration, Transcript, Turn};
use std::alloc::Global;

/// What is found after so many steps with births, where the declaration has own lines and answers show something that they allow: each try makes one
/// step more for each turn, within the budget.
///
/// # Tries
/// The calls with their births are taken in the order that the lives of the objects propose, at their Time Stamps; then in the order in which they
/// ended, and then so at the dates that answers show.
pub(crate) fn search_with_births(
    alloc: Global,
    transcript: &Transcript,
    declaration: &Declaration,
    calls: &[Call],
    budget: u64,
    steps: u64,
) -> Result<Found, CheckFault>
    requires declared { AreDeclared (declaration_of declaration.now) }
    requires granted { GrantsNothing (grants_declared (declaration_of declaration.now)) → ⊥ }
    ensures finds { AreRecorded (transcript_of transcript.now)
        → FindsBehind (transcript_of transcript.now) (declaration_of declaration.now) budget (Found.GaveUp steps) result }
    ensures memory { IfErr result (λ fault. fault ≡ CheckFault.Memory) }
{
    if declaration.own_attributes.is_empty() {
        return Ok(Found::GaveUp(steps));
    }
    let places = places_by_end(alloc, calls)?;
    let own = declaration.own_attributes.as_slice();
    let given = given_at_birth(alloc, calls, &places, own)?;
    if given.is_empty() {
        return Ok(Found::GaveUp(steps));
    }
    let turns = turns_by_lives(alloc, transcript, declaration, &given)?;
    let found = try_turns(alloc, transcript, declaration, budget, turns, steps)?;
    let turns = turns_by_end(alloc, declaration, calls, &[], &given)?;
    let found = or_turns(alloc, transcript, declaration, budget, turns, found)?;
    let dates = dates_left(alloc, calls, declaration, tolerance_of(declaration))?;
    let turns = turns_by_end(alloc, declaration, calls, &dates, &given)?;
    or_turns(alloc, transcript, declaration, budget, turns, found)
}

/// The turns of the calls with their births, in the order that the lives of the objects propose, if they propose one.
fn turns_by_lives(
    alloc: Global,
    transcript: &Transcript,
    declaration: &Declaration,
    given: &GivenAtBirth,
) -> Result<Option<Vec<Turn>>, CheckFault>
    requires { AreDeclared (declaration_of declaration.now) }
    ensures { IfErr result (λ fault. fault ≡ CheckFault.Memory) }
{
    let Some(born) = born_calls(alloc, transcript, declaration, given)? else {
        return Ok(None);
    };
    let Some(places) = places_by_lives(alloc, &born, declaration)? else {
        return Ok(None);
    };
    let mut turns = Vec::with_capacity(alloc, places.len())?;
    for place in &places {
        if let Some(call) = born.get(*place) {
            let mut turn = Turn::bare(alloc, call.number);
            turn.births = given.births(alloc, *place)?;
            turns.push(turn)?;
        }
    }
    Ok(Some(turns))
}

/// The calls with the births put in; none where a call can't be read, or births are refused.
fn born_calls<'a>(
    alloc: Global,
    transcript: &'a Transcript,
    declaration: &Declaration,
    given: &GivenAtBirth,
) -> Result<Option<Vec<Call<'a>>>, CheckFault>
    ensures { IfErr result (λ fault. fault ≡ CheckFault.Memory) }
{
    let mut calls = match read_calls(alloc, transcript) {
        Ok(calls) => calls,
        Err(CheckFault::Memory) => return Err(CheckFault::Memory),
        Err(_) => return Ok(None),
    };
    for place in 0..calls.len() {
        let Some(call) = calls.get_mut(place) else {
            return Ok(None);
        };
        if let Some(request) = born_request(alloc, declaration, call, place, given)? {
            call.request = request;
        }
    }
    Ok(Some(calls))
}

/// The request of the call at a place with its births put in, where it has some.
fn born_request<'a>(
    alloc: Global,
    declaration: &Declaration,
    call: &Call<'a>,
    place: usize,
    given: &GivenAtBirth,
) -> Result<Option<Request<'a>>, CheckFault>
    ensures { IfErr result (λ fault. fault ≡ CheckFault.Memory) }
{
    let births = given.births(alloc, place)?;
    let Some(response) = &call.response else {
        return Ok(None);
    };
    match born_in(
        alloc,
        &Grants::of(declaration),
        &call.request,
        response,
        &births,
    ) {
        Ok(Posed::Completed(full)) => Ok(Some(Box::into_inner(full))),
        Ok(Posed::Recorded(_)) => Ok(None),
        Err(StepFault::Memory) => Err(CheckFault::Memory),
        Err(StepFault::Unfit(_)) => Ok(None),
    }
}
