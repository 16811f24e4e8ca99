//! The step that a turn makes with its call.

ghost use Rattle.std.specs.Prelude.{◌≡◌, None, map, MatchResult};
ghost use Rattle.kmipa_msgs.specs.Messages.{request_of};
ghost use Rattle.kmipa_record.specs.Witnesses.{fill_of, turn_of};
ghost use Rattle.kmipa_check.specs.Calls.{call_of};
ghost use Rattle.kmipa_check.specs.Fills.{IsFilled};
ghost use Rattle.kmipa_check.specs.Filling.{FillsRefused};
ghost use Rattle.kmipa_check.specs.Grants.{grants_of};
ghost use Rattle.kmipa_check.specs.Ordering.{AnswerRefused};
ghost use Rattle.kmipa_check.specs.Orders.{Refuses};
ghost use Rattle.kmipa_check.specs.Steps.{IsAnswered, IsStep, given_of, step_of};

use crate::births::born_in;
use crate::fault::{StepFault, WitnessKind};
use crate::filling::{are_wanted, filled, none_missing};
use crate::grants::Grants;
use crate::moment::moment_given;
use crate::numbers::FirstPlaces;
use crate::places::places_given;
use crate::reading::answer_in;
use crate::step::{Given, Step};
use kmipa_msgs::Request;
use kmipa_record::{Call, Fill, Turn};
use std::alloc::Global;

/// The step that a turn makes with the call that it names, where this much is granted, or the first fault of what it gives to the call.
pub fn step_of_turn<'b, 'a>(
    alloc: Global,
    grants: &Grants,
    call: &'b Call<'a>,
    turn: &'a Turn,
) -> Result<Step<'b, 'a>, StepFault>
    ensures { turn.now.call ≡ call.now.number
        → MatchResult result (λ step. IsStep (grants_of grants.now) (call_of call.now) (turn_of turn.now) (step_of step))
        (Refuses (grants_of grants.now) (call_of call.now) (turn_of turn.now)) }
{
    let answered = match answered(alloc, call, turn) {
        Ok(given) => given,
        Err(fault) => return Err(fault),
    };
    let stamp = answered.response().stamp;
    let Some(moment) = moment_given(grants, stamp, turn.moment) else {
        return Err(StepFault::Unfit(WitnessKind::MomentForm));
    };
    let places = match places_given(alloc, &call.request, answered.response(), &turn.places) {
        Ok(places) => places,
        Err(fault) => return Err(fault),
    };
    // Births are tested by what was recorded, and told of after fills.
    let born = born_in(
        alloc,
        grants,
        &call.request,
        answered.response(),
        &turn.births,
    );
    let full = match filled_in(alloc, &call.request, answered, &turn.fills) {
        Ok(given) => given,
        Err(fault) => return Err(fault),
    };
    let request = match born {
        Ok(posed) => posed,
        Err(fault) => return Err(fault),
    };
    if !turn.asides.is_empty() {
        return Err(StepFault::Unfit(WitnessKind::AsideForm));
    }
    Ok(Step {
        number: call.number,
        begin: call.begin,
        end: call.end,
        request,
        response: full.at_moment(alloc, moment)?,
        stamp,
        places,
    })
}

/// The response that a call has by a turn: the recorded one, or that of the turn's answer.
fn answered<'b, 'a>(
    alloc: Global,
    call: &'b Call<'a>,
    turn: &'a Turn,
) -> Result<Given<'b, 'a>, StepFault>
    ensures { MatchResult result (λ given. IsAnswered (call_of call.now) (turn_of turn.now) (given_of given))
        (AnswerRefused (call_of call.now) (turn_of turn.now)) }
{
    let Some(response) = &call.response else {
        return open_answered(alloc, call, turn);
    };
    if turn.answer.is_some() {
        return Err(StepFault::Unfit(WitnessKind::AnswerNotWanted));
    }
    Ok(Given::Recorded(response))
}

/// The response of an open call: what the turn's answer says.
fn open_answered<'b, 'a>(
    alloc: Global,
    call: &'b Call<'a>,
    turn: &'a Turn,
) -> Result<Given<'b, 'a>, StepFault>
    requires { (call_of call.now).response ≡ None }
    ensures { MatchResult result (λ given. IsAnswered (call_of call.now) (turn_of turn.now) (given_of given))
        (AnswerRefused (call_of call.now) (turn_of turn.now)) }
{
    let Some(answer) = &turn.answer else {
        return Err(StepFault::Unfit(WitnessKind::AnswerMissing));
    };
    match answer_in(alloc, answer, &call.request) {
        Ok(response) => Ok(Given::from_turn(alloc, response)?),
        Err(fault) => Err(fault),
    }
}

/// The response of a call, where these fills are put in.
fn filled_in<'b, 'a>(
    alloc: Global,
    request: &Request,
    given: Given<'b, 'a>,
    fills: &'a [Fill],
) -> Result<Given<'b, 'a>, StepFault>
    ensures { MatchResult result
        (λ full. IsFilled (request_of request.now) (given_of given.entry) (map fill_of fills.now) (given_of full))
        (FillsRefused (request_of request.now) (given_of given.entry) (map fill_of fills.now)) }
{
    let places = FirstPlaces::of(alloc, fills)?;
    let response = given.response();
    if !are_wanted(request, response, fills, &places) {
        return Err(StepFault::Unfit(WitnessKind::FillNotWanted));
    }
    if !none_missing(request, response, fills, &places) {
        return Err(StepFault::Unfit(WitnessKind::FillMissing));
    }
    if fills.is_empty() {
        return Ok(given);
    }
    match filled(alloc, request, response, fills) {
        Ok(full) => Ok(Given::from_turn(alloc, full)?),
        Err(fault) => Err(fault),
    }
}
