//! Turns whose calls can't be read.

ghost use Rattle.std.specs.Prelude.{IfOk, MatchOption, MatchResult};
ghost use Rattle.kmipa_record.specs.Witnesses.{turn_of};
ghost use Rattle.kmipa_passed.specs.Leaving.{aside_of};
ghost use Rattle.kmipa_places.specs.Calls.{message_of};
ghost use Rattle.kmipa_turns.specs.Faults.{UnreadFault};
ghost use Rattle.kmipa_turns.specs.Recorded.{recorded_of};
ghost use Rattle.kmipa_turns.specs.Steps.{GivesNothing, IsExcepted, step_of};
ghost use Rattle.kmipa_turns.specs.Turning.{UnreadRefused, UnreadStep};

use crate::asides::{may_set_aside, sets_aside};
use crate::recorded::Recorded;
use crate::step::{Step, Taken};
use kmipa_check::{StepFault, WitnessKind};
use kmipa_passed::SetAside;
use kmipa_places::{count_unread, is_unread};
use kmipa_record::Turn;
use kmipa_ttlv::View;
use std::alloc::{AllocError, Global};

/// The step that a turn makes with a call that can't be read, and leaves this.
pub fn unread_step<'a>(
    alloc: Global,
    call: &Recorded<'a>,
    turn: &Turn,
    request: Option<&View>,
    response: Option<&View>,
    left: SetAside<'a>,
) -> Result<Step<'a>, StepFault>
    ensures { MatchResult result
        (λ step. UnreadStep (recorded_of call.now) (turn_of turn.now) (message_of request.entry)
        (message_of response.entry) (aside_of left.entry) (step_of step))
        (UnreadRefused (turn_of turn.now) (aside_of left.entry)) }
{
    if let Some(kind) = unread_fault(turn) {
        return Err(StepFault::Unfit(kind));
    }
    if !may_set_aside(0, &turn.asides) {
        return Err(StepFault::Unfit(WitnessKind::AsideForm));
    }
    let excepted = excepted_unread(alloc, call, turn, request, response)?;
    let counts = count_unread(alloc, request, response)?;
    Ok(Step {
        number: call.number,
        client: call.client,
        begin: call.begin,
        end: call.end,
        stamp: None,
        taken: Taken::Leaves(left, counts),
        excepted,
    })
}

/// The first fault of a turn that gives something to a call that can't be read.
fn unread_fault(turn: &Turn) -> Option<WitnessKind>
    ensures { MatchOption result (GivesNothing (turn_of turn.now)) (UnreadFault (turn_of turn.now)) }
{
    if turn.moment.is_some() {
        return Some(WitnessKind::MomentForm);
    }
    if !turn.places.is_empty() {
        return Some(WitnessKind::OrderNotWanted);
    }
    if !turn.fills.is_empty() {
        return Some(WitnessKind::FillNotWanted);
    }
    if !turn.births.is_empty() {
        return Some(WitnessKind::BirthNotWanted);
    }
    None
}

/// Whether the call is aside by the turn alone, as a number: it is set aside as a whole, and is open, or could be read without.
fn excepted_unread(
    alloc: Global,
    call: &Recorded,
    turn: &Turn,
    request: Option<&View>,
    response: Option<&View>,
) -> Result<usize, AllocError>
    ensures { IfOk result (IsExcepted (recorded_of call.now) (turn_of turn.now) (message_of request.entry)
        (message_of response.entry)) }
{
    if !sets_aside(&turn.asides) {
        return Ok(0);
    }
    if call.response.is_none() {
        return Ok(1);
    }
    if is_unread(request, response) {
        return Ok(0);
    }
    Ok(1)
}
