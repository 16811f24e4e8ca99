//! The step that a turn makes with its call.

ghost use Rattle.std.specs.Prelude.{◌≡◌, MatchResult};
ghost use Rattle.kmipa_record.specs.Witnesses.{turn_of};
ghost use Rattle.kmipa_check.specs.Grants.{grants_of};
ghost use Rattle.kmipa_turns.specs.Faults.{Refuses};
ghost use Rattle.kmipa_turns.specs.Recorded.{recorded_of};
ghost use Rattle.kmipa_turns.specs.Steps.{IsStep, step_of};

use crate::answered::answered;
use crate::item::whole_item;
use crate::readable::read_step;
use crate::recorded::Recorded;
use crate::step::Step;
use crate::unreadable::unread_step;
use kmipa_check::{Grants, StepFault};
use kmipa_places::{Call, read_call};
use kmipa_record::Turn;
use std::alloc::Global;

/// The step that a turn makes with the call that it names, where this much is granted, or the first fault of what it gives to the call.
pub fn step_of_turn<'a>(
    alloc: Global,
    grants: &Grants,
    call: &Recorded<'a>,
    turn: &'a Turn,
) -> Result<Step<'a>, StepFault>
    ensures { turn.now.call ≡ call.now.number → MatchResult result
        (λ step. IsStep (grants_of grants.now) (recorded_of call.now) (turn_of turn.now) (step_of step))
        (Refuses (grants_of grants.now) (recorded_of call.now) (turn_of turn.now)) }
{
    let request = whole_item(call.request);
    let response = match answered(alloc, call, turn, request.as_ref()) {
        Ok(response) => response,
        Err(fault) => return Err(fault),
    };
    let said = read_call(alloc, request.as_ref(), response.as_ref(), &turn.asides)?;
    match said {
        Call::Unread(left) => unread_step(
            alloc,
            call,
            turn,
            request.as_ref(),
            response.as_ref(),
            left,
        ),
        Call::Read(readable) => read_step(alloc, grants, call, turn, readable),
    }
}
