//! The response that a call has by a turn.

ghost use Rattle.std.specs.Prelude.{◌≡◌, None, MatchResult, option_map};
ghost use Rattle.kmipa_record.specs.Witnesses.{turn_of};
ghost use Rattle.kmipa_ttlv.specs.ViewTree.{view_tree};
ghost use Rattle.kmipa_places.specs.Calls.{message_of};
ghost use Rattle.kmipa_turns.specs.Answered.{IsAnswered};
ghost use Rattle.kmipa_turns.specs.Recorded.{RecordedOf, recorded_of};
ghost use Rattle.kmipa_turns.specs.Turning.{AnswerRefused};

use crate::asides::sets_aside;
use crate::item::whole_item;
use crate::recorded::Recorded;
use kmipa_check::{StepFault, WitnessKind};
use kmipa_places::is_fit_answer;
use kmipa_record::Turn;
use kmipa_ttlv::View;
use std::alloc::Global;

/// The item of the response that a call has by a turn, none where its bytes spell none: the recorded one, or that of the turn's answer.
pub fn answered<'a>(
    alloc: Global,
    call: &Recorded<'a>,
    turn: &'a Turn,
    request: Option<&View>,
) -> Result<Option<View<'a>>, StepFault>
    ensures { MatchResult result
        (λ response. IsAnswered (recorded_of call.now) (turn_of turn.now) (message_of request.entry)
        (option_map view_tree response))
        (AnswerRefused (recorded_of call.now) (turn_of turn.now) (message_of request.entry)) }
{
    let Some(response) = call.response else {
        return open_answered(alloc, turn, request);
    };
    if turn.answer.is_some() {
        return Err(StepFault::Unfit(WitnessKind::AnswerNotWanted));
    }
    Ok(whole_item(response))
}

/// That of an open call: the turn's answer, which fits the request; none where the turn sets the call aside, and its answer isn't looked at.
fn open_answered<'a>(
    alloc: Global,
    turn: &'a Turn,
    request: Option<&View>,
) -> Result<Option<View<'a>>, StepFault>
    ensures { (c : RecordedOf) → c.response ≡ None → MatchResult result
        (λ response. IsAnswered c (turn_of turn.now) (message_of request.entry) (option_map view_tree response))
        (AnswerRefused c (turn_of turn.now) (message_of request.entry)) }
{
    if sets_aside(&turn.asides) {
        return Ok(None);
    }
    let Some(answer) = &turn.answer else {
        return Err(StepFault::Unfit(WitnessKind::AnswerMissing));
    };
    let response = whole_item(answer);
    if !is_fit_answer(alloc, request, response.as_ref())? {
        return Err(StepFault::Unfit(WitnessKind::AnswerForm));
    }
    Ok(response)
}
