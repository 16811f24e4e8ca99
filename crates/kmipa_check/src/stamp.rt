//! When a call was answered.

ghost use Rattle.std.specs.Prelude.{◌≡◌, ℕ, List, IfOk, MatchOption, map};
ghost use Rattle.kmipa_record.specs.Marks.{mark_of};
ghost use Rattle.kmipa_record.specs.Transcripts.{transcript_of};
ghost use Rattle.kmipa_record.specs.Witnesses.{turn_of, witness_of};
ghost use Rattle.kmipa_check.specs.Stamps.{AnswersAt, BeginsAt, EndsAt, IsMessage, ResponseSaid, TellsStamp};

use crate::fault::{CheckFault, StepFault, WitnessKind};
use crate::reading::{answer_in, asked_in};
use kmipa_msgs::Response;
use kmipa_record::{Begin, End, Mark, Transcript, Turn, Witness};
use std::alloc::{AllocError, Global};

/// The Time Stamp of the response of the call of this number: of the recorded one, or, where the call is open, of the answer that the
/// witness gives. `None` where there is none.
pub fn stamp_of(
    alloc: Global,
    transcript: &Transcript,
    witness: &Witness,
    call: i32,
) -> Result<Option<i64>, AllocError>
    ensures { IfOk result (TellsStamp (transcript_of transcript.now) (witness_of witness.now) call) }
{
    let Some(begin) = begin_of(&transcript.marks, call) else {
        return Ok(None);
    };
    let Some(message) = message_of(&transcript.marks, &witness.turns, call) else {
        return Ok(None);
    };
    match response_of(alloc, begin, message) {
        Ok(response) => Ok(Some(response.stamp)),
        Err(StepFault::Unfit(_)) => Ok(None),
        Err(StepFault::Memory) => Err(AllocError),
    }
}

/// The begin mark of the call of this number.
fn begin_of<'a>(marks: &'a [Mark], call: i32) -> Option<&'a Begin>
    ensures { MatchOption result ((place : ℕ) (asked : List ℕ) → ¬ (BeginsAt (map mark_of marks.now) call asked place))
        (λ begin. (place : ℕ) × BeginsAt (map mark_of marks.now) call begin.now.message.items place) }
{
    'marks: for mark in marks {
        if let Mark::Begin(begin) = mark {
            if begin.call == call {
                return Some(begin);
            }
        }
    }
    None
}

/// The message that answers the call of this number.
fn message_of<'a>(marks: &'a [Mark], turns: &'a [Turn], call: i32) -> Option<&'a [u8]>
    ensures { MatchOption result
        ((bytes : List ℕ) → ¬ (IsMessage (map mark_of marks.now) (map turn_of turns.now) call bytes))
        (λ bytes. IsMessage (map mark_of marks.now) (map turn_of turns.now) call bytes.now) }
{
    match end_of(marks, call) {
        Some(end) => Some(&end.message),
        None => answer_of(turns, call),
    }
}

/// The end mark of the call of this number.
fn end_of<'a>(marks: &'a [Mark], call: i32) -> Option<&'a End>
    ensures { MatchOption result
        ((place : ℕ) (answered : List ℕ) → ¬ (EndsAt (map mark_of marks.now) call answered place))
        (λ end. (place : ℕ) × EndsAt (map mark_of marks.now) call end.now.message.items place) }
{
    'marks: for mark in marks {
        if let Mark::End(end) = mark {
            if end.call == call {
                return Some(end);
            }
        }
    }
    None
}

/// The answer that the turns give to the call of this number.
fn answer_of<'a>(turns: &'a [Turn], call: i32) -> Option<&'a [u8]>
    ensures { MatchOption result ((place : ℕ) (bytes : List ℕ) → ¬ (AnswersAt (map turn_of turns.now) call bytes place))
        (λ answer. (place : ℕ) × AnswersAt (map turn_of turns.now) call answer.now place) }
{
    'turns: for turn in turns {
        if let Some(answer) = &turn.answer {
            if turn.call == call {
                return Some(answer);
            }
        }
    }
    None
}

/// What a message says as the response to the request of a begin mark.
fn response_of<'a>(
    alloc: Global,
    begin: &'a Begin,
    message: &'a [u8],
) -> Result<Response<'a>, StepFault>
    ensures { ResponseSaid begin.now.message.items message.now result }
{
    match asked_in(alloc, begin) {
        Ok(request) => answer_in(alloc, message, &request),
        Err(CheckFault::Outside(_, _, _)) => Err(StepFault::Unfit(WitnessKind::AnswerForm)),
        // Only want of memory is left.
        Err(_) => Err(StepFault::Memory),
    }
}
