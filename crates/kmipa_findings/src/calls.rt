//! The calls that a search takes.

ghost use Rattle.std.specs.Prelude.{◌≡◌, ◌≤◌, ◌++◌, ◌∷◌, [], None, Some, IfOk, IfSome, IsSome, OnOk, length, map, slice_get};
ghost use Rattle.kmipa_check.specs.Grants.{grants_of};
ghost use Rattle.kmipa_record.specs.Witnesses.{turn_of};
ghost use Rattle.kmipa_turns.specs.Recorded.{recorded_of};
ghost use Rattle.kmipa_turns.specs.Steps.{IsStep, StepOf, step_of};
ghost use Rattle.kmipa_turns.specs.declared.recorded.Recorded.{Recorded};
ghost use Rattle.kmipa_findings.specs.Choices.{HaveEnded, bare_of};
ghost use Rattle.kmipa_findings.specs.Trying.{AreTakable, IsTakableStep};

use crate::ranking::{moment_of, ranks_of};
use kmipa_check::{Grants, StepFault};
use kmipa_record::Turn;
use kmipa_trail::Fault;
use kmipa_turns::{Recorded, Step, step_is_takable, step_of_turn};
use std::alloc::{AllocError, Global};

/// Where a call stands among the marks, its moment where it has one, and its rank among all: those of a lower one are tried first.
#[derive(Clone, Copy)]
pub(crate) struct Span {
    pub begin: usize,
    pub end: usize,
    pub moment: Option<i64>,
    pub rank: usize,
}

/// The calls that have ended.
pub(crate) fn ended_calls<'a>(
    alloc: Global,
    calls: &[Recorded<'a>],
) -> Result<Vec<Recorded<'a>>, AllocError>
    ensures { HaveEnded (map recorded_of calls.now) → IfOk result (λ ended. ended.items ≡ calls.now) }
{
    let mut ended = Vec::with_capacity(alloc, calls.len())?;
    let mut place = 0;
    'calls: while place < calls.len() {
        push_ended(&mut ended, calls, place)?;
        place += 1;
    }
    Ok(ended)
}

/// Adds the call at a place, if it has ended.
fn push_ended<'a>(
    ended: &mut Vec<Recorded<'a>>,
    calls: &[Recorded<'a>],
    place: usize,
) -> Result<(), AllocError>
    ensures { (c : Recorded) → slice_get calls.now place ≡ Some c → IsSome c.end
        → OnOk result (ended.new.items ≡ ended.old.items ++ c ∷ []) }
{
    let Some(call) = calls.get(place) else {
        return Ok(());
    };
    if call.end.is_some() {
        ended.push(*call)?;
    }
    Ok(())
}

/// The call at a place.
pub(crate) fn call_at<'c, 'a>(calls: &'c [Recorded<'a>], place: usize) -> Option<&'c Recorded<'a>>
    ensures call { IfSome result (λ call. slice_get calls.now place ≡ Some call.now) }
    ensures past { result ≡ None → length calls.now ≤ place }
{
    calls.get(place)
}

/// The turn at a place.
pub(crate) fn turn_at(turns: &[Turn], place: usize) -> Option<&Turn>
    ensures turn { IfSome result (λ turn. slice_get turns.now place ≡ Some turn.now) }
    ensures past { result ≡ None → length turns.now ≤ place }
{
    turns.get(place)
}

/// The turns that name these calls and give nothing else.
pub(crate) fn bare_turns(alloc: Global, calls: &[Recorded]) -> Result<Vec<Turn>, AllocError>
    ensures { IfOk result (λ turns. map turn_of turns.items ≡ map bare_of (map recorded_of calls.now)) }
{
    let mut turns = Vec::with_capacity(alloc, calls.len())?;
    'calls: for call in calls {
        turns.push(Turn::bare(alloc, call.number))?;
    }
    Ok(turns)
}

/// The steps that these turns make with these calls, each with its own; none where one makes none.
pub(crate) fn steps_made<'a>(
    alloc: Global,
    grants: &Grants,
    calls: &[Recorded<'a>],
    turns: &'a [Turn],
) -> Result<Option<Vec<Step<'a>>>, Fault>
    ensures { IfOk result (λ made. IfSome made (λ steps. AreTakable steps.items)) }
{
    let mut steps = Vec::with_capacity(alloc, calls.len())?;
    'places: for place in 0..calls.len() {
        match step_made(alloc, grants, calls.get(place), turns.get(place))? {
            Some(step) => steps.push(step)?,
            None => return Ok(None),
        }
    }
    Ok(Some(steps))
}

/// The step that a turn makes with a call, where both are there and it makes one.
fn step_made<'a>(
    alloc: Global,
    grants: &Grants,
    call: Option<&Recorded<'a>>,
    turn: Option<&'a Turn>,
) -> Result<Option<Step<'a>>, Fault>
    ensures { IfOk result (λ made. IfSome made IsTakableStep) }
{
    let Some(call) = call else {
        return Ok(None);
    };
    let Some(turn) = turn else {
        return Ok(None);
    };
    step_of(alloc, grants, call, turn)
}

/// The step that a turn makes with a call, where it makes one.
pub(crate) fn step_of<'a>(
    alloc: Global,
    grants: &Grants,
    call: &Recorded<'a>,
    turn: &'a Turn,
) -> Result<Option<Step<'a>>, Fault>
    ensures takable { IfOk result (λ made. IfSome made IsTakableStep) }
    ensures made { IfOk result (λ made. IfSome made (λ step.
        IsStep (grants_of grants.now) (recorded_of call.now) (turn_of turn.now) (step_of step))) }
    ensures none { IfOk result (λ made. made ≡ None → (s : StepOf)
        → IsStep (grants_of grants.now) (recorded_of call.now) (turn_of turn.now) s → ⊥) }
{
    if turn.call != call.number {
        return Ok(None);
    }
    step_is_takable();
    match step_of_turn(alloc, grants, call, turn) {
        Ok(step) => Ok(Some(step)),
        Err(StepFault::Unfit(_)) => Ok(None),
        Err(StepFault::Memory) => Err(Fault::Memory),
    }
}

/// Where the calls of these steps stand.
pub(crate) fn spans_of(alloc: Global, steps: &[Step]) -> Result<Vec<Span>, AllocError> {
    let ranks = ranks_of(alloc, steps)?;
    let mut spans = Vec::with_capacity(alloc, steps.len())?;
    'steps: for (step, rank) in steps.iter().zip(ranks.iter()) {
        spans.push(Span {
            begin: step.begin,
            end: step.end.unwrap_or(usize::MAX),
            moment: moment_of(step),
            rank: *rank,
        })?;
    }
    Ok(spans)
}
