//! Whether no order of the calls explains every answer.

ghost use Rattle.std.specs.Prelude.{◌≡◌, ◌≢◌, ◌<◌, ◌≤◌, ◌+◌, ℤ, List, [], Option, IfOk, IsTrue, false, map, true};
ghost use Rattle.kmipa_ops.specs.declared.why.Why.TheVariants.{EarlierCallLate};
ghost use Rattle.kmipa_record.specs.Declarations.{declaration_of};
ghost use Rattle.kmipa_record.specs.Marks.{AreRecorded};
ghost use Rattle.kmipa_record.specs.Transcripts.{transcript_of};
ghost use Rattle.kmipa_record.specs.Witnesses.{TurnOf, turn_of, witness_of};
ghost use Rattle.kmipa_check.specs.Grants.{GrantsNothing, grants_declared};
ghost use Rattle.kmipa_check.specs.Runs.{EndsAhead};
ghost use Rattle.kmipa_turns.specs.Recorded.{recorded_of};
ghost use Rattle.kmipa_turns.specs.Steps.{step_of, taken_of};
ghost use Rattle.kmipa_findings.specs.Findings.{AreFound, IsNo, IsUnexplained, left_out};
ghost use Rattle.kmipa_findings.specs.Forced.{BeginFrom, IsForced, IsForcedAt, IsOneWay};
ghost use Rattle.kmipa_findings.specs.Told.{finding_of};

use crate::finding::Finding;
use kmipa_bundle::is_unordered;
use kmipa_check::{Grants, Refused};
use kmipa_ops::Why;
use kmipa_record::{Declaration, Transcript, Turn, Witness};
use kmipa_trail::{Fault, steps_of};
use kmipa_turns::{Recorded, Step, Taken, recorded_calls};
use std::alloc::Global;

/// Whether no order of the calls explains every answer, where this is a witness with all findings left out: that is told where no order can begin otherwise,
/// up to the first finding.
pub(crate) fn is_decided(
    alloc: Global,
    transcript: &Transcript,
    declaration: &Declaration,
    left: &Witness,
    findings: &[Finding],
) -> Result<bool, Fault>
    ensures { (turns : List TurnOf) → AreRecorded (transcript_of transcript.now)
        → witness_of left.now ≡ left_out turns (map finding_of findings.now)
        → AreFound (transcript_of transcript.now) (declaration_of declaration.now) turns (map finding_of findings.now)
        → IfOk result (λ decided. decided ≡ true
        → IsUnexplained (transcript_of transcript.now) (declaration_of declaration.now)) }
{
    match findings.get(0) {
        Some(finding) => is_unexplained(alloc, transcript, declaration, left, finding.refused),
        None => Ok(false),
    }
}

/// The same, where a check answers this no of a witness.
fn is_unexplained(
    alloc: Global,
    transcript: &Transcript,
    declaration: &Declaration,
    left: &Witness,
    refused: Refused,
) -> Result<bool, Fault>
    ensures { (stamp : Option ℤ) → AreRecorded (transcript_of transcript.now)
        → IsNo (transcript_of transcript.now) (declaration_of declaration.now) (witness_of left.now) refused stamp
        → IfOk result (λ decided. decided ≡ true
        → IsUnexplained (transcript_of transcript.now) (declaration_of declaration.now)) }
{
    if is_late(refused.why) || !grants_nothing(declaration) {
        return Ok(false);
    }
    let grants = Grants::of(declaration);
    let calls = recorded_calls(alloc, transcript)?;
    match steps_of(alloc, &grants, &calls, &left.turns) {
        Ok(steps) => Ok(is_forced(&calls, &left.turns, &steps, refused.turn)),
        Err(Fault::Witness(_)) => Ok(false),
        Err(Fault::Memory) => Err(Fault::Memory),
    }
}

/// Whether a turn is refused since an earlier call comes too late. That is a matter of the order.
fn is_late(why: Why) -> bool
    ensures { result ≡ false → why ≢ EarlierCallLate }
{
    why == Why::EarlierCallLate
}

/// Whether each call is taken at its Time Stamp, and what is born has what its client asked for.
pub(crate) fn grants_nothing(declaration: &Declaration) -> bool
    ensures { IsTrue result → GrantsNothing (grants_declared (declaration_of declaration.now)) }
{
    declaration.settings.tolerance == 0 && declaration.own_attributes.is_empty()
}

/// Whether no order of the calls begins otherwise than with so many of these turns, which make these steps.
fn is_forced(calls: &[Recorded], turns: &[Turn], steps: &[Step], count: usize) -> bool
    ensures { IsTrue result → IsForced (map recorded_of calls.now) (map turn_of turns.now) (map step_of steps.now) count }
{
    if count > calls.len() {
        return false;
    }
    let mut least = usize::MAX;
    let mut place = calls.len();
    'calls: while place > 0 {
        place -= 1;
        if !may_stand(calls, turns, steps, count, place, least) {
            return false;
        }
        let Some(call) = calls.get(place) else {
            return false;
        };
        least = lesser(least, call.begin);
    }
    true
}

/// The lesser of two marks.
fn lesser(one: usize, other: usize) -> usize
    ensures one { result ≤ one }
    ensures other { result ≤ other }
{
    if one < other { one } else { other }
}

/// Whether a place isn't among the first so many, or its turn is forced.
fn may_stand(
    calls: &[Recorded],
    turns: &[Turn],
    steps: &[Step],
    count: usize,
    place: usize,
    least: usize,
) -> bool
    ensures { IsTrue result → place < count → BeginFrom (map recorded_of calls.now) (place + 1) least
        → IsForcedAt (map recorded_of calls.now) (map turn_of turns.now) (map step_of steps.now) place }
{
    place >= count || is_forced_at(calls, turns, steps, place, least)
}

/// Whether the turn at a place takes the call at this place in one way alone, and the calls behind it begin behind its end: none before this mark.
fn is_forced_at(
    calls: &[Recorded],
    turns: &[Turn],
    steps: &[Step],
    place: usize,
    least: usize,
) -> bool
    ensures { IsTrue result → BeginFrom (map recorded_of calls.now) (place + 1) least
        → IsForcedAt (map recorded_of calls.now) (map turn_of turns.now) (map step_of steps.now) place }
{
    let Some(call) = calls.get(place) else {
        return false;
    };
    let Some(turn) = turns.get(place) else {
        return false;
    };
    let Some(step) = steps.get(place) else {
        return false;
    };
    takes_alone(call, turn, step, least)
}

/// Whether a turn sets nothing aside, fills nothing in, and its step takes this call in one way alone, which has ended ahead of this mark.
fn takes_alone(call: &Recorded, turn: &Turn, step: &Step, least: usize) -> bool
    ensures same { IsTrue result → step.now.number ≡ call.now.number }
    ensures one_way { IsTrue result → IsOneWay (taken_of step.now.taken) }
    ensures ahead { IsTrue result → EndsAhead step.now.end least }
    ensures unaside { IsTrue result → turn.now.asides.items ≡ [] }
    ensures unfilled { IsTrue result → turn.now.fills.items ≡ [] }
{
    if step.number != call.number {
        return false;
    }
    if !is_one_way(&step.taken) {
        return false;
    }
    if !ends_ahead(step.end, least) {
        return false;
    }
    if !turn.asides.is_empty() {
        return false;
    }
    turn.fills.is_empty()
}

/// Whether a call is taken in one way alone: it can't be read, or its items are taken by place.
fn is_one_way(taken: &Taken) -> bool
    ensures { IsTrue result → IsOneWay (taken_of taken.now) }
{
    match taken {
        Taken::Leaves(_, _) => true,
        Taken::Takes(call, _) => call.refused || !is_unordered(call),
    }
}

/// Whether a call has ended ahead of this mark.
fn ends_ahead(end: Option<usize>, mark: usize) -> bool
    ensures { IsTrue result → EndsAhead end mark }
{
    match end {
        Some(end) => end < mark,
        None => false,
    }
}
