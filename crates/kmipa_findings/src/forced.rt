//! Whether a recording leaves a search no choice, beside what is set aside.

ghost use Rattle.std.specs.Prelude.{◌≡◌, ◌≤◌, ◌<◌, ◌⊎◌, ◌+ℤ◌, ◌<ℤ◌, IfOk, IsTrue, IsSome, length, map, Some, slice_get};
ghost use Rattle.kmipa_record.specs.Declarations.{declaration_of};
ghost use Rattle.kmipa_record.specs.Marks.{AreRecorded};
ghost use Rattle.kmipa_record.specs.Transcripts.{transcript_of};
ghost use Rattle.kmipa_turns.specs.Recorded.{recorded_of};
ghost use Rattle.kmipa_turns.specs.Steps.{step_of, taken_of};
ghost use Rattle.kmipa_check.specs.Runs.{EndsAhead};
ghost use Rattle.kmipa_findings.specs.Choices.{AreAllApart, AreApart, AreFar, AreRising, HasOrder, HaveEnded, HaveOrder, IsApartBehind, IsForcedBeside, IsPlainAnd, IsPlainBeside};

use crate::calls::bare_turns;
use kmipa_bundle::is_unordered;
use kmipa_check::Grants;
use kmipa_record::{Declaration, Settings, Transcript};
use kmipa_trail::{Fault, steps_of};
use kmipa_turns::{Recorded, Step, Taken, recorded_calls};
use std::alloc::Global;

/// Whether each call has ended and is taken in one way alone, and each two of them are apart: one ended before the other began; or both can be read, and their
/// Time Stamps are farther apart than twice the tolerance. It is told only where it is so.
pub fn is_forced_beside(
    alloc: Global,
    transcript: &Transcript,
    declaration: &Declaration,
) -> Result<bool, Fault>
    ensures { AreRecorded (transcript_of transcript.now) → IfOk result (λ forced. IsTrue forced
        → IsForcedBeside (transcript_of transcript.now) (declaration_of declaration.now)) }
{
    is_plain_and(alloc, transcript, declaration, true)
}

/// Whether each call has ended, and is taken in one way alone. It is told only where it is so.
pub(crate) fn is_plain_beside(
    alloc: Global,
    transcript: &Transcript,
    declaration: &Declaration,
) -> Result<bool, Fault>
    ensures { AreRecorded (transcript_of transcript.now) → IfOk result (λ plain. IsTrue plain
        → IsPlainBeside (transcript_of transcript.now) (declaration_of declaration.now)) }
{
    is_plain_and(alloc, transcript, declaration, false)
}

/// The same, and where that is asked, whether each two of the calls are apart.
fn is_plain_and(
    alloc: Global,
    transcript: &Transcript,
    declaration: &Declaration,
    apart: bool,
) -> Result<bool, Fault>
    ensures { AreRecorded (transcript_of transcript.now) → IfOk result (λ told. IsTrue told
        → IsPlainAnd (transcript_of transcript.now) (declaration_of declaration.now) apart) }
{
    let calls = recorded_calls(alloc, transcript)?;
    let turns = bare_turns(alloc, &calls)?;
    if !have_ended(&calls) {
        return Ok(false);
    }
    let grants = Grants::of(declaration);
    match steps_of(alloc, &grants, &calls, &turns) {
        Ok(steps) => Ok(are_ordered(&steps, &declaration.settings, apart)),
        Err(Fault::Witness(_)) => Ok(false),
        Err(Fault::Memory) => Err(Fault::Memory),
    }
}

/// Whether no call is open.
fn have_ended(calls: &[Recorded]) -> bool
    ensures { IsTrue result → HaveEnded (map recorded_of calls.now) }
{
    let mut place = calls.len();
    'calls: while place > 0 {
        place -= 1;
        let Some(call) = calls.get(place) else {
            return false;
        };
        if !has_ended(call) {
            return false;
        }
    }
    true
}

fn has_ended(call: &Recorded) -> bool
    ensures { IsTrue result → IsSome call.now.end }
{
    call.end.is_some()
}

/// Whether these calls have items with an order; and where that is asked, whether each two are apart.
fn are_ordered(steps: &[Step], settings: &Settings, apart: bool) -> bool
    ensures ordered { IsTrue result → HaveOrder (map step_of steps.now) }
    ensures apart { IsTrue result → IsTrue apart → AreAllApart settings.now.tolerance (map step_of steps.now) }
{
    if !have_order(steps) {
        return false;
    }
    if !apart {
        return true;
    }
    if !are_rising(steps) {
        return false;
    }
    are_apart(steps, settings)
}

/// Whether the items of each call have their order.
fn have_order(steps: &[Step]) -> bool
    ensures { IsTrue result → HaveOrder (map step_of steps.now) }
{
    let mut place = steps.len();
    'steps: while place > 0 {
        place -= 1;
        let Some(step) = steps.get(place) else {
            return false;
        };
        if !has_order(&step.taken) {
            return false;
        }
    }
    true
}

fn has_order(taken: &Taken) -> bool
    ensures { IsTrue result → HasOrder (taken_of taken.now) }
{
    match taken {
        Taken::Leaves(_, _) => true,
        Taken::Takes(call, _) => !is_unordered(call),
    }
}

/// Whether these calls stand in the order of their begin marks, as those of a transcript do.
fn are_rising(steps: &[Step]) -> bool
    ensures { IsTrue result → AreRising (map step_of steps.now) }
{
    let mut least = usize::MAX;
    let mut place = steps.len();
    'steps: while place > 0 {
        place -= 1;
        let Some(step) = steps.get(place) else {
            return false;
        };
        if !begins_by(step, least) {
            return false;
        }
        least = step.begin;
    }
    true
}

/// Whether a call begins no later than at this mark.
fn begins_by(step: &Step, mark: usize) -> bool
    ensures { IsTrue result → step.now.begin ≤ mark }
{
    step.begin <= mark
}

/// Whether each two of these calls are apart.
fn are_apart(steps: &[Step], settings: &Settings) -> bool
    requires { AreRising (map step_of steps.now) }
    ensures { IsTrue result → AreAllApart settings.now.tolerance (map step_of steps.now) }
{
    let mut place = steps.len();
    'steps: while place > 0 {
        place -= 1;
        let Some(step) = steps.get(place) else {
            return false;
        };
        if !is_apart_behind(steps, place, step, settings) {
            return false;
        }
    }
    true
}

/// Whether a call is apart from each behind its place.
fn is_apart_behind(steps: &[Step], place: usize, step: &Step, settings: &Settings) -> bool
    requires rising { AreRising (map step_of steps.now) }
    requires within { place < length steps.now }
    ensures { IsTrue result
        → IsApartBehind settings.now.tolerance (map step_of steps.now) place (step_of step.now) }
{
    let mut later = place + 1;
    'steps: while later < steps.len() {
        let Some(other) = steps.get(later) else {
            return false;
        };
        if is_before(step, other) {
            return true;
        }
        if !are_far_by(step, other, settings) {
            return false;
        }
        later += 1;
    }
    true
}

/// Whether one call ended before another began.
pub(crate) fn is_before(step: &Step, other: &Step) -> bool
    ensures { IsTrue result → EndsAhead step.now.end other.now.begin }
{
    match step.end {
        Some(end) => end < other.begin,
        None => false,
    }
}

/// Whether the Time Stamps of two calls are farther apart than twice the tolerance.
fn are_far_by(step: &Step, other: &Step, settings: &Settings) -> bool
    ensures { IsTrue result → AreFar settings.now.tolerance step.now.stamp other.now.stamp }
{
    are_far(step.stamp, other.stamp, settings.tolerance)
}

/// Whether two Time Stamps are farther apart than twice the tolerance; a call that can't be read has none, and that equals all.
fn are_far(one: Option<i64>, other: Option<i64>, tolerance: i32) -> bool
    ensures { IsTrue result → AreFar tolerance one other }
{
    match (one, other) {
        (Some(one), Some(other)) => {
            is_far_ahead(one, other, tolerance) || is_far_ahead(other, one, tolerance)
        }
        _ => false,
    }
}

fn is_far_ahead(one: i64, other: i64, tolerance: i32) -> bool
    ensures { IsTrue result → ((one +ℤ tolerance) +ℤ tolerance) <ℤ other }
{
    let tolerance = tolerance as i128;
    let one = one as i128;
    let other = other as i128;
    one + tolerance + tolerance < other
}
