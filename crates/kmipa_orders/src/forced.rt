//! Which transcripts are forced.

ghost use Rattle.std.specs.Prelude.{◌≡◌, ◌<◌, ◌+ℤ◌, pos, AllPairs, IfOk, length, map, nat_lt};
ghost use Rattle.kmipa_record.specs.Marks.{AreRecorded};
ghost use Rattle.kmipa_record.specs.Transcripts.{transcript_of};
ghost use Rattle.kmipa_check.specs.Deciding.{Decided};
ghost use Rattle.kmipa_check.specs.Moments.{IsNear};
ghost use Rattle.kmipa_orders.specs.Candidates.{candidate_step};
ghost use Rattle.kmipa_orders.specs.Forced.{TellsForced};
ghost use Rattle.kmipa_orders.specs.Plain.{AreApart};
ghost use Rattle.kmipa_orders.specs.Progress.{AreBegun};
ghost use Rattle.kmipa_orders.specs.Taken.{step_at};
ghost use Rattle.kmipa_orders.specs.Far.{IsFarFromLater};
ghost use Rattle.kmipa_orders.specs.Ranks.{AreClosed, end_of, parts};

use crate::candidate::Candidate;
use crate::plain::candidates;
use crate::ranks::Ranks;
use kmipa_check::{CheckFault, read_calls};
use kmipa_record::Transcript;
use std::alloc::{AllocError, Global};

/// Whether all calls are plain, and of each two the stamps are more than twice the tolerance apart, or one ended before the other began.
/// Then at each step of a search there is one call to try at most, also where it takes calls at moments so near to their stamps.
pub fn is_forced(alloc: Global, transcript: &Transcript, tolerance: i32) -> Result<bool, CheckFault>
    ensures { AreRecorded (transcript_of transcript.now)
        → TellsForced (transcript_of transcript.now) tolerance result }
{
    let calls = read_calls(alloc, transcript)?;
    match candidates(alloc, &calls)? {
        Some(own) => Ok(are_apart(alloc, &own, tolerance)?),
        None => Ok(false),
    }
}

/// Whether each two calls have stamps more than twice a tolerance apart, or one ended before the other began.
fn are_apart(alloc: Global, calls: &[Candidate], tolerance: i32) -> Result<bool, AllocError>
    ensures { AreBegun (map candidate_step calls.now) → AreClosed (map candidate_step calls.now)
        → IfOk result (λ apart. Decided apart (AllPairs (AreApart tolerance) (map candidate_step calls.now))) }
{
    if tolerance == 0 {
        stamps_differ(alloc, calls)
    } else {
        Ok(are_far(calls, tolerance))
    }
}

/// The same without a tolerance: whether each two calls have different stamps, or one ended before the other began.
fn stamps_differ(alloc: Global, calls: &[Candidate]) -> Result<bool, AllocError>
    ensures { AreBegun (map candidate_step calls.now) → AreClosed (map candidate_step calls.now)
        → IfOk result (λ apart. Decided apart (AllPairs (AreApart (pos 0)) (map candidate_step calls.now))) }
{
    let ranks = Ranks::by_stamp(alloc, calls)?;
    let mut rank = 1;
    'ranks: while rank < calls.len() {
        if !is_apart(calls, ranks.place(rank), ranks.place(rank + 1)) {
            return Ok(false);
        }
        rank += 1;
    }
    Ok(true)
}

/// Whether a call has another stamp than one that began after it, or ended before it.
fn is_apart(calls: &[Candidate], first: usize, second: usize) -> bool
    ensures { first < length calls.now → second < length calls.now
        → result
        ≡ parts (step_at (map candidate_step calls.now) first) (step_at (map candidate_step calls.now) second) }
{
    if first >= calls.len() {
        return true;
    }
    if second >= calls.len() {
        return true;
    }
    calls[first].response.stamp < calls[second].response.stamp
        || calls[first].end < calls[second].begin
}

/// The same under any tolerance. Each call is compared with those that began before it ended.
fn are_far(calls: &[Candidate], tolerance: i32) -> bool
    ensures { AreBegun (map candidate_step calls.now) → AreClosed (map candidate_step calls.now)
        → Decided result (AllPairs (AreApart tolerance) (map candidate_step calls.now)) }
{
    let mut first = 0;
    'calls: while first < calls.len() {
        if !is_far(calls, first, tolerance) {
            return false;
        }
        first += 1;
    }
    true
}

/// Whether a call is so far from each that began after it.
fn is_far(calls: &[Candidate], first: usize, tolerance: i32) -> bool
    requires { first < length calls.now }
    ensures { AreBegun (map candidate_step calls.now) → AreClosed (map candidate_step calls.now)
        → Decided result (IsFarFromLater tolerance (map candidate_step calls.now) first) }
{
    let mut second = first + 1;
    'later: while second < calls.len() {
        if ends_before(calls, first, second) {
            return true;
        }
        if are_near(calls, first, second, tolerance) {
            return false;
        }
        second += 1;
    }
    true
}

/// Whether a call ended before one that began after it.
fn ends_before(calls: &[Candidate], first: usize, second: usize) -> bool
    requires first { first < length calls.now }
    requires second { second < length calls.now }
    ensures { result
        ≡ nat_lt (end_of (step_at (map candidate_step calls.now) first)) (step_at (map candidate_step calls.now) second).begin }
{
    calls[first].end < calls[second].begin
}

/// Whether the stamps of two calls are at most twice a tolerance apart.
fn are_near(calls: &[Candidate], first: usize, second: usize, tolerance: i32) -> bool
    requires first { first < length calls.now }
    requires second { second < length calls.now }
    ensures { Decided result
        (IsNear (tolerance +ℤ tolerance) (step_at (map candidate_step calls.now) first).response.stamp
        (step_at (map candidate_step calls.now) second).response.stamp) }
{
    are_within(&calls[first], &calls[second], tolerance)
}

/// The same of the calls themselves.
fn are_within(one: &Candidate, other: &Candidate, tolerance: i32) -> bool
    ensures { Decided result
        (IsNear (tolerance +ℤ tolerance) (candidate_step one.now).response.stamp (candidate_step other.now).response.stamp) }
{
    let reach = tolerance as i128 + tolerance as i128;
    let stamp = one.response.stamp as i128;
    let later = other.response.stamp as i128;
    if later > stamp + reach {
        return false;
    }
    if stamp > later + reach {
        return false;
    }
    true
}
