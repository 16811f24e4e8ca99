//! Whether a search that gave up has decided.

ghost use Rattle.std.specs.Prelude.{◌≡◌, ◌++◌, ◌∷◌, List, [], IfOk, OnOk, map};
ghost use Rattle.kmipa_record.specs.Marks.{AreRecorded};
ghost use Rattle.kmipa_record.specs.Transcripts.{transcript_of};
ghost use Rattle.kmipa_check.specs.Calls.{AreCalls, CallOf, call_of};
ghost use Rattle.kmipa_check.specs.Deciding.{Decided};
ghost use Rattle.kmipa_check.specs.Grants.{grants_of};
ghost use Rattle.kmipa_check.specs.Steps.{StepOf};
ghost use Rattle.kmipa_orders.specs.Plain.{ArePlain};
ghost use Rattle.kmipa_searches.specs.Deciding.{AreUnplain, IsDecidedUnder, IsPlain, TellsDecision};

use crate::judged::Decision;
use kmipa_batch::is_unordered;
use kmipa_check::{CheckFault, Grants, needs_fill, read_calls};
use kmipa_orders::is_forced;
use kmipa_record::{Call, Transcript};
use std::alloc::{AllocError, Global};

/// Whether a search of this transcript, under a declaration that grants this, which gave up after `count` steps of a budget has decided, and if
/// not, why.
pub fn decide(
    alloc: Global,
    transcript: &Transcript,
    grants: Grants,
    budget: u64,
    count: u64,
) -> Result<Decision, CheckFault>
    ensures { AreRecorded (transcript_of transcript.now)
        → TellsDecision (transcript_of transcript.now) (grants_of grants.entry) budget count result }
{
    let calls = read_calls(alloc, transcript)?;
    decide_calls(alloc, transcript, &calls, grants, budget, count)
}

/// The same of the calls of the transcript.
fn decide_calls(
    alloc: Global,
    transcript: &Transcript,
    calls: &[Call],
    grants: Grants,
    budget: u64,
    count: u64,
) -> Result<Decision, CheckFault>
    ensures { AreRecorded (transcript_of transcript.now)
        → AreCalls (transcript_of transcript.now) (map call_of calls.now)
        → TellsDecision (transcript_of transcript.now) (grants_of grants.entry) budget count result }
{
    let numbers = unplain(alloc, calls)?;
    if numbers.as_slice().is_empty() {
        return decide_plain(alloc, transcript, calls, grants, budget, count);
    }
    Ok(Decision::NotPlain(numbers))
}

/// The same of calls that are plain.
fn decide_plain(
    alloc: Global,
    transcript: &Transcript,
    calls: &[Call],
    grants: Grants,
    budget: u64,
    count: u64,
) -> Result<Decision, CheckFault>
    ensures { AreRecorded (transcript_of transcript.now)
        → AreCalls (transcript_of transcript.now) (map call_of calls.now)
        → ((steps : List StepOf) × ArePlain (map call_of calls.now) steps)
        → TellsDecision (transcript_of transcript.now) (grants_of grants.entry) budget count result }
{
    if count < budget {
        return Ok(decided_under(grants));
    }
    if calls.len() as u64 > budget {
        return Ok(Decision::UsedUp(budget));
    }
    if is_forced(alloc, transcript, 0)? {
        Ok(decided_under(grants))
    } else {
        Ok(Decision::UsedUp(budget))
    }
}

/// What is said where each order was tried at the stamps, without births: that is decided where nothing else is granted.
fn decided_under(grants: Grants) -> Decision
    ensures { IsDecidedUnder (grants_of grants.entry) result }
{
    if grants.tolerance != 0 {
        Decision::Tolerant(grants.tolerance)
    } else if grants.own.is_empty() {
        Decision::Decided
    } else {
        Decision::Births
    }
}

/// The numbers of the calls that aren't plain.
fn unplain(alloc: Global, calls: &[Call]) -> Result<Vec<i32>, AllocError>
    ensures { IfOk result (λ numbers. AreUnplain (map call_of calls.now) numbers.items) }
{
    let mut numbers = Vec::new(alloc);
    'calls: for call in calls {
        note_unplain(call, &mut numbers)?;
    }
    Ok(numbers)
}

/// Puts the number of a call that isn't plain behind the others.
fn note_unplain(call: &Call, numbers: &mut Vec<i32>) -> Result<(), AllocError>
    ensures { (before : List CallOf) → AreUnplain before numbers.old.items
        → OnOk result (AreUnplain (before ++ call_of call.now ∷ []) numbers.new.items) }
{
    if is_plain(call) {
        return Ok(());
    }
    Ok(numbers.push(call.number)?)
}

/// Whether a call has ended, its items have their order, and it waits for no payload.
fn is_plain(call: &Call) -> bool
    ensures { Decided result (IsPlain (call_of call.now)) }
{
    let Some(response) = &call.response else {
        return false;
    };
    if call.end.is_none() {
        return false;
    }
    if is_unordered(&call.request) {
        return false;
    }
    !needs_fill(&call.request, response)
}
