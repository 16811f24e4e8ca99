//! Items are counted.

ghost use Rattle.std.specs.Prelude.{◌≡◌, ◌≢◌, ◌↔◌, ◌≤◌, ◌∷◌, ◌++◌, List, [], IfOk, IsTrue, cond, length, map};
ghost use Rattle.std.specs.List.{count_by, zip};
ghost use Rattle.kmipa_msgs.specs.Messages.{answer_of, ask_of, asked_of, operation_asked};
ghost use Rattle.kmipa_msgs.specs.Operations.{is_judged};
ghost use Rattle.kmipa_msgs.specs.declared.rules.Unjudged.{Unjudged};
ghost use Rattle.kmipa_batch.specs.Calls.{pairs_of};
ghost use Rattle.kmipa_record.specs.Declarations.{declaration_of};
ghost use Rattle.kmipa_record.specs.Marks.{AreRecorded, MarkOf};
ghost use Rattle.kmipa_record.specs.Transcripts.{transcript_of};
ghost use Rattle.kmipa_record.specs.Witnesses.{turn_of};
ghost use Rattle.kmipa_check.specs.Calls.{AreCalls, call_of};
ghost use Rattle.kmipa_check.specs.Steps.{StepOf, step_of};
ghost use Rattle.kmipa_stream.specs.Counting.{TalliesSo, asks_judged, tally_of};
ghost use Rattle.kmipa_stream.specs.Replaying.{counts_under, tally_under};

use crate::counts::Counts;
use crate::tally::Tally;
use kmipa_check::{Grants, Step, read_calls, steps_of};
use kmipa_msgs::{Answer, Ask, Operation, Unjudged};
use kmipa_record::{Call, Declaration, Transcript, Turn};
use std::alloc::{AllocError, Global};

/// What becomes of the items of the order that these turns make of these calls, where the declaration sets aside; `None` where what isn't
/// judged ends the audit. An error where memory runs out, or where the turns make no order.
pub fn tally_of_turns(
    alloc: Global,
    declaration: &Declaration,
    calls: &[Call],
    turns: &[Turn],
) -> Result<Option<Tally>, AllocError>
    ensures { (marks : List MarkOf) → AreRecorded marks → AreCalls marks (map call_of calls.now)
        → IfOk result (TalliesSo marks (declaration_of declaration.now) (map turn_of turns.now)) }
{
    if !sets_aside(declaration.settings.unjudged) {
        return Ok(None);
    }
    match steps_of(alloc, &Grants::of(declaration), calls, turns) {
        Ok(steps) => Ok(Some(tally_of_steps(&steps))),
        Err(_) => Err(AllocError),
    }
}

/// The same of the calls of a transcript.
pub fn tally_of_records(
    alloc: Global,
    transcript: &Transcript,
    declaration: &Declaration,
    turns: &[Turn],
) -> Result<Option<Tally>, AllocError>
    ensures { AreRecorded (transcript_of transcript.now)
        → IfOk result (TalliesSo (transcript_of transcript.now) (declaration_of declaration.now) (map turn_of turns.now)) }
{
    if !sets_aside(declaration.settings.unjudged) {
        return Ok(None);
    }
    match read_calls(alloc, transcript) {
        Ok(calls) => tally_of_turns(alloc, declaration, &calls, turns),
        Err(_) => Err(AllocError),
    }
}

/// What becomes of the items of these steps.
fn tally_of_steps(steps: &[Step]) -> Tally
    ensures { result ≡ tally_of (map step_of steps.now) }
{
    let mut tally = no_items();
    for step in steps {
        tally = tallied_with(tally, step);
    }
    tally
}

/// What is counted before the first step, where this becomes of what isn't judged.
pub(crate) fn none_counted(unjudged: Unjudged) -> Counts
    ensures { result ≡ counts_under unjudged [] }
{
    Counts {
        items: 0,
        tally: none_reported(unjudged),
    }
}

/// What is told before the first step.
fn none_reported(unjudged: Unjudged) -> Option<Tally>
    ensures { result ≡ tally_under unjudged [] }
{
    match unjudged {
        Unjudged::Refused => None,
        Unjudged::SetAside => Some(no_items()),
        Unjudged::Unknown => Some(no_items()),
    }
}

/// Whether what isn't judged is set aside.
fn sets_aside(unjudged: Unjudged) -> bool
    ensures { IsTrue result ↔ (unjudged ≢ Unjudged.Refused) }
{
    match unjudged {
        Unjudged::Refused => false,
        Unjudged::SetAside | Unjudged::Unknown => true,
    }
}

/// What is counted of a step more.
pub(crate) fn counted_with(counts: Counts, step: &Step) -> Counts
    ensures { (unjudged : Unjudged) (steps : List StepOf) → counts ≡ counts_under unjudged steps
        → result ≡ counts_under unjudged (steps ++ step_of step.now ∷ []) }
{
    Counts {
        items: counts.items.saturating_add(answered_items(step) as u64),
        tally: reported_with(counts.tally, step),
    }
}

/// What is told of a step more.
fn reported_with(tally: Option<Tally>, step: &Step) -> Option<Tally>
    ensures { (unjudged : Unjudged) (steps : List StepOf) → tally ≡ tally_under unjudged steps
        → result ≡ tally_under unjudged (steps ++ step_of step.now ∷ []) }
{
    match tally {
        None => None,
        Some(tally) => Some(tallied_with(tally, step)),
    }
}

/// What becomes of no items.
fn no_items() -> Tally
    ensures { result ≡ tally_of [] }
{
    Tally {
        judged: 0,
        by_request: 0,
    }
}

/// What becomes of the items of a step more.
fn tallied_with(tally: Tally, step: &Step) -> Tally
    ensures { (steps : List StepOf) → tally ≡ tally_of steps → result ≡ tally_of (steps ++ step_of step.now ∷ []) }
{
    let judged = judged_items(step);
    let others = answered_items(step) - judged;
    Tally {
        judged: tally.judged.saturating_add(judged as u64),
        by_request: tally.by_request.saturating_add(others as u64),
    }
}

/// How many items of a step have an answer: the places that have a Batch Item in the request and in the response.
fn answered_items(step: &Step) -> usize
    ensures { result ≡ length (pairs_of (step_of step.now).request (step_of step.now).response) }
{
    let asked = step.request().items.len();
    let answered = step.response.response().items.len();
    asked.min(answered)
}

/// How many of them ask for a judged operation.
fn judged_items(step: &Step) -> usize
    ensures { result ≡ count_by asks_judged (pairs_of (step_of step.now).request (step_of step.now).response) }
{
    count_judged(&step.request().items, &step.response.response().items)
}

/// How many of these items that have an answer ask for a judged operation.
fn count_judged(asks: &[Ask], answers: &[Answer]) -> usize
    ensures { result ≡ count_by asks_judged (zip (map ask_of asks.now) (map answer_of answers.now)) }
{
    let asked = asks.len();
    let given = answers.len();
    let answered = asked.min(given);
    let mut judged = 0;
    let mut place = 0;
    'items: while place < answered {
        let ask = &asks[place];
        judged += counted_once(ask);
        place += 1;
    }
    judged
}

/// What an item counts: one where it asks for a judged operation, and else nothing.
fn counted_once(ask: &Ask) -> usize
    ensures counts { result ≡ cond (is_judged (operation_asked (asked_of ask.now.asked))) 1 0 }
    ensures few { result ≤ 1 }
{
    if is_judged(ask) { 1 } else { 0 }
}

/// Whether an item asks for a judged operation.
fn is_judged(ask: &Ask) -> bool
    ensures { result ≡ is_judged (operation_asked (asked_of ask.now.asked)) }
{
    match ask.operation() {
        Operation::Create
        | Operation::Register
        | Operation::Locate
        | Operation::Get
        | Operation::GetAttributes
        | Operation::Activate
        | Operation::Revoke
        | Operation::Destroy => true,
        Operation::Idle(_) | Operation::Other(_) => false,
    }
}
