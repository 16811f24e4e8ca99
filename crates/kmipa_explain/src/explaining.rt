//! The explanation of a no.

ghost use Rattle.std.specs.Prelude.{◌≡◌, ◌<◌, IfErr, IfOk, Some, length, map, option_map, slice_get};
ghost use Rattle.std.specs.String.{string_bytes};
ghost use Rattle.kmipa_record.specs.Declarations.{declaration_of};
ghost use Rattle.kmipa_record.specs.Marks.{AreRecorded, mark_of};
ghost use Rattle.kmipa_record.specs.Transcripts.{transcript_of};
ghost use Rattle.kmipa_record.specs.Witnesses.{witness_of};
ghost use Rattle.kmipa_check.specs.Replays.{AllTakable};
ghost use Rattle.kmipa_check.specs.Steps.{StepOf, step_of};
ghost use Rattle.kmipa_check.specs.Verdicts.{TellsVerdict};
ghost use Rattle.kmipa_explain.specs.Explainable.{IsBegun, IsExplainable};
ghost use Rattle.kmipa_explain.specs.Explanations.{Explains, ExplainsIn, IsClient, operation_at};

use crate::calls::overlapping_calls;
use crate::cause::cause_of;
use crate::explanation::Explanation;
use crate::places::ask_at;
use crate::sources::whence_of;
use crate::story::story_of;
use kmipa_check::{CheckFault, Grants, Refused, Step, Verdict, read_calls, steps_of};
use kmipa_record::{Declaration, Mark, Transcript, Witness};
use std::alloc::{AllocError, Global};

/// What the no means that a check of these files gave. Only want of memory is an error.
pub fn explain(
    alloc: Global,
    transcript: &Transcript,
    declaration: &Declaration,
    witness: &Witness,
    refused: Refused,
) -> Result<Explanation, CheckFault>
    requires recorded { AreRecorded (transcript_of transcript.now) }
    requires refused { TellsVerdict (transcript_of transcript.now) (declaration_of declaration.now)
        (witness_of witness.now) (Verdict.No refused) }
    ensures explains { IfOk result (Explains (transcript_of transcript.now) (declaration_of declaration.now)
        (witness_of witness.now) refused) }
    ensures memory { IfErr result (λ fault. fault ≡ CheckFault.Memory) }
{
    let calls = read_calls(alloc, transcript)?;
    let steps = steps_of(alloc, &Grants::of(declaration), &calls, &witness.turns)?;
    explained(alloc, &transcript.marks, declaration, &steps, refused)
}

/// What a refusal means in the order of these steps.
fn explained(
    alloc: Global,
    marks: &[Mark],
    declaration: &Declaration,
    steps: &[Step],
    refused: Refused,
) -> Result<Explanation, CheckFault>
    requires takable { AllTakable (map step_of steps.now) }
    requires explainable { IsExplainable (map mark_of marks.now) (declaration_of declaration.now)
        (map step_of steps.now) refused }
    ensures explains { IfOk result (ExplainsIn (map mark_of marks.now) (declaration_of declaration.now)
        (map step_of steps.now) refused) }
    ensures memory { IfErr result (λ fault. fault ≡ CheckFault.Memory) }
{
    let turn = refused.turn - 1;
    let step = &steps[turn];
    let client = client_of(alloc, marks, step)?;
    let overlapping = overlapping_calls(alloc, steps, turn)?;
    let story = story_of(alloc, declaration, steps, refused)?;
    let rest = cause_of(alloc, declaration, steps, turn, refused.item, refused.why)?;
    Ok(Explanation {
        client,
        stamp: step.moment(),
        operation: operation_at(step, refused.item),
        overlapping,
        whence: whence_of(alloc, declaration, steps, refused, &rest.subject)?,
        cause: rest.cause,
        story,
    })
}

/// The client that the begin mark of a call names.
fn client_of(alloc: Global, marks: &[Mark], step: &Step) -> Result<String, AllocError>
    requires { IsBegun (map mark_of marks.now) (step_of step.now) }
    ensures { IfOk result (λ client. IsClient (map mark_of marks.now) (step_of step.now) (string_bytes client)) }
{
    match &marks[step.begin] {
        Mark::Begin(begin) => begin.client.clone(),
        Mark::End(_) => Ok(String::new(alloc)),
    }
}

/// The operation that is asked for at an item, by its number.
fn operation_at(step: &Step, item: usize) -> Option<u32>
    ensures { result ≡ operation_at (step_of step.now) item }
{
    match ask_at(step, item) {
        Some(ask) => Some(ask.number()),
        None => None,
    }
}
