//! The explanation of a witness's fault.

ghost use Rattle.std.specs.Prelude.{◌≡◌, IfErr, IfOk, List, MatchOption, map};
ghost use Rattle.std.specs.String.{string_bytes};
ghost use Rattle.kmipa_record.specs.Marks.{AreRecorded, mark_of};
ghost use Rattle.kmipa_record.specs.Transcripts.{transcript_of};
ghost use Rattle.kmipa_record.specs.Witnesses.{TurnOf, turn_of, witness_of};
ghost use Rattle.kmipa_check.specs.Calls.{AreCalls, call_of};
ghost use Rattle.kmipa_check.specs.Grants.{grants_of};
ghost use Rattle.kmipa_check.specs.Orders.{HasCall};
ghost use Rattle.kmipa_unfit.specs.Explanations.{ExplainsFault, ExplainsUnnamed, ExplainsWitness, IsClientOf, HasFault};
ghost use Rattle.kmipa_unfit.specs.Finding.{IsBegun, IsFound, IsTurnFault, LeavesOut};

use crate::explanation::{Unfit, WitnessExplanation};
use crate::turns::{named_unfit, operations_of};
use kmipa_check::{CheckFault, Grants, WitnessFault, WitnessKind, read_calls};
use kmipa_record::{Call, Mark, Transcript, Turn, Witness};
use std::alloc::{AllocError, Global};

/// What the fault of the witness means that a check of these files gave, where the declaration grants this. Only want of memory is an
/// error.
pub fn explain_witness(
    alloc: Global,
    grants: &Grants,
    transcript: &Transcript,
    witness: &Witness,
    fault: WitnessFault,
) -> Result<WitnessExplanation, CheckFault>
    requires recorded { AreRecorded (transcript_of transcript.now) }
    requires fault { HasFault (grants_of grants.now) (transcript_of transcript.now) (witness_of witness.now) fault.at fault.kind }
    ensures explains { IfOk result (ExplainsWitness (grants_of grants.now) (transcript_of transcript.now)
        (witness_of witness.now) fault.at fault.kind) }
    ensures memory { IfErr result (λ fault. fault ≡ CheckFault.Memory) }
{
    let calls = read_calls(alloc, transcript)?;
    match fault.kind {
        WitnessKind::LeftOut => match i32::try_from(fault.at) {
            Ok(number) => unnamed_told(alloc, &transcript.marks, &calls, number),
            Err(_) => Err(CheckFault::Witness(fault)),
        },
        _ => turn_told(
            alloc,
            grants,
            &transcript.marks,
            &calls,
            &witness.turns,
            fault,
        ),
    }
}

/// What is told of a call that has ended, and that no turn names.
fn unnamed_told(
    alloc: Global,
    marks: &[Mark],
    calls: &[Call],
    number: i32,
) -> Result<WitnessExplanation, CheckFault>
    requires recorded { AreRecorded (map mark_of marks.now) }
    requires calls { AreCalls (map mark_of marks.now) (map call_of calls.now) }
    requires has { HasCall (map call_of calls.now) number }
    ensures explains { (turns : List TurnOf) → LeavesOut (map call_of calls.now) turns number
        → IfOk result (ExplainsUnnamed (map mark_of marks.now) (map call_of calls.now) turns number) }
    ensures memory { IfErr result (λ fault. fault ≡ CheckFault.Memory) }
{
    let Some(call) = call_numbered(calls, number) else {
        return Err(CheckFault::Memory);
    };
    Ok(WitnessExplanation {
        turn: None,
        call: number,
        client: Some(client_of(alloc, marks, call)?),
        unfit: Unfit::LeftOut(operations_of(alloc, &call.request)?),
    })
}

/// What is told of a turn that has this fault.
fn turn_told(
    alloc: Global,
    grants: &Grants,
    marks: &[Mark],
    calls: &[Call],
    turns: &[Turn],
    fault: WitnessFault,
) -> Result<WitnessExplanation, CheckFault>
    requires recorded { AreRecorded (map mark_of marks.now) }
    requires calls { AreCalls (map mark_of marks.now) (map call_of calls.now) }
    requires fault { IsTurnFault (grants_of grants.now) (map call_of calls.now) (map turn_of turns.now) fault.at fault.kind }
    ensures explains { IfOk result (ExplainsFault (grants_of grants.now) (map mark_of marks.now)
        (map call_of calls.now) (map turn_of turns.now) fault.at fault.kind) }
    ensures memory { IfErr result (λ fault. fault ≡ CheckFault.Memory) }
{
    let place = fault.at - 1;
    let turn = &turns[place];
    let Some(call) = call_numbered(calls, turn.call) else {
        return Ok(WitnessExplanation {
            turn: Some(fault.at),
            call: turn.call,
            client: None,
            unfit: Unfit::Unknown(calls.len()),
        });
    };
    let unfit = named_unfit(alloc, grants, call, turns, place, fault.kind)?;
    Ok(WitnessExplanation {
        turn: Some(fault.at),
        call: turn.call,
        client: Some(client_of(alloc, marks, call)?),
        unfit,
    })
}

/// The call of this number.
fn call_numbered<'b, 'a>(calls: &'b [Call<'a>], number: i32) -> Option<&'b Call<'a>>
    ensures { MatchOption result (HasCall (map call_of calls.now) number → ⊥)
        (λ call. IsFound (map call_of calls.now) number (call_of call.now)) }
{
    let mut place = 0;
    'calls: while place < calls.len() {
        let call = &calls[place];
        if call.number == number {
            return Some(call);
        }
        place += 1;
    }
    None
}

/// The client that the begin mark of a call names.
fn client_of(alloc: Global, marks: &[Mark], call: &Call) -> Result<String, AllocError>
    requires { IsBegun (map mark_of marks.now) (call_of call.now) }
    ensures { IfOk result (λ client. IsClientOf (map mark_of marks.now) call.now.number (string_bytes client)) }
{
    match &marks[call.begin] {
        Mark::Begin(begin) => begin.client.clone(),
        Mark::End(_) => Ok(String::new(alloc)),
    }
}
