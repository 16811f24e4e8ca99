//! What a fault means, told as lines and as members of a JSON object.

ghost use Rattle.std.specs.Prelude.{IfOk, OnOk, string_bytes};
ghost use Rattle.kmipa_json.specs.Told.{members_of};
ghost use Rattle.kmipa_check.specs.Grants.{grants_of};
ghost use Rattle.kmipa_record.specs.Marks.{AreRecorded};
ghost use Rattle.kmipa_record.specs.Transcripts.{transcript_of};
ghost use Rattle.kmipa_record.specs.Witnesses.{witness_of};
ghost use Rattle.kmipa_telling.specs.FaultsTold.{IsCheckFaultOf, IsCheckToldOf, IsFaultOf, IsFaultToldOf, PrintsFaultMeaning, PrintsFaultTold, TellsFaultMeaning, TellsFaultTold};

use crate::meaning::{FaultMeaning, FaultTold};
use crate::outside_claims::outside_object;
use crate::outside_lines::outside_text;
use crate::telling::tell_fault;
use crate::unfit_claims::unfit_object;
use crate::unfit_lines::unfit_text;
use kmipa_check::{AuditFault, CheckFault, Grants};
use kmipa_jobs::Status;
use kmipa_json::JsonObject;
use kmipa_outside::explain_outside;
use kmipa_record::{Transcript, Witness};
use kmipa_runs::{Lines, fault_lines};
use kmipa_unfit::explain_witness;
use std::alloc::{AllocError, Global};

/// A fault that a check or a search of this transcript gave, and of a message that is outside why it is.
pub fn fault_told(alloc: Global, transcript: &Transcript, fault: CheckFault) -> FaultTold
    requires recorded { AreRecorded (transcript_of transcript.now) }
    requires told { IsFaultOf (transcript_of transcript.now) fault }
    ensures { IsFaultToldOf (transcript_of transcript.now) fault result }
{
    let CheckFault::Outside(number, side, outside) = fault else {
        return FaultTold::bare(AuditFault::Check(fault));
    };
    match explain_outside(alloc, transcript, number, side, outside) {
        Ok(explanation) => FaultTold {
            fault: AuditFault::Check(fault),
            meaning: Some(FaultMeaning::Outside(explanation)),
        },
        Err(fault) => FaultTold::bare(AuditFault::Check(fault)),
    }
}

/// A fault that a check of this transcript and this witness gave, under a declaration that grants this, and what it means.
pub fn check_fault_told(
    alloc: Global,
    grants: &Grants,
    transcript: &Transcript,
    witness: &Witness,
    fault: CheckFault,
) -> FaultTold
    requires recorded { AreRecorded (transcript_of transcript.now) }
    requires told { IsCheckFaultOf (grants_of grants.now) (transcript_of transcript.now) (witness_of witness.now) fault }
    ensures { IsCheckToldOf (grants_of grants.now) (transcript_of transcript.now) (witness_of witness.now) fault result }
{
    let CheckFault::Witness(unfit) = fault else {
        return fault_told(alloc, transcript, fault);
    };
    match explain_witness(alloc, grants, transcript, witness, unfit) {
        Ok(explanation) => FaultTold {
            fault: AuditFault::Check(fault),
            meaning: Some(FaultMeaning::Witness(explanation)),
        },
        Err(fault) => FaultTold::bare(AuditFault::Check(fault)),
    }
}

/// The line of a fault, and behind it those of what it means.
pub fn fault_told_lines(alloc: Global, told: &FaultTold) -> Result<Lines, AllocError>
    ensures { IfOk result (λ lines. PrintsFaultTold told.now lines.status (string_bytes lines.text)) }
{
    let Lines {
        text: front,
        status,
    } = fault_lines(alloc, &told.fault)?;
    let more = meaning_text(alloc, &told.meaning)?;
    let text = format!(in alloc; "{front}{more}")?;
    Ok(Lines { text, status })
}

/// The lines of what a fault means, where that is told.
fn meaning_text(alloc: Global, meaning: &Option<FaultMeaning>) -> Result<String, AllocError>
    ensures { IfOk result (λ text. PrintsFaultMeaning meaning.now (string_bytes text)) }
{
    match meaning {
        Some(FaultMeaning::Outside(outside)) => outside_text(alloc, outside),
        Some(FaultMeaning::Witness(unfit)) => unfit_text(alloc, unfit),
        None => Ok(String::new(alloc)),
    }
}

/// Puts what a fault tells, and what it means, into an object, and answers its status.
pub fn tell_fault_told(
    alloc: Global,
    told: &mut JsonObject,
    fault: &FaultTold,
) -> Result<Status, AllocError>
    ensures { IfOk result (λ status. TellsFaultTold fault.now status (members_of told.old) (members_of told.new)) }
{
    let status = tell_fault(alloc, told, &fault.fault)?;
    tell_fault_meaning(alloc, told, &fault.meaning)?;
    Ok(status)
}

/// Puts what a fault means into an object, where that is told.
fn tell_fault_meaning(
    alloc: Global,
    told: &mut JsonObject,
    meaning: &Option<FaultMeaning>,
) -> Result<(), AllocError>
    ensures { OnOk result (TellsFaultMeaning meaning.now (members_of told.old) (members_of told.new)) }
{
    match meaning {
        Some(FaultMeaning::Outside(outside)) => {
            told.put_object("explanation", outside_object(alloc, outside)?)
        }
        Some(FaultMeaning::Witness(unfit)) => {
            told.put_object("explanation", unfit_object(alloc, unfit)?)
        }
        None => Ok(()),
    }
}
