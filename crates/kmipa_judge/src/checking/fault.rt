//! Faults of a check, and what they mean.

ghost use Rattle.std.specs.Prelude.{◌≡◌, Err, IfOk, IsTrue, None, string_bytes, true};
ghost use Rattle.kmipa_record.specs.Declarations.{AreDeclared, declaration_of};
ghost use Rattle.kmipa_record.specs.Marks.{AreRecorded};
ghost use Rattle.kmipa_record.specs.Transcripts.{transcript_of};
ghost use Rattle.kmipa_record.specs.Witnesses.{witness_of};
ghost use Rattle.kmipa_check.specs.Verdicts as ever;
ghost use Rattle.kmipa_judge.specs.Checks.{AreHeldAs, IsFaultBeside, IsFaultInSight, PrintsFaultAs};

use super::object::fault_object;
use super::reading::ThreeRecords;
use super::said::Said;
use crate::form::JudgeForm;
use kmipa_check::{AuditFault, CheckFault, Grants, WitnessFault, check};
use kmipa_runs::Lines;
use kmipa_telling::{FaultTold, ReadFiles, check_fault_told, fault_told_lines};
use kmipa_trail::Fault;
use std::alloc::{AllocError, Global};

/// What is said of a fault.
pub(crate) fn fault_said<R>(
    alloc: Global,
    form: JudgeForm,
    files: &ReadFiles<R>,
    told: &FaultTold,
) -> Result<Said, AllocError>
    requires { AreHeldAs form files.now.held.now files.now.transcript.now files.now.declaration.now
        files.now.witness.now }
    ensures told { IfOk result (λ said. PrintsFaultAs form files.now.transcript.now files.now.declaration.now
        files.now.witness.now told.now said.lines.status (string_bytes said.lines.text)) }
    ensures head { IfOk result (λ said. said.head ≡ None) }
{
    let lines = fault_in_form(alloc, form, files, told)?;
    Ok(Said { lines, head: None })
}

/// The lines of a fault, or its object.
fn fault_in_form<R>(
    alloc: Global,
    form: JudgeForm,
    files: &ReadFiles<R>,
    told: &FaultTold,
) -> Result<Lines, AllocError>
    requires { AreHeldAs form files.now.held.now files.now.transcript.now files.now.declaration.now
        files.now.witness.now }
    ensures { IfOk result (λ lines. PrintsFaultAs form files.now.transcript.now files.now.declaration.now
        files.now.witness.now told.now lines.status (string_bytes lines.text)) }
{
    match form {
        JudgeForm::Lines => fault_told_lines(alloc, told),
        JudgeForm::Object(torn) => fault_object(alloc, torn, files, told),
    }
}

/// The fault of a check where what isn't judged is set aside. What it means is told where a check that sets nothing aside tells the same of the witness.
pub(crate) fn fault_beside(
    alloc: Global,
    explained: bool,
    read: &ThreeRecords,
    fault: Fault,
) -> FaultTold
    requires recorded { AreRecorded (transcript_of read.now.records.transcript) }
    requires declared { AreDeclared (declaration_of read.now.records.declaration) }
    ensures { IsFaultBeside explained (transcript_of read.now.records.transcript)
        (declaration_of read.now.records.declaration) (witness_of read.now.witness) fault result }
{
    match fault {
        Fault::Witness(fault) if explained => unfit_told(alloc, read, fault),
        Fault::Witness(fault) => FaultTold::bare(AuditFault::Check(CheckFault::Witness(fault))),
        Fault::Memory => FaultTold::bare(AuditFault::Check(CheckFault::Memory)),
    }
}

fn unfit_told(alloc: Global, read: &ThreeRecords, fault: WitnessFault) -> FaultTold
    requires recorded { AreRecorded (transcript_of read.now.records.transcript) }
    requires declared { AreDeclared (declaration_of read.now.records.declaration) }
    ensures { IsFaultBeside true (transcript_of read.now.records.transcript)
        (declaration_of read.now.records.declaration) (witness_of read.now.witness) (Fault.Witness fault) result }
{
    match check(
        alloc,
        &read.records.transcript,
        &read.records.declaration,
        &read.witness,
    ) {
        Err(CheckFault::Witness(same)) if is_same(same, fault) => check_fault_told(
            alloc,
            &Grants::of(&read.records.declaration),
            &read.records.transcript,
            &read.witness,
            CheckFault::Witness(same),
        ),
        _ => FaultTold::bare(AuditFault::Check(CheckFault::Witness(fault))),
    }
}

/// Whether two faults are the same.
fn is_same(one: WitnessFault, other: WitnessFault) -> bool
    ensures { IsTrue result → one ≡ other }
{
    one == other
}

/// The fault of a check where what isn't judged ends the audit, and what it means.
pub(crate) fn fault_in_sight(
    alloc: Global,
    explained: bool,
    read: &ThreeRecords,
    fault: CheckFault,
) -> FaultTold
    requires recorded { AreRecorded (transcript_of read.now.records.transcript) }
    requires told { ever.Checks (transcript_of read.now.records.transcript) (declaration_of read.now.records.declaration)
        (witness_of read.now.witness) (Err fault) }
    ensures { IsFaultInSight explained (transcript_of read.now.records.transcript)
        (declaration_of read.now.records.declaration) (witness_of read.now.witness) fault result }
{
    if explained {
        check_fault_told(
            alloc,
            &Grants::of(&read.records.declaration),
            &read.records.transcript,
            &read.witness,
            fault,
        )
    } else {
        FaultTold::bare(AuditFault::Check(fault))
    }
}
