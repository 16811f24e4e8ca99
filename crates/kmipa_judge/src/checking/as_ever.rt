//! A check by a declaration that sets nothing aside, and by which clients see every object.

ghost use Rattle.std.specs.Prelude.{◌≡◌, IfOk, Ok, Result, string_bytes};
ghost use Rattle.kmipa_ttlv.specs.Input.{came_of};
ghost use Rattle.kmipa_msgs.specs.declared.rules.Unjudged.TheVariants.{Refused};
ghost use Rattle.kmipa_msgs.specs.declared.rules.Visibility.TheVariants.{Everyone};
ghost use Rattle.kmipa_record.specs.Declarations.{AreDeclared, declaration_of};
ghost use Rattle.kmipa_record.specs.Marks.{AreRecorded};
ghost use Rattle.kmipa_record.specs.Transcripts.{transcript_of};
ghost use Rattle.kmipa_runs.specs.Knowing.{Known, KnowsSeals};
ghost use Rattle.kmipa_telling.specs.Explaining.{PrintsExplained};
ghost use Rattle.kmipa_telling.specs.Held.{HoldsAll};
ghost use Rattle.kmipa_telling.specs.Judging.{ReadsInputs};
ghost use Rattle.kmipa_judge.specs.Checks.{AreHeldAs, AreReadAs, ChecksRecords, ExplainsAsEver, ExplainsJsonAsEver, JsonAsEver, TellsCheck, held_as};

use super::reading::ThreeRecords;
use super::said::Said;
use crate::form::CheckForm;
use crate::judging::Records;
use kmipa_check::{AuditFault, AuditRecords, Audited, check};
use kmipa_runs::Lines;
use kmipa_telling::{
    Explained, FaultTold, ReadFiles, audit_head, audited_object, explain_records, explained_head,
    explained_lines, explained_object, fault_told_lines,
};
use std::alloc::{AllocError, Global};

/// What is told of a check of these records.
pub(crate) fn told_as_ever<R>(
    alloc: Global,
    form: CheckForm,
    files: &ReadFiles<R>,
    read: ThreeRecords,
) -> Result<Said, AllocError>
    requires held { AreHeldAs (held_as form) files.now.held.now files.now.transcript.now files.now.declaration.now
        files.now.witness.now }
    requires read { AreReadAs files.now.transcript.now files.now.declaration.now files.now.witness.now read }
    requires aside { read.records.declaration.settings.unjudged ≡ Refused }
    requires seen { read.records.declaration.settings.visibility ≡ Everyone }
    ensures told { IfOk result (λ said. TellsCheck form files.now.transcript.now files.now.declaration.now
        files.now.witness.now said.lines.status (string_bytes said.lines.text)) }
    ensures known { IfOk result
        (λ said. KnowsSeals (came_of files.now.transcript.now) said.lines.status said.head) }
{
    let ThreeRecords { records, witness } = read;
    let Records {
        transcript,
        declaration,
        ..
    } = records;
    let records = AuditRecords {
        transcript,
        declaration,
        witness,
    };
    match form {
        CheckForm::Explained => lines_as_ever(alloc, files, records),
        CheckForm::Json(torn) => json_as_ever(alloc, torn, files, records),
        CheckForm::ExplainedJson(torn) => explained_json_as_ever(alloc, torn, files, records),
    }
}

/// The lines, with what a no or a fault means.
fn lines_as_ever<R>(
    alloc: Global,
    files: &ReadFiles<R>,
    records: AuditRecords,
) -> Result<Said, AllocError>
    requires reads { ReadsInputs files.now.transcript.now files.now.declaration.now files.now.witness.now (Ok records) }
    requires declared { AreDeclared (declaration_of records.declaration) }
    requires known { Known (came_of files.now.transcript.now) records.transcript.head }
    ensures told { IfOk result (λ said. ExplainsAsEver files.now.transcript.now files.now.declaration.now
        files.now.witness.now said.lines.status (string_bytes said.lines.text)) }
    ensures known { IfOk result
        (λ said. KnowsSeals (came_of files.now.transcript.now) said.lines.status said.head) }
{
    let outcome = explain_records(alloc, records);
    Ok(Said {
        lines: outcome_lines(alloc, &outcome)?,
        head: explained_head(outcome),
    })
}

/// The lines of a verdict or of a fault, with what it means.
fn outcome_lines(alloc: Global, outcome: &Result<Explained, FaultTold>) -> Result<Lines, AllocError>
    ensures { IfOk result (λ lines. PrintsExplained outcome.now lines.status (string_bytes lines.text)) }
{
    match outcome {
        Ok(explained) => explained_lines(alloc, explained),
        Err(told) => fault_told_lines(alloc, told),
    }
}

/// The object.
fn json_as_ever<R>(
    alloc: Global,
    torn: Option<u64>,
    files: &ReadFiles<R>,
    records: AuditRecords,
) -> Result<Said, AllocError>
    requires held { HoldsAll files.now.held.now files.now.transcript.now files.now.declaration.now
        files.now.witness.now }
    requires reads { ReadsInputs files.now.transcript.now files.now.declaration.now files.now.witness.now (Ok records) }
    requires declared { AreDeclared (declaration_of records.declaration) }
    requires known { Known (came_of files.now.transcript.now) records.transcript.head }
    ensures told { IfOk result (λ said. JsonAsEver torn files.now.transcript.now files.now.declaration.now
        files.now.witness.now said.lines.status (string_bytes said.lines.text)) }
    ensures known { IfOk result
        (λ said. KnowsSeals (came_of files.now.transcript.now) said.lines.status said.head) }
{
    let outcome = audited(alloc, records);
    Ok(Said {
        lines: audited_object(alloc, torn, files, &outcome)?,
        head: audit_head(outcome),
    })
}

/// What a check of these records comes to.
fn audited(alloc: Global, records: AuditRecords) -> Result<Audited, AuditFault>
    requires { AreDeclared (declaration_of records.declaration) }
    ensures { AreRecorded (transcript_of records.transcript) → ChecksRecords records result }
{
    match check(
        alloc,
        &records.transcript,
        &records.declaration,
        &records.witness,
    ) {
        Ok(verdict) => Ok(Audited {
            verdict,
            transcript: records.transcript,
            declaration: records.declaration,
            witness: records.witness,
        }),
        Err(fault) => Err(AuditFault::Check(fault)),
    }
}

/// The object, with what a no or a fault means.
fn explained_json_as_ever<R>(
    alloc: Global,
    torn: Option<u64>,
    files: &ReadFiles<R>,
    records: AuditRecords,
) -> Result<Said, AllocError>
    requires held { HoldsAll files.now.held.now files.now.transcript.now files.now.declaration.now
        files.now.witness.now }
    requires reads { ReadsInputs files.now.transcript.now files.now.declaration.now files.now.witness.now (Ok records) }
    requires declared { AreDeclared (declaration_of records.declaration) }
    requires known { Known (came_of files.now.transcript.now) records.transcript.head }
    ensures told { IfOk result (λ said. ExplainsJsonAsEver torn files.now.transcript.now files.now.declaration.now
        files.now.witness.now said.lines.status (string_bytes said.lines.text)) }
    ensures known { IfOk result
        (λ said. KnowsSeals (came_of files.now.transcript.now) said.lines.status said.head) }
{
    let outcome = explain_records(alloc, records);
    Ok(Said {
        lines: explained_object(alloc, torn, files, &outcome)?,
        head: explained_head(outcome),
    })
}
