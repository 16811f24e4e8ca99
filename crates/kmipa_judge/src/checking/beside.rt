//! A check by a declaration that sets aside what isn't judged.

ghost use Rattle.std.specs.Prelude.{◌≢◌, IfOk, string_bytes};
ghost use Rattle.kmipa_ttlv.specs.Input.{came_of};
ghost use Rattle.kmipa_msgs.specs.declared.rules.Unjudged.TheVariants.{Refused};
ghost use Rattle.kmipa_record.specs.Declarations.{AreDeclared, declaration_of};
ghost use Rattle.kmipa_record.specs.Marks.{AreRecorded};
ghost use Rattle.kmipa_record.specs.Transcripts.{transcript_of};
ghost use Rattle.kmipa_record.specs.Witnesses.{witness_of};
ghost use Rattle.kmipa_runs.specs.Knowing.{KnowsSeals};
ghost use Rattle.kmipa_judge.specs.Checks.{AreHeldAs, AreReadAs, TellsBesideAs, TellsCheck, held_as};

use super::fault::{fault_beside, fault_said};
use super::lines::meant_lines;
use super::object::meant_object;
use super::reading::ThreeRecords;
use super::said::Said;
use crate::form::CheckForm;
use kmipa_runs::Lines;
use kmipa_telling::ReadFiles;
use kmipa_trail::{Verdict, check};
use std::alloc::{AllocError, Global};

/// What is told of a check of these records.
pub(crate) fn told_beside<R>(
    alloc: Global,
    form: CheckForm,
    files: &ReadFiles<R>,
    read: ThreeRecords,
) -> Result<Said, AllocError>
    requires held { AreHeldAs (held_as form) files.now.held.now files.now.transcript.now files.now.declaration.now
        files.now.witness.now }
    requires read { AreReadAs files.now.transcript.now files.now.declaration.now files.now.witness.now read }
    requires aside { read.records.declaration.settings.unjudged ≢ Refused }
    ensures told { IfOk result (λ said. TellsCheck form files.now.transcript.now files.now.declaration.now
        files.now.witness.now said.lines.status (string_bytes said.lines.text)) }
    ensures known { IfOk result
        (λ said. KnowsSeals (came_of files.now.transcript.now) said.lines.status said.head) }
{
    match check(
        alloc,
        &read.records.transcript,
        &read.records.declaration,
        &read.witness,
    ) {
        Ok(verdict) => Ok(Said {
            lines: verdict_told(alloc, form, files, &read, &verdict)?,
            head: read.records.transcript.head,
        }),
        Err(fault) => {
            let told = fault_beside(alloc, form.is_explained(), &read, fault);
            fault_said(alloc, form.held_as(), files, &told)
        }
    }
}

/// What is told of a verdict on these records.
fn verdict_told<R>(
    alloc: Global,
    form: CheckForm,
    files: &ReadFiles<R>,
    read: &ThreeRecords,
    verdict: &Verdict,
) -> Result<Lines, AllocError>
    requires held { AreHeldAs (held_as form) files.now.held.now files.now.transcript.now files.now.declaration.now
        files.now.witness.now }
    requires recorded { AreRecorded (transcript_of read.now.records.transcript) }
    requires declared { AreDeclared (declaration_of read.now.records.declaration) }
    ensures { IfOk result (λ lines. TellsBesideAs form read.now.records.transcript.head files.now.transcript.now
        files.now.declaration.now files.now.witness.now (transcript_of read.now.records.transcript)
        (declaration_of read.now.records.declaration) (witness_of read.now.witness) verdict.now lines.status
        (string_bytes lines.text)) }
{
    match form {
        CheckForm::Explained => meant_lines(alloc, read, verdict),
        CheckForm::Json(torn) => meant_object(alloc, torn, false, files, read, verdict),
        CheckForm::ExplainedJson(torn) => meant_object(alloc, torn, true, files, read, verdict),
    }
}
