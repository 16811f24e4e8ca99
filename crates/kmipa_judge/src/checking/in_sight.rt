//! A check by a declaration that sets nothing aside, and by which a server may hide the objects of other clients, or has to.

ghost use Rattle.std.specs.Prelude.{◌≡◌, ◌≢◌, IfOk, string_bytes};
ghost use Rattle.kmipa_ttlv.specs.Input.{came_of};
ghost use Rattle.kmipa_msgs.specs.declared.rules.Unjudged.TheVariants.{Refused};
ghost use Rattle.kmipa_msgs.specs.declared.rules.Visibility.TheVariants.{Everyone};
ghost use Rattle.kmipa_record.specs.Declarations.{AreDeclared, declaration_of};
ghost use Rattle.kmipa_record.specs.Marks.{AreRecorded};
ghost use Rattle.kmipa_record.specs.Transcripts.{transcript_of};
ghost use Rattle.kmipa_record.specs.Witnesses.{witness_of};
ghost use Rattle.kmipa_runs.specs.Knowing.{KnowsSeals};
ghost use Rattle.kmipa_trail.specs.Ending.{ChecksInSight};
ghost use Rattle.kmipa_judge.specs.Checks.{AreHeldAs, AreReadAs, TellsCheck, TellsInSightAs, held_as};

use super::fault::{fault_in_sight, fault_said};
use super::lines::sighted_meant_lines;
use super::object::sighted_object;
use super::reading::ThreeRecords;
use super::said::Said;
use crate::form::CheckForm;
use kmipa_check::{CheckFault, Grants, rules_of_declaration};
use kmipa_record::{Declaration, Transcript, Witness};
use kmipa_runs::Lines;
use kmipa_telling::ReadFiles;
use kmipa_trail::{Terms, Verdict, check_in_sight, open_world, owners_at_first};
use std::alloc::{AllocError, Global};

/// What is told of a check of these records.
pub(crate) fn told_in_sight<R>(
    alloc: Global,
    form: CheckForm,
    files: &ReadFiles<R>,
    read: ThreeRecords,
) -> Result<Said, AllocError>
    requires held { AreHeldAs (held_as form) files.now.held.now files.now.transcript.now files.now.declaration.now
        files.now.witness.now }
    requires read { AreReadAs files.now.transcript.now files.now.declaration.now files.now.witness.now read }
    requires aside { read.records.declaration.settings.unjudged ≡ Refused }
    requires hides { read.records.declaration.settings.visibility ≢ Everyone }
    ensures told { IfOk result (λ said. TellsCheck form files.now.transcript.now files.now.declaration.now
        files.now.witness.now said.lines.status (string_bytes said.lines.text)) }
    ensures known { IfOk result
        (λ said. KnowsSeals (came_of files.now.transcript.now) said.lines.status said.head) }
{
    match check_sighted(
        alloc,
        &read.records.transcript,
        &read.records.declaration,
        &read.witness,
    ) {
        Ok(verdict) => Ok(Said {
            lines: verdict_told(alloc, form, files, &read, &verdict)?,
            head: read.records.transcript.head,
        }),
        Err(fault) => {
            let told = fault_in_sight(alloc, form.is_explained(), &read, fault);
            fault_said(alloc, form.held_as(), files, &told)
        }
    }
}

/// The check of a witness, from a ledger that stands for the worlds that the declaration describes.
fn check_sighted(
    alloc: Global,
    transcript: &Transcript,
    declaration: &Declaration,
    witness: &Witness,
) -> Result<Verdict, CheckFault>
    requires { AreDeclared (declaration_of declaration.now) }
    ensures { AreRecorded (transcript_of transcript.now)
        → ChecksInSight (transcript_of transcript.now) (declaration_of declaration.now) (witness_of witness.now) result }
{
    let grants = Grants::of(declaration);
    let rules = rules_of_declaration(alloc, declaration)?;
    let Ok(mut ledger) = open_world(alloc, declaration) else {
        return Err(CheckFault::Memory);
    };
    let owners = owners_at_first(alloc, rules.visibility, &declaration.entries)?;
    let terms = Terms {
        rules: &rules,
        grants: &grants,
        owners,
    };
    check_in_sight(alloc, &mut ledger, terms, transcript, witness)
}

/// What is told of a verdict on these records.
fn verdict_told<R>(
    alloc: Global,
    form: CheckForm,
    files: &ReadFiles<R>,
    read: &ThreeRecords,
    verdict: &Verdict,
) -> Result<Lines, AllocError>
    requires held { AreHeldAs (held_as form) files.now.held.now files.now.transcript.now files.now.declaration.now
        files.now.witness.now }
    requires recorded { AreRecorded (transcript_of read.now.records.transcript) }
    requires declared { AreDeclared (declaration_of read.now.records.declaration) }
    ensures { IfOk result (λ lines. TellsInSightAs form read.now.records.transcript.head files.now.transcript.now
        files.now.declaration.now files.now.witness.now (transcript_of read.now.records.transcript)
        (declaration_of read.now.records.declaration) (witness_of read.now.witness) verdict.now lines.status
        (string_bytes lines.text)) }
{
    match form {
        CheckForm::Explained => sighted_meant_lines(alloc, read, verdict),
        CheckForm::Json(torn) => sighted_object(alloc, torn, false, files, read, verdict),
        CheckForm::ExplainedJson(torn) => {
            sighted_object(alloc, torn, true, files, read, verdict)
        }
    }
}
