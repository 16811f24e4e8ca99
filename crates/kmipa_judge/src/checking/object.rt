//! The object of a check.

ghost use Rattle.std.specs.Prelude.{◌≡◌, IfOk, None, OnOk, string_bytes};
ghost use Rattle.kmipa_json.specs.Told.{members_of};
ghost use Rattle.kmipa_record.specs.Declarations.{AreDeclared, declaration_of};
ghost use Rattle.kmipa_record.specs.Marks.{AreRecorded};
ghost use Rattle.kmipa_record.specs.Transcripts.{transcript_of};
ghost use Rattle.kmipa_record.specs.Witnesses.{witness_of};
ghost use Rattle.kmipa_telling.specs.FaultsTold.{TellsFaultTold};
ghost use Rattle.kmipa_telling.specs.Held.{HoldsAll};
ghost use Rattle.kmipa_beside.specs.Lines.{yes_status};
ghost use Rattle.kmipa_trail.specs.Told.{tally_of};
ghost use Rattle.kmipa_judge.specs.Checks.{IsInObject, TellsBeside, TellsNo, TellsNoMeaning, TellsSighted, TellsYes, yes_members};

use super::meaning::no_meaning;
use super::reading::ThreeRecords;
use crate::found_object::{tally_object, told_count};
use crate::judging::tell_along;
use kmipa_check::Refused;
use kmipa_jobs::Status;
use kmipa_json::JsonObject;
use kmipa_runs::Lines;
use kmipa_telling::{
    FaultTold, ReadFiles, open_files, tell_date, tell_fault_told, tell_meaning, tell_refused,
};
use kmipa_trail::{Tally, Verdict};
use std::alloc::{AllocError, Global};

/// The object of a fault.
pub(crate) fn fault_object<R>(
    alloc: Global,
    torn: Option<u64>,
    files: &ReadFiles<R>,
    fault: &FaultTold,
) -> Result<Lines, AllocError>
    requires { HoldsAll files.now.held.now files.now.transcript.now files.now.declaration.now
        files.now.witness.now }
    ensures { IfOk result (λ lines. IsInObject torn None files.now.transcript.now files.now.declaration.now
        files.now.witness.now (TellsFaultTold fault.now lines.status) (string_bytes lines.text)) }
{
    let mut told = open_files(alloc, torn, files, &None)?;
    let status = tell_fault_told(alloc, &mut told, fault)?;
    let text = told.into_line()?;
    Ok(Lines { text, status })
}

/// The object of a verdict where what isn't judged is set aside.
pub(crate) fn meant_object<R>(
    alloc: Global,
    torn: Option<u64>,
    explained: bool,
    files: &ReadFiles<R>,
    read: &ThreeRecords,
    verdict: &Verdict,
) -> Result<Lines, AllocError>
    requires held { HoldsAll files.now.held.now files.now.transcript.now files.now.declaration.now
        files.now.witness.now }
    requires recorded { AreRecorded (transcript_of read.now.records.transcript) }
    requires declared { AreDeclared (declaration_of read.now.records.declaration) }
    ensures { IfOk result (λ lines. IsInObject torn read.now.records.transcript.head files.now.transcript.now
        files.now.declaration.now files.now.witness.now
        (TellsBeside explained (transcript_of read.now.records.transcript)
        (declaration_of read.now.records.declaration) (witness_of read.now.witness) verdict.now lines.status)
        (string_bytes lines.text)) }
{
    let mut told = open_files(alloc, torn, files, &read.records.transcript.head)?;
    let status = tell_beside(alloc, explained, &mut told, read, verdict)?;
    let text = told.into_line()?;
    Ok(Lines { text, status })
}

/// Puts what is told of a verdict there into an object, and answers its status.
fn tell_beside(
    alloc: Global,
    explained: bool,
    told: &mut JsonObject,
    read: &ThreeRecords,
    verdict: &Verdict,
) -> Result<Status, AllocError>
    requires recorded { AreRecorded (transcript_of read.now.records.transcript) }
    requires declared { AreDeclared (declaration_of read.now.records.declaration) }
    ensures { IfOk result (λ status. TellsBeside explained (transcript_of read.now.records.transcript)
        (declaration_of read.now.records.declaration) (witness_of read.now.witness) verdict.now status
        (members_of told.old) (members_of told.new)) }
{
    match verdict {
        Verdict::Yes(tally) => tell_yes(alloc, told, read, tally),
        Verdict::No(refused, stamp) => { tell_no(alloc, explained, told, read, *refused, *stamp) }
    }
}

/// A yes, with how many items are judged, and what isn't.
fn tell_yes(
    alloc: Global,
    told: &mut JsonObject,
    read: &ThreeRecords,
    tally: &Tally,
) -> Result<Status, AllocError>
    requires recorded { AreRecorded (transcript_of read.now.records.transcript) }
    requires declared { AreDeclared (declaration_of read.now.records.declaration) }
    ensures { IfOk result (λ status. TellsYes (transcript_of read.now.records.transcript)
        (declaration_of read.now.records.declaration) (witness_of read.now.witness) (tally_of tally.now) status
        (members_of told.old) (members_of told.new)) }
{
    let status = tell_word(told, tally)?;
    told.put_object("tally", tally_object(alloc, tally)?)?;
    match tell_along(alloc, told, &read.records, &read.witness) {
        Ok(()) => Ok(status),
        Err(_) => Err(AllocError),
    }
}

/// The word of a yes; or of one but for so many items that the witness alone sets aside.
fn tell_word(told: &mut JsonObject, tally: &Tally) -> Result<Status, AllocError>
    ensures status { IfOk result (λ status. status ≡ yes_status (tally_of tally.now)) }
    ensures told { OnOk result (members_of told.new ≡ yes_members (tally_of tally.now).excepted (members_of told.old)) }
{
    if tally.excepted == 0 {
        told.put_text("verdict", "yes")?;
        return Ok(Status::Done);
    }
    told.put_text("verdict", "yes but for")?;
    told.put_count("but_for", told_count(tally.excepted)?)?;
    Ok(Status::No)
}

/// A no, with what it means where that is asked for.
fn tell_no(
    alloc: Global,
    explained: bool,
    told: &mut JsonObject,
    read: &ThreeRecords,
    refused: Refused,
    stamp: Option<i64>,
) -> Result<Status, AllocError>
    requires recorded { AreRecorded (transcript_of read.now.records.transcript) }
    requires declared { AreDeclared (declaration_of read.now.records.declaration) }
    ensures { IfOk result (λ status. TellsNo explained (transcript_of read.now.records.transcript)
        (declaration_of read.now.records.declaration) (witness_of read.now.witness) refused stamp status
        (members_of told.old) (members_of told.new)) }
{
    tell_refused(alloc, told, &refused)?;
    tell_date(alloc, told, stamp)?;
    tell_why(alloc, explained, told, read, refused, stamp)?;
    Ok(Status::No)
}

/// What a no means, where that is asked for.
fn tell_why(
    alloc: Global,
    explained: bool,
    told: &mut JsonObject,
    read: &ThreeRecords,
    refused: Refused,
    stamp: Option<i64>,
) -> Result<(), AllocError>
    requires recorded { AreRecorded (transcript_of read.now.records.transcript) }
    requires declared { AreDeclared (declaration_of read.now.records.declaration) }
    ensures { OnOk result (TellsNoMeaning explained (transcript_of read.now.records.transcript)
        (declaration_of read.now.records.declaration) (witness_of read.now.witness) refused (members_of told.old)
        (members_of told.new)) }
{
    if explained {
        let meaning = no_meaning(alloc, read, refused, stamp)?;
        tell_meaning(alloc, told, &meaning)
    } else {
        Ok(())
    }
}

/// The object of a verdict where it ends the audit.
pub(crate) fn sighted_object<R>(
    alloc: Global,
    torn: Option<u64>,
    explained: bool,
    files: &ReadFiles<R>,
    read: &ThreeRecords,
    verdict: &Verdict,
) -> Result<Lines, AllocError>
    requires held { HoldsAll files.now.held.now files.now.transcript.now files.now.declaration.now
        files.now.witness.now }
    requires recorded { AreRecorded (transcript_of read.now.records.transcript) }
    requires declared { AreDeclared (declaration_of read.now.records.declaration) }
    ensures { IfOk result (λ lines. IsInObject torn read.now.records.transcript.head files.now.transcript.now
        files.now.declaration.now files.now.witness.now
        (TellsSighted explained (transcript_of read.now.records.transcript)
        (declaration_of read.now.records.declaration) (witness_of read.now.witness) verdict.now lines.status)
        (string_bytes lines.text)) }
{
    let mut told = open_files(alloc, torn, files, &read.records.transcript.head)?;
    let status = tell_sighted(alloc, explained, &mut told, read, verdict)?;
    let text = told.into_line()?;
    Ok(Lines { text, status })
}

/// Puts what is told of a verdict there into an object, and answers its status.
fn tell_sighted(
    alloc: Global,
    explained: bool,
    told: &mut JsonObject,
    read: &ThreeRecords,
    verdict: &Verdict,
) -> Result<Status, AllocError>
    requires recorded { AreRecorded (transcript_of read.now.records.transcript) }
    requires declared { AreDeclared (declaration_of read.now.records.declaration) }
    ensures { IfOk result (λ status. TellsSighted explained (transcript_of read.now.records.transcript)
        (declaration_of read.now.records.declaration) (witness_of read.now.witness) verdict.now status
        (members_of told.old) (members_of told.new)) }
{
    match verdict {
        Verdict::Yes(_) => {
            told.put_text("verdict", "yes")?;
            Ok(Status::Done)
        }
        Verdict::No(refused, stamp) => { tell_no(alloc, explained, told, read, *refused, *stamp) }
    }
}
