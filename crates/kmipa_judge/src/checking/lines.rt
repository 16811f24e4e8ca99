//! The lines of a verdict, and behind them those of what it means, and of what isn't judged.

ghost use Rattle.std.specs.Prelude.{◌≡◌, ◌++◌, IfOk, string_bytes};
ghost use Rattle.kmipa_record.specs.Declarations.{AreDeclared, declaration_of};
ghost use Rattle.kmipa_record.specs.Marks.{AreRecorded};
ghost use Rattle.kmipa_record.specs.Transcripts.{transcript_of};
ghost use Rattle.kmipa_record.specs.Witnesses.{witness_of};
ghost use Rattle.kmipa_judge.specs.Unjudged.{PrintsAlong};
ghost use Rattle.kmipa_judge.specs.Checks.{PrintsBeside, PrintsBehind, PrintsBehindInSight, PrintsNoMeaning, PrintsSighted};

use super::meaning::no_meaning;
use super::reading::ThreeRecords;
use crate::judging::lines_along;
use kmipa_beside::{sighted_lines, verdict_lines};
use kmipa_check::Refused;
use kmipa_runs::Lines;
use kmipa_telling::explanation_lines;
use kmipa_trail::Verdict;
use std::alloc::{AllocError, Global};

/// The lines where what isn't judged is set aside: behind those of a yes what isn't judged, and behind those of a no what it means.
pub(crate) fn meant_lines(
    alloc: Global,
    read: &ThreeRecords,
    verdict: &Verdict,
) -> Result<Lines, AllocError>
    requires recorded { AreRecorded (transcript_of read.now.records.transcript) }
    requires declared { AreDeclared (declaration_of read.now.records.declaration) }
    ensures { IfOk result (λ lines. PrintsBeside (transcript_of read.now.records.transcript)
        (declaration_of read.now.records.declaration) (witness_of read.now.witness) verdict.now lines.status
        (string_bytes lines.text)) }
{
    let front = verdict_lines(alloc, verdict)?;
    let more = lines_behind(alloc, read, verdict)?;
    behind(alloc, front, more)
}

/// What stands behind the lines of a verdict there.
fn lines_behind(alloc: Global, read: &ThreeRecords, verdict: &Verdict) -> Result<String, AllocError>
    requires recorded { AreRecorded (transcript_of read.now.records.transcript) }
    requires declared { AreDeclared (declaration_of read.now.records.declaration) }
    ensures { IfOk result (λ more. PrintsBehind (transcript_of read.now.records.transcript)
        (declaration_of read.now.records.declaration) (witness_of read.now.witness) verdict.now (string_bytes more)) }
{
    match verdict {
        Verdict::Yes(_) => along_lines(alloc, read),
        Verdict::No(refused, stamp) => meaning_lines(alloc, read, *refused, *stamp),
    }
}

/// The lines of what isn't judged along the witness.
fn along_lines(alloc: Global, read: &ThreeRecords) -> Result<String, AllocError>
    requires recorded { AreRecorded (transcript_of read.now.records.transcript) }
    requires declared { AreDeclared (declaration_of read.now.records.declaration) }
    ensures { IfOk result (λ more. PrintsAlong (transcript_of read.now.records.transcript)
        (declaration_of read.now.records.declaration) (witness_of read.now.witness) (string_bytes more)) }
{
    match lines_along(alloc, &read.records, &read.witness) {
        Ok(more) => Ok(more),
        Err(_) => Err(AllocError),
    }
}

/// The lines where it ends the audit: behind those of a no what it means.
pub(crate) fn sighted_meant_lines(
    alloc: Global,
    read: &ThreeRecords,
    verdict: &Verdict,
) -> Result<Lines, AllocError>
    requires recorded { AreRecorded (transcript_of read.now.records.transcript) }
    requires declared { AreDeclared (declaration_of read.now.records.declaration) }
    ensures { IfOk result (λ lines. PrintsSighted (transcript_of read.now.records.transcript)
        (declaration_of read.now.records.declaration) (witness_of read.now.witness) verdict.now lines.status
        (string_bytes lines.text)) }
{
    let front = sighted_lines(alloc, verdict)?;
    let more = lines_in_sight(alloc, read, verdict)?;
    behind(alloc, front, more)
}

/// What stands behind the lines of a verdict there.
fn lines_in_sight(
    alloc: Global,
    read: &ThreeRecords,
    verdict: &Verdict,
) -> Result<String, AllocError>
    requires recorded { AreRecorded (transcript_of read.now.records.transcript) }
    requires declared { AreDeclared (declaration_of read.now.records.declaration) }
    ensures { IfOk result (λ more. PrintsBehindInSight (transcript_of read.now.records.transcript)
        (declaration_of read.now.records.declaration) (witness_of read.now.witness) verdict.now (string_bytes more)) }
{
    match verdict {
        Verdict::Yes(_) => Ok(String::new(alloc)),
        Verdict::No(refused, stamp) => meaning_lines(alloc, read, *refused, *stamp),
    }
}

/// The lines of what a no means.
fn meaning_lines(
    alloc: Global,
    read: &ThreeRecords,
    refused: Refused,
    stamp: Option<i64>,
) -> Result<String, AllocError>
    requires recorded { AreRecorded (transcript_of read.now.records.transcript) }
    requires declared { AreDeclared (declaration_of read.now.records.declaration) }
    ensures { IfOk result (λ more. PrintsNoMeaning (transcript_of read.now.records.transcript)
        (declaration_of read.now.records.declaration) (witness_of read.now.witness) refused (string_bytes more)) }
{
    let meaning = no_meaning(alloc, read, refused, stamp)?;
    explanation_lines(alloc, &meaning)
}

/// More lines behind these.
fn behind(alloc: Global, front: Lines, more: String) -> Result<Lines, AllocError>
    ensures { IfOk result (λ lines. (lines.status ≡ front.status)
        × (string_bytes lines.text ≡ string_bytes front.text ++ string_bytes more)) }
{
    let Lines {
        text: first,
        status,
    } = front;
    let text = format!(in alloc; "{first}{more}")?;
    Ok(Lines { text, status })
}
