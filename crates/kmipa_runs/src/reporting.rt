//! The report of a verdict, printed whole or not at all.

ghost use Rattle.std.specs.Prelude.{◌≡◌, ◌⊎◌, IsOkAnd, string_bytes};
ghost use Rattle.std.specs.Io.{StartsWith, appended_bytes};
ghost use Rattle.kmipa_record.specs.Declarations.{declaration_of};
ghost use Rattle.kmipa_record.specs.Transcripts.{transcript_of};
ghost use Rattle.kmipa_record.specs.Witnesses.{witness_of};
ghost use Rattle.kmipa_jobs.specs.Statuses.{IsSilent};
ghost use Rattle.kmipa_runs.specs.Lines.{PrintsStamped, PrintsVerdict};

use crate::lines::{Lines, stamped_lines, verdict_lines};
use kmipa_check::Verdict;
use kmipa_jobs::Status;
use kmipa_record::{Declaration, Transcript, Witness};
use kmipa_stream::Judged;
use std::alloc::{AllocError, Global};

/// Appends the lines of a verdict on this transcript and this witness, by this declaration, and answers their status. Where memory runs out nothing is
/// appended, and the status is `Failed`.
pub fn report(
    alloc: Global,
    verdict: &Verdict,
    transcript: &Transcript,
    declaration: &Declaration,
    witness: &Witness,
    out: &mut Vec<u8>,
) -> Status
    ensures prints { PrintsVerdict (transcript_of transcript.now) (declaration_of declaration.now)
        (witness_of witness.now) verdict.now result (appended_bytes out.old.items out.new.items)
        ⊎ IsSilent result (appended_bytes out.old.items out.new.items) }
    ensures appends { StartsWith out.new.items out.old.items }
{
    append(
        verdict_lines(alloc, verdict, transcript, declaration, witness),
        out,
    )
}

/// The same of a verdict that comes with the moment at which the call was answered that it refuses, or with what became of the items.
pub fn report_judged(alloc: Global, judged: &Judged, out: &mut Vec<u8>) -> Status
    ensures prints { PrintsStamped judged.now.verdict judged.now.stamp judged.now.tally result
        (appended_bytes out.old.items out.new.items)
        ⊎ IsSilent result (appended_bytes out.old.items out.new.items) }
    ensures appends { StartsWith out.new.items out.old.items }
{
    append(
        stamped_lines(alloc, &judged.verdict, judged.stamp, judged.tally),
        out,
    )
}

/// Appends lines, all or, where memory runs out, none.
pub fn append(lines: Result<Lines, AllocError>, out: &mut Vec<u8>) -> Status
    ensures prints { IsOkAnd lines (λ reported. (result ≡ reported.status)
        × (appended_bytes out.old.items out.new.items ≡ string_bytes reported.text))
        ⊎ IsSilent result (appended_bytes out.old.items out.new.items) }
    ensures appends { StartsWith out.new.items out.old.items }
{
    let Ok(lines) = lines else {
        return Status::Failed;
    };
    if out.extend_from_slice(lines.text.as_bytes()).is_err() {
        return Status::Failed;
    }
    lines.status
}
