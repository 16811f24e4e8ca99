//! What an order comes to.

ghost use Rattle.std.specs.Prelude.{ℕ, IfOk, IfSome};
ghost use Rattle.kmipa_record.specs.Declarations.{AreDeclared, declaration_of};
ghost use Rattle.kmipa_record.specs.Marks.{AreRecorded};
ghost use Rattle.kmipa_record.specs.Transcripts.{transcript_of};
ghost use Rattle.kmipa_findings.specs.Outcomes.{Judges};

use crate::confirming::accepted_tally;
use crate::finding::{Judged, Outcome};
use kmipa_record::{Declaration, Transcript, Witness};
use kmipa_trail::Fault;
use std::alloc::Global;

/// What comes of an order of the calls that was found with so many steps, where a check accepts it: nothing is found along it. None where it doesn't.
pub fn judge_order(
    alloc: Global,
    transcript: &Transcript,
    declaration: &Declaration,
    witness: Witness,
    steps: u64,
) -> Result<Option<Outcome>, Fault>
    requires { AreDeclared (declaration_of declaration.now) }
    ensures { AreRecorded (transcript_of transcript.now) → IfOk result (λ found. IfSome found (λ outcome. (seconds : ℕ)
        → Judges seconds (transcript_of transcript.now) (declaration_of declaration.now) outcome)) }
{
    let Some(tally) = accepted_tally(alloc, transcript, declaration, &witness)? else {
        return Ok(None);
    };
    Ok(Some(Outcome::Judged(Judged {
        witness,
        tally,
        findings: Vec::new(alloc),
        steps,
        is_decided: false,
    })))
}
