//! What is found in a recording.

ghost use Rattle.std.specs.Prelude.{◌≡◌, ℕ, IfOk, IfSome};
ghost use Rattle.kmipa_record.specs.Declarations.{AreDeclared, declaration_of};
ghost use Rattle.kmipa_record.specs.Marks.{AreRecorded};
ghost use Rattle.kmipa_record.specs.Transcripts.{transcript_of};
ghost use Rattle.kmipa_findings.specs.Outcomes.{Judges};

use crate::confirming::{accepted_tally, without};
use crate::deciding::is_decided;
use crate::finding::{Judged, Outcome, Undecided};
use crate::pace::Pace;
use crate::proposal::Proposal;
use crate::proposing::propose;
use kmipa_record::{Declaration, Transcript, Witness};
use kmipa_trail::Fault;
use std::alloc::Global;

/// Looks for an order of the calls that a check accepts, trying at most `budget` calls, in the time that `pace` has. Where there is none, what is
/// impossible is set aside, and it goes on, so that all findings are told.
///
/// Whatever it answers is confirmed by a check: the witness is accepted; and each finding is what the check answers where it and all later ones are left
/// out. Where no order of the calls can begin otherwise, up to the first finding, it is told that none explains every answer. Nothing is claimed of marks
/// that no transcript has.
pub fn judge<P: Pace>(
    alloc: Global,
    transcript: &Transcript,
    declaration: &Declaration,
    budget: u64,
    pace: &mut P,
) -> Result<Outcome, Fault>
    requires { AreDeclared (declaration_of declaration.now) }
    ensures told { AreRecorded (transcript_of transcript.now)
        → IfOk result (Judges (P.seconds pace.old) (transcript_of transcript.now) (declaration_of declaration.now)) }
    ensures paced { P.seconds pace.new ≡ P.seconds pace.old }
{
    let proposal = propose(alloc, transcript, declaration, budget, pace)?;
    confirm(alloc, transcript, declaration, proposal)
}

/// What a proposal comes to, as far as a check confirms it.
pub(crate) fn confirm(
    alloc: Global,
    transcript: &Transcript,
    declaration: &Declaration,
    proposal: Proposal,
) -> Result<Outcome, Fault>
    requires { AreDeclared (declaration_of declaration.now) }
    ensures { (seconds : ℕ) → IfSome proposal.over (λ after. after ≡ seconds) → AreRecorded (transcript_of transcript.now)
        → IfOk result (Judges seconds (transcript_of transcript.now) (declaration_of declaration.now)) }
{
    let Proposal {
        turns,
        findings,
        steps,
        is_whole,
        over,
    } = proposal;
    let undecided = Undecided {
        findings,
        steps,
        over,
    };
    if !is_whole {
        return Ok(Outcome::Undecided(undecided));
    }
    let witness = Witness { turns };
    let Some(tally) = accepted_tally(alloc, transcript, declaration, &witness)? else {
        return Ok(Outcome::Undecided(undecided));
    };
    let left = without(
        alloc,
        transcript,
        declaration,
        &witness,
        &undecided.findings,
    )?;
    let Some(left) = left else {
        return Ok(Outcome::Undecided(undecided));
    };
    let findings = undecided.findings;
    let is_decided = is_decided(alloc, transcript, declaration, &left, &findings)?;
    Ok(Outcome::Judged(Judged {
        witness,
        tally,
        findings,
        steps,
        is_decided,
    }))
}
