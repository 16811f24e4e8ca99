//! What a check says of a witness and of what was found on the way to it.

ghost use Rattle.std.specs.Prelude.{◌≡◌, ◌∷◌, IfOk, IfSome, OnOk, IsTrue, map, slice_set, true};
ghost use Rattle.kmipa_record.specs.Declarations.{AreDeclared, declaration_of};
ghost use Rattle.kmipa_record.specs.Marks.{AreRecorded};
ghost use Rattle.kmipa_record.specs.Transcripts.{transcript_of};
ghost use Rattle.kmipa_record.specs.Witnesses.{witness_of, turn_of};
ghost use Rattle.kmipa_trail.specs.Told.{tally_of};
ghost use Rattle.kmipa_trail.specs.Verdicts.{IsAccepted};
ghost use Rattle.kmipa_findings.specs.Findings.{AreFound, IsNo, left_out};
ghost use Rattle.kmipa_findings.specs.Told.{finding_of};

use crate::copying::{copied_turn, copied_turns};
use crate::finding::Finding;
use kmipa_check::Refused;
use kmipa_record::{Declaration, Transcript, Witness};
use kmipa_trail::{Fault, Tally, Verdict, check};
use std::alloc::{AllocError, Global};

/// How many items are judged, where the check accepts a witness.
pub(crate) fn accepted_tally(
    alloc: Global,
    transcript: &Transcript,
    declaration: &Declaration,
    witness: &Witness,
) -> Result<Option<Tally>, Fault>
    requires { AreDeclared (declaration_of declaration.now) }
    ensures { AreRecorded (transcript_of transcript.now) → IfOk result (λ tally. IfSome tally (λ k.
        IsAccepted (transcript_of transcript.now) (declaration_of declaration.now) (witness_of witness.now) (tally_of k))) }
{
    match check(alloc, transcript, declaration, witness) {
        Ok(Verdict::Yes(tally)) => Ok(Some(tally)),
        Ok(Verdict::No(_, _)) | Err(Fault::Witness(_)) => Ok(None),
        Err(Fault::Memory) => Err(Fault::Memory),
    }
}

/// A witness with all findings left out, where each is what the check answers where it and all later ones are left out.
pub(crate) fn without(
    alloc: Global,
    transcript: &Transcript,
    declaration: &Declaration,
    witness: &Witness,
    findings: &[Finding],
) -> Result<Option<Witness>, Fault>
    requires { AreDeclared (declaration_of declaration.now) }
    ensures left { IfOk result (λ without. IfSome without (λ left.
        witness_of left ≡ left_out (witness_of witness.now) (map finding_of findings.now))) }
    ensures found { AreRecorded (transcript_of transcript.now) → IfOk result (λ without. IfSome without (λ left.
        AreFound (transcript_of transcript.now) (declaration_of declaration.now) (witness_of witness.now)
        (map finding_of findings.now))) }
{
    let turns = copied_turns(alloc, &witness.turns)?;
    let mut left = Witness { turns };
    let mut first = findings.len();
    'findings: while first > 0 {
        first -= 1;
        let finding = &findings[first];
        if !leave_out(alloc, &mut left, finding)? {
            return Ok(None);
        }
        if !is_found(alloc, transcript, declaration, &left, finding)? {
            return Ok(None);
        }
    }
    Ok(Some(left))
}

/// Puts the turn of a finding in its place, as it was tried, where a witness has that place.
fn leave_out(alloc: Global, witness: &mut Witness, finding: &Finding) -> Result<bool, AllocError>
    ensures { IfOk result (λ done. done ≡ true → witness_of witness.new
        ≡ slice_set (witness_of witness.old) finding.now.place (turn_of finding.now.tried)) }
{
    if finding.place >= witness.turns.len() {
        return Ok(false);
    }
    let tried = copied_turn(alloc, &finding.tried)?;
    witness.turns[finding.place] = tried;
    Ok(true)
}

/// Whether the check answers what was found.
fn is_found(
    alloc: Global,
    transcript: &Transcript,
    declaration: &Declaration,
    witness: &Witness,
    finding: &Finding,
) -> Result<bool, Fault>
    requires { AreDeclared (declaration_of declaration.now) }
    ensures { AreRecorded (transcript_of transcript.now) → IfOk result (λ found. found ≡ true →
        IsNo (transcript_of transcript.now) (declaration_of declaration.now) (witness_of witness.now)
        finding.now.refused finding.now.stamp) }
{
    match check(alloc, transcript, declaration, witness) {
        Ok(Verdict::No(refused, stamp)) => Ok(is_same(refused, stamp, finding)),
        Ok(Verdict::Yes(_)) | Err(Fault::Witness(_)) => Ok(false),
        Err(Fault::Memory) => Err(Fault::Memory),
    }
}

/// Whether a finding is this answer.
fn is_same(refused: Refused, stamp: Option<i64>, finding: &Finding) -> bool
    ensures refused { IsTrue result → refused ≡ finding.now.refused }
    ensures stamp { IsTrue result → stamp ≡ finding.now.stamp }
{
    refused == finding.refused && stamp == finding.stamp
}
