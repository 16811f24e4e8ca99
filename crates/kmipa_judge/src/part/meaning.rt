//! What a finding means.

ghost use Rattle.std.specs.Prelude.{◌≡◌, ◌<◌, IfOk, IfSome, IsTrue, Ok, length};
ghost use Rattle.kmipa_record.specs.Declarations.{AreDeclared, declaration_of};
ghost use Rattle.kmipa_record.specs.Marks.{AreRecorded};
ghost use Rattle.kmipa_record.specs.Transcripts.{transcript_of};
ghost use Rattle.kmipa_record.specs.Witnesses.{witness_of};
ghost use Rattle.kmipa_findings.specs.Told.{finding_of};
ghost use Rattle.kmipa_judge.specs.Parts.{ExplainsFinding, ExplainsSame, IsMeaning, IsSameNo};

use super::choosing::Advice;
use super::keeping::Kept;
use super::recording::{part_of, turns_of};
use super::renumbering::{Numbering, renumbered};
use crate::judging::Records;
use kmipa_check::{CheckFault, FirstPlaces, Refused, Verdict, check};
use kmipa_explain::{Explanation, explain};
use kmipa_findings::{Finding, Outcome};
use kmipa_record::{Declaration, Transcript, Witness};
use std::alloc::{AllocError, Global};

/// So many findings are explained at most, the first ones.
const MOST: usize = 20;

/// By what findings are explained: the recording, what was found in it, and what is known of its calls, where findings can be explained.
#[derive(Clone, Copy)]
pub(crate) struct Meanings<'m, 'a> {
    pub records: &'a Records,
    pub outcome: &'a Outcome,
    pub advice: &'m Option<Advice<'a>>,
}

impl<'m, 'a> Meanings<'m, 'a> {
    /// By these.
    pub(crate) fn of(
        records: &'a Records,
        outcome: &'a Outcome,
        advice: &'m Option<Advice<'a>>,
    ) -> Meanings<'m, 'a> {
        Meanings {
            records,
            outcome,
            advice,
        }
    }
}

/// What the finding with this number means. None where that can't be told.
pub(crate) fn meaning_of<'a>(
    alloc: Global,
    meanings: Meanings<'_, 'a>,
    number: usize,
    finding: &'a Finding,
) -> Result<Option<Explanation>, AllocError>
    requires recorded { AreRecorded (transcript_of meanings.records.now.transcript) }
    requires declared { AreDeclared (declaration_of meanings.records.now.declaration) }
    ensures { IfOk result (λ meaning. IfSome meaning (IsMeaning (transcript_of meanings.entry.records.now.transcript)
        (declaration_of meanings.entry.records.now.declaration) meanings.entry.outcome.now (finding_of finding.now))) }
{
    match (meanings.outcome, meanings.advice) {
        (Outcome::Judged(judged), Some(advice)) if number <= MOST => {
            meaning_along(alloc, meanings.records, &judged.witness, advice, finding)
        }
        _ => Ok(None),
    }
}

/// The same along a witness.
pub(crate) fn meaning_along<'a>(
    alloc: Global,
    records: &Records,
    witness: &Witness,
    advice: &Advice<'a>,
    finding: &'a Finding,
) -> Result<Option<Explanation>, AllocError>
    requires recorded { AreRecorded (transcript_of records.now.transcript) }
    requires declared { AreDeclared (declaration_of records.now.declaration) }
    ensures { IfOk result (λ meaning. IfSome meaning (ExplainsFinding (transcript_of records.now.transcript)
        (declaration_of records.now.declaration) (witness_of witness.now) (finding_of finding.now))) }
{
    if finding.place >= witness.turns.len() {
        return Ok(None);
    }
    match advice.kept_for(alloc, finding)? {
        Some(turns) => meaning_by(alloc, records, witness, &turns, finding),
        None => Ok(None),
    }
}

/// The same, where these turns are kept.
pub(crate) fn meaning_by(
    alloc: Global,
    records: &Records,
    witness: &Witness,
    turns: &[bool],
    finding: &Finding,
) -> Result<Option<Explanation>, AllocError>
    requires recorded { AreRecorded (transcript_of records.now.transcript) }
    requires declared { AreDeclared (declaration_of records.now.declaration) }
    requires there { finding.now.place < length (witness_of witness.now) }
    ensures { IfOk result (λ meaning. IfSome meaning (ExplainsFinding (transcript_of records.now.transcript)
        (declaration_of records.now.declaration) (witness_of witness.now) (finding_of finding.now))) }
{
    let places = FirstPlaces::of(alloc, &witness.turns)?;
    let kept = Kept {
        places: &places,
        turns,
    };
    let part = part_of(alloc, &records.transcript, kept)?;
    let taken = turns_of(alloc, &witness.turns, finding, kept)?;
    let numbering = Numbering {
        places: &places,
        count: witness.turns.len(),
    };
    match explained_same(alloc, &part, &records.declaration, &taken, finding.refused)? {
        Some(claims) => Ok(Some(renumbered(claims, numbering))),
        None => Ok(None),
    }
}

/// The explanation of a no, where a check of a part gives the same one.
fn explained_same(
    alloc: Global,
    part: &Transcript,
    declaration: &Declaration,
    taken: &Witness,
    refused: Refused,
) -> Result<Option<Explanation>, AllocError>
    requires recorded { AreRecorded (transcript_of part.now) }
    requires declared { AreDeclared (declaration_of declaration.now) }
    ensures { IfOk result (λ claims. IfSome claims
        (ExplainsSame (transcript_of part.now) (declaration_of declaration.now) (witness_of taken.now) refused)) }
{
    match check(alloc, part, declaration, taken) {
        Ok(Verdict::No(no)) if is_same(no, refused) => {
            explained(explain(alloc, part, declaration, taken, no))
        }
        Ok(_) | Err(CheckFault::Outside(..)) | Err(CheckFault::Witness(_)) => Ok(None),
        Err(CheckFault::Memory) => Err(AllocError),
    }
}

fn explained(
    explanation: Result<Explanation, CheckFault>,
) -> Result<Option<Explanation>, AllocError>
    ensures { IfOk result (λ told. IfSome told (λ e. explanation ≡ Ok e)) }
{
    match explanation {
        Ok(explanation) => Ok(Some(explanation)),
        Err(_) => Err(AllocError),
    }
}

/// Whether the same answer is impossible for the same reason.
fn is_same(no: Refused, refused: Refused) -> bool
    ensures { IsTrue result → IsSameNo no refused }
{
    no.call == refused.call && no.item == refused.item && no.why == refused.why
}
