//! What a no of a check means: it is explained as a finding whose turn is the witness's own.

ghost use Rattle.std.specs.Prelude.{◌<◌, IfOk, IfSome, length};
ghost use Rattle.kmipa_record.specs.Declarations.{AreDeclared, declaration_of};
ghost use Rattle.kmipa_record.specs.Marks.{AreRecorded};
ghost use Rattle.kmipa_record.specs.Transcripts.{transcript_of};
ghost use Rattle.kmipa_record.specs.Witnesses.{witness_of};
ghost use Rattle.kmipa_findings.specs.Told.{finding_of};
ghost use Rattle.kmipa_judge.specs.Parts.{ExplainsFinding, ExplainsNo};

use super::reading::ThreeRecords;
use crate::judging::Records;
use crate::part::{Advice, meaning_along, meaning_by};
use kmipa_check::Refused;
use kmipa_explain::Explanation;
use kmipa_findings::{Finding, copied_turn};
use kmipa_record::Witness;
use std::alloc::{AllocError, Global};

/// What a no means. None where that can't be told.
pub(crate) fn no_meaning(
    alloc: Global,
    read: &ThreeRecords,
    refused: Refused,
    stamp: Option<i64>,
) -> Result<Option<Explanation>, AllocError>
    requires recorded { AreRecorded (transcript_of read.now.records.transcript) }
    requires declared { AreDeclared (declaration_of read.now.records.declaration) }
    ensures { IfOk result (λ meaning. IfSome meaning (ExplainsNo (transcript_of read.now.records.transcript)
        (declaration_of read.now.records.declaration) (witness_of read.now.witness) refused)) }
{
    let turns = &read.witness.turns;
    let Some(place) = refused.turn.checked_sub(1) else {
        return Ok(None);
    };
    if place >= turns.len() {
        return Ok(None);
    }
    let tried = copied_turn(alloc, &turns[place])?;
    let finding = Finding {
        place,
        tried,
        refused,
        stamp,
    };
    finding_meaning(alloc, &read.records, &read.witness, &finding)
}

/// What a finding means: by all calls, or else by a part of them.
fn finding_meaning(
    alloc: Global,
    records: &Records,
    witness: &Witness,
    finding: &Finding,
) -> Result<Option<Explanation>, AllocError>
    requires recorded { AreRecorded (transcript_of records.now.transcript) }
    requires declared { AreDeclared (declaration_of records.now.declaration) }
    requires there { finding.now.place < length (witness_of witness.now) }
    ensures { IfOk result (λ meaning. IfSome meaning (ExplainsFinding (transcript_of records.now.transcript)
        (declaration_of records.now.declaration) (witness_of witness.now) (finding_of finding.now))) }
{
    let advised = Advice::of(
        alloc,
        &records.transcript,
        &records.declaration,
        &witness.turns,
    )?;
    let Some(advice) = &advised else {
        return Ok(None);
    };
    match whole_meaning(alloc, records, witness, advice, finding)? {
        Some(meaning) => Ok(Some(meaning)),
        None => meaning_along(alloc, records, witness, advice, finding),
    }
}

/// What it means by all calls.
fn whole_meaning(
    alloc: Global,
    records: &Records,
    witness: &Witness,
    advice: &Advice,
    finding: &Finding,
) -> Result<Option<Explanation>, AllocError>
    requires recorded { AreRecorded (transcript_of records.now.transcript) }
    requires declared { AreDeclared (declaration_of records.now.declaration) }
    requires there { finding.now.place < length (witness_of witness.now) }
    ensures { IfOk result (λ meaning. IfSome meaning (ExplainsFinding (transcript_of records.now.transcript)
        (declaration_of records.now.declaration) (witness_of witness.now) (finding_of finding.now))) }
{
    match advice.all_for(alloc, finding)? {
        Some(turns) => meaning_by(alloc, records, witness, &turns, finding),
        None => Ok(None),
    }
}
