//! Verdicts with what their no means.

ghost use Rattle.std.specs.Prelude.{◌≡◌, ℕ, Bool, List, IfErr, IfOk};
ghost use Rattle.kmipa_record.specs.Declarations.{AreDeclared, declaration_of};
ghost use Rattle.kmipa_record.specs.Marks.{AreRecorded};
ghost use Rattle.kmipa_record.specs.Transcripts.{transcript_of};
ghost use Rattle.kmipa_check.specs.Audits.{AreRecords};
ghost use Rattle.kmipa_telling.specs.Explaining.{AuditsExplained, IsExplained, TellsRecords};

use crate::faults::check_fault_told;
use crate::meaning::FaultTold;
use kmipa_check::{AuditFault, AuditRecords, CheckFault, Grants, Verdict, check};
use kmipa_explain::{Explanation, explain};
use std::alloc::Global;

/// A verdict with the records that it is of, and at a no what it means.
#[derive(Drop)]
pub struct Explained {
    pub records: AuditRecords,
    pub verdict: Verdict,
    /// None at a yes.
    pub explanation: Option<Explanation>,
}

/// Checks the witness of these records, and says what a no means, why a message is outside, and why the witness doesn't fit.
pub fn explain_records(alloc: Global, records: AuditRecords) -> Result<Explained, FaultTold>
    requires recorded { AreRecorded (transcript_of records.transcript) }
    requires declared { AreDeclared (declaration_of records.declaration) }
    ensures audits { (t d w : List ℕ) (failed_t failed_d failed_w : Bool) → AreRecords records t d w
        → AuditsExplained t d w failed_t failed_d failed_w result }
    ensures same { IfOk result (λ explained. explained.records ≡ records) }
{
    let verdict = match check(
        alloc,
        &records.transcript,
        &records.declaration,
        &records.witness,
    ) {
        Ok(verdict) => verdict,
        Err(fault) => return Err(check_fault_told(
            alloc,
            &Grants::of(&records.declaration),
            &records.transcript,
            &records.witness,
            fault,
        )),
    };
    match explanation_of(alloc, &records, verdict) {
        Ok(explanation) => Ok(Explained {
            records,
            verdict,
            explanation,
        }),
        Err(fault) => Err(FaultTold::bare(AuditFault::Check(fault))),
    }
}

/// What a verdict on these records means, where it is a no. Only want of memory is an error.
fn explanation_of(
    alloc: Global,
    records: &AuditRecords,
    verdict: Verdict,
) -> Result<Option<Explanation>, CheckFault>
    requires recorded { AreRecorded (transcript_of records.now.transcript) }
    requires verdict { TellsRecords records.now verdict }
    ensures explained { IfOk result (IsExplained records.now verdict) }
    ensures memory { IfErr result (λ fault. fault ≡ CheckFault.Memory) }
{
    match verdict {
        Verdict::Yes => Ok(None),
        Verdict::No(refused) => Ok(Some(explain(
            alloc,
            &records.transcript,
            &records.declaration,
            &records.witness,
            refused,
        )?)),
    }
}
