//! Audits: three inputs to a verdict.

ghost use Rattle.std.specs.Prelude.{◌≡◌, ℕ, List, [], IsTrue, IfOk, OnOk};
ghost use Rattle.kmipa_ttlv.specs.Input.{came_of, is_ended, is_failed, IsFileOf};
ghost use Rattle.kmipa_record.specs.Declarations.{AreDeclared, declaration_of};
ghost use Rattle.kmipa_record.specs.Marks.{AreRecorded};
ghost use Rattle.kmipa_record.specs.Transcripts.{transcript_of};
ghost use Rattle.kmipa_check.specs.Audits.{AreAccepted, Audits, AuditsAs, ReadsRecords};

use crate::checking::check;
use crate::fault::CheckFault;
use crate::verdict::Verdict;
use kmipa_record::{
    Declaration, RecordFault, Transcript, Witness, read_declaration, read_transcript, read_witness,
};
use kmipa_ttlv::Input;
use std::alloc::Global;
use std::io::Read;
use thiserror::Error;

/// A verdict, with the records that it is of.
#[derive(Drop)]
pub struct Audited {
    pub verdict: Verdict,
    pub transcript: Transcript,
    pub declaration: Declaration,
    pub witness: Witness,
}

/// The records that the three inputs of an audit are.
#[derive(Drop)]
pub struct AuditRecords {
    pub transcript: Transcript,
    pub declaration: Declaration,
    pub witness: Witness,
}

/// Why an audit gives no verdict: the first file that is none, or what the check says of the three.
#[derive(Clone, Copy, Debug, PartialEq, Eq, Error)]
pub enum AuditFault {
    #[error("transcript: {0}")]
    Transcript(RecordFault),
    #[error("declaration: {0}")]
    Declaration(RecordFault),
    #[error("witness: {0}")]
    Witness(RecordFault),
    #[error("{0}")]
    Check(CheckFault),
}

/// Reads the three inputs, of which nothing was read, one after the other: the records that they are, or the first fault of the first that
/// is none. It never answers a fault of the check.
pub fn read_records<R: Read>(
    alloc: Global,
    transcript: &mut Input<R>,
    declaration: &mut Input<R>,
    witness: &mut Input<R>,
) -> Result<AuditRecords, AuditFault>
    requires transcript { came_of transcript.old ≡ [] }
    requires declaration { came_of declaration.old ≡ [] }
    requires witness { came_of witness.old ≡ [] }
    // Whatever follows what came, and nothing where the end was seen.
    ensures reads { (t d w : List ℕ) → IsFileOf t transcript.new → IsFileOf d declaration.new → IsFileOf w witness.new
        → ReadsRecords t d w (is_failed transcript.new) (is_failed declaration.new) (is_failed witness.new) result }
    // What is read is recorded, and may be declared.
    ensures recorded { IfOk result (λ records. AreRecorded (transcript_of records.transcript)) }
    ensures declared { IfOk result (λ records. AreDeclared (declaration_of records.declaration)) }
    ensures ended { OnOk result
        (IsTrue (is_ended transcript.new) × IsTrue (is_ended declaration.new) × IsTrue (is_ended witness.new)) }
{
    let transcript = match read_transcript(alloc, transcript) {
        Ok(transcript) => transcript,
        Err(fault) => return Err(AuditFault::Transcript(fault)),
    };
    let declaration = match read_declaration(alloc, declaration) {
        Ok(declaration) => declaration,
        Err(fault) => return Err(AuditFault::Declaration(fault)),
    };
    match read_witness(alloc, witness) {
        Ok(witness) => Ok(AuditRecords {
            transcript,
            declaration,
            witness,
        }),
        Err(fault) => Err(AuditFault::Witness(fault)),
    }
}

/// Reads the three inputs, of which nothing was read, one after the other, and checks the witness. The verdict comes with the records that
/// the inputs are.
pub fn audit_with<R: Read>(
    alloc: Global,
    transcript: &mut Input<R>,
    declaration: &mut Input<R>,
    witness: &mut Input<R>,
) -> Result<Audited, AuditFault>
    requires transcript { came_of transcript.old ≡ [] }
    requires declaration { came_of declaration.old ≡ [] }
    requires witness { came_of witness.old ≡ [] }
    // Whatever follows what came, and nothing where the end was seen.
    ensures audits { (t d w : List ℕ) → IsFileOf t transcript.new → IsFileOf d declaration.new → IsFileOf w witness.new
        → Audits t d w (is_failed transcript.new) (is_failed declaration.new) (is_failed witness.new) result }
    ensures ended { OnOk result
        (IsTrue (is_ended transcript.new) × IsTrue (is_ended declaration.new) × IsTrue (is_ended witness.new)) }
{
    let records = match read_records(alloc, transcript, declaration, witness) {
        Ok(records) => records,
        Err(fault) => return Err(fault),
    };
    match check(
        alloc,
        &records.transcript,
        &records.declaration,
        &records.witness,
    ) {
        Ok(verdict) => Ok(Audited {
            verdict,
            transcript: records.transcript,
            declaration: records.declaration,
            witness: records.witness,
        }),
        Err(fault) => Err(AuditFault::Check(fault)),
    }
}

/// The verdict on three inputs of which nothing was read. It is yes only where the bytes that came, to the ends that were seen, are accepted.
pub fn audit<R: Read>(
    alloc: Global,
    transcript: &mut Input<R>,
    declaration: &mut Input<R>,
    witness: &mut Input<R>,
) -> Result<Verdict, AuditFault>
    requires transcript { came_of transcript.old ≡ [] }
    requires declaration { came_of declaration.old ≡ [] }
    requires witness { came_of witness.old ≡ [] }
    // What `audit_with` answers, but for the records.
    ensures audits { (t d w : List ℕ) → IsFileOf t transcript.new → IsFileOf d declaration.new → IsFileOf w witness.new
        → AuditsAs t d w (is_failed transcript.new) (is_failed declaration.new) (is_failed witness.new) result }
    // So a yes is reported only of accepted bytes.
    ensures accepted { IfOk result
        (λ verdict. verdict ≡ Verdict.Yes
        → AreAccepted (came_of transcript.new) (came_of declaration.new) (came_of witness.new)) }
    ensures ended { OnOk result
        (IsTrue (is_ended transcript.new) × IsTrue (is_ended declaration.new) × IsTrue (is_ended witness.new)) }
{
    match audit_with(alloc, transcript, declaration, witness) {
        Ok(audited) => Ok(audited.verdict),
        Err(fault) => Err(fault),
    }
}
