//! The records of three inputs, with what the transcript is known by.

ghost use Rattle.std.specs.Prelude.{◌≡◌, ℕ, List, [], IsTrue, IfOk, OnOk};
ghost use Rattle.kmipa_ttlv.specs.Input.{came_of, is_ended, is_failed, IsFileOf};
ghost use Rattle.kmipa_record.specs.Declarations.{AreDeclared, declaration_of};
ghost use Rattle.kmipa_record.specs.Marks.{AreRecorded};
ghost use Rattle.kmipa_record.specs.Transcripts.{transcript_of};
ghost use Rattle.kmipa_record.specs.TranscriptReading.{IsKnownBy};
ghost use Rattle.kmipa_check.specs.Audits.{ReadsRecords};

use kmipa_check::{AuditFault, AuditRecords};
use kmipa_record::{read_declaration, read_transcript, read_witness};
use kmipa_ttlv::Input;
use std::alloc::Global;
use std::io::Read;

/// Reads the three inputs, of which nothing was read, as `read_records` does, and says of the transcript that it has no seals, or that all of
/// them are right up to the head in it.
pub fn read_known_records<R: Read>(
    alloc: Global,
    transcript: &mut Input<R>,
    declaration: &mut Input<R>,
    witness: &mut Input<R>,
) -> Result<AuditRecords, AuditFault>
    requires transcript { came_of transcript.old ≡ [] }
    requires declaration { came_of declaration.old ≡ [] }
    requires witness { came_of witness.old ≡ [] }
    ensures reads { (t d w : List ℕ) → IsFileOf t transcript.new → IsFileOf d declaration.new → IsFileOf w witness.new
        → ReadsRecords t d w (is_failed transcript.new) (is_failed declaration.new) (is_failed witness.new) result }
    ensures recorded { IfOk result (λ records. AreRecorded (transcript_of records.transcript)) }
    ensures declared { IfOk result (λ records. AreDeclared (declaration_of records.declaration)) }
    ensures known { IfOk result
        (λ records. IsKnownBy (came_of transcript.new) (transcript_of records.transcript) records.transcript.head) }
    ensures ended { OnOk result
        (IsTrue (is_ended transcript.new) × IsTrue (is_ended declaration.new) × IsTrue (is_ended witness.new)) }
{
    let transcript = match read_transcript(alloc, transcript) {
        Ok(transcript) => transcript,
        Err(fault) => return Err(AuditFault::Transcript(fault)),
    };
    let declaration = match read_declaration(alloc, declaration) {
        Ok(declaration) => declaration,
        Err(fault) => return Err(AuditFault::Declaration(fault)),
    };
    match read_witness(alloc, witness) {
        Ok(witness) => Ok(AuditRecords {
            transcript,
            declaration,
            witness,
        }),
        Err(fault) => Err(AuditFault::Witness(fault)),
    }
}
