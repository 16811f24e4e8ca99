//! The three files of a check.

ghost use Rattle.std.specs.Prelude.{◌≡◌, ℕ, List, [], IfErr, IfOk, OnOk};
ghost use Rattle.kmipa_ttlv.specs.Input.{came_of, is_failed, IsFileOf};
ghost use Rattle.kmipa_telling.specs.Held.{HoldsNothing};
ghost use Rattle.kmipa_judge.specs.Checks.{AreHeldAs, AreReadAs, FailsReading};

use crate::form::JudgeForm;
use crate::holding::{read_given, read_recording, read_turns};
use crate::judging::Records;
use kmipa_check::AuditFault;
use kmipa_record::Witness;
use kmipa_telling::Held;
use kmipa_ttlv::Input;
use std::alloc::{AllocError, Global};
use std::io::Read;

/// The records of three files.
#[derive(Drop)]
pub(crate) struct ThreeRecords {
    pub records: Records,
    pub witness: Witness,
}

/// Reads the three inputs, of which nothing was read, one after the other: the records that they are, or the first fault of the first that is none. What came
/// of them is held, where the form needs it.
pub(crate) fn read_three<R: Read>(
    alloc: Global,
    form: JudgeForm,
    transcript: &mut Input<R>,
    declaration: &mut Input<R>,
    witness: &mut Input<R>,
    held: &mut Held,
) -> Result<Result<ThreeRecords, AuditFault>, AllocError>
    requires transcript { came_of transcript.old ≡ [] }
    requires declaration { came_of declaration.old ≡ [] }
    requires witness { came_of witness.old ≡ [] }
    requires none { HoldsNothing held.old }
    ensures found { IfOk result (λ read. IfOk read (AreReadAs transcript.new declaration.new witness.new)) }
    ensures fault { IfOk result (λ read. IfErr read (λ fault. (t d w : List ℕ)
        → IsFileOf t transcript.new → IsFileOf d declaration.new → IsFileOf w witness.new
        → FailsReading t d w (is_failed transcript.new) (is_failed declaration.new) (is_failed witness.new) fault)) }
    ensures held { OnOk result (AreHeldAs form held.new transcript.new declaration.new witness.new) }
{
    let read = read_recording(alloc, form, transcript, &mut held.transcript)?;
    let first = match read {
        Ok(first) => first,
        Err(fault) => return Ok(Err(AuditFault::Transcript(fault))),
    };
    let read = read_given(alloc, form, declaration, &mut held.declaration)?;
    let second = match read {
        Ok(second) => second,
        Err(fault) => return Ok(Err(AuditFault::Declaration(fault))),
    };
    let records = Records {
        transcript: first,
        declaration: second,
        assumed: false,
    };
    let read = read_turns(alloc, form, witness, &mut held.witness)?;
    match read {
        Ok(third) => Ok(Ok(ThreeRecords {
            records,
            witness: third,
        })),
        Err(fault) => Ok(Err(AuditFault::Witness(fault))),
    }
}
