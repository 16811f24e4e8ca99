//! Files that are read as the form needs them: where an object is to tell of them what came is held.

ghost use Rattle.std.specs.Prelude.{◌≡◌, ℕ, List, [], Err, true, false, IsTrue, IfOk, IfErr, IfSome, OnOk};
ghost use Rattle.kmipa_ttlv.specs.Input.{came_of, is_ended, is_failed, IsFileOf};
ghost use Rattle.kmipa_record.specs.Declarations.{DeclarationFaultWithin, IsDeclarationUpToWithin};
ghost use Rattle.kmipa_record.specs.Files.{Tells};
ghost use Rattle.kmipa_record.specs.Transcripts.{TranscriptFault, IsTranscriptUpTo};
ghost use Rattle.kmipa_record.specs.Witnesses.{IsWitness, IsWitnessUpTo, WitnessFault, witness_of};
ghost use Rattle.kmipa_record.specs.declared.reach.Reach.TheVariants.{Aside};
ghost use Rattle.kmipa_judge.specs.Forms.{IsHeld};
ghost use Rattle.kmipa_judge.specs.Reading.{IsGiven, IsRecording};
ghost use Rattle.kmipa_telling.specs.Judging.{ReadsBytes};

use crate::form::JudgeForm;
use kmipa_record::{
    Declaration, Reach, RecordFault, RecordKind, Transcript, Witness, read_declaration_within,
    read_transcript, read_witness,
};
use kmipa_telling::read_held;
use kmipa_ttlv::{FaultKind, Input, read_all};
use std::alloc::{AllocError, Global};
use std::io::Read;

/// How many bytes are asked for at once.
const CHUNK: usize = 65_536;

/// How many bytes are read before it is asked whether a fault stands in them already.
const FRONT: usize = 1_048_576;

/// A fault that an input over bytes in memory has no right to: it is told as want of memory, up to which nothing is wrong.
const UNREAD: RecordFault = RecordFault {
    offset: 0,
    kind: RecordKind::Memory,
};

/// Reads a transcript of which nothing was read.
pub(crate) fn read_recording<R: Read>(
    alloc: Global,
    form: JudgeForm,
    input: &mut Input<R>,
    held: &mut Vec<u8>,
) -> Result<Result<Transcript, RecordFault>, AllocError>
    requires came { came_of input.old ≡ [] }
    requires none { held.old.items ≡ [] }
    ensures found { IfOk result (λ read. IfOk read
        (λ transcript. IsRecording (came_of input.new) transcript × IsTrue (is_ended input.new))) }
    ensures fault { (file : List ℕ) → IsFileOf file input.new
        → IfOk result (λ read. IfErr read (Tells TranscriptFault IsTranscriptUpTo file (is_failed input.new))) }
    ensures held { OnOk result (IsHeld form held.new.items input.new) }
{
    match form {
        JudgeForm::Lines => Ok(read_transcript(alloc, input)),
        JudgeForm::Object(_) => {
            let read: Result<Transcript, RecordFault> = read_held(alloc, input, held)?;
            Ok(read)
        }
    }
}

/// Reads a declaration of which nothing was read.
pub(crate) fn read_given<R: Read>(
    alloc: Global,
    form: JudgeForm,
    input: &mut Input<R>,
    held: &mut Vec<u8>,
) -> Result<Result<Declaration, RecordFault>, AllocError>
    requires came { came_of input.old ≡ [] }
    requires none { held.old.items ≡ [] }
    ensures found { IfOk result (λ read. IfOk read
        (λ declaration. IsGiven (came_of input.new) declaration × IsTrue (is_ended input.new))) }
    ensures fault { (file : List ℕ) → IsFileOf file input.new
        → IfOk result (λ read. IfErr read
        (Tells (DeclarationFaultWithin Aside) (IsDeclarationUpToWithin Aside) file (is_failed input.new))) }
    ensures held { OnOk result (IsHeld form held.new.items input.new) }
{
    match form {
        JudgeForm::Lines => Ok(read_declaration_within(alloc, input, Reach::Aside)),
        JudgeForm::Object(_) => hold_given(alloc, input, held),
    }
}

/// Reads a witness of which nothing was read.
pub(crate) fn read_turns<R: Read>(
    alloc: Global,
    form: JudgeForm,
    input: &mut Input<R>,
    held: &mut Vec<u8>,
) -> Result<Result<Witness, RecordFault>, AllocError>
    requires came { came_of input.old ≡ [] }
    requires none { held.old.items ≡ [] }
    ensures found { IfOk result (λ read. IfOk read
        (λ witness. IsWitness (came_of input.new) (witness_of witness) × IsTrue (is_ended input.new))) }
    ensures fault { (file : List ℕ) → IsFileOf file input.new
        → IfOk result (λ read. IfErr read (Tells WitnessFault IsWitnessUpTo file (is_failed input.new))) }
    ensures held { OnOk result (IsHeld form held.new.items input.new) }
{
    match form {
        JudgeForm::Lines => Ok(read_witness(alloc, input)),
        JudgeForm::Object(_) => {
            let read: Result<Witness, RecordFault> = read_held(alloc, input, held)?;
            Ok(read)
        }
    }
}

/// The same of a declaration, holding what came. It is read to its end, save where a fault stands in its first 1,048,576 bytes.
fn hold_given<R: Read>(
    alloc: Global,
    input: &mut Input<R>,
    held: &mut Vec<u8>,
) -> Result<Result<Declaration, RecordFault>, AllocError>
    requires came { came_of input.old ≡ [] }
    requires none { held.old.items ≡ [] }
    ensures found { IfOk result (λ read. IfOk read
        (λ declaration. IsGiven (came_of input.new) declaration × IsTrue (is_ended input.new))) }
    ensures fault { (file : List ℕ) → IsFileOf file input.new
        → IfOk result (λ read. IfErr read
        (Tells (DeclarationFaultWithin Aside) (IsDeclarationUpToWithin Aside) file (is_failed input.new))) }
    ensures held { OnOk result (held.new.items ≡ came_of input.new) }
{
    hold_front(input, held)?;
    let (front, all) = given_of(alloc, held.as_slice());
    if let Some(fault) = settled(front, all) {
        return Ok(Err(fault));
    }
    let whole = hold_rest(input, held)?;
    let (read, all) = given_of(alloc, held.as_slice());
    if whole {
        return Ok(read);
    }
    match settled(read, all) {
        Some(fault) => Ok(Err(fault)),
        None => Ok(Err(RecordFault {
            offset: 0,
            kind: RecordKind::Device,
        })),
    }
}

/// The declaration that bytes are, or their first fault, and whether all of them were read for it.
fn given_of(alloc: Global, bytes: &[u8]) -> (Result<Declaration, RecordFault>, bool)
    ensures reads { ReadsBytes IsGiven (DeclarationFaultWithin Aside) (IsDeclarationUpToWithin Aside) bytes.now result.0
        result.1 }
    ensures starts { (file : List ℕ) → IsDeclarationUpToWithin Aside file 0 }
{
    let mut input = Input::new(bytes);
    let read = read_declaration_within(alloc, &mut input, Reach::Aside);
    if input.failed() {
        return (Err(UNREAD), true);
    }
    (read, input.ended())
}

/// The fault of bytes that were not all read for it.
fn settled<K: Drop>(read: Result<K, RecordFault>, all: bool) -> Option<RecordFault>
    ensures { IfSome result (λ fault. (all ≡ false) × (read ≡ Err fault)) }
{
    match read {
        Err(fault) if !all => Some(fault),
        _ => None,
    }
}

/// Reads and holds the front of a file, or all of it where it is short.
fn hold_front<R: Read>(input: &mut Input<R>, held: &mut Vec<u8>) -> Result<(), AllocError>
    requires { held.old.items ≡ came_of input.old }
    ensures { OnOk result (held.new.items ≡ came_of input.new) }
{
    let mut chunk = [0u8; CHUNK];
    'reads: while held.len() < FRONT {
        let Some(n) = input.read_some(&mut chunk) else {
            break;
        };
        if n == 0 {
            break;
        }
        held.extend_from_slice(&chunk[..n])?;
    }
    Ok(())
}

/// Reads and holds the rest of a file: whether its end was seen, and no read failed.
fn hold_rest<R: Read>(input: &mut Input<R>, held: &mut Vec<u8>) -> Result<bool, AllocError>
    requires { held.old.items ≡ came_of input.old }
    ensures came { OnOk result (held.new.items ≡ came_of input.new) }
    ensures whole { IfOk result (λ whole. whole ≡ true → IsTrue (is_ended input.new)) }
    ensures fails { IfOk result (λ whole. whole ≡ false → IsTrue (is_failed input.new)) }
{
    match read_all(input, held) {
        Ok(()) => Ok(true),
        Err(fault) => match fault.kind {
            FaultKind::Device => Ok(false),
            _ => Err(AllocError),
        },
    }
}
