//! Records of bytes that lie in memory.

ghost use Rattle.std.specs.Prelude.{ℕ, List};
ghost use Rattle.kmipa_record.specs.declared.fault.RecordKind.{RecordKind};
ghost use Rattle.kmipa_record.specs.Declarations.{declaration_of, AreDeclared, IsDeclaration, DeclarationFault, IsDeclarationUpTo};
ghost use Rattle.kmipa_record.specs.Transcripts.{transcript_of, IsTranscript, TranscriptFault, IsTranscriptUpTo};
ghost use Rattle.kmipa_record.specs.Witnesses.{witness_of, IsWitness, WitnessFault, IsWitnessUpTo};
ghost use Rattle.kmipa_runs.specs.Knowing.{Known};
ghost use Rattle.kmipa_telling.specs.Judging.{ReadsBytes};

use kmipa_record::{
    Declaration, RecordFault, RecordKind, Transcript, Witness, read_declaration, read_transcript,
    read_witness,
};
use kmipa_ttlv::Input;
use std::alloc::Global;

/// A fault that an input over bytes in memory has no right to: it is told as want of memory, up to which nothing is wrong.
const UNREAD: RecordFault = RecordFault {
    offset: 0,
    kind: RecordKind::Memory,
};

/// What a file is that was read: a transcript, a declaration or a witness.
pub trait Kept: Sized {
    // The bytes are this.
    ghost is: { List ℕ → Self → Type 0 };

    // This is the first fault of the bytes.
    ghost flaw: { List ℕ → ℕ → RecordKind → Type 0 };

    // Up to this place nothing is wrong with the bytes.
    ghost right: { List ℕ → ℕ → Type 0 };

    /// What the bytes are, or their first fault, and whether all of them were read for it.
    fn of(alloc: Global, bytes: &[u8]) -> (Result<Self, RecordFault>, bool)
        ensures reads { ReadsBytes is flaw right bytes.now result.0 result.1 }
        ensures starts { (file : List ℕ) → right file 0 };
}

impl Kept for Transcript {
    ghost is = { λ bytes transcript. IsTranscript bytes (transcript_of transcript) × Known bytes transcript.head };

    ghost flaw = { TranscriptFault };

    ghost right = { IsTranscriptUpTo };

    fn of(alloc: Global, bytes: &[u8]) -> (Result<Transcript, RecordFault>, bool) {
        let mut input = Input::new(bytes);
        let read = read_transcript(alloc, &mut input);
        if input.failed() {
            return (Err(UNREAD), true);
        }
        (read, input.ended())
    }
}

impl Kept for Declaration {
    ghost is = { λ bytes declaration. IsDeclaration bytes (declaration_of declaration) × AreDeclared (declaration_of declaration) };

    ghost flaw = { DeclarationFault };

    ghost right = { IsDeclarationUpTo };

    fn of(alloc: Global, bytes: &[u8]) -> (Result<Declaration, RecordFault>, bool) {
        let mut input = Input::new(bytes);
        let read = read_declaration(alloc, &mut input);
        if input.failed() {
            return (Err(UNREAD), true);
        }
        (read, input.ended())
    }
}

impl Kept for Witness {
    ghost is = { λ bytes witness. IsWitness bytes (witness_of witness) };

    ghost flaw = { WitnessFault };

    ghost right = { IsWitnessUpTo };

    fn of(alloc: Global, bytes: &[u8]) -> (Result<Witness, RecordFault>, bool) {
        let mut input = Input::new(bytes);
        let read = read_witness(alloc, &mut input);
        if input.failed() {
            return (Err(UNREAD), true);
        }
        (read, input.ended())
    }
}
