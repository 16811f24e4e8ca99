//! Laws of the three files: bytes are one file, or have one first fault.

ghost use Rattle.std.specs.Prelude.{◌≡◌, ℕ, List, true};
ghost use Rattle.kmipa_record.specs.Declarations.{DeclarationOf, IsDeclarationWithin, DeclarationFaultWithin};
ghost use Rattle.kmipa_record.specs.Marks.{MarkOf};
ghost use Rattle.kmipa_record.specs.Seals.{HeadOf, LabelOf, Sealed, SealedOf};
ghost use Rattle.kmipa_record.specs.Torn.{SealedAhead};
ghost use Rattle.kmipa_record.specs.Transcripts.{IsTranscript, TranscriptFault};
ghost use Rattle.kmipa_record.specs.Witnesses.{TurnOf, IsWitness, WitnessFault};
ghost use Rattle.kmipa_record.specs.declared.fault.RecordKind.{RecordKind};
ghost use Rattle.kmipa_record.specs.declared.reach.Reach.{Reach};

/// Bytes are a transcript of one list of marks at most.
pub fn one_transcript()
    ensures { (bytes : List ℕ) (marks others : List MarkOf) → IsTranscript bytes marks → IsTranscript bytes others
        → marks ≡ others }
{}

/// The bytes of a transcript have no fault.
pub fn no_fault_of_transcript()
    ensures { (bytes : List ℕ) (marks : List MarkOf) (offset : ℕ) (kind : RecordKind) → IsTranscript bytes marks
        → ¬ (TranscriptFault bytes offset kind) }
{}

/// Bytes have one first fault as a transcript at most.
pub fn one_transcript_fault()
    ensures { (bytes : List ℕ) (o p : ℕ) (j k : RecordKind) → TranscriptFault bytes o j → TranscriptFault bytes p k
        → (o ≡ p) × (j ≡ k) }
{}

/// Bytes are a declaration of one thing at most.
pub fn one_declaration()
    ensures { (reach : Reach) (bytes : List ℕ) (declared other : DeclarationOf)
        → IsDeclarationWithin reach bytes declared → IsDeclarationWithin reach bytes other → declared ≡ other }
{}

/// The bytes of a declaration have no fault.
pub fn no_fault_of_declaration()
    ensures { (reach : Reach) (bytes : List ℕ) (declared : DeclarationOf) (offset : ℕ) (kind : RecordKind)
        → IsDeclarationWithin reach bytes declared → ¬ (DeclarationFaultWithin reach bytes offset kind) }
{}

/// Bytes have one first fault as a declaration at most.
pub fn one_declaration_fault()
    ensures { (reach : Reach) (bytes : List ℕ) (o p : ℕ) (j k : RecordKind) → DeclarationFaultWithin reach bytes o j
        → DeclarationFaultWithin reach bytes p k → (o ≡ p) × (j ≡ k) }
{}

/// Bytes are a witness of one list of turns at most.
pub fn one_witness()
    ensures { (bytes : List ℕ) (turns others : List TurnOf) → IsWitness bytes turns → IsWitness bytes others
        → turns ≡ others }
{}

/// The bytes of a witness have no fault.
pub fn no_fault_of_witness()
    ensures { (bytes : List ℕ) (turns : List TurnOf) (offset : ℕ) (kind : RecordKind) → IsWitness bytes turns
        → ¬ (WitnessFault bytes offset kind) }
{}

/// Bytes have one first fault as a witness at most.
pub fn one_witness_fault()
    ensures { (bytes : List ℕ) (o p : ℕ) (j k : RecordKind) → WitnessFault bytes o j → WitnessFault bytes p k → (o ≡ p)
        × (j ≡ k) }
{}

/// Where an unbroken run of records has its close, it is one up to the seal ahead of the close, too.
pub fn sealed_ahead_of_close()
    ensures { (bytes : List ℕ) (label : LabelOf) (records : List SealedOf) (head : HeadOf)
        → Sealed bytes label records head → head.closed ≡ true → SealedAhead bytes label head.ahead }
{}
