//! What takes the records of a declaration while it is read.

ghost use Rattle.std.specs.Prelude.{MatchResult};
ghost use Rattle.kmipa_record.specs.DeclarationRecords.{RecordOf, IsFit};
ghost use Rattle.kmipa_record.specs.Declarations.{DeclarationOf, MayFollow, with_record};
ghost use Rattle.kmipa_record.specs.Taking.{record_of, Refuses};

use crate::declaration_record::DeclarationRecord;
use crate::fault::RecordKind;

/// What takes the records of a declaration, one after the other.
///
/// # Laws
/// A refusal is for memory, or the record may not stand behind those before it. None is given after a refusal.
pub trait TakesRecords {
    /// What it took stands for this declaration. Of settings it says nothing.
    ghost holds: { Self → DeclarationOf → Type 0 };

    /// The records that it takes.
    ghost takes: { RecordOf → Type 0 };

    /// Puts a record behind the others, or says what is wrong with it.
    fn take(&mut self, given: DeclarationRecord) -> Result<(), RecordKind>
        requires held { (declared : DeclarationOf) × holds self.old declared }
        requires fit { IsFit (record_of given) }
        requires takes { takes (record_of given) }
        ensures { (declared : DeclarationOf) → holds self.old declared
            → MatchResult result
            (λ _. MayFollow declared (record_of given) × holds self.new (with_record declared (record_of given)))
            (Refuses declared (record_of given)) };
}
