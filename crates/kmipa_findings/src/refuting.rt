//! Whether a search beside what is set aside decides that no order of the calls explains every answer.

ghost use Rattle.std.specs.Prelude.{◌≡◌, ℕ, List, IfOk, IsTrue, true};
ghost use Rattle.kmipa_msgs.specs.declared.rules.Visibility.TheVariants.{Everyone};
ghost use Rattle.kmipa_record.specs.Declarations.{AreDeclared, DeclarationOf, declaration_of};
ghost use Rattle.kmipa_record.specs.Marks.{AreRecorded, MarkOf};
ghost use Rattle.kmipa_record.specs.Transcripts.{transcript_of};
ghost use Rattle.kmipa_check.specs.Grants.{GrantsNothing, grants_declared};
ghost use Rattle.kmipa_findings.specs.Choices.{IsPlainBeside};
ghost use Rattle.kmipa_findings.specs.Findings.{IsUnexplained};
ghost use Rattle.kmipa_findings.specs.Seeking.{IsDecided, Seeks};

use crate::deciding::grants_nothing;
use crate::forced::is_plain_beside;
use crate::pace::Pace;
use crate::seeking::{Sought, seek};
use kmipa_msgs::Visibility;
use kmipa_record::{Declaration, Transcript};
use kmipa_trail::Fault;
use std::alloc::Global;

/// Whether a search beside what is set aside decides that no order of the calls explains every answer, trying fewer calls than `budget`, in the time that
/// `pace` has.
pub fn is_refuted<P: Pace>(
    alloc: Global,
    transcript: &Transcript,
    declaration: &Declaration,
    budget: u64,
    pace: &mut P,
) -> Result<bool, Fault>
    requires { AreDeclared (declaration_of declaration.now) }
    ensures told { AreRecorded (transcript_of transcript.now) → IfOk result (λ refuted. refuted ≡ true
        → IsUnexplained (transcript_of transcript.now) (declaration_of declaration.now)) }
    ensures paced { P.seconds pace.new ≡ P.seconds pace.old }
{
    let sought = seek(alloc, transcript, declaration, budget, pace)?;
    is_refuted_by(alloc, transcript, declaration, &sought, budget)
}

/// Whether a search that came to this with a budget decides so. It does where it gave up with fewer tries, the recording is plain beside what is set aside,
/// nothing is granted, and each client sees every object.
pub fn is_refuted_by(
    alloc: Global,
    transcript: &Transcript,
    declaration: &Declaration,
    sought: &Sought,
    budget: u64,
) -> Result<bool, Fault>
    ensures { (seconds : ℕ) → AreRecorded (transcript_of transcript.now)
        → Seeks seconds budget (transcript_of transcript.now) (declaration_of declaration.now) sought.now
        → IfOk result (λ refuted. refuted ≡ true
        → IsUnexplained (transcript_of transcript.now) (declaration_of declaration.now)) }
{
    if !has_decided(sought, budget) {
        return Ok(false);
    }
    can_decide(alloc, transcript, declaration)
}

/// Whether a search with this budget has decided, where it can: it gave up after fewer tries.
fn has_decided(sought: &Sought, budget: u64) -> bool
    ensures { (seconds : ℕ) (marks : List MarkOf) (declared : DeclarationOf) → Seeks seconds budget marks declared sought.now
        → IsTrue result → IsDecided marks declared }
{
    match sought {
        Sought::GaveUp(steps) => *steps < budget,
        Sought::Found(_) | Sought::OutOfTime(_, _) => false,
    }
}

/// Whether such a search can decide.
fn can_decide(
    alloc: Global,
    transcript: &Transcript,
    declaration: &Declaration,
) -> Result<bool, Fault>
    ensures { AreRecorded (transcript_of transcript.now) → IfOk result (λ can. IsTrue can
        → IsPlainBeside (transcript_of transcript.now) (declaration_of declaration.now)
        × GrantsNothing (grants_declared (declaration_of declaration.now))
        × (declaration.now.settings.visibility ≡ Everyone)) }
{
    if !sees_all(declaration.settings.visibility) {
        return Ok(false);
    }
    if !grants_nothing(declaration) {
        return Ok(false);
    }
    is_plain_beside(alloc, transcript, declaration)
}

/// Whether each client sees every object.
fn sees_all(visibility: Visibility) -> bool
    ensures { IsTrue result → visibility ≡ Everyone }
{
    match visibility {
        Visibility::Everyone => true,
        Visibility::MayHide | Visibility::MustHide => false,
    }
}
