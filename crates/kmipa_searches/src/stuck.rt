//! The deepest place of a search that gave up, where the calls are plain.

ghost use Rattle.std.specs.Prelude.{ℕ, Ok, Option, Some};
ghost use Rattle.kmipa_record.specs.Declarations.{AreDeclared, declaration_of};
ghost use Rattle.kmipa_record.specs.Marks.{AreRecorded};
ghost use Rattle.kmipa_record.specs.Transcripts.{transcript_of};
ghost use Rattle.kmipa_check.specs.Grants.{GrantsOf};
ghost use Rattle.kmipa_orders.specs.Reached.{HaveSteps};
ghost use Rattle.kmipa_searches.specs.Deciding.{IsOfPlain, TellsDecision, TellsPlaceOf};

use crate::judged::Decision;
use kmipa_check::CheckFault;
use kmipa_orders::{Reached, reached};
use kmipa_record::{Declaration, Transcript};
use std::alloc::Global;

/// The deepest place of a search that gave up, of which this is said: how far the calls of a hint can be taken, and what is told of each that
/// may be next behind them. None where some call isn't plain.
pub fn deepest_place(
    alloc: Global,
    transcript: &Transcript,
    declaration: &Declaration,
    said: &Decision,
    order: &[i32],
) -> Result<Option<Reached>, CheckFault>
    requires { AreDeclared (declaration_of declaration.now) }
    ensures { (g : GrantsOf) (budget count : ℕ) → AreRecorded (transcript_of transcript.now)
        → TellsDecision (transcript_of transcript.now) g budget count (Ok said.now)
        → TellsPlaceOf (transcript_of transcript.now) (declaration_of declaration.now) (Some said.now) result }
{
    match said {
        Decision::Decided => some_place(alloc, transcript, declaration, order),
        Decision::UsedUp(_) => some_place(alloc, transcript, declaration, order),
        Decision::NotPlain(_) => Ok(None),
        Decision::Tolerant(_) => some_place(alloc, transcript, declaration, order),
        Decision::Births => some_place(alloc, transcript, declaration, order),
        Decision::Objects(_) => Ok(None),
        Decision::Impossible => Ok(None),
        Decision::OutOfTime(_) => Ok(None),
    }
}

/// The same of calls that are plain.
fn some_place(
    alloc: Global,
    transcript: &Transcript,
    declaration: &Declaration,
    order: &[i32],
) -> Result<Option<Reached>, CheckFault>
    requires { AreDeclared (declaration_of declaration.now) }
    ensures { AreRecorded (transcript_of transcript.now) → HaveSteps (transcript_of transcript.now)
        → (said : Option Decision) → IsOfPlain (transcript_of transcript.now) said
        → TellsPlaceOf (transcript_of transcript.now) (declaration_of declaration.now) said result }
{
    match reached(alloc, transcript, declaration, order) {
        Ok(place) => Ok(Some(place)),
        Err(fault) => Err(fault),
    }
}
