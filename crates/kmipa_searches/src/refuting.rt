//! Whether a search has decided that no order explains a transcript.

ghost use Rattle.std.specs.Prelude.{◌≡◌, ℕ, IfOk, IsTrue, true};
ghost use Rattle.kmipa_record.specs.Declarations.{declaration_of};
ghost use Rattle.kmipa_record.specs.Marks.{AreRecorded};
ghost use Rattle.kmipa_record.specs.Transcripts.{transcript_of};
ghost use Rattle.kmipa_check.specs.Grants.{grants_of};
ghost use Rattle.kmipa_orders.specs.Found.{FindsIn};
ghost use Rattle.kmipa_searches.specs.Deciding.{IsRefuted, TellsDecided};

use crate::deciding::decide;
use crate::judged::Decision;
use kmipa_check::{CheckFault, Grants};
use kmipa_orders::Found;
use kmipa_record::{Declaration, Transcript};
use std::alloc::Global;

/// Whether a search that found this with a budget has decided that no order explains the transcript.
pub fn is_refuted(
    alloc: Global,
    transcript: &Transcript,
    declaration: &Declaration,
    budget: u64,
    found: &Found,
) -> Result<bool, CheckFault>
    ensures { (seconds : ℕ) → AreRecorded (transcript_of transcript.now)
        → FindsIn seconds (transcript_of transcript.now) (declaration_of declaration.now) budget found.now
        → IfOk result (λ refuted. refuted ≡ true
        → IsRefuted (transcript_of transcript.now) (declaration_of declaration.now)) }
{
    match found {
        Found::Yes(_, _) | Found::OutOfTime(_, _) => Ok(false),
        Found::Refuted(_, _) | Found::Impossible(_, _) => Ok(true),
        Found::GaveUp(count) => {
            has_decided(alloc, transcript, Grants::of(declaration), budget, *count)
        }
    }
}

/// Whether a search of this transcript, under a declaration that grants this, which gave up after `count` steps of a budget has decided.
fn has_decided(
    alloc: Global,
    transcript: &Transcript,
    grants: Grants,
    budget: u64,
    count: u64,
) -> Result<bool, CheckFault>
    ensures { AreRecorded (transcript_of transcript.now) → IfOk result (λ decided. decided ≡ true
        → TellsDecided (transcript_of transcript.now) (grants_of grants.entry) budget count) }
{
    let said = decide(alloc, transcript, grants, budget, count)?;
    Ok(matches!(said, Decision::Decided))
}
