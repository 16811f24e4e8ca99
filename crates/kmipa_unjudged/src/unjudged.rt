//! What of a recording isn't judged.

ghost use Rattle.std.specs.Prelude.{IfOk, map};
ghost use Rattle.kmipa_record.specs.Declarations.{AreDeclared, declaration_of};
ghost use Rattle.kmipa_record.specs.Marks.{AreRecorded};
ghost use Rattle.kmipa_record.specs.Transcripts.{transcript_of};
ghost use Rattle.kmipa_record.specs.Witnesses.{witness_of};
ghost use Rattle.kmipa_unjudged.specs.Told.{named_of};
ghost use Rattle.kmipa_unjudged.specs.Unjudged.{IsUnjudged};

use crate::following::asides_along;
use crate::named::Named;
use crate::passing::passed_along;
use crate::rank::Rank;
use crate::ranking::ranks_of;
use kmipa_check::Grants;
use kmipa_record::{Declaration, Transcript, Witness};
use kmipa_trail::{Fault, steps_of};
use kmipa_turns::{recorded_calls, step_is_takable};
use std::alloc::Global;

/// What of a recording isn't judged.
#[derive(Drop)]
pub struct Unjudged<'a> {
    /// How often each operation was passed, most first.
    pub passed: Vec<Rank>,
    /// Which identifiers are set aside, each with the item since which it is, in the order of turns.
    pub aside: Vec<Named<'a>>,
}

/// What of a recording isn't judged along a witness that a check accepts.
pub fn unjudged_of<'a>(
    alloc: Global,
    transcript: &'a Transcript,
    declaration: &'a Declaration,
    witness: &'a Witness,
) -> Result<Unjudged<'a>, Fault>
    requires { AreDeclared (declaration_of declaration.now) }
    ensures { AreRecorded (transcript_of transcript.now) → IfOk result (λ u. IsUnjudged (transcript_of transcript.now)
        (declaration_of declaration.now) (witness_of witness.now) u.passed.items (map named_of u.aside.items)) }
{
    let grants = Grants::of(declaration);
    let calls = recorded_calls(alloc, transcript)?;
    let steps = steps_of(alloc, &grants, &calls, &witness.turns)?;
    step_is_takable();
    let numbers = passed_along(alloc, &steps)?;
    let passed = ranks_of(alloc, &numbers)?;
    let aside = asides_along(alloc, declaration, &steps)?;
    Ok(Unjudged { passed, aside })
}
