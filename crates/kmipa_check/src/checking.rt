//! The check of a witness.

ghost use Rattle.std.specs.Prelude.{All, List, map};
ghost use Rattle.kmipa_record.specs.Declarations.{AreDeclared, declaration_of};
ghost use Rattle.kmipa_record.specs.Marks.{AreRecorded, MarkOf};
ghost use Rattle.kmipa_record.specs.Transcripts.{transcript_of};
ghost use Rattle.kmipa_record.specs.Witnesses.{witness_of};
ghost use Rattle.kmipa_check.specs.Calls.{AreCalls, IsRecorded, call_of};
ghost use Rattle.kmipa_check.specs.Verdicts.{Checks};

use crate::fault::CheckFault;
use crate::grants::Grants;
use crate::opening::{open_ledger, rules_of_declaration};
use crate::order::steps_of;
use crate::reading::read_calls;
use crate::replay::replay;
use crate::verdict::Verdict;
use kmipa_record::{Call, Declaration, Transcript, Witness};
use std::alloc::Global;

/// Whether some inventory that the declaration describes has a run of all calls in the witness's order that gives every recorded
/// response; else the first turn and item that is impossible, and why.
///
/// All messages are read first, by the calls' begin marks, request before response; then the witness is tested; then the turns are taken.
/// Nothing is claimed of marks that no transcript has.
pub fn check(
    alloc: Global,
    transcript: &Transcript,
    declaration: &Declaration,
    witness: &Witness,
) -> Result<Verdict, CheckFault>
    requires { AreDeclared (declaration_of declaration.now) }
    ensures { AreRecorded (transcript_of transcript.now)
        → Checks (transcript_of transcript.now) (declaration_of declaration.now) (witness_of witness.now) result }
{
    let calls = read_calls(alloc, transcript)?;
    check_calls(alloc, &calls, declaration, witness)
}

/// The same of calls that were read of a transcript before, so that none of its messages is read again.
pub fn check_calls(
    alloc: Global,
    calls: &[Call],
    declaration: &Declaration,
    witness: &Witness,
) -> Result<Verdict, CheckFault>
    requires declared { AreDeclared (declaration_of declaration.now) }
    requires each { (marks : List MarkOf) × All (IsRecorded marks) (map call_of calls.now) }
    ensures { (marks : List MarkOf) → AreRecorded marks → AreCalls marks (map call_of calls.now)
        → Checks marks (declaration_of declaration.now) (witness_of witness.now) result }
{
    let steps = steps_of(alloc, &Grants::of(declaration), calls, &witness.turns)?;
    let rules = rules_of_declaration(alloc, declaration)?;
    let mut ledger = open_ledger(alloc, declaration)?;
    replay(alloc, &mut ledger, &rules, &steps)
}
