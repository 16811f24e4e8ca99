//! The check of a witness.

ghost use Rattle.std.specs.Prelude.{◌≡◌, [], map};
ghost use Rattle.kmipa_store.specs.Choices.{IsSound};
ghost use Rattle.kmipa_msgs.specs.Messages.{rules_of};
ghost use Rattle.kmipa_record.specs.Declarations.{AreDeclared, DeclarationOf, declaration_of};
ghost use Rattle.kmipa_record.specs.Marks.{AreRecorded};
ghost use Rattle.kmipa_record.specs.Transcripts.{transcript_of};
ghost use Rattle.kmipa_record.specs.Witnesses.{witness_of};
ghost use Rattle.kmipa_check.specs.Grants.{grants_declared, grants_of};
ghost use Rattle.kmipa_check.specs.Runs.{rules_declared};
ghost use Rattle.kmipa_trail.specs.Leading.{AreKnown};
ghost use Rattle.kmipa_aside.specs.Sights.{owned_of};
ghost use Rattle.kmipa_trail.specs.Owners.{owners_at_first};
ghost use Rattle.kmipa_trail.specs.Verdicts.{Checks};

use crate::fault::Fault;
use crate::opening::open_world;
use crate::order::steps_of;
use crate::owners::owners_at_first;
use crate::replaying::replay;
use crate::terms::Terms;
use crate::verdict::Verdict;
use kmipa_check::{Grants, rules_of_declaration};
use kmipa_msgs::Rules;
use kmipa_record::{Declaration, Transcript, Witness};
use kmipa_store::Ledger;
use kmipa_turns::{recorded_calls, step_is_takable};
use std::alloc::Global;

/// Whether some world that the declaration describes has a run of all calls in the witness's order that gives every recorded response that is
/// judged, and how many items are; else the first turn and item that is impossible, and why.
///
/// The witness is tested first; then the turns are taken. What isn't judged is set aside, and so is what a turn says, whatever the declaration
/// says of it: where that ends the audit, `kmipa_check` checks. Nothing is claimed of marks that no transcript has.
pub fn check(
    alloc: Global,
    transcript: &Transcript,
    declaration: &Declaration,
    witness: &Witness,
) -> Result<Verdict, Fault>
    requires { AreDeclared (declaration_of declaration.now) }
    ensures { AreRecorded (transcript_of transcript.now)
        → Checks (transcript_of transcript.now) (declaration_of declaration.now) (witness_of witness.now) result }
{
    let grants = Grants::of(declaration);
    let rules = rules_of_declaration(alloc, declaration)?;
    let mut ledger = open_world(alloc, declaration)?;
    let owners = owners_at_first(alloc, rules.visibility, &declaration.entries)?;
    let terms = Terms {
        rules: &rules,
        grants: &grants,
        owners,
    };
    check_opened(alloc, &mut ledger, terms, transcript, witness)
}

/// The same, from a ledger that stands for the worlds that a declaration describes, by its terms.
pub fn check_opened<'a, L: Ledger>(
    alloc: Global,
    ledger: &mut L,
    terms: Terms<'_, '_, 'a>,
    transcript: &'a Transcript,
    witness: &'a Witness,
) -> Result<Verdict, Fault>
    requires { IsSound (L.state ledger.old).now }
    ensures { (declared : DeclarationOf) → rules_of terms.entry.rules.now ≡ rules_declared declared
        → grants_of terms.entry.grants.now ≡ grants_declared declared
        → map owned_of terms.entry.owners.items ≡ owners_at_first declared.settings.visibility declared.entries
        → AreKnown declared [] (L.state ledger.old).now → AreRecorded (transcript_of transcript.now)
        → Checks (transcript_of transcript.now) declared (witness_of witness.now) result }
{
    let Terms {
        rules,
        grants,
        owners,
    } = terms;
    let calls = recorded_calls(alloc, transcript)?;
    let steps = steps_of(alloc, grants, &calls, &witness.turns)?;
    step_is_takable();
    replay(alloc, ledger, rules, owners, &steps)
}
