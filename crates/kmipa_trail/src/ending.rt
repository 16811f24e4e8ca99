//! The check of a witness where what isn't judged ends the audit, and not every client sees every object.

ghost use Rattle.std.specs.Prelude.{◌≡◌, [], map};
ghost use Rattle.kmipa_store.specs.Choices.{IsSound};
ghost use Rattle.kmipa_msgs.specs.Messages.{rules_of};
ghost use Rattle.kmipa_record.specs.Declarations.{DeclarationOf};
ghost use Rattle.kmipa_record.specs.Marks.{AreRecorded};
ghost use Rattle.kmipa_record.specs.Transcripts.{transcript_of};
ghost use Rattle.kmipa_record.specs.Witnesses.{witness_of};
ghost use Rattle.kmipa_check.specs.Grants.{grants_declared, grants_of};
ghost use Rattle.kmipa_check.specs.Runs.{rules_declared};
ghost use Rattle.kmipa_aside.specs.Sights.{owned_of};
ghost use Rattle.kmipa_trail.specs.Ending.{ChecksInSight};
ghost use Rattle.kmipa_trail.specs.Leading.{AreKnown};
ghost use Rattle.kmipa_trail.specs.Owners.{owners_at_first};

use crate::replaying::replay;
use crate::terms::Terms;
use crate::verdict::Verdict;
use crate::whole::whole_steps;
use kmipa_check::{CheckFault, read_calls, steps_of};
use kmipa_record::{Transcript, Witness};
use kmipa_store::Ledger;
use std::alloc::Global;

/// Whether some world that the declaration describes has a run of all calls in the witness's order that gives every recorded response; else the first turn
/// and item that is impossible, and why.
///
/// The first message that is outside is told first, and then the first fault of the witness, as where each client sees every object. The ledger stands for
/// the worlds that the declaration describes; so nothing is set aside in it.
pub fn check_in_sight<'a, L: Ledger>(
    alloc: Global,
    ledger: &mut L,
    terms: Terms<'_, '_, 'a>,
    transcript: &'a Transcript,
    witness: &'a Witness,
) -> Result<Verdict, CheckFault>
    requires { IsSound (L.state ledger.old).now }
    ensures { (declared : DeclarationOf) → rules_of terms.entry.rules.now ≡ rules_declared declared
        → grants_of terms.entry.grants.now ≡ grants_declared declared
        → map owned_of terms.entry.owners.items ≡ owners_at_first declared.settings.visibility declared.entries
        → AreKnown declared [] (L.state ledger.old).now → AreRecorded (transcript_of transcript.now)
        → ChecksInSight (transcript_of transcript.now) declared (witness_of witness.now) result }
{
    let Terms {
        rules,
        grants,
        owners,
    } = terms;
    let calls = read_calls(alloc, transcript)?;
    let steps = steps_of(alloc, grants, &calls, &witness.turns)?;
    let whole = whole_steps(alloc, transcript, &steps)?;
    match replay(alloc, ledger, rules, owners, &whole) {
        Ok(verdict) => Ok(verdict),
        Err(_) => Err(CheckFault::Memory),
    }
}
