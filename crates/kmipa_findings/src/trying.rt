//! Steps that are tried over a ledger.

ghost use Rattle.std.specs.Prelude.{◌≡◌, Err, map};
ghost use Rattle.kmipa_store.specs.Ledger.{LedgerState};
ghost use Rattle.kmipa_store.specs.Choices.{IsSound};
ghost use Rattle.kmipa_msgs.specs.Messages.{RulesOf, rules_of};
ghost use Rattle.kmipa_aside.specs.Sights.{owned_of};
ghost use Rattle.kmipa_turns.specs.Steps.{TakenOf, step_of};
ghost use Rattle.kmipa_trail.specs.Owners.{step_seen};
ghost use Rattle.kmipa_trail.specs.Replays.{StepTaken};
ghost use Rattle.kmipa_findings.specs.Trying.{Advances, IsTakableStep, TriesStep};

use crate::basis::Basis;
use kmipa_batch::CallRefusal;
use kmipa_ops::Why;
use kmipa_store::{Ledger, Mark};
use kmipa_trail::{Fault, take_step};
use kmipa_turns::Step;
use std::alloc::Global;

/// What comes of a step that is tried.
#[derive(Clone, Copy, PartialEq, Eq)]
pub enum Advance {
    /// It is taken, after a mark of this depth.
    Taken(usize),
    /// It is impossible at this item, counted from 1, for this reason.
    Refused(usize, Why),
}

/// Takes a step after a new mark; or it is impossible, and the ledger is as before.
pub(crate) fn try_over<L: Ledger>(
    alloc: Global,
    ledger: &mut L,
    basis: Basis,
    step: &Step,
) -> Result<Advance, Fault>
    requires sound { IsSound (L.state ledger.old).now }
    requires takable { IsTakableStep step.now }
    ensures advances { Advances (L.state ledger.old) result (L.state ledger.new) }
    ensures tries { TriesStep (rules_of basis.entry.rules.now)
        (step_seen (map owned_of basis.entry.owners.now) (step_of step.now)).taken (L.state ledger.old) result (L.state ledger.new) }
{
    let Ok(mark) = ledger.mark() else {
        return Err(Fault::Memory);
    };
    match take_step(alloc, ledger, basis.rules, basis.owners, step) {
        Ok(_) => {
            let Mark { depth } = mark;
            Ok(Advance::Taken(depth))
        }
        Err(refusal) => {
            ledger.back(mark);
            not_taken(refusal)
        }
    }
}

/// What a refusal comes to.
fn not_taken(refusal: CallRefusal) -> Result<Advance, Fault>
    ensures advances { (s u : LedgerState) → u ≡ s → Advances s result u }
    ensures tries { (rules : RulesOf) (taken : TakenOf) (s t u v : LedgerState) → t.now ≡ s.now
        → StepTaken rules t taken (Err refusal) v → TriesStep rules taken s result u }
{
    match refusal {
        CallRefusal::Impossible(item, why) => Ok(Advance::Refused(item, why)),
        CallRefusal::Memory => Err(Fault::Memory),
    }
}
