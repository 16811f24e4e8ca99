//! A step that is taken.

ghost use Rattle.std.specs.Prelude.{◌≡◌, ◌<◌, ◌+◌, ◌^◌, IfOk, IfSome, List, Some, slice_get};
ghost use Rattle.kmipa_batch.specs.Readable.{IsReadableCall};
ghost use Rattle.kmipa_store.specs.Choices.{IsSound};
ghost use Rattle.kmipa_msgs.specs.Messages.{rules_of};
ghost use Rattle.kmipa_check.specs.Deciding.{Decided};
ghost use Rattle.kmipa_check.specs.Places.{MayBeTaken};
ghost use Rattle.kmipa_check.specs.Replays.{TurnTaken};
ghost use Rattle.kmipa_check.specs.Steps.{StepOf, step_of};
ghost use Rattle.kmipa_check.specs.Verdicts.{IsLate, RunsBack};

use kmipa_batch::{CallRefusal, take_call};
use kmipa_check::{CheckFault, Refused, Step};
use kmipa_msgs::Rules;
use kmipa_ops::Why;
use kmipa_store::Ledger;
use std::alloc::Global;

/// Takes the step of a turn, counted from 0, which comes too late, or whose moment runs back, or neither; or says why it is impossible.
pub(crate) fn take_step<L: Ledger>(
    alloc: Global,
    ledger: &mut L,
    rules: &Rules,
    step: &Step,
    turn: usize,
    late: bool,
    back: bool,
) -> Result<Option<Refused>, CheckFault>
    requires below { turn < 2 ^ 63 }
    requires sound { IsSound (L.state ledger.old).now }
    requires readable { IsReadableCall (step_of step.now).request (step_of step.now).response }
    requires takable { MayBeTaken (step_of step.now).request (step_of step.now).response (step_of step.now).places }
    ensures sound { IfOk result (λ refused. IsSound (L.state ledger.new).now) }
    ensures call { IfOk result (λ refused. IfSome refused (λ r. r.call ≡ step.now.number)) }
    ensures taken { (order : List StepOf) → slice_get order turn ≡ Some (step_of step.now)
        → Decided late (IsLate order turn (step_of step.now)) → Decided back (RunsBack order turn (step_of step.now))
        → TurnTaken (rules_of rules.now) order turn (L.state ledger.old).now result (L.state ledger.new).now }
{
    if late {
        return Ok(Some(refused_at(turn, step, 0, Why::EarlierCallLate)));
    }
    if back {
        return Ok(Some(refused_at(turn, step, 0, Why::StampRunsBack)));
    }
    match take_call(
        alloc,
        ledger,
        rules,
        step.request(),
        step.response.response(),
        step.places(),
    ) {
        Ok(()) => Ok(None),
        Err(CallRefusal::Impossible(item, why)) => Ok(Some(refused_at(turn, step, item, why))),
        Err(CallRefusal::Memory) => Err(CheckFault::Memory),
    }
}

/// A turn, counted from 0, that is impossible at an item.
fn refused_at(turn: usize, step: &Step, item: usize, why: Why) -> Refused
    requires { turn < 2 ^ 63 }
    ensures { result ≡ record { turn = turn + 1; call = step.now.number; item = item; why = why } }
{
    Refused {
        turn: turn + 1,
        call: step.number,
        item,
        why,
    }
}
