//! The replay of an order: its steps one at a time, from a ledger.

ghost use Rattle.std.specs.Prelude.{◌≡◌, ◌<◌, ◌^◌, ◌+◌, IfOk, length, map, slice_get, ℕ, Some, Ok, Err};
ghost use Rattle.kmipa_store.specs.Choices.{IsSound};
ghost use Rattle.kmipa_record.specs.Declarations.{DeclarationOf};
ghost use Rattle.kmipa_msgs.specs.Messages.{rules_of};
ghost use Rattle.kmipa_check.specs.Late.{FirstLate};
ghost use Rattle.kmipa_check.specs.Deciding.{Decided};
ghost use Rattle.kmipa_check.specs.Runs.{rules_declared};
ghost use Rattle.kmipa_check.specs.Steps.{StepOf, step_of};
ghost use Rattle.kmipa_check.specs.Verdicts.{RunsBack};
ghost use Rattle.kmipa_check.specs.Replays.{AllTakable, Replayed, TellsRun, TurnTaken};

use crate::fault::CheckFault;
use crate::late::{first_late, is_at};
use crate::step::Step;
use crate::verdict::{Refused, Verdict};
use kmipa_batch::{CallRefusal, take_call};
use kmipa_msgs::Rules;
use kmipa_ops::Why;
use kmipa_store::Ledger;
use std::alloc::Global;

/// Takes the steps one after the other: whether all are possible, or the first that isn't, the item and the lowest reason.
pub fn replay<L: Ledger>(
    alloc: Global,
    ledger: &mut L,
    rules: &Rules,
    steps: &[Step],
) -> Result<Verdict, CheckFault>
    requires sound { IsSound (L.state ledger.old).now }
    requires takable { AllTakable (map step_of steps.now) }
    ensures told { (declared : DeclarationOf) → rules_of rules.now ≡ rules_declared declared
        → Replayed declared (map step_of steps.now) 0 (L.state ledger.old).now
        → TellsRun declared (map step_of steps.now) result }
    // At a yes it is this ledger that knows what they leave.
    ensures leaves { (declared : DeclarationOf) → rules_of rules.now ≡ rules_declared declared
        → Replayed declared (map step_of steps.now) 0 (L.state ledger.old).now
        → result ≡ Ok Verdict.Yes
        → Replayed declared (map step_of steps.now) (length (map step_of steps.now)) (L.state ledger.new).now }
    ensures sound { IfOk result (λ verdict. verdict ≡ Verdict.Yes → IsSound (L.state ledger.new).now) }
{
    let late = first_late(steps);
    let mut turn = 0;
    'turns: while turn < steps.len() {
        match take_turn(alloc, ledger, rules, steps, late, turn) {
            Ok(None) => {}
            Ok(Some(refused)) => return Ok(Verdict::No(refused)),
            Err(fault) => return Err(fault),
        }
        turn += 1;
    }
    Ok(Verdict::Yes)
}

/// Takes the step of a turn; or says why it is impossible.
fn take_turn<L: Ledger>(
    alloc: Global,
    ledger: &mut L,
    rules: &Rules,
    steps: &[Step],
    late: Option<usize>,
    turn: usize,
) -> Result<Option<Refused>, CheckFault>
    requires below { turn < length steps.now }
    requires late { FirstLate (map step_of steps.now) late }
    requires sound { IsSound (L.state ledger.old).now }
    requires takable { AllTakable (map step_of steps.now) }
    ensures sound { IfOk result (λ refused. IsSound (L.state ledger.new).now) }
    ensures taken { TurnTaken (rules_of rules.now) (map step_of steps.now) turn (L.state ledger.old).now result
        (L.state ledger.new).now }
{
    let step = &steps[turn];
    if is_at(late, turn) {
        return Ok(Some(refused_turn(turn, step, Why::EarlierCallLate)));
    }
    if runs_back(steps, turn) {
        return Ok(Some(refused_turn(turn, step, Why::StampRunsBack)));
    }
    match take_call(
        alloc,
        ledger,
        rules,
        step.request(),
        step.response.response(),
        step.places(),
    ) {
        Ok(()) => Ok(None),
        Err(refusal) => refused_call(turn, step, refusal),
    }
}

/// A turn, counted from 0, that is impossible itself.
pub(crate) fn refused_turn(turn: usize, step: &Step, why: Why) -> Refused
    requires { turn < 2 ^ 63 }
    ensures { result ≡ record { turn = turn + 1; call = step.now.number; item = 0; why = why } }
{
    Refused {
        turn: turn + 1,
        call: step.number,
        item: 0,
        why,
    }
}

/// A turn, counted from 0, whose call was not taken.
fn refused_call(
    turn: usize,
    step: &Step,
    refusal: CallRefusal,
) -> Result<Option<Refused>, CheckFault>
    requires { turn < 2 ^ 63 }
    ensures item { (item : ℕ) (why : Why) → refusal ≡ CallRefusal.Impossible item why
        → result ≡ Ok (Some (record { turn = turn + 1; call = step.now.number; item = item; why = why })) }
    ensures memory { refusal ≡ CallRefusal.Memory → result ≡ Err CheckFault.Memory }
{
    match refusal {
        CallRefusal::Impossible(item, why) => Ok(Some(Refused {
            turn: turn + 1,
            call: step.number,
            item,
            why,
        })),
        CallRefusal::Memory => Err(CheckFault::Memory),
    }
}

/// Whether the moment of a turn's step is less than that of the turn before.
fn runs_back(steps: &[Step], turn: usize) -> bool
    requires below { turn < length steps.now }
    ensures { (s : StepOf) → slice_get (map step_of steps.now) turn ≡ Some s
        → Decided result (RunsBack (map step_of steps.now) turn s) }
{
    if turn == 0 {
        return false;
    }
    let now = steps[turn].moment();
    let last = steps[turn - 1].moment();
    now < last
}
