//! What a server can have held where an item was refused: the turns ahead and the items ahead are taken once more.

ghost use Rattle.std.specs.Prelude.{◌≡◌, ◌<◌, ◌≤◌, ◌+◌, [], IfErr, IfOk, None, Ok, Some, length, map, slice_get, take, ℕ};
ghost use Rattle.kmipa_store.specs.Choices.{IsSound};
ghost use Rattle.kmipa_msgs.specs.Messages.{rules_of};
ghost use Rattle.kmipa_record.specs.Declarations.{AreDeclared, DeclarationOf, declaration_of};
ghost use Rattle.kmipa_ops.specs.Placeholders.{placeholder_of};
ghost use Rattle.kmipa_batch.specs.Calls.{pairs_of};
ghost use Rattle.kmipa_batch.specs.Readable.{AreReadable, IsReadableCall};
ghost use Rattle.kmipa_batch.specs.Refusals.{CallExplainsAlong};
ghost use Rattle.kmipa_batch.specs.Running.{PairTaken};
ghost use Rattle.kmipa_check.specs.Places.{MayBeTaken};
ghost use Rattle.kmipa_check.specs.Replays.{AllTakable};
ghost use Rattle.kmipa_check.specs.Runs.{rules_declared};
ghost use Rattle.kmipa_check.specs.Steps.{StepOf, order_of, step_of};
ghost use Rattle.kmipa_check.specs.Verdicts.{AreKnown};
ghost use Rattle.kmipa_explain.specs.Replaying.{IsItemRefused, IsLedAhead, IsStanding, IsTakenAt};

use crate::items::{count_of, place_at};
use kmipa_batch::take_call;
use kmipa_check::{CheckFault, Step, declaration_left, open_ledger, rules_of_declaration};
use kmipa_msgs::Rules;
use kmipa_ops::{Placeholder, Why, take};
use kmipa_record::Declaration;
use kmipa_store::Ledger;
use std::alloc::Global;

/// What a server can have held where an item was refused.
#[derive(Drop)]
pub(crate) struct Standing {
    /// It describes exactly the inventories that stand there.
    pub held: Declaration,
    /// What the ID Placeholder holds there.
    pub placeholder: Placeholder,
}

/// Where an item is refused, turn and item counted from 0, and the reason, which is only told of, in the clauses.
#[derive(Clone, Copy)]
struct RefusedPlace {
    turn: usize,
    place: usize,
    why: Why,
}

/// What a server of this declaration can have held where the item of a turn was refused, turn and item counted from 0. The reason is
/// only told of, in the clauses.
pub(crate) fn standing_at(
    alloc: Global,
    declaration: &Declaration,
    steps: &[Step],
    turn: usize,
    place: usize,
    why: Why,
) -> Result<Standing, CheckFault>
    requires takable { AllTakable (map step_of steps.now) }
    requires refused { (c : StepOf) × IsItemRefused (declaration_of declaration.now) (map step_of steps.now) turn c
        place why }
    ensures stands { (c : StepOf) → slice_get (map step_of steps.now) turn ≡ Some c
        → IfOk result (λ s. IsStanding (declaration_of declaration.now) (map step_of steps.now) turn c (place + 1) why
        (declaration_of s.held) (placeholder_of s.placeholder)) }
    ensures memory { IfErr result (λ fault. fault ≡ CheckFault.Memory) }
{
    let rules = rules_of_declaration(alloc, declaration)?;
    let mut ledger = open_ledger(alloc, declaration)?;
    let refused = RefusedPlace { turn, place, why };
    standing_over(alloc, &mut ledger, &rules, declaration, steps, refused)
}

/// The same over a ledger that the declaration opened.
fn standing_over<L: Ledger>(
    alloc: Global,
    ledger: &mut L,
    rules: &Rules,
    declaration: &Declaration,
    steps: &[Step],
    refused: RefusedPlace,
) -> Result<Standing, CheckFault>
    requires within { refused.turn < length steps.now }
    requires sound { IsSound (L.state ledger.old).now }
    requires opened { AreKnown (declaration_of declaration.now) [] (L.state ledger.old).now }
    requires rules { rules_of rules.now ≡ rules_declared (declaration_of declaration.now) }
    requires takable { AllTakable (map step_of steps.now) }
    requires refused { (c : StepOf) × IsItemRefused (declaration_of declaration.now) (map step_of steps.now) refused.turn c
        refused.place refused.why }
    ensures stands { (c : StepOf) → slice_get (map step_of steps.now) refused.turn ≡ Some c
        → IfOk result (λ s. IsStanding (declaration_of declaration.now) (map step_of steps.now) refused.turn c (refused.place + 1) refused.why
        (declaration_of s.held) (placeholder_of s.placeholder)) }
    ensures memory { IfErr result (λ fault. fault ≡ CheckFault.Memory) }
{
    let RefusedPlace { turn, place, .. } = refused;
    take_turns(alloc, ledger, rules, steps, turn)?;
    let mut placeholder = Placeholder::new();
    take_ahead(alloc, ledger, rules, &mut placeholder, &steps[turn], place)?;
    let held = declaration_left(alloc, ledger, declaration)?;
    Ok(Standing { held, placeholder })
}

/// Takes the first turns.
fn take_turns<L: Ledger>(
    alloc: Global,
    ledger: &mut L,
    rules: &Rules,
    steps: &[Step],
    count: usize,
) -> Result<(), CheckFault>
    requires within { count ≤ length steps.now }
    requires sound { IsSound (L.state ledger.old).now }
    requires takable { AllTakable (map step_of steps.now) }
    ensures known { IfOk result (λ done. (declared : DeclarationOf) → rules_of rules.now ≡ rules_declared declared
        → AreKnown declared [] (L.state ledger.old).now
        → AreKnown declared (take count (map step_of steps.now)) (L.state ledger.new).now) }
    ensures sound { IfOk result (λ done. IsSound (L.state ledger.new).now) }
    ensures memory { IfErr result (λ fault. fault ≡ CheckFault.Memory) }
{
    let mut turn = 0;
    'turns: while turn < count {
        take_step(alloc, ledger, rules, &steps[turn])?;
        turn += 1;
    }
    Ok(())
}

/// Takes the call of a turn.
fn take_step<L: Ledger>(
    alloc: Global,
    ledger: &mut L,
    rules: &Rules,
    step: &Step,
) -> Result<(), CheckFault>
    requires sound { IsSound (L.state ledger.old).now }
    requires readable { IsReadableCall (step_of step.now).request (step_of step.now).response }
    requires order { MayBeTaken (step_of step.now).request (step_of step.now).response (step_of step.now).places }
    ensures explains { IfOk result (λ done. CallExplainsAlong (rules_of rules.now) (L.state ledger.old).now
        (step_of step.now).request (step_of step.now).response (order_of (step_of step.now)) (L.state ledger.new).now) }
    ensures sound { IfOk result (λ done. IsSound (L.state ledger.new).now) }
    ensures memory { IfErr result (λ fault. fault ≡ CheckFault.Memory) }
{
    match take_call(
        alloc,
        ledger,
        rules,
        step.request(),
        step.response.response(),
        step.places(),
    ) {
        Ok(()) => Ok(()),
        Err(_) => Err(CheckFault::Memory),
    }
}

/// Takes the items of a call that are taken ahead of the one at this place, from an empty placeholder.
fn take_ahead<L: Ledger>(
    alloc: Global,
    ledger: &mut L,
    rules: &Rules,
    placeholder: &mut Placeholder,
    step: &Step,
    place: usize,
) -> Result<(), CheckFault>
    requires sound { IsSound (L.state ledger.old).now }
    requires readable { AreReadable (pairs_of (step_of step.now).request (step_of step.now).response) }
    requires order { MayBeTaken (step_of step.now).request (step_of step.now).response (step_of step.now).places }
    requires there { (position : ℕ) × IsTakenAt (step_of step.now) place position }
    requires empty { placeholder_of placeholder.old ≡ None }
    ensures led { IfOk result (λ done. IsLedAhead (rules_of rules.now) (step_of step.now) place (L.state ledger.old).now
        (L.state ledger.new).now (placeholder_of placeholder.new)) }
    ensures memory { IfErr result (λ fault. fault ≡ CheckFault.Memory) }
{
    let count = position_of(step, place);
    let mut position = 0;
    'items: while position < count {
        let next = place_at(step, position);
        take_item(alloc, ledger, rules, placeholder, step, next)?;
        position += 1;
    }
    Ok(())
}

/// The position at which the item at a place is taken.
fn position_of(step: &Step, place: usize) -> usize
    requires { (position : ℕ) × IsTakenAt (step_of step.now) place position }
    ensures { IsTakenAt (step_of step.now) place result }
{
    let count = count_of(step);
    let mut position = 0;
    'places: while position < count {
        if place_at(step, position) == place {
            return position;
        }
        position += 1;
    }
    count
}

/// Takes the item at a place, where both an item and its answer stand there.
fn take_item<L: Ledger>(
    alloc: Global,
    ledger: &mut L,
    rules: &Rules,
    placeholder: &mut Placeholder,
    step: &Step,
    place: usize,
) -> Result<(), CheckFault>
    requires sound { IsSound (L.state ledger.old).now }
    requires readable { AreReadable (pairs_of (step_of step.now).request (step_of step.now).response) }
    ensures taken { IfOk result (λ done. PairTaken (rules_of rules.now) (L.state ledger.old)
        (placeholder_of placeholder.old) (step_of step.now).response.stamp
        (slice_get (pairs_of (step_of step.now).request (step_of step.now).response) place) (Ok tt) (L.state ledger.new)
        (placeholder_of placeholder.new)) }
    ensures memory { IfErr result (λ fault. fault ≡ CheckFault.Memory) }
{
    let Some(ask) = step.request().items.get(place) else {
        return Ok(());
    };
    let Some(answer) = step.response.response().items.get(place) else {
        return Ok(());
    };
    match take(
        alloc,
        ledger,
        rules,
        placeholder,
        step.moment(),
        ask,
        answer,
    ) {
        Ok(()) => Ok(()),
        Err(_) => Err(CheckFault::Memory),
    }
}
