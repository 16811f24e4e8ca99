//! What the reason of a no rests on.

ghost use Rattle.std.specs.Prelude.{◌≡◌, ◌<◌, ◌≤◌, IfErr, IfOk, Some, length, map, option_map, slice_get};
ghost use Rattle.kmipa_msgs.specs.Messages.{answer_of};
ghost use Rattle.kmipa_record.specs.Declarations.{declaration_of};
ghost use Rattle.kmipa_batch.specs.Shapes.{is_failed};
ghost use Rattle.kmipa_check.specs.Replays.{AllTakable};
ghost use Rattle.kmipa_check.specs.Steps.{StepOf, step_of};
ghost use Rattle.kmipa_explain.specs.Causes.{AreOperations, FailsFirst, IsShape, IsTurnBefore, TellsCause};
ghost use Rattle.kmipa_explain.specs.Explainable.{HasPair, IsRefusedHere};
ghost use Rattle.kmipa_explain.specs.Reading.{seen_subject};
ghost use Rattle.kmipa_explain.specs.Whence.{TellsSubject};

use crate::calls::earlier_calls;
use crate::explanation::{Cause, Operations, Shape, TurnBefore};
use crate::holding::held_cause;
use crate::places::{answer_at, ask_at};
use crate::subject::Resting;
use kmipa_check::{CheckFault, Step};
use kmipa_msgs::{Answer, Status};
use kmipa_ops::Why;
use kmipa_record::Declaration;
use std::alloc::Global;

/// What the reason rests on for which an item of a turn's call is refused. Turns are counted from 0 here, items from 1.
pub fn cause_of(
    alloc: Global,
    declaration: &Declaration,
    steps: &[Step],
    turn: usize,
    item: usize,
    why: Why,
) -> Result<Resting, CheckFault>
    requires takable { AllTakable (map step_of steps.now) }
    requires refused { (c : StepOf) × IsRefusedHere (declaration_of declaration.now) (map step_of steps.now) turn c item
        why }
    ensures tells { (c : StepOf) → slice_get (map step_of steps.now) turn ≡ Some c
        → IfOk result (λ rest. TellsCause (declaration_of declaration.now) (map step_of steps.now) turn c item why
        rest.cause) }
    ensures subject { (c : StepOf) → slice_get (map step_of steps.now) turn ≡ Some c
        → IfOk result (λ rest. TellsSubject (declaration_of declaration.now) (map step_of steps.now) turn c item why
        rest.cause (option_map seen_subject rest.subject)) }
    ensures memory { IfErr result (λ fault. fault ≡ CheckFault.Memory) }
{
    match why {
        Why::EarlierCallLate => Ok(Resting {
            cause: Cause::EarlierCalls(earlier_calls(alloc, steps, turn)?),
            subject: None,
        }),
        Why::StampRunsBack => Ok(Resting {
            cause: Cause::StampBefore(turn_before(steps, turn)),
            subject: None,
        }),
        Why::BatchShape => Ok(Resting {
            cause: Cause::BatchShape(shape_at(&steps[turn], item)),
            subject: None,
        }),
        Why::OperationDiffers => Ok(Resting {
            cause: Cause::Operations(operations_at(&steps[turn], item)),
            subject: None,
        }),
        _ => held_cause(alloc, declaration, steps, turn, item, why),
    }
}

/// The turn before one, which is counted from 0.
fn turn_before(steps: &[Step], turn: usize) -> TurnBefore
    requires behind { 1 ≤ turn }
    requires within { turn < length steps.now }
    ensures { IsTurnBefore (map step_of steps.now) turn result }
{
    let before = &steps[turn - 1];
    TurnBefore {
        turn,
        call: before.number,
        stamp: before.moment(),
    }
}

/// What the shape of an item is judged by.
fn shape_at(step: &Step, item: usize) -> Shape
    ensures { IsShape (step_of step.now) item result }
{
    let asked = ask_at(step, item).is_some();
    let status = match answer_at(step, item) {
        Some(answer) => Some(answer.status),
        None => None,
    };
    Shape {
        option: step.request().option,
        failed: first_failed(&step.response.response().items),
        asked,
        status,
    }
}

/// The first item that failed, counted from 1.
fn first_failed(answers: &[Answer]) -> Option<usize>
    ensures { FailsFirst (map answer_of answers.now) result }
{
    let mut place = 0;
    'answers: while place < answers.len() {
        if has_failed(&answers[place]) {
            return Some(place + 1);
        }
        place += 1;
    }
    None
}

/// Whether an answer is one of a failure.
fn has_failed(answer: &Answer) -> bool
    ensures { result ≡ is_failed (answer_of answer.now).status }
{
    match answer.status {
        Status::Failed => true,
        Status::Success | Status::Undone => false,
    }
}

/// The operation of an item, as it was asked for and as it was answered.
fn operations_at(step: &Step, item: usize) -> Operations
    requires { HasPair (step_of step.now) item }
    ensures { AreOperations (step_of step.now) item result }
{
    let asked = step.request().items[item - 1].number();
    let answered = step.response.response().items[item - 1].operation;
    Operations { asked, answered }
}
