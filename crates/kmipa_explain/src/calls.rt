//! The calls behind a turn, by when they began and ended.

ghost use Rattle.std.specs.Prelude.{◌≡◌, ◌<◌, ◌++◌, IfOk, OnOk, Some, length, map, slice_get};
ghost use Rattle.kmipa_check.specs.Steps.{StepOf, step_of};
ghost use Rattle.kmipa_explain.specs.Calls.{earlier_calls, is_before, overlapping_calls, overlaps};
ghost use Rattle.kmipa_explain.specs.Kept.{one_if};

use kmipa_check::Step;
use std::alloc::{AllocError, Global};

/// The numbers of the calls behind a turn, counted from 0, that ended before its call began.
pub fn earlier_calls(alloc: Global, steps: &[Step], turn: usize) -> Result<Vec<i32>, AllocError>
    requires { turn < length steps.now }
    ensures { (c : StepOf) → slice_get (map step_of steps.now) turn ≡ Some c
        → IfOk result (λ calls. calls.items ≡ earlier_calls (map step_of steps.now) turn c) }
{
    let step = &steps[turn];
    let mut numbers = Vec::new(alloc);
    let mut place = turn + 1;
    'steps: while place < steps.len() {
        let other = &steps[place];
        note(&mut numbers, other, is_before(other, step))?;
        place += 1;
    }
    Ok(numbers)
}

/// The numbers of the calls behind a turn, counted from 0, that overlap its call.
pub fn overlapping_calls(alloc: Global, steps: &[Step], turn: usize) -> Result<Vec<i32>, AllocError>
    requires { turn < length steps.now }
    ensures { (c : StepOf) → slice_get (map step_of steps.now) turn ≡ Some c
        → IfOk result (λ calls. calls.items ≡ overlapping_calls (map step_of steps.now) turn c) }
{
    let step = &steps[turn];
    let mut numbers = Vec::new(alloc);
    let mut place = turn + 1;
    'steps: while place < steps.len() {
        let other = &steps[place];
        note(&mut numbers, other, overlaps(other, step))?;
        place += 1;
    }
    Ok(numbers)
}

/// Notes the number of a call, where it counts.
fn note(numbers: &mut Vec<i32>, step: &Step, counts: bool) -> Result<(), AllocError>
    ensures { OnOk result (numbers.new.items ≡ numbers.old.items ++ one_if (step_of step.now).number counts) }
{
    if counts {
        numbers.push(step.number)?;
    }
    Ok(())
}

/// Whether neither of two calls ended before the other began.
fn overlaps(a: &Step, b: &Step) -> bool
    ensures { result ≡ overlaps (step_of a.now) (step_of b.now) }
{
    !is_before(a, b) && !is_before(b, a)
}

/// Whether one call ended before another began.
fn is_before(a: &Step, b: &Step) -> bool
    ensures { result ≡ is_before (step_of a.now) (step_of b.now) }
{
    match a.end {
        Some(end) => end < b.begin,
        None => false,
    }
}
