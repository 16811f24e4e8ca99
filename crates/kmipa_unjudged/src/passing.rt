//! The items that are passed.

ghost use Rattle.std.specs.Prelude.{◌≡◌, ◌++◌, ℕ, List, IfOk, OnOk, map};
ghost use Rattle.kmipa_places.specs.Places.{place_of};
ghost use Rattle.kmipa_turns.specs.Steps.{step_of};
ghost use Rattle.kmipa_unjudged.specs.Passing.{passed_along, passed_among, passed_at, passed_by, passed_in, passed_judged, with_number};

use kmipa_msgs::Operation;
use kmipa_places::{By, Place, is_judged_operation};
use kmipa_turns::{Step, Taken};
use std::alloc::{AllocError, Global};

/// The operations of the items that were passed along these steps, one by one.
pub(crate) fn passed_along(alloc: Global, steps: &[Step]) -> Result<Vec<u32>, AllocError>
    ensures { IfOk result (λ numbers. numbers.items ≡ passed_along (map step_of steps.now)) }
{
    let mut numbers = Vec::new(alloc);
    'steps: for step in steps {
        push_passed(step, &mut numbers)?;
    }
    Ok(numbers)
}

/// Those of one step. Of a call that can't be read no item is told.
fn push_passed(step: &Step, numbers: &mut Vec<u32>) -> Result<(), AllocError>
    ensures { OnOk result (numbers.new.items ≡ numbers.old.items ++ passed_in (step_of step.now).taken) }
{
    match &step.taken {
        Taken::Leaves(_, _) => Ok(()),
        Taken::Takes(call, _) => push_among(call.places.as_slice(), numbers),
    }
}

/// Those of these places.
fn push_among(places: &[Place], numbers: &mut Vec<u32>) -> Result<(), AllocError>
    ensures { OnOk result (numbers.new.items ≡ numbers.old.items ++ passed_among (map place_of places.now)) }
{
    'places: for place in places {
        push_maybe(passed_at(place), numbers)?;
    }
    Ok(())
}

/// A number, where there is one.
fn push_maybe(number: Option<u32>, numbers: &mut Vec<u32>) -> Result<(), AllocError>
    ensures { OnOk result ((rest : List ℕ)
        → numbers.new.items ++ rest ≡ numbers.old.items ++ with_number number rest) }
{
    if let Some(number) = number {
        numbers.push(number)?;
    }
    Ok(())
}

/// The operation of a place that isn't judged, by its request or by its answer.
fn passed_at(place: &Place) -> Option<u32>
    ensures { result ≡ passed_at (place_of place.now) }
{
    match place {
        Place::Judged(ask, _) => passed_judged(ask.operation()),
        Place::Passed(by, passed) => passed_by(*by, passed.asks),
    }
}

/// An operation of a place that is judged, where it is none of those that are.
fn passed_judged(operation: Operation) -> Option<u32>
    ensures { result ≡ passed_judged operation }
{
    if is_judged_operation(operation) {
        None
    } else {
        Some(operation.number())
    }
}

/// The operation of a place that is passed, unless the witness alone sets it aside.
fn passed_by(by: By, number: u32) -> Option<u32>
    ensures { result ≡ passed_by by number }
{
    if !is_judged_operation(Operation::of(number)) {
        return Some(number);
    }
    match by {
        By::Request | By::Answer => Some(number),
        By::Witness => None,
    }
}
