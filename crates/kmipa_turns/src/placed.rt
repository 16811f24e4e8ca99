//! The places that a turn gives: the order in which the items of its call are taken.

ghost use Rattle.std.specs.Prelude.{◌↔◌, IsTrue, MatchResult, option_map};
ghost use Rattle.kmipa_places.specs.Calls.{read_of};
ghost use Rattle.kmipa_record.specs.Entries.{items_of};
ghost use Rattle.kmipa_turns.specs.Steps.{WantsOrder};
ghost use Rattle.kmipa_turns.specs.Turning.{AreTaken, PlacesRefused};

use kmipa_bundle::{is_taking_order, is_unordered};
use kmipa_check::{StepFault, WitnessKind, places_of};
use kmipa_places::Readable;
use std::alloc::Global;

/// The places that a turn gives, where the items of its call may be taken in their order; `None` where it gives none.
pub fn places_given(
    alloc: Global,
    said: &Readable,
    numbers: &[i32],
) -> Result<Option<Vec<usize>>, StepFault>
    ensures { MatchResult result (λ places. AreTaken (read_of said.now) numbers.now (option_map items_of places))
        (PlacesRefused (read_of said.now) numbers.now) }
{
    if numbers.is_empty() {
        return Ok(None);
    }
    if !wants_order(said) {
        return Err(StepFault::Unfit(WitnessKind::OrderNotWanted));
    }
    let Some(order) = places_of(alloc, numbers)? else {
        return Err(StepFault::Unfit(WitnessKind::OrderForm));
    };
    if !is_taking_order(alloc, said, &order)? {
        return Err(StepFault::Unfit(WitnessKind::OrderForm));
    }
    Ok(Some(order))
}

/// Whether the items of a call may be taken in an order of their own: the request is without order, and wasn't refused as a whole.
fn wants_order(said: &Readable) -> bool
    ensures { IsTrue result ↔ WantsOrder (read_of said.now) }
{
    is_unordered(said) && !said.refused
}
