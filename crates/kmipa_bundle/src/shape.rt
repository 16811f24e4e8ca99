//! Which answers a call may have at which places.

ghost use Rattle.std.specs.Prelude.{◌≡◌, ◌↔◌, ◌<◌, IfSome, IsTrue, option_map, slice_get};
ghost use Rattle.kmipa_batch.specs.Fits.{FailedAt};
ghost use Rattle.kmipa_places.specs.Calls.{read_of};
ghost use Rattle.kmipa_bundle.specs.Fits.{fits_at, fits_outcome};
ghost use Rattle.kmipa_bundle.specs.Running.{LowestUnshaped};
ghost use Rattle.kmipa_bundle.specs.Shapes.{IsShapedAt, answers_as};

use kmipa_batch::has_shape;
use kmipa_msgs::{BatchOption, Status};
use kmipa_passed::Outcome;
use kmipa_places::Readable;

/// The place of the first failed answer, from 0.
pub(crate) fn first_failed(outcomes: &[Outcome]) -> Option<usize>
    ensures { FailedAt (answers_as outcomes.now) result }
{
    for (place, outcome) in outcomes.iter().enumerate() {
        if let Outcome::Failed = outcome {
            return Some(place);
        }
    }
    None
}

/// The lowest place, from 0, that hasn't its shape.
pub(crate) fn first_unshaped(call: &Readable, failed: Option<usize>) -> Option<usize>
    requires { FailedAt (answers_as call.now.outcomes.items) failed }
    ensures lowest { LowestUnshaped (read_of call.now) result }
    ensures last { IfSome result (λ place. place < usize.MAX) }
{
    for place in 0..usize::max(call.asks, call.outcomes.len()) {
        if !is_shaped_at(call, failed, place) {
            return Some(place);
        }
    }
    None
}

/// Whether a place of the call, from 0, has its shape: what may be answered there, or that nothing is, by the Batch Error Continuation Option and
/// the first failed answer.
fn is_shaped_at(call: &Readable, failed: Option<usize>, place: usize) -> bool
    requires { FailedAt (answers_as call.now.outcomes.items) failed }
    ensures { IsTrue result ↔ IsShapedAt (read_of call.now) place }
{
    let asked = place < call.asks;
    let outcome = outcome_at(call, place);
    fits_at(call.pending, call.option, failed, place, asked, outcome)
}

/// How the answer at a place ends, if there is one.
fn outcome_at(call: &Readable, place: usize) -> Option<Outcome>
    ensures { result ≡ slice_get call.now.outcomes.items place }
{
    match call.outcomes.get(place) {
        Some(outcome) => Some(*outcome),
        None => None,
    }
}

/// Whether a place may have an answer that ends so, or none, where `asked` says that the request has an item there.
fn fits_at(
    pending: bool,
    option: BatchOption,
    failed: Option<usize>,
    place: usize,
    asked: bool,
    outcome: Option<Outcome>,
) -> bool
    ensures { result ≡ fits_at pending option failed place asked outcome }
{
    match outcome {
        Some(outcome) => fits_outcome(pending, option, failed, place, asked, outcome),
        None => has_shape(option, failed, place, asked, None),
    }
}

/// Whether a place may have an answer that ends so. One that is still to come may stand where a Success or an Undone answer may.
fn fits_outcome(
    pending: bool,
    option: BatchOption,
    failed: Option<usize>,
    place: usize,
    asked: bool,
    outcome: Outcome,
) -> bool
    ensures { result ≡ fits_outcome pending option failed place asked outcome }
{
    match outcome {
        Outcome::Done => has_shape(option, failed, place, asked, Some(Status::Success)),
        Outcome::Undone => has_shape(option, failed, place, asked, Some(Status::Undone)),
        Outcome::Failed => has_shape(option, failed, place, asked, Some(Status::Failed)),
        Outcome::Pending => {
            pending
                && (has_shape(option, failed, place, asked, Some(Status::Success))
                    || has_shape(option, failed, place, asked, Some(Status::Undone)))
        }
    }
}
