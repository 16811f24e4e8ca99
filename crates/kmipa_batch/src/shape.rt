//! Which answers a batch may have at which places.

ghost use Rattle.std.specs.Prelude.{◌≡◌, ◌↔◌, IsTrue, map, length, nat_lt, option_map, slice_get};
ghost use Rattle.kmipa_msgs.specs.Messages.{AnswerOf, answer_of, request_of, response_of};
ghost use Rattle.kmipa_batch.specs.Calls.{RefusesMessage};
ghost use Rattle.kmipa_batch.specs.Fits.{FailedAt, fits, fits_answer, fits_none, fits_undo, is_after, is_refusal, undoes};
ghost use Rattle.kmipa_batch.specs.Shapes.{IsShapedAt};

use kmipa_msgs::{Answer, BatchOption, Request, Response, Status};

/// Whether the response refuses the whole message: it has one answer, a failed one, that names no Operation.
pub fn is_refused_message(response: &Response) -> bool
    ensures { IsTrue result ↔ RefusesMessage (response_of response.now) }
{
    if response.items.len() != 1 {
        return false;
    }
    is_refusal(&response.items[0])
}

/// Whether an answer, where it is the only one, refuses the whole message.
fn is_refusal(answer: &Answer) -> bool
    ensures { result ≡ is_refusal (answer_of answer.now) }
{
    match answer.status {
        Status::Failed => answer.operation.is_none(),
        _ => false,
    }
}

/// The place of the first failed answer, from 0.
pub fn first_failed(answers: &[Answer]) -> Option<usize>
    ensures { FailedAt (map answer_of answers.now) result }
{
    for (place, answer) in answers.iter().enumerate() {
        if let Status::Failed = answer.status {
            return Some(place);
        }
    }
    None
}

/// Whether a failure undoes the batch, by its Batch Error Continuation Option and the place of the first failed answer.
pub fn is_undone(option: BatchOption, failed: Option<usize>) -> bool
    ensures { result ≡ undoes option failed }
{
    match option {
        BatchOption::Continue | BatchOption::Stop => false,
        BatchOption::Undo => failed.is_some(),
    }
}

/// Whether a place of the call, from 0, has its shape: what may be answered there, or that nothing is, by the Batch Error Continuation Option and
/// the first failed answer.
pub fn is_shaped_at(
    request: &Request,
    response: &Response,
    failed: Option<usize>,
    place: usize,
) -> bool
    requires { FailedAt (response_of response.now).items failed }
    ensures { IsTrue result ↔ IsShapedAt (request_of request.now) (response_of response.now) place }
{
    let asked = place < request.items.len();
    let status = status_at(response, place);
    has_shape(request.option, failed, place, asked, status)
}

/// The status of the answer at a place, if there is one.
fn status_at(response: &Response, place: usize) -> Option<Status>
    ensures { result ≡ option_map (λ (a : AnswerOf). a.status) (slice_get (response_of response.now).items place) }
{
    match response.items.get(place) {
        Some(answer) => Some(answer.status),
        None => None,
    }
}

/// Whether a place, from 0, may have an answer of this status, or none, by the Batch Error Continuation Option and the place of the first failed
/// answer; `asked` says whether the request has an item there.
pub fn has_shape(
    option: BatchOption,
    failed: Option<usize>,
    place: usize,
    asked: bool,
    status: Option<Status>,
) -> bool
    ensures { result ≡ fits option failed place asked status }
{
    match status {
        Some(status) => {
            if asked {
                has_answer_shape(option, failed, place, status)
            } else {
                false
            }
        }
        None => {
            if asked {
                may_be_unanswered(option, failed, place)
            } else {
                true
            }
        }
    }
}

/// Whether an answer of this status may stand at a place that the request has.
fn has_answer_shape(
    option: BatchOption,
    failed: Option<usize>,
    place: usize,
    status: Status,
) -> bool
    ensures { result ≡ fits_answer option failed place status }
{
    match option {
        BatchOption::Continue => status != Status::Undone,
        BatchOption::Stop => {
            if is_after(failed, place) {
                false
            } else {
                status != Status::Undone
            }
        }
        BatchOption::Undo => has_undo_shape(failed, place, status),
    }
}

/// Under Undo all before the first failure is undone, and without a failure all is done.
fn has_undo_shape(failed: Option<usize>, place: usize, status: Status) -> bool
    ensures { result ≡ fits_undo failed place status }
{
    match failed {
        None => status == Status::Success,
        Some(failed) => {
            if place < failed {
                status == Status::Undone
            } else {
                place <= failed
            }
        }
    }
}

/// Whether a place that the request has may be without an answer.
fn may_be_unanswered(option: BatchOption, failed: Option<usize>, place: usize) -> bool
    ensures { result ≡ fits_none option failed place }
{
    match option {
        BatchOption::Continue => false,
        BatchOption::Stop | BatchOption::Undo => is_after(failed, place),
    }
}

/// Whether a place is after the first failed answer.
fn is_after(failed: Option<usize>, place: usize) -> bool
    ensures { result ≡ is_after failed place }
{
    match failed {
        Some(failed) => failed < place,
        None => false,
    }
}
