//! Steps of calls of which nothing is outside: each of their places is judged.

ghost use Rattle.std.specs.Prelude.{◌≡◌, IfOk, map, option_map, slice_get};
ghost use Rattle.std.specs.List.{zip};
ghost use Rattle.kmipa_msgs.specs.Messages.{answer_of, ask_of, request_of, response_of};
ghost use Rattle.kmipa_record.specs.Entries.{items_of};
ghost use Rattle.kmipa_record.specs.Marks.{mark_of};
ghost use Rattle.kmipa_record.specs.Transcripts.{transcript_of};
ghost use Rattle.kmipa_check.specs.Steps as ever;
ghost use Rattle.kmipa_places.specs.Calls.{read_of};
ghost use Rattle.kmipa_places.specs.Places.{place_of};
ghost use Rattle.kmipa_turns.specs.Steps.{step_of};
ghost use Rattle.kmipa_trail.specs.Whole.{client_begun, is_refused, judged_pair, outcome_in, outcome_of, whole_call, whole_step};

use kmipa_batch::is_refused_message;
use kmipa_check::Step as EverStep;
use kmipa_msgs::{Answer, Ask, Request, Response, Status};
use kmipa_passed::Outcome;
use kmipa_places::{Place, Readable};
use kmipa_record::{Mark, Transcript};
use kmipa_turns::{Step, Taken};
use std::alloc::{AllocError, Global};

/// The steps of calls of this transcript of which nothing is outside.
pub(crate) fn whole_steps<'a>(
    alloc: Global,
    transcript: &'a Transcript,
    steps: &[EverStep<'_, 'a>],
) -> Result<Vec<Step<'a>>, AllocError>
    ensures { IfOk result (λ whole. map step_of whole.items
        ≡ map (whole_step (transcript_of transcript.now)) (map ever.step_of steps.now)) }
{
    let mut whole = Vec::with_capacity(alloc, steps.len())?;
    for step in steps {
        whole.push(whole_step(alloc, transcript, step)?)?;
    }
    Ok(whole)
}

fn whole_step<'a>(
    alloc: Global,
    transcript: &'a Transcript,
    step: &EverStep<'_, 'a>,
) -> Result<Step<'a>, AllocError>
    ensures { IfOk result
        (λ whole. step_of whole ≡ whole_step (transcript_of transcript.now) (ever.step_of step.now)) }
{
    let call = whole_call(alloc, step.request(), step.response.response())?;
    let places = copy_places(&step.places)?;
    Ok(Step {
        number: step.number,
        client: client_at(&transcript.marks, step.begin),
        begin: step.begin,
        end: step.end,
        stamp: Some(step.stamp),
        taken: Taken::Takes(call, places),
        excepted: 0,
    })
}

fn copy_places(places: &Option<Vec<usize>>) -> Result<Option<Vec<usize>>, AllocError>
    ensures { IfOk result (λ copy. option_map items_of copy ≡ option_map items_of places.now) }
{
    match places {
        Some(places) => Ok(Some(places.clone()?)),
        None => Ok(None),
    }
}

/// The client of the call that the mark at a place begins.
fn client_at(marks: &[Mark], place: usize) -> &str
    ensures { result.now ≡ client_begun (slice_get (map mark_of marks.now) place) }
{
    match marks.get(place) {
        Some(Mark::Begin(begin)) => begin.client.as_str(),
        Some(Mark::End(_)) | None => "",
    }
}

/// The call of this request and this response.
fn whole_call<'a>(
    alloc: Global,
    request: &Request<'a>,
    response: &Response<'a>,
) -> Result<Readable<'a>, AllocError>
    ensures { IfOk result (λ call. read_of call ≡ whole_call (request_of request.now) (response_of response.now)) }
{
    let outcomes = outcomes_of(alloc, &response.items)?;
    let copy = response.copy(alloc)?;
    let places = judged_places(alloc, &request.items, copy.items)?;
    Ok(Readable {
        option: request.option,
        ordered: request.ordered,
        pending: false,
        stamp: response.stamp,
        asks: request.items.len(),
        outcomes,
        refused: is_refused(response),
        places,
    })
}

/// Whether a response refuses the whole message.
fn is_refused(response: &Response) -> bool
    ensures { result ≡ is_refused (response_of response.now).items }
{
    is_refused_message(response)
}

/// How the items were answered.
fn outcomes_of(alloc: Global, answers: &[Answer]) -> Result<Vec<Outcome>, AllocError>
    ensures { IfOk result (λ outcomes. outcomes.items ≡ map outcome_in (map answer_of answers.now)) }
{
    let mut outcomes = Vec::with_capacity(alloc, answers.len())?;
    for answer in answers {
        outcomes.push(outcome_of(answer.status))?;
    }
    Ok(outcomes)
}

fn outcome_of(status: Status) -> Outcome
    ensures { result ≡ outcome_of status }
{
    match status {
        Status::Success => Outcome::Done,
        Status::Failed => Outcome::Failed,
        Status::Undone => Outcome::Undone,
    }
}

/// The places of a call, each judged.
fn judged_places<'a>(
    alloc: Global,
    asks: &[Ask<'a>],
    answers: Vec<Answer<'a>>,
) -> Result<Vec<Place<'a>>, AllocError>
    ensures { IfOk result (λ places. map place_of places.items
        ≡ map judged_pair (zip (map ask_of asks.now) (map answer_of answers.entry.items))) }
{
    let mut places = Vec::with_capacity(alloc, answers.len())?;
    let mut answers = answers.into_iter();
    for ask in asks {
        let Some(answer) = answers.next() else {
            return Ok(places);
        };
        places.push(Place::Judged(ask.copy(alloc)?, answer))?;
    }
    Ok(places)
}
