//! Calls as a search tries them.

ghost use Rattle.std.specs.Prelude.{◌≡◌, None, Some, IfOk, IfSome, map, slice_get};
ghost use Rattle.kmipa_check.specs.Grants.{grants_of};
ghost use Rattle.kmipa_places.specs.declared.call.Readable.{Readable};
ghost use Rattle.kmipa_record.specs.Witnesses.{turn_of};
ghost use Rattle.kmipa_turns.specs.Recorded.{recorded_of};
ghost use Rattle.kmipa_turns.specs.Steps.{IsStep, StepOf};
ghost use Rattle.kmipa_findings.specs.Choices.{bare_of};
ghost use Rattle.kmipa_findings.specs.Exhausting.{AreTried, HasNoStep, IsTried};
ghost use Rattle.kmipa_findings.specs.Seeking.{AreTakableTrials, IsTakableTrial};
ghost use Rattle.kmipa_findings.specs.declared.trial.Way.TheVariants.{Waits};

use crate::calls::{Span, call_at, step_of, turn_at};
use crate::ranking::{Candidate, bringing_nothing, candidate_of, ranks_by};
use kmipa_check::Grants;
use kmipa_places::{Call, Readable, read_call};
use kmipa_record::Turn;
use kmipa_trail::Fault;
use kmipa_ttlv::{View, decode_view};
use kmipa_turns::{Recorded, Step};
use std::alloc::{AllocError, Global};

/// A call that is tried.
#[derive(Drop)]
pub(crate) struct Trial<'a> {
    pub call: Recorded<'a>,
    pub way: Way<'a>,
}

/// What is known ahead of how it is taken.
#[derive(Drop)]
pub(crate) enum Way<'a> {
    /// Its step by its bare turn.
    Bare(Step<'a>),
    /// It waits for payloads, which are guessed where it is tried.
    Waits(Readable<'a>),
}

/// How these calls are tried, of which these are the bare turns; none where one can't be.
pub(crate) fn trials_of<'a>(
    alloc: Global,
    grants: &Grants,
    calls: &[Recorded<'a>],
    turns: &'a [Turn],
) -> Result<Option<Vec<Trial<'a>>>, Fault>
    requires { map turn_of turns.now ≡ map bare_of (map recorded_of calls.now) }
    ensures takable { IfOk result (λ made. IfSome made (λ trials. AreTakableTrials trials.items)) }
    ensures tried { IfOk result (λ made. IfSome made
        (λ trials. AreTried (grants_of grants.now) (map recorded_of calls.now) trials.items)) }
    ensures none { IfOk result (λ made. made ≡ None → HasNoStep (grants_of grants.now) (map recorded_of calls.now)) }
{
    let mut trials = Vec::with_capacity(alloc, calls.len())?;
    'calls: while trials.len() < calls.len() {
        let Some(call) = call_at(calls, trials.len()) else {
            return Ok(None);
        };
        let Some(turn) = turn_at(turns, trials.len()) else {
            return Ok(None);
        };
        match trial_of(alloc, grants, call, turn)? {
            Some(trial) => trials.push(trial)?,
            None => return Ok(None),
        }
    }
    Ok(Some(trials))
}

/// How the call at a place is tried.
pub(crate) fn trial_at<'t, 'a>(trials: &'t [Trial<'a>], place: usize) -> Option<&'t Trial<'a>>
    ensures { IfSome result (λ trial. slice_get trials.now place ≡ Some trial.now) }
{
    trials.get(place)
}

/// How a call is tried, of which this is the bare turn.
fn trial_of<'a>(
    alloc: Global,
    grants: &Grants,
    call: &Recorded<'a>,
    turn: &'a Turn,
) -> Result<Option<Trial<'a>>, Fault>
    requires { turn_of turn.now ≡ bare_of (recorded_of call.now) }
    ensures takable { IfOk result (λ made. IfSome made IsTakableTrial) }
    ensures tried { IfOk result (λ made. IfSome made
        (λ trial. IsTried (grants_of grants.now) (recorded_of call.now) trial.way)) }
    ensures none { IfOk result (λ made. made ≡ None
        → (s : StepOf) → IsStep (grants_of grants.now) (recorded_of call.now) (bare_of (recorded_of call.now)) s → ⊥) }
{
    match step_of(alloc, grants, call, turn)? {
        Some(step) => Ok(Some(Trial {
            call: *call,
            way: Way::Bare(step),
        })),
        None => Ok(waiting(alloc, call)?),
    }
}

/// How a call is tried that waits for payloads.
fn waiting<'a>(alloc: Global, call: &Recorded<'a>) -> Result<Option<Trial<'a>>, AllocError>
    ensures takable { IfOk result (λ made. IfSome made IsTakableTrial) }
    ensures waits { IfOk result (λ made. IfSome made (λ trial. (said : Readable) × (trial.way ≡ Waits said))) }
{
    let Some(bytes) = call.response else {
        return Ok(None);
    };
    let request = item_of(call.request);
    let response = item_of(bytes);
    match read_call(alloc, request.as_ref(), response.as_ref(), &[])? {
        Call::Read(said) => Ok(Some(Trial {
            call: *call,
            way: Way::Waits(said),
        })),
        Call::Unread(_) => Ok(None),
    }
}

/// The item that bytes are, if they are one.
fn item_of(bytes: &[u8]) -> Option<View<'_>> {
    match decode_view(bytes) {
        Ok((item, length)) if length == bytes.len() => Some(item),
        _ => None,
    }
}

/// Where the calls stand that are tried.
pub(crate) fn spans_of_trials(alloc: Global, trials: &[Trial]) -> Result<Vec<Span>, AllocError> {
    let mut candidates = Vec::with_capacity(alloc, trials.len())?;
    'candidates: for (place, trial) in trials.iter().enumerate() {
        candidates.push(candidate_at(place, trial))?;
    }
    let ranks = ranks_by(alloc, candidates)?;
    let mut spans = Vec::with_capacity(alloc, trials.len())?;
    'trials: for (trial, rank) in trials.iter().zip(ranks.iter()) {
        spans.push(span_of(trial, *rank))?;
    }
    Ok(spans)
}

fn candidate_at(place: usize, trial: &Trial) -> Candidate {
    match &trial.way {
        Way::Bare(step) => candidate_of(place, step),
        Way::Waits(said) => bringing_nothing(place, said.stamp, trial.call.end),
    }
}

fn span_of(trial: &Trial, rank: usize) -> Span {
    let candidate = candidate_at(0, trial);
    Span {
        begin: trial.call.begin,
        end: candidate.end,
        moment: candidate.moment,
        rank,
    }
}
