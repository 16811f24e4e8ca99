//! In which order calls are tried that may be next.

ghost use Rattle.std.specs.Prelude.{◌≡◌};
ghost use Rattle.kmipa_turns.specs.Steps.{moment_of, step_of};

use kmipa_msgs::{Answer, Ask, Status};
use kmipa_ops::{Change, Effect as Done, row_of};
use kmipa_passed::{Outcome, Sort};
use kmipa_places::Place;
use kmipa_turns::{Step, Taken};
use std::alloc::{AllocError, Global};

/// What a call does to objects, by what can be tried first: what only looks is taken at once where it is possible, and what takes away comes last.
#[derive(Clone, Copy, PartialEq, Eq, PartialOrd, Ord)]
enum Effect {
    Looks,
    Brings,
    Changes,
    TakesAway,
}

/// A call among others: its moment, what it does, the place of its end mark, and its own place.
#[derive(Clone, Copy, PartialEq, Eq, PartialOrd, Ord)]
pub(crate) struct Candidate {
    pub moment: Option<i64>,
    effect: Effect,
    pub end: usize,
    place: usize,
}

/// The rank of the call of each step: calls are tried from the least rank on.
pub(crate) fn ranks_of(alloc: Global, steps: &[Step]) -> Result<Vec<usize>, AllocError> {
    let mut candidates = Vec::with_capacity(alloc, steps.len())?;
    'steps: for (place, step) in steps.iter().enumerate() {
        candidates.push(candidate_of(place, step))?;
    }
    ranks_by(alloc, candidates)
}

/// The ranks of these calls, which are all.
pub(crate) fn ranks_by(
    alloc: Global,
    candidates: Vec<Candidate>,
) -> Result<Vec<usize>, AllocError> {
    let mut candidates = candidates;
    let mut ranks = Vec::with_capacity(alloc, candidates.len())?;
    'places: for _ in 0..candidates.len() {
        ranks.push(0)?;
    }
    candidates.sort_unstable();
    'candidates: for (rank, candidate) in candidates.iter().enumerate() {
        if candidate.place < ranks.len() {
            ranks[candidate.place] = rank;
        }
    }
    Ok(ranks)
}

/// The call at this place, which makes this step.
pub(crate) fn candidate_of(place: usize, step: &Step) -> Candidate {
    Candidate {
        moment: moment_of(step),
        effect: effect_of(step),
        end: step.end.unwrap_or(usize::MAX),
        place,
    }
}

/// A call at this place that leaves nothing behind.
pub(crate) fn bringing_nothing(place: usize, moment: i64, end: Option<usize>) -> Candidate {
    Candidate {
        moment: Some(moment),
        effect: Effect::Looks,
        end: end.unwrap_or(usize::MAX),
        place,
    }
}

/// The moment of a step; none where its call can't be read.
pub(crate) fn moment_of(step: &Step) -> Option<i64>
    ensures { result ≡ moment_of (step_of step.now) }
{
    match &step.taken {
        Taken::Leaves(_, _) => None,
        Taken::Takes(call, _) => Some(call.stamp),
    }
}

/// What a step does: the most that one of its items does.
fn effect_of(step: &Step) -> Effect {
    let Taken::Takes(call, _) = &step.taken else {
        return Effect::TakesAway;
    };
    let mut most = Effect::Looks;
    'places: for place in &call.places {
        most = most.max(effect_at(place));
    }
    most
}

fn effect_at(place: &Place) -> Effect {
    match place {
        Place::Judged(ask, answer) => effect_judged(ask, answer),
        Place::Passed(_, passed) => effect_passed(passed.ask.sort, passed.answer.outcome),
    }
}

/// What an item does that is judged.
fn effect_judged(ask: &Ask, answer: &Answer) -> Effect {
    if answer.status == Status::Failed {
        return Effect::Looks;
    }
    match row_of(&ask.asked).effect {
        Done::Makes(_) => Effect::Brings,
        Done::Changes(Change::Destroy) => Effect::TakesAway,
        Done::Changes(Change::Activate | Change::Revoke(_)) => Effect::Changes,
        Done::Lists(_)
        | Done::ShowsBytes
        | Done::ShowsAttributes(_)
        | Done::Nothing
        | Done::Unread => Effect::Looks,
    }
}

/// What an item does that isn't judged.
fn effect_passed(sort: Sort, outcome: Outcome) -> Effect {
    if outcome == Outcome::Failed || sort == Sort::Looks {
        Effect::Looks
    } else {
        Effect::TakesAway
    }
}
