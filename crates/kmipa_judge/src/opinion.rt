//! What is said of a recording in a word.

ghost use Rattle.std.specs.Prelude.{◌≡◌, ℕ, length, map};
ghost use Rattle.kmipa_trail.specs.Told.{tally_of};
ghost use Rattle.kmipa_findings.specs.Told.{finding_of};
ghost use Rattle.kmipa_judge.specs.Opinions.{findings_of, opinion_by, opinion_found, opinion_of, opinion_status, opinion_unfound, steps_of};

use kmipa_findings::{Finding, Outcome};
use kmipa_jobs::Status;
use kmipa_trail::Tally;

/// What is said of a recording in a word.
#[derive(Clone, Copy, PartialEq, Eq)]
pub enum Opinion {
    /// An order of the calls explains every answer that is judged, and some item is.
    Explained,
    /// No item is judged.
    NothingJudged,
    /// Answers are impossible, and no order explains every answer.
    Convicted,
    /// Answers are impossible in the orders that were tried.
    Suspected,
    /// The budget is used up, the seconds are over, or what was found can't be confirmed.
    Undecided,
}

/// The status that goes with an opinion.
pub(crate) fn opinion_status(opinion: Opinion) -> Status
    ensures { result ≡ opinion_status opinion }
{
    match opinion {
        Opinion::Explained => Status::Done,
        Opinion::Convicted => Status::No,
        Opinion::NothingJudged | Opinion::Suspected | Opinion::Undecided => Status::GaveUp,
    }
}

/// What is said of an outcome.
pub(crate) fn opinion_of(outcome: &Outcome) -> Opinion
    ensures { result ≡ opinion_of outcome.now }
{
    match outcome {
        Outcome::Judged(judged) => {
            opinion_by(judged.findings.len(), &judged.tally, judged.is_decided)
        }
        Outcome::Undecided(_) => Opinion::Undecided,
    }
}

fn opinion_by(findings: usize, tally: &Tally, decided: bool) -> Opinion
    ensures { result ≡ opinion_by findings (tally_of tally.now) decided }
{
    if findings == 0 {
        opinion_unfound(tally)
    } else {
        opinion_found(decided)
    }
}

/// What is said where nothing was found.
fn opinion_unfound(tally: &Tally) -> Opinion
    ensures { result ≡ opinion_unfound (tally_of tally.now) }
{
    if tally.judged == 0 {
        Opinion::NothingJudged
    } else if tally.excepted == 0 {
        Opinion::Explained
    } else {
        Opinion::Suspected
    }
}

/// What is said where something was found.
fn opinion_found(decided: bool) -> Opinion
    ensures { result ≡ opinion_found decided }
{
    if decided {
        Opinion::Convicted
    } else {
        Opinion::Suspected
    }
}

/// The findings of an outcome.
pub(crate) fn findings_of(outcome: &Outcome) -> &[Finding]
    ensures { map finding_of result.now ≡ findings_of outcome.now }
{
    match outcome {
        Outcome::Judged(judged) => judged.findings.as_slice(),
        Outcome::Undecided(undecided) => undecided.findings.as_slice(),
    }
}

/// How many calls were tried for an outcome.
pub(crate) fn steps_of(outcome: &Outcome) -> u64
    ensures { result ≡ steps_of outcome.now }
{
    match outcome {
        Outcome::Judged(judged) => judged.steps,
        Outcome::Undecided(undecided) => undecided.steps,
    }
}
