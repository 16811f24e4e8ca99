//! The search for an order beside what is set aside, where its first steps come to no end.

ghost use Rattle.std.specs.Prelude.{◌≡◌, ◌≤◌, IfOk, IfSome};
ghost use Rattle.kmipa_record.specs.Declarations.{AreDeclared, declaration_of};
ghost use Rattle.kmipa_record.specs.Marks.{AreRecorded};
ghost use Rattle.kmipa_record.specs.Transcripts.{transcript_of};
ghost use Rattle.kmipa_findings.specs.Seeking.{IsGivenUp, IsSought, Seeks};

use crate::lent_watch::{Clock, Lent};
use crate::reduced::find_at_once;
use kmipa_findings::{Order, Pace, Sought, order_of, seek};
use kmipa_jobs::SearchWords;
use kmipa_orders::{Watch, grants_nothing};
use kmipa_record::{Declaration, Transcript};
use kmipa_trail::Fault;
use std::alloc::Global;

/// So many calls are tried ahead of an order that is proposed, and one more for each mark.
const EARLY: u64 = 1_000;

/// Looks for an order of the calls as `seek` does. Where its first steps come to no end, and it has more, one search of what isn't set aside proposes an
/// order: where a check accepts it, it is found with those steps and its own. Else it begins again. Where the declaration has a tolerance or own lines, or open
/// calls are to be taken, an order is proposed too where they come to an end: it may have moments and births, and answers of open calls.
pub(crate) fn seek_at_length<W: Watch>(
    alloc: Global,
    transcript: &Transcript,
    declaration: &Declaration,
    words: SearchWords,
    watch: &mut W,
) -> Result<Sought, Fault>
    requires { AreDeclared (declaration_of declaration.now) }
    ensures { AreRecorded (transcript_of transcript.now) → IfOk result
        (Seeks (W.seconds watch.old) words.budget (transcript_of transcript.now) (declaration_of declaration.now)) }
{
    let mut lent = Lent { watch };
    seek_paced(alloc, transcript, declaration, words, &mut lent)
}

/// The same at a pace.
fn seek_paced<P: Pace>(
    alloc: Global,
    transcript: &Transcript,
    declaration: &Declaration,
    words: SearchWords,
    pace: &mut P,
) -> Result<Sought, Fault>
    requires { AreDeclared (declaration_of declaration.now) }
    ensures { AreRecorded (transcript_of transcript.now) → IfOk result
        (Seeks (P.seconds pace.old) words.budget (transcript_of transcript.now) (declaration_of declaration.now)) }
{
    let first = first_budget(transcript, words.budget);
    match seek(alloc, transcript, declaration, first, pace)? {
        Sought::Found(order) => Ok(Sought::Found(order)),
        Sought::GaveUp(steps) => {
            let given = GivenUp { steps, first };
            go_on(alloc, transcript, declaration, words, given, pace)
        }
        Sought::OutOfTime(steps, after) => Ok(Sought::OutOfTime(steps, after)),
    }
}

/// How many steps found nothing, of how many that the first search had.
#[derive(Clone, Copy)]
struct GivenUp {
    steps: u64,
    first: u64,
}

/// The same where so many steps found nothing.
fn go_on<P: Pace>(
    alloc: Global,
    transcript: &Transcript,
    declaration: &Declaration,
    words: SearchWords,
    given: GivenUp,
    pace: &mut P,
) -> Result<Sought, Fault>
    requires { AreDeclared (declaration_of declaration.now) }
    ensures { given.first ≤ words.budget → AreRecorded (transcript_of transcript.now)
        → IsGivenUp given.first (transcript_of transcript.now) (declaration_of declaration.now) given.steps → IfOk result
        (Seeks (P.seconds pace.old) words.budget (transcript_of transcript.now) (declaration_of declaration.now)) }
{
    let budget = words.budget;
    let GivenUp { steps, first } = given;
    if steps >= budget {
        return Ok(Sought::GaveUp(budget));
    }
    let is_ended = steps < first;
    if is_ended && is_bare(words, declaration) {
        return Ok(Sought::GaveUp(steps));
    }
    if let Some(order) = propose(alloc, transcript, declaration, budget, steps, pace)? {
        return Ok(Sought::Found(order));
    }
    if is_ended {
        return Ok(Sought::GaveUp(steps));
    }
    seek(alloc, transcript, declaration, budget, pace)
}

/// Whether calls that have ended are all that is taken, each at its Time Stamp, and what is born has what its client asked for.
fn is_bare(words: SearchWords, declaration: &Declaration) -> bool {
    !words.open && grants_nothing(declaration)
}

/// So many steps it makes first, as far as the budget has them.
fn first_budget(transcript: &Transcript, budget: u64) -> u64
    ensures { result ≤ budget }
{
    let first = first_steps(transcript);
    if first < budget { first } else { budget }
}

/// So many steps it makes first: enough for calls that are taken one after the other, and for some more.
fn first_steps(transcript: &Transcript) -> u64 {
    EARLY.saturating_add(transcript.marks.len() as u64)
}

/// An order that one search of what isn't set aside proposes behind so many steps, where a check accepts it.
fn propose<P: Pace>(
    alloc: Global,
    transcript: &Transcript,
    declaration: &Declaration,
    budget: u64,
    steps: u64,
    pace: &P,
) -> Result<Option<Order>, Fault>
    requires { AreDeclared (declaration_of declaration.now) }
    ensures { AreRecorded (transcript_of transcript.now) → IfOk result (λ found. IfSome found
        (IsSought budget (transcript_of transcript.now) (declaration_of declaration.now))) }
{
    let most = budget.saturating_sub(steps);
    let clock = Clock { pace };
    match find_at_once(alloc, transcript, declaration, most, &clock)? {
        Some(outcome) => Ok(order_of(outcome, steps, budget)),
        None => Ok(None),
    }
}
