//! The search for an order of what isn't set aside.

ghost use Rattle.std.specs.Prelude.{ℕ, IfOk, IfSome};
ghost use Rattle.kmipa_record.specs.Declarations.{AreDeclared, declaration_of};
ghost use Rattle.kmipa_record.specs.Marks.{AreRecorded};
ghost use Rattle.kmipa_record.specs.Transcripts.{transcript_of};
ghost use Rattle.kmipa_findings.specs.Outcomes.{Judges};

use super::about::suspect_about;
use super::names::Names;
use super::reading::seen_calls;
use super::round::{Ended, Round, Search, search_once};
use super::stamps::{Stamps, suspect_low};
use super::suspects::Suspects;
use kmipa_check::FirstPlaces;
use kmipa_findings::{Outcome, judge_along};
use kmipa_orders::Watch;
use kmipa_record::{Declaration, Transcript, Turn};
use kmipa_trail::Fault;
use kmipa_turns::recorded_calls;
use std::alloc::Global;

/// So many searches are made at most.
const ROUNDS: usize = 64;

/// What is found along an order of the calls, where one of those is found that aren't set aside: a search looks for it with at most so many steps, and the
/// calls that it knows nothing of are put back into it. Where no order explains the answers about an object, what is impossible of these is left out, too.
pub(crate) fn find_reduced<W: Watch + Drop>(
    alloc: Global,
    transcript: &Transcript,
    declaration: &Declaration,
    budget: u64,
    watch: &W,
) -> Result<Option<Outcome>, Fault>
    requires { AreDeclared (declaration_of declaration.now) }
    ensures { AreRecorded (transcript_of transcript.now) → IfOk result (λ found. IfSome found (λ outcome. (seconds : ℕ)
        → Judges seconds (transcript_of transcript.now) (declaration_of declaration.now) outcome)) }
{
    find_within(alloc, transcript, declaration, ROUNDS, budget, watch)
}

/// The same by one search, in which nothing is suspected but what is known to be impossible.
pub(crate) fn find_at_once<W: Watch + Drop>(
    alloc: Global,
    transcript: &Transcript,
    declaration: &Declaration,
    budget: u64,
    watch: &W,
) -> Result<Option<Outcome>, Fault>
    requires { AreDeclared (declaration_of declaration.now) }
    ensures { AreRecorded (transcript_of transcript.now) → IfOk result (λ found. IfSome found (λ outcome. (seconds : ℕ)
        → Judges seconds (transcript_of transcript.now) (declaration_of declaration.now) outcome)) }
{
    find_within(alloc, transcript, declaration, 1, budget, watch)
}

/// What is found along an order that so many searches find.
fn find_within<W: Watch + Drop>(
    alloc: Global,
    transcript: &Transcript,
    declaration: &Declaration,
    rounds: usize,
    budget: u64,
    watch: &W,
) -> Result<Option<Outcome>, Fault>
    requires { AreDeclared (declaration_of declaration.now) }
    ensures { AreRecorded (transcript_of transcript.now) → IfOk result (λ found. IfSome found (λ outcome. (seconds : ℕ)
        → Judges seconds (transcript_of transcript.now) (declaration_of declaration.now) outcome)) }
{
    match order_of(alloc, transcript, declaration, rounds, budget, watch)? {
        Some(order) => judge_along(alloc, transcript, declaration, &order.turns, order.steps),
        None => Ok(None),
    }
}

/// An order of the calls, and how many steps it took.
#[derive(Drop)]
struct Order {
    turns: Vec<Turn>,
    steps: u64,
}

/// An order of the calls that so many searches find, for a declaration and a watcher.
fn order_of<'x, W: Watch + Drop>(
    alloc: Global,
    transcript: &'x Transcript,
    declaration: &'x Declaration,
    rounds: usize,
    budget: u64,
    watch: &W,
) -> Result<Option<Order>, Fault>
    requires { AreDeclared (declaration_of declaration.now) }
{
    let recorded = recorded_calls(alloc, transcript)?;
    let calls = seen_calls(alloc, &recorded)?;
    let places = FirstPlaces::of(alloc, &recorded)?;
    let names = Names::of(alloc, &calls, declaration)?;
    let stamps = Stamps::of(alloc, &calls, transcript.marks.len())?;
    let search = Search {
        transcript,
        declaration,
        calls: &calls,
        places: &places,
        names: &names,
        stamps: &stamps,
    };
    let mut suspects = Suspects::none(alloc);
    if declaration.settings.tolerance == 0 {
        suspect_low(&mut suspects, &stamps, &calls)?;
    }
    rounds_of(alloc, search, &mut suspects, rounds, budget, watch)
}

/// Searches, and where an object or a call refutes all orders, once more without that.
fn rounds_of<W: Watch + Drop>(
    alloc: Global,
    search: Search,
    suspects: &mut Suspects,
    rounds: usize,
    budget: u64,
    watch: &W,
) -> Result<Option<Order>, Fault>
    requires { AreDeclared (declaration_of search.declaration.now) }
{
    let mut left = budget;
    'rounds: for _ in 0..rounds {
        let Round { ended, steps } = search_once(alloc, search, suspects, left, watch)?;
        left = left.saturating_sub(steps);
        match ended {
            Ended::Ordered(turns) => return Ok(Some(Order { turns, steps })),
            Ended::Refuted(object) => {
                if !suspect_about(alloc, search, suspects, object)? {
                    return Ok(None);
                }
            }
            Ended::Impossible(suspect) => {
                if !suspects.add_item(suspect)? {
                    return Ok(None);
                }
            }
            Ended::Undecided => return Ok(None),
        }
    }
    Ok(None)
}
