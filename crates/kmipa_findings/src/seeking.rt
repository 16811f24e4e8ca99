//! The search for an order of the calls by which every answer is explained that is judged.

ghost use Rattle.std.specs.Prelude.{◌≡◌, ◌≢◌, ◌<◌, ◌≤◌, ◌⊎◌, ℕ, List, [], IfOk, IfSome, IsTrue, map, true};
ghost use Rattle.kmipa_record.specs.Declarations.{AreDeclared, DeclarationOf, declaration_of};
ghost use Rattle.kmipa_record.specs.Marks.{AreRecorded, MarkOf};
ghost use Rattle.kmipa_record.specs.Transcripts.{transcript_of};
ghost use Rattle.kmipa_record.specs.Witnesses.{turn_of, witness_of};
ghost use Rattle.kmipa_msgs.specs.declared.rules.Visibility.TheVariants.{Everyone};
ghost use Rattle.kmipa_turns.specs.Recorded.{recorded_of};
ghost use Rattle.kmipa_trail.specs.Told.{tally_of};
ghost use Rattle.kmipa_trail.specs.Verdicts.{IsAccepted};
ghost use Rattle.kmipa_findings.specs.Findings.{SetsNothingAside};
ghost use Rattle.kmipa_findings.specs.Outcomes.{Judges};
ghost use Rattle.kmipa_findings.specs.Choices.{bare_of};
ghost use Rattle.kmipa_findings.specs.Exhausting.{EndsPlainly, EndsRightly};
ghost use Rattle.kmipa_findings.specs.Seeking.{EndsSo, IsGivenUp, IsSought, Seeks};

use crate::calls::{bare_turns, ended_calls};
use crate::confirming::accepted_tally;
use crate::descending::{Descended, End, Search, descend};
use crate::finding::{Judged, Outcome};
use crate::owning::Owners;
use crate::pace::Pace;
use crate::trial::trials_of;
use kmipa_check::{Grants, rules_of_declaration};
use kmipa_msgs::Visibility;
use kmipa_record::{Declaration, Transcript, Turn, Witness};
use kmipa_trail::{Fault, Tally, open_world, owners_at_first};
use kmipa_turns::{Recorded, recorded_calls};
use std::alloc::Global;

/// An order of the calls that a check accepts, and by which nothing is set aside.
#[derive(Drop)]
pub struct Order {
    pub witness: Witness,
    /// How many items are judged along it.
    pub tally: Tally,
    /// How many calls were tried.
    pub steps: u64,
}

/// What a search comes to.
#[derive(Drop)]
pub enum Sought {
    Found(Order),
    /// It gave up after so many steps.
    GaveUp(u64),
    /// After so many steps the time was over, which is so many seconds.
    OutOfTime(u64, u64),
}

/// Looks for an order of the calls that have ended, trying at most `budget` of them, in the time that `pace` has: what isn't judged is set aside, and each
/// answer that is judged is possible where it stands. A check accepts what is found. Nothing is claimed of marks that no transcript has.
///
/// # Order of tries
/// A call is tried where no call that is left ended before it, and where its Time Stamp is least among those that are left, or it can't be read and has none.
/// Such calls are tried in the order of their begin marks, depth first: for the first 1,000 steps. From then on those are tried first that look alone, and
/// those that end first. Where a call waits for payloads, each has one guess.
pub fn seek<P: Pace>(
    alloc: Global,
    transcript: &Transcript,
    declaration: &Declaration,
    budget: u64,
    pace: &mut P,
) -> Result<Sought, Fault>
    requires { AreDeclared (declaration_of declaration.now) }
    ensures sought { AreRecorded (transcript_of transcript.now)
        → IfOk result (Seeks (P.seconds pace.old) budget (transcript_of transcript.now) (declaration_of declaration.now)) }
    ensures paced { P.seconds pace.new ≡ P.seconds pace.old }
{
    let Descended { end, steps } = descend_along(alloc, transcript, declaration, budget, pace)?;
    match end {
        End::Whole(path) => {
            let refused = steps_refused(
                path.guessed,
                declaration.settings.visibility,
                steps,
                budget,
            );
            let found = Tries { steps, refused };
            confirmed(alloc, transcript, declaration, path.turns, found)
        }
        End::Exhausted => Ok(Sought::GaveUp(steps)),
        End::Spent => Ok(Sought::GaveUp(budget)),
        End::Over(after) => Ok(Sought::OutOfTime(steps, after)),
    }
}

/// How many calls were tried for an order, and how many are told where a check doesn't accept it.
#[derive(Clone, Copy)]
struct Tries {
    steps: u64,
    refused: u64,
}

/// How many tries are told where a check doesn't accept the order that was found: so many, where payloads were guessed, or objects may be hidden from clients.
/// Else a check accepts it; and where it doesn't, all that the budget has, so that nothing is decided.
fn steps_refused(guessed: bool, visibility: Visibility, steps: u64, budget: u64) -> u64
    ensures within { steps ≤ budget → result ≤ budget }
    ensures below { result < budget → (guessed ≡ true) ⊎ (visibility ≢ Everyone) }
{
    if guessed || visibility != Visibility::Everyone {
        steps
    } else {
        budget
    }
}

/// How a search of the calls ends that have ended.
fn descend_along<P: Pace>(
    alloc: Global,
    transcript: &Transcript,
    declaration: &Declaration,
    budget: u64,
    pace: &mut P,
) -> Result<Descended, Fault>
    requires { AreDeclared (declaration_of declaration.now) }
    ensures within { IfOk result (λ d. d.steps ≤ budget) }
    ensures over { IfOk result (λ d. EndsSo (P.seconds pace.old) d.end) }
    ensures rightly { AreRecorded (transcript_of transcript.now) → IfOk result (λ d. EndsPlainly (transcript_of transcript.now)
        (declaration_of declaration.now) d.end) }
    ensures paced { P.seconds pace.new ≡ P.seconds pace.old }
{
    let recorded = recorded_calls(alloc, transcript)?;
    let calls = ended_calls(alloc, &recorded)?;
    let turns = bare_turns(alloc, &calls)?;
    descend_by(alloc, declaration, &calls, &turns, budget, pace)
}

/// The same of these calls, of which these are the bare turns.
fn descend_by<'a, P: Pace>(
    alloc: Global,
    declaration: &'a Declaration,
    calls: &[Recorded<'a>],
    turns: &'a [Turn],
    budget: u64,
    pace: &mut P,
) -> Result<Descended, Fault>
    requires declared { AreDeclared (declaration_of declaration.now) }
    requires bare { map turn_of turns.now ≡ map bare_of (map recorded_of calls.now) }
    ensures within { IfOk result (λ d. d.steps ≤ budget) }
    ensures over { IfOk result (λ d. EndsSo (P.seconds pace.old) d.end) }
    ensures rightly { IfOk result (λ d. (marks : List MarkOf) → AreRecorded marks
        → EndsRightly marks (declaration_of declaration.now) (map recorded_of calls.now) d.end) }
    ensures paced { P.seconds pace.new ≡ P.seconds pace.old }
{
    let grants = Grants::of(declaration);
    let Some(trials) = trials_of(alloc, &grants, calls, turns)? else {
        return Ok(Descended {
            end: End::Exhausted,
            steps: 0,
        });
    };
    let rules = rules_of_declaration(alloc, declaration)?;
    let mut ledger = open_world(alloc, declaration)?;
    let first = owners_at_first(alloc, rules.visibility, &declaration.entries)?;
    let mut owners = Owners::new(alloc, first);
    let search = Search {
        rules: &rules,
        grants,
        trials: &trials,
        budget,
    };
    descend(alloc, &mut ledger, search, &mut owners, pace)
}

/// An order that was found with so many steps, where a check accepts it and nothing is set aside by it.
fn confirmed(
    alloc: Global,
    transcript: &Transcript,
    declaration: &Declaration,
    turns: Vec<Turn>,
    tries: Tries,
) -> Result<Sought, Fault>
    requires { AreDeclared (declaration_of declaration.now) }
    ensures { (seconds budget : ℕ) → tries.steps ≤ budget → AreRecorded (transcript_of transcript.now)
        → IsGivenUp budget (transcript_of transcript.now) (declaration_of declaration.now) tries.refused
        → IfOk result (Seeks seconds budget (transcript_of transcript.now) (declaration_of declaration.now)) }
{
    let witness = Witness { turns };
    if !set_nothing_aside(&witness.turns) {
        return Ok(Sought::GaveUp(tries.refused));
    }
    let Some(tally) = accepted_tally(alloc, transcript, declaration, &witness)? else {
        return Ok(Sought::GaveUp(tries.refused));
    };
    match unexcepted(witness, tally, tries.steps) {
        Some(order) => Ok(Sought::Found(order)),
        None => Ok(Sought::GaveUp(tries.refused)),
    }
}

/// The order of an outcome by which nothing is set aside and nothing was found, behind so many steps, and one for each call at least; with no more than so many.
pub fn order_of(outcome: Outcome, before: u64, budget: u64) -> Option<Order>
    ensures { (seconds : ℕ) (marks : List MarkOf) (declared : DeclarationOf) → Judges seconds marks declared outcome
        → IfSome result (IsSought budget marks declared) }
{
    match outcome {
        Outcome::Judged(judged) => order_judged(judged, before, budget),
        Outcome::Undecided(_) => None,
    }
}

/// The same of what was judged.
fn order_judged(judged: Judged, before: u64, budget: u64) -> Option<Order>
    ensures { (marks : List MarkOf) (declared : DeclarationOf)
        → IsAccepted marks declared (witness_of judged.witness) (tally_of judged.tally)
        → IfSome result (IsSought budget marks declared) }
{
    let Judged {
        witness,
        tally,
        steps,
        ..
    } = judged;
    let own = u64::max(steps, witness.turns.len() as u64);
    let steps = before.saturating_add(own);
    if steps > budget {
        return None;
    }
    if !set_nothing_aside(&witness.turns) {
        return None;
    }
    unexcepted(witness, tally, steps)
}

/// An order along which so many items are judged, where nothing is excepted of them.
fn unexcepted(witness: Witness, tally: Tally, steps: u64) -> Option<Order>
    ensures { (budget : ℕ) (marks : List MarkOf) (declared : DeclarationOf) → steps ≤ budget
        → IsAccepted marks declared (witness_of witness) (tally_of tally) → SetsNothingAside (witness_of witness)
        → IfSome result (IsSought budget marks declared) }
{
    if tally.excepted != 0 {
        return None;
    }
    Some(Order {
        witness,
        tally,
        steps,
    })
}

/// Whether these turns set nothing aside.
fn set_nothing_aside(turns: &[Turn]) -> bool
    ensures { IsTrue result → SetsNothingAside (map turn_of turns.now) }
{
    let mut place = turns.len();
    'turns: while place > 0 {
        place -= 1;
        let Some(turn) = turns.get(place) else {
            return false;
        };
        if !sets_nothing_aside(turn) {
            return false;
        }
    }
    true
}

/// Whether a turn does.
fn sets_nothing_aside(turn: &Turn) -> bool
    ensures { IsTrue result → turn.now.asides.items ≡ [] }
{
    turn.asides.is_empty()
}
