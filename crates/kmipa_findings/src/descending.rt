//! The search for an order in which each call is possible, depth first over a ledger.

ghost use Rattle.std.specs.Prelude.{◌≡◌, ◌<◌, ◌≤◌, ◌∷◌, ℕ, List, [], Contains, IfOk, None, Ok, OnOk, Some, false, length, map, true};
ghost use Rattle.kmipa_store.specs.Choices.{IsSound};
ghost use Rattle.kmipa_store.specs.Ledger.{LedgerState};
ghost use Rattle.kmipa_msgs.specs.Messages.{RulesOf, rules_of};
ghost use Rattle.kmipa_msgs.specs.declared.rules.Visibility.TheVariants.{Everyone};
ghost use Rattle.kmipa_record.specs.Declarations.{DeclarationOf};
ghost use Rattle.kmipa_record.specs.Marks.{MarkOf};
ghost use Rattle.kmipa_aside.specs.Sights.{owned_of};
ghost use Rattle.kmipa_check.specs.Runs.{rules_declared};
ghost use Rattle.kmipa_turns.specs.Steps.{StepOf, TakenOf, step_of};
ghost use Rattle.kmipa_trail.specs.Leading.{AreKnown};
ghost use Rattle.kmipa_trail.specs.Owners.{in_sight, step_seen};
ghost use Rattle.kmipa_trail.specs.declared.fault.Fault.{Fault};
ghost use Rattle.kmipa_findings.specs.Trying.{Advances, TriesStep};
ghost use Rattle.kmipa_findings.specs.Seeking.{AreTakableTrials, EndsSo, IsTakableTrial};
ghost use Rattle.kmipa_findings.specs.Boards.{IsBoard};
ghost use Rattle.kmipa_findings.specs.Descending.{IsDescended, IsTakenAfter};
ghost use Rattle.kmipa_findings.specs.Exhausting.{AreCovered, AreRisingTrials, EndsBy, IsBareStep, IsExhausted, IsSure, Stands, TriesTrial, steps_along, taken_in};

use crate::basis::Basis;
use crate::board::Board;
use crate::calls::step_of;
use crate::guessing::guessed_turn;
use crate::left::{Left, Pick, Tried};
use crate::missed::{Place, any_waits, are_rising, missed};
use crate::owning::Owners;
use crate::pace::Pace;
use crate::trial::{Trial, Way, spans_of_trials, trial_at};
use crate::trying::{Advance, try_over};
use kmipa_aside::Owned;
use kmipa_check::Grants;
use kmipa_msgs::{Rules, Visibility};
use kmipa_places::Readable;
use kmipa_record::Turn;
use kmipa_store::{Ledger, Mark};
use kmipa_trail::{Fault, sight_of};
use kmipa_turns::Recorded;
use std::alloc::{AllocError, Global};
use std::mem::replace;

/// So many steps are made in the order of the begin marks; from then on those calls are tried first that look alone, and those that end first.
const EARLY: u64 = 1_000;

/// What a search of this kind is given: by what is judged, what the server is granted, the calls, and how many may be tried.
#[derive(Clone, Copy)]
pub(crate) struct Search<'r, 'g, 't, 'a> {
    pub rules: &'r Rules,
    pub grants: Grants<'g>,
    pub trials: &'t [Trial<'a>],
    pub budget: u64,
}

/// How it ends, and how many calls were tried.
#[derive(Drop)]
pub(crate) struct Descended {
    pub end: End,
    pub steps: u64,
}

/// How it ends.
#[derive(Drop)]
pub(crate) enum End {
    /// All calls are taken.
    Whole(Path),
    /// Each call was tried wherever it may come.
    Exhausted,
    /// The budget is used up.
    Spent,
    /// So many seconds are over, which are all that it has.
    Over(u64),
}

/// The turns that take all calls, and whether the payload of one was guessed.
#[derive(Drop)]
pub(crate) struct Path {
    pub turns: Vec<Turn>,
    pub guessed: bool,
}

/// A call that is taken: its turn; and what was tried with it, and which calls had been refuted there.
#[derive(Drop)]
struct Visit {
    place: usize,
    turn: Turn,
    tried: Tried,
    refuted: Vec<usize>,
}

/// Where a search stands: which calls are left, and taken; which were tried here; which are refuted here, since no order goes on with them; and the calls that
/// are taken, in their order.
#[derive(Drop)]
pub(crate) struct Descent {
    left: Left,
    board: Board,
    tried: Tried,
    refuted: Vec<usize>,
    path: Vec<Visit>,
    /// The depth of the mark after which the last call was taken.
    depth: usize,
}

/// Takes the calls one after the other, each time the next one that leads on. Where it ends without an order, no call stays taken, or the budget is used up.
/// It has tried all there is where it says so: no accepted order sets nothing aside, where that can be said.
pub(crate) fn descend<'a, L: Ledger, P: Pace>(
    alloc: Global,
    ledger: &mut L,
    search: Search<'_, '_, '_, 'a>,
    owners: &mut Owners<'a>,
    pace: &mut P,
) -> Result<Descended, Fault>
    requires sound { IsSound (L.state ledger.old).now }
    requires takable { AreTakableTrials search.trials.now }
    ensures within { IfOk result (λ d. d.steps ≤ search.entry.budget) }
    ensures over { IfOk result (λ d. EndsSo (P.seconds pace.old) d.end) }
    ensures ends { IfOk result (λ d. (marks : List MarkOf) (declared : DeclarationOf)
        → rules_of search.entry.rules.now ≡ rules_declared declared → AreKnown declared [] (L.state ledger.old).now
        → EndsBy marks declared search.entry.trials.now d.end) }
    ensures paced { P.seconds pace.new ≡ P.seconds pace.old }
{
    let mut descent = begun(alloc, search.trials)?;
    let rising = are_rising(search.trials);
    let mut steps = 0u64;
    'tries: for _ in 0..u64::MAX {
        if descent.board.is_full() {
            return whole(alloc, search.trials, descent, steps);
        }
        let Some(pick) = next_pick(search.trials, rising, &descent, steps >= EARLY) else {
            if !step_back(ledger, &mut descent)? {
                return Ok(Descended {
                    end: End::Exhausted,
                    steps,
                });
            }
            owners.give_back();
            continue;
        };
        if steps >= search.budget {
            break;
        }
        if let Some(after) = pace.over() {
            return Ok(Descended {
                end: End::Over(after),
                steps,
            });
        }
        steps += 1;
        pace.step(steps, descent.path.len());
        try_pick(alloc, ledger, search, owners, &mut descent, pick)?;
    }
    Ok(Descended {
        end: End::Spent,
        steps,
    })
}

/// No call is taken yet.
fn begun(alloc: Global, trials: &[Trial]) -> Result<Descent, AllocError>
    ensures path { IfOk result (λ descent. descent.path.items ≡ []) }
    ensures refuted { IfOk result (λ descent. descent.refuted.items ≡ []) }
    ensures board { IfOk result (λ descent. IsBoard (length trials.now) [] descent.board) }
{
    Ok(Descent {
        left: Left::new(alloc, spans_of_trials(alloc, trials)?)?,
        board: Board::new(alloc, trials.len())?,
        tried: Tried::none(),
        refuted: Vec::new(alloc),
        path: Vec::new(alloc),
        depth: 0,
    })
}

/// All calls are taken.
fn whole(alloc: Global, trials: &[Trial], descent: Descent, steps: u64) -> Result<Descended, Fault>
    ensures steps { IfOk result (λ d. d.steps ≡ steps) }
    ensures over { (seconds : ℕ) → IfOk result (λ d. EndsSo seconds d.end) }
    ensures ends { IfOk result (λ d. (marks : List MarkOf) (declared : DeclarationOf) → EndsBy marks declared trials.now d.end) }
{
    let guessed = any_waits(trials);
    let mut turns = Vec::with_capacity(alloc, descent.path.len())?;
    'visits: for visit in descent.path {
        turns.push(visit.turn)?;
    }
    Ok(Descended {
        end: End::Whole(Path { turns, guessed }),
        steps,
    })
}

/// The next call to try: of those that may be next, and weren't tried here. None where all that are left are refuted, or can't be next.
fn next_pick(trials: &[Trial], rising: bool, descent: &Descent, by_rank: bool) -> Option<Pick>
    requires rising { rising ≡ true → AreRisingTrials trials.now }
    ensures { result ≡ None → IsBoard (length trials.now) (taken_in descent.now) descent.now.board
        → AreCovered trials.now (taken_in descent.now) descent.now.refuted.items }
{
    if let Some(pick) = descent.left.next(descent.tried, by_rank) {
        return Some(pick);
    }
    let at = Place {
        trials,
        rising,
        board: &descent.board,
        refuted: &descent.refuted,
        soonest: descent.left.first_ended(),
        least: descent.left.first_moment(),
    };
    match missed(at) {
        Some(place) => Some(Pick {
            place,
            tried: Tried::all(),
        }),
        None => None,
    }
}

/// Tries a call: it is taken, or it is impossible here.
fn try_pick<'a, L: Ledger>(
    alloc: Global,
    ledger: &mut L,
    search: Search<'_, '_, '_, 'a>,
    owners: &mut Owners<'a>,
    descent: &mut Descent,
    pick: Pick,
) -> Result<(), Fault>
    requires takable { AreTakableTrials search.trials.now }
    requires descended { IsDescended descent.old (L.state ledger.old) }
    ensures descended { OnOk result (IsDescended descent.new (L.state ledger.new)) }
    ensures stands { OnOk result ((marks : List MarkOf) (declared : DeclarationOf) → IsSure marks declared search.entry.trials.now
        → rules_of search.entry.rules.now ≡ rules_declared declared
        → Stands marks declared search.entry.trials.now descent.old (L.state ledger.old)
        → Stands marks declared search.entry.trials.now descent.new (L.state ledger.new)) }
{
    descent.tried = pick.tried;
    if descent.board.has(pick.place) {
        return Ok(());
    }
    let Some(trial) = trial_at(search.trials, pick.place) else {
        return Ok(());
    };
    let Some(taken) = try_here(alloc, ledger, search, owners.now(), trial)? else {
        descent.refuted.push(pick.place)?;
        return Ok(());
    };
    own_trial(alloc, search.rules, owners, trial)?;
    go_down(alloc, descent, pick, taken)
}

/// A call was taken: the search goes on behind it.
fn go_down(alloc: Global, descent: &mut Descent, pick: Pick, taken: Taken) -> Result<(), Fault>
    ensures descended { OnOk result ((s u : LedgerState) → IsDescended descent.old s → IsTakenAfter {E = Fault} s (Ok (Some taken)) u
        → IsDescended descent.new u) }
    ensures stands { OnOk result ((marks : List MarkOf) (declared : DeclarationOf) (trials : List Trial) (s u : LedgerState)
        → Stands marks declared trials descent.old s → pick.place < length trials → (Contains (taken_in descent.old) pick.place → ⊥)
        → AreKnown declared (in_sight declared (steps_along trials (pick.place ∷ taken_in descent.old))) u.now
        → u.marks ≡ s.now ∷ s.marks → Stands marks declared trials descent.new u) }
{
    let refuted = replace(&mut descent.refuted, Vec::new(alloc));
    let visit = Visit {
        place: pick.place,
        turn: taken.turn,
        tried: pick.tried,
        refuted,
    };
    descent.path.push(visit)?;
    descent.depth = taken.depth;
    descent.left.take(pick.place);
    descent.board.take(pick.place);
    descent.tried = Tried::none();
    Ok(())
}

/// Tries a call where these objects are these clients'.
fn try_here<L: Ledger>(
    alloc: Global,
    ledger: &mut L,
    search: Search,
    owners: &[Owned],
    trial: &Trial,
) -> Result<Option<Taken>, Fault>
    requires sound { IsSound (L.state ledger.old).now }
    requires takable { IsTakableTrial trial.now }
    ensures after { IsTakenAfter (L.state ledger.old) result (L.state ledger.new) }
    ensures tries { (s : StepOf) → IsBareStep trial.now.way s → (rules_of search.entry.rules.now).visibility ≡ Everyone
        → IfOk result (λ taken. TriesTrial (rules_of search.entry.rules.now) (step_seen [] s).taken (L.state ledger.old) taken
        (L.state ledger.new)) }
{
    let basis = Basis {
        rules: search.rules,
        owners: owners_for(search.rules.visibility, owners),
    };
    try_trial(alloc, ledger, basis, &search.grants, trial)
}

/// Whose the objects are, as far as clients may not see those of others.
fn owners_for<'o, 'a>(visibility: Visibility, owners: &'o [Owned<'a>]) -> &'o [Owned<'a>]
    ensures { visibility ≡ Visibility.Everyone → map owned_of result.now ≡ [] }
{
    match visibility {
        Visibility::Everyone => &[],
        Visibility::MayHide | Visibility::MustHide => owners,
    }
}

/// A call that was taken: its turn, and the depth of the mark after which it was.
#[derive(Drop)]
struct Taken {
    turn: Turn,
    depth: usize,
}

/// Takes a call after a new mark; or it is impossible, and the ledger is as before.
fn try_trial<L: Ledger>(
    alloc: Global,
    ledger: &mut L,
    basis: Basis,
    grants: &Grants,
    trial: &Trial,
) -> Result<Option<Taken>, Fault>
    requires sound { IsSound (L.state ledger.old).now }
    requires takable { IsTakableTrial trial.now }
    ensures after { IsTakenAfter (L.state ledger.old) result (L.state ledger.new) }
    ensures tries { (s : StepOf) → IsBareStep trial.now.way s → IfOk result (λ taken. TriesTrial (rules_of basis.entry.rules.now)
        (step_seen (map owned_of basis.entry.owners.now) s).taken (L.state ledger.old) taken (L.state ledger.new)) }
{
    match &trial.way {
        Way::Bare(step) => {
            let turn = Turn::bare(alloc, trial.call.number);
            taken_by(try_over(alloc, ledger, basis, step)?, turn)
        }
        Way::Waits(said) => try_guess(alloc, ledger, basis, grants, &trial.call, said),
    }
}

/// The same of a call that waits for payloads.
fn try_guess<'p, L: Ledger>(
    alloc: Global,
    ledger: &mut L,
    basis: Basis<'_, 'p>,
    grants: &Grants,
    call: &'p Recorded<'p>,
    said: &Readable,
) -> Result<Option<Taken>, Fault>
    requires { IsSound (L.state ledger.old).now }
    ensures { IsTakenAfter (L.state ledger.old) result (L.state ledger.new) }
{
    let sight = sight_of(basis.rules, basis.owners, call.client);
    let turn = guessed_turn(alloc, ledger, sight, call.number, said)?;
    let advance = match step_of(alloc, grants, call, &turn)? {
        Some(step) => try_over(alloc, ledger, basis, &step)?,
        None => return Ok(None),
    };
    taken_by(advance, turn)
}

/// A call that was taken by a turn, if it was.
fn taken_by(advance: Advance, turn: Turn) -> Result<Option<Taken>, Fault>
    ensures after { (s u : LedgerState) → Advances {E = Fault} s (Ok advance) u → IsTakenAfter s result u }
    ensures tries { (rules : RulesOf) (step : TakenOf) (s u : LedgerState) → TriesStep {E = Fault} rules step s (Ok advance) u
        → IfOk result (λ taken. TriesTrial rules step s taken u) }
{
    match advance {
        Advance::Taken(depth) => Ok(Some(Taken { turn, depth })),
        Advance::Refused(_, _) => Ok(None),
    }
}

/// Whose the objects are behind a call. What waits for payloads was undone, and brings nothing.
fn own_trial<'a>(
    alloc: Global,
    rules: &Rules,
    owners: &mut Owners<'a>,
    trial: &Trial<'a>,
) -> Result<(), AllocError> {
    match &trial.way {
        Way::Bare(step) => owners.take(alloc, rules.visibility, step),
        Way::Waits(_) => owners.keep(),
    }
}

/// All that may be next was refuted: the call that was taken last is given back, and is refuted where it was tried. False where none was taken.
fn step_back<L: Ledger>(ledger: &mut L, descent: &mut Descent) -> Result<bool, AllocError>
    requires { IsDescended descent.old (L.state ledger.old) }
    ensures descended { OnOk result (IsDescended descent.new (L.state ledger.new)) }
    ensures stands { OnOk result ((marks : List MarkOf) (declared : DeclarationOf) (trials : List Trial) → IsSure marks declared trials
        → IsExhausted trials descent.old → Stands marks declared trials descent.old (L.state ledger.old)
        → Stands marks declared trials descent.new (L.state ledger.new)) }
    ensures none { IfOk result (λ more. more ≡ false → taken_in descent.old ≡ []) }
{
    let Some(visit) = descent.path.pop() else {
        return Ok(false);
    };
    let Visit {
        place,
        tried,
        refuted,
        ..
    } = visit;
    let depth = descent.depth;
    ledger.back(Mark { depth });
    descent.depth = depth - 1;
    descent.left.give_back(place);
    descent.board.give_back(place);
    descent.tried = tried;
    descent.refuted = refuted;
    descent.refuted.push(place)?;
    Ok(true)
}
