//! The search for an order of calls.

ghost use Rattle.std.specs.Prelude.{◌≡◌, ◌<◌, ◌≤◌, All, IfOk, IfSome, length, map, slice_get, ℕ, Some, Ok, Err};
ghost use Rattle.kmipa_store.specs.Choices.{IsSound};
ghost use Rattle.kmipa_record.specs.Declarations.{DeclarationOf};
ghost use Rattle.kmipa_msgs.specs.Messages.{rules_of};
ghost use Rattle.kmipa_batch.specs.Readable.{IsReadableCall};
ghost use Rattle.kmipa_orders.specs.Candidates.{candidate_step};
ghost use Rattle.kmipa_orders.specs.Progress.{AllReadable, CallTried, Opens};
ghost use Rattle.kmipa_orders.specs.Outcomes.{AreOver, KeepsBudget, TellsOutcome, not_taken};

use crate::candidate::Candidate;
use crate::ends::Ends;
use crate::idle::is_idle_place;
use crate::links::Links;
use crate::picking::pick_left;
use crate::ranks::Ranks;
use crate::remaining::Remaining;
use crate::settled::front_of;
use crate::taken::TakenCalls;
use crate::tried::{Pick, Tried, Trying, Visit};
use crate::watch::Watch;
use kmipa_batch::{CallRefusal, take_call};
use kmipa_check::CheckFault;
use kmipa_msgs::Rules;
use kmipa_store::{Ledger, Mark};
use std::alloc::{AllocError, Global};

/// So many steps are made in the order of the begin marks.
pub const EARLY: u64 = 1_000;

/// What a search of the calls comes to.
#[derive(Drop)]
pub struct Outcome {
    /// The places of the calls, in an order in which all were taken; none where the search gave up.
    pub order: Option<Vec<usize>>,
    /// How many calls were tried.
    pub steps: u64,
    /// How many seconds the search had, where it ended since they are over.
    pub over: Option<u64>,
}

/// A search on its way.
#[derive(Drop)]
struct Descent {
    remaining: Remaining,
    /// The calls by how much they are wished.
    wishes: Ranks,
    /// Those that remain, linked so.
    by_wish: Links,
    taken: TakenCalls,
    ends: Ends,
    /// So many objects were there when it began, or none is compared: `front_of`.
    front: Option<usize>,
    /// The calls that are taken, in their order.
    path: Vec<Visit>,
    /// How far the tries behind them have come.
    tried: Tried,
    /// The depth of the mark after which the last of them was taken.
    depth: usize,
    /// How many calls were tried.
    steps: u64,
}

/// Takes the calls one after the other, each time a next one that leads on, depth first. `pick` says in which order they are tried.
pub fn find_order<L: Ledger, W: Watch>(
    alloc: Global,
    ledger: &mut L,
    rules: &Rules,
    calls: &[Candidate],
    budget: u64,
    watch: &mut W,
) -> Result<Outcome, CheckFault>
    requires sound { IsSound (L.state ledger.old).now }
    requires readable { AllReadable (map candidate_step calls.now) }
    ensures within { IfOk result (λ l. IfSome l.order (λ o. All (λ p. p < length calls.now) o.items)) }
    ensures bounded { IfOk result (KeepsBudget budget) }
    ensures tells { (declared : DeclarationOf)
        → Opens declared (rules_of rules.now) (map candidate_step calls.now) (L.state ledger.old).now
        → TellsOutcome declared (map candidate_step calls.now) budget result }
    ensures over { IfOk result (λ l. AreOver (W.seconds watch.old) l.over) }
{
    let mut descent = Descent::new(alloc, ledger, calls)?;
    descent.search(alloc, ledger, rules, calls, budget, watch)
}

impl Descent {
    ghost use Rattle.std.specs.Prelude.{true, MatchResult};
    ghost use Rattle.kmipa_store.specs.Ledger.{LedgerState, Meaning};
    ghost use Rattle.kmipa_msgs.specs.Messages.{RulesOf};
    ghost use Rattle.kmipa_orders.specs.Descents.{Descends, IsBack, IsDue, IsStep};

    /// No call is taken yet.
    fn new<L: Ledger>(alloc: Global, ledger: &L, calls: &[Candidate]) -> Result<Descent, AllocError>
        requires { IsSound (L.state ledger.now).now }
        ensures { (rules : RulesOf) (budget : ℕ)
            → IfOk result (λ d. Descends rules (map candidate_step calls.now) budget (L.state ledger.now).now d
            (L.state ledger.now)) }
    {
        let front = front_of(alloc, ledger, calls)?;
        let taken = TakenCalls::new(alloc, calls.len())?;
        let by_wish = Links::new(alloc, calls.len())?;
        let wishes = Ranks::by_wish(alloc, calls)?;
        let remaining = Remaining::new(alloc, calls)?;
        Ok(Descent {
            remaining,
            wishes,
            by_wish,
            taken,
            ends: Ends::new(alloc),
            front,
            path: Vec::new(alloc),
            tried: Tried::none(),
            depth: 0,
            steps: 0,
        })
    }

    /// Makes steps until all calls are taken, and then answers their order; or until nothing more can be tried.
    #[inline(always)]
    fn search<L: Ledger, W: Watch>(
        &mut self,
        alloc: Global,
        ledger: &mut L,
        rules: &Rules,
        calls: &[Candidate],
        budget: u64,
        watch: &mut W,
    ) -> Result<Outcome, CheckFault>
        requires readable { AllReadable (map candidate_step calls.now) }
        requires descends { Descends (rules_of rules.now) (map candidate_step calls.now) budget (L.state ledger.old).now
            self.old (L.state ledger.old) }
        ensures within { IfOk result (λ l. IfSome l.order (λ o. All (λ p. p < length calls.now) o.items)) }
        ensures bounded { IfOk result (KeepsBudget budget) }
        ensures tells { (declared : DeclarationOf)
            → Opens declared (rules_of rules.now) (map candidate_step calls.now) (L.state ledger.old).now
            → TellsOutcome declared (map candidate_step calls.now) budget result }
        ensures over { IfOk result (λ l. AreOver (W.seconds watch.old) l.over) }
    {
        'tries: while self.path.len() < calls.len() {
            match self.pick(calls) {
                Some(pick) => {
                    if self.steps == budget {
                        return Ok(self.given_up());
                    }
                    if let Some(after) = watch.over() {
                        return Ok(self.out_of_time(after));
                    }
                    self.step(alloc, ledger, rules, calls, pick, watch)?;
                }
                None => {
                    if !self.go_back(alloc, ledger, calls, watch)? {
                        return Ok(self.given_up());
                    }
                }
            }
        }
        Ok(Outcome {
            order: Some(places(alloc, &self.path)?),
            steps: self.steps,
            over: None,
        })
    }

    /// The call to try next.
    #[inline(always)]
    fn pick(&self, calls: &[Candidate]) -> Option<Pick>
        requires { length self.now.path.items ≤ length calls.now }
        ensures picked { (rules : RulesOf) (budget : ℕ) (first : Meaning) (u : LedgerState)
            → Descends rules (map candidate_step calls.now) budget first self.now u
            → IsDue (map candidate_step calls.now) self.now result }
        ensures within { IfSome result (λ pick. pick.place < length calls.now) }
    {
        let trying = Trying {
            tried: self.tried,
            left: calls.len() - self.path.len(),
            late: self.steps >= EARLY,
        };
        pick_left(
            &self.remaining,
            calls,
            &self.wishes,
            &self.by_wish,
            &self.taken,
            trying,
        )
    }

    /// Tries a call, and takes it where it is possible.
    #[inline(always)]
    fn step<L: Ledger, W: Watch>(
        &mut self,
        alloc: Global,
        ledger: &mut L,
        rules: &Rules,
        calls: &[Candidate],
        pick: Pick,
        watch: &mut W,
    ) -> Result<(), CheckFault>
        requires sound { IsSound (L.state ledger.old).now }
        requires readable { AllReadable (map candidate_step calls.now) }
        requires within { pick.place < length calls.now }
        requires room { self.old.steps < u64.MAX }
        ensures descends { (first : Meaning) (budget : ℕ)
            → Descends (rules_of rules.now) (map candidate_step calls.now) budget first self.old (L.state ledger.old)
            → IsDue (map candidate_step calls.now) self.old (Some pick) → self.old.steps < budget
            → IfOk result (λ _. Descends (rules_of rules.now) (map candidate_step calls.now) budget first self.new
            (L.state ledger.new)) }
        ensures moves { MatchResult result (λ _. IsStep self.old self.new) (λ fault. fault ≡ CheckFault.Memory) }
        ensures watch { W.seconds watch.new ≡ W.seconds watch.old }
    {
        let Pick { place, tried } = pick;
        self.steps += 1;
        watch.step(self.steps, self.path.len());
        let Some(mark) = try_call(alloc, ledger, rules, &calls[place])? else {
            self.tried = tried;
            return Ok(());
        };
        let idle = is_idle_place(calls, place);
        self.path.push(Visit { place, tried, idle })?;
        self.remaining.take(calls, place);
        self.by_wish.remove(self.wishes.rank(place));
        self.taken.take(place);
        watch.taken(calls[place].number);
        self.depth = mark;
        let late = self.steps >= EARLY;
        let count = self.path.len();
        self.tried = self
            .ends
            .arrive(ledger, &self.taken, count, self.front, late)?;
        Ok(())
    }

    /// Gives back the call that was taken last; and answers whether there was one.
    #[inline(always)]
    fn go_back<L: Ledger, W: Watch>(
        &mut self,
        alloc: Global,
        ledger: &mut L,
        calls: &[Candidate],
        watch: &mut W,
    ) -> Result<bool, AllocError>
        requires sound { IsSound (L.state ledger.old).now }
        requires deep { 0 < length self.old.path.items → self.old.depth ≡ length (L.state ledger.old).marks }
        requires marked { 0 < length self.old.path.items → 0 < self.old.depth }
        ensures descends { (rules : RulesOf) (first : Meaning) (budget : ℕ)
            → Descends rules (map candidate_step calls.now) budget first self.old (L.state ledger.old)
            → IsDue (map candidate_step calls.now) self.old None → length self.old.path.items < length calls.now
            → IfOk result (λ went. went ≡ true → Descends rules (map candidate_step calls.now) budget first self.new
            (L.state ledger.new)) }
        ensures moves { IfOk result (IsBack self.old self.new) }
        ensures watch { W.seconds watch.new ≡ W.seconds watch.old }
    {
        let Some(visit) = self.path.pop() else {
            return Ok(false);
        };
        let late = self.steps >= EARLY;
        let count = self.path.len() + 1;
        self.ends
            .note(alloc, ledger, &self.taken, count, self.front, late)?;
        ledger.back(Mark { depth: self.depth });
        self.depth -= 1;
        self.remaining.give_back(calls, visit.place);
        self.by_wish.restore(self.wishes.rank(visit.place));
        self.taken.give_back(visit.place);
        watch.given_back();
        self.tried = visit.behind(late);
        Ok(true)
    }

    /// What is told where nothing more can be tried.
    #[inline(always)]
    fn given_up(&self) -> Outcome
        ensures { result ≡ record { order = None; steps = self.now.steps; over = None } }
    {
        Outcome {
            order: None,
            steps: self.steps,
            over: None,
        }
    }

    /// What is told where so many seconds are over.
    #[inline(always)]
    fn out_of_time(&self, after: u64) -> Outcome
        ensures { result ≡ record { order = None; steps = self.now.steps; over = Some after } }
    {
        Outcome {
            order: None,
            steps: self.steps,
            over: Some(after),
        }
    }
}

/// The places of the calls taken.
fn places(alloc: Global, path: &[Visit]) -> Result<Vec<usize>, AllocError>
    ensures { IfOk result (λ order. order.items ≡ map (λ visit. visit.place) path.now) }
{
    let mut order = Vec::new(alloc);
    'visits: for visit in path {
        order.push(visit.place)?;
    }
    Ok(order)
}

/// Takes a call after a new mark, and answers the mark's depth; or the call is impossible, and the ledger is as before.
#[inline(always)]
pub fn try_call<L: Ledger>(
    alloc: Global,
    ledger: &mut L,
    rules: &Rules,
    call: &Candidate,
) -> Result<Option<usize>, CheckFault>
    requires sound { IsSound (L.state ledger.old).now }
    requires readable { IsReadableCall (candidate_step call.now).request (candidate_step call.now).response }
    ensures { CallTried (rules_of rules.now) (L.state ledger.old) (candidate_step call.now) result
        (L.state ledger.new) }
{
    let Ok(mark) = ledger.mark() else {
        return Err(CheckFault::Memory);
    };
    match take_call(alloc, ledger, rules, call.request, call.response, None) {
        Ok(()) => {
            let Mark { depth } = mark;
            Ok(Some(depth))
        }
        Err(refusal) => {
            ledger.back(mark);
            not_taken(refusal)
        }
    }
}

/// A call that was not taken.
pub fn not_taken(refusal: CallRefusal) -> Result<Option<usize>, CheckFault>
    ensures { result ≡ not_taken refusal }
{
    match refusal {
        CallRefusal::Impossible(_, _) => Ok(None),
        CallRefusal::Memory => Err(CheckFault::Memory),
    }
}
