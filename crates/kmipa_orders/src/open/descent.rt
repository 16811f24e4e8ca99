//! The search for turns that take all calls that have ended, and of the others some.

ghost use Rattle.std.specs.Prelude.{IfOk};
ghost use Rattle.kmipa_store.specs.Choices.{IsSound};
ghost use Rattle.kmipa_orders.specs.Guessing.{AreAllRecorded, IsBounded};
ghost use Rattle.kmipa_orders.specs.Outcomes.{AreOver};

use super::place::Place;
use super::standing::Standing;
use super::tables::{Attempt, Tables, What};
use super::turns::try_attempt;
use crate::ends::Ends;
use crate::guessing::{Guessed, Taken, given_up, out_of_time};
use crate::idle::is_idle_place;
use crate::watch::Watch;
use kmipa_check::CheckFault;
use kmipa_msgs::Rules;
use kmipa_record::Turn;
use kmipa_store::{Ledger, Mark};
use std::alloc::{AllocError, Global};
use std::mem::replace;

/// After so many steps dead ends are remembered.
const EARLY: u64 = 1_000;

/// A call that was taken, and how far the tries at its place had come with it.
#[derive(Drop)]
struct Visit<'b> {
    attempt: Attempt<'b>,
    place: Place<'b>,
}

/// A search on its way.
#[derive(Drop)]
struct OpenDescent<'b> {
    standing: Standing,
    ends: Ends,
    /// So many objects were there when it began.
    front: Option<usize>,
    /// The place behind the calls that are taken.
    place: Place<'b>,
    /// The calls that are taken, in their order.
    path: Vec<Visit<'b>>,
    /// The turn of each of them.
    turns: Vec<Turn>,
    /// The depth of the mark after which the last of them was taken.
    depth: usize,
    /// How many calls were tried.
    steps: u64,
}

/// Takes the calls one after the other, each time the first try that leads on, depth first. `Place` says in which order they are tried.
pub fn find_turns<'b, 'a, L: Ledger, W: Watch>(
    alloc: Global,
    ledger: &mut L,
    rules: &Rules,
    tables: &Tables<'b, 'a>,
    budget: u64,
    watch: &mut W,
) -> Result<Guessed, CheckFault>
    requires sound { IsSound (L.state ledger.old).now }
    requires recorded { AreAllRecorded tables.now.calls.now }
    ensures bounded { IfOk result (IsBounded budget) }
    ensures over { IfOk result (λ g. AreOver (W.seconds watch.old) g.over) }
{
    let mut descent = OpenDescent::new(alloc, tables, ledger.len())?;
    descent.search(alloc, ledger, rules, tables, budget, watch)
}

impl<'b> OpenDescent<'b> {
    ghost use Rattle.std.specs.Prelude.{◌≡◌, ◌<◌, ◌≤◌};
    ghost use Rattle.kmipa_orders.specs.OpenDescents.{Descends, IsBack, IsFresh, IsStep, IsTaken};

    /// No call is taken yet, and so many objects are there.
    fn new<'a>(
        alloc: Global,
        tables: &Tables<'b, 'a>,
        objects: usize,
    ) -> Result<OpenDescent<'b>, AllocError>
        ensures { IfOk result IsFresh }
    {
        Ok(OpenDescent {
            standing: Standing::new(alloc, tables)?,
            ends: Ends::new(alloc),
            front: Some(objects),
            place: Place::first(alloc),
            path: Vec::new(alloc),
            turns: Vec::new(alloc),
            depth: 0,
            steps: 0,
        })
    }

    /// Makes steps until no ended call remains, and then answers the turns; or until nothing more can be tried.
    #[inline(always)]
    fn search<'a, L: Ledger, W: Watch>(
        &mut self,
        alloc: Global,
        ledger: &mut L,
        rules: &Rules,
        tables: &Tables<'b, 'a>,
        budget: u64,
        watch: &mut W,
    ) -> Result<Guessed, CheckFault>
        requires recorded { AreAllRecorded tables.now.calls.now }
        requires descends { Descends self.old (L.state ledger.old) }
        requires few { self.old.steps ≤ budget }
        ensures bounded { IfOk result (IsBounded budget) }
        ensures over { IfOk result (λ g. AreOver (W.seconds watch.old) g.over) }
    {
        'tries: while !self.standing.is_done(tables) {
            match self.place.next(alloc, ledger, tables, &self.standing)? {
                Some(attempt) => {
                    if self.steps == budget {
                        return Ok(given_up(self.steps));
                    }
                    if let Some(after) = watch.over() {
                        return Ok(out_of_time(self.steps, after));
                    }
                    self.step(alloc, ledger, rules, tables, attempt, watch)?;
                }
                None => {
                    if !self.go_back(alloc, ledger, tables, watch)? {
                        return Ok(given_up(self.steps));
                    }
                }
            }
        }
        Ok(Guessed {
            turns: Some(replace(&mut self.turns, Vec::new(alloc))),
            steps: self.steps,
            over: None,
        })
    }

    /// Tries a call, and takes it where it is possible.
    #[inline(always)]
    fn step<'a, L: Ledger, W: Watch>(
        &mut self,
        alloc: Global,
        ledger: &mut L,
        rules: &Rules,
        tables: &Tables<'b, 'a>,
        attempt: Attempt<'b>,
        watch: &mut W,
    ) -> Result<(), CheckFault>
        requires recorded { AreAllRecorded tables.now.calls.now }
        requires descends { Descends self.old (L.state ledger.old) }
        requires room { self.old.steps < u64.MAX }
        ensures moves { IfOk result (λ _. IsStep self.old self.new (L.state ledger.new)) }
        ensures watch { W.seconds watch.new ≡ W.seconds watch.old }
    {
        self.steps += 1;
        watch.step(self.steps, self.path.len());
        let places = self.place.places_of(alloc, attempt)?;
        let Some(taken) = try_attempt(alloc, ledger, rules, tables, attempt, places)? else {
            return Ok(());
        };
        watch.taken(taken.turn.call);
        self.take(alloc, ledger, tables, attempt, taken)?;
        Ok(())
    }

    /// A call was taken.
    #[inline(always)]
    fn take<'a, L: Ledger>(
        &mut self,
        alloc: Global,
        ledger: &L,
        tables: &Tables<'b, 'a>,
        attempt: Attempt<'b>,
        taken: Taken,
    ) -> Result<(), AllocError>
        requires { IsSound (L.state ledger.now).now }
        ensures { IfOk result (λ _. IsTaken self.old taken self.new) }
    {
        self.turns.push(taken.turn)?;
        self.depth = taken.depth;
        self.place.take(attempt);
        let place = replace(&mut self.place, Place::behind(alloc, attempt));
        self.path.push(Visit { attempt, place })?;
        self.standing.take(tables, attempt);
        let late = self.steps >= EARLY;
        let taken = &self.standing.taken;
        let tried = self
            .ends
            .arrive(ledger, taken, self.path.len(), self.front, late)?;
        self.place.arrive(tried);
        Ok(())
    }

    /// Gives back the call that was taken last; and answers whether there was one.
    #[inline(always)]
    fn go_back<'a, L: Ledger, W: Watch>(
        &mut self,
        alloc: Global,
        ledger: &mut L,
        tables: &Tables<'b, 'a>,
        watch: &mut W,
    ) -> Result<bool, AllocError>
        requires { Descends self.old (L.state ledger.old) }
        ensures moves { IfOk result (IsBack self.old self.new (L.state ledger.new)) }
        ensures watch { W.seconds watch.new ≡ W.seconds watch.old }
    {
        let Some(visit) = self.path.pop() else {
            return Ok(false);
        };
        let late = self.steps >= EARLY && self.place.was_possible;
        let taken = &self.standing.taken;
        self.ends.note(alloc, ledger, taken, self.path.len() + 1, self.front, late)?;
        self.turns.truncate(self.path.len());
        ledger.back(Mark { depth: self.depth });
        self.depth -= 1;
        self.standing.give_back(tables, visit.attempt);
        watch.given_back();
        put_back(&mut self.place, tables, visit);
        Ok(true)
    }
}

/// The call that was taken at a place is given back.
#[inline(always)]
fn put_back<'b, 'a>(place: &mut Place<'b>, tables: &Tables<'b, 'a>, visit: Visit<'b>) {
    let Visit {
        attempt,
        place: before,
    } = visit;
    *place = before;
    if let What::Ended(number) = attempt.what {
        if is_idle_place(&tables.own, number) {
            place.close();
        }
    }
}
