//! The search for an order, depth first over a ledger.

ghost use Rattle.std.specs.Prelude.{◌≡◌, IfOk, IfSome, OnOk, true};
ghost use Rattle.kmipa_store.specs.Choices.{IsSound};
ghost use Rattle.kmipa_findings.specs.Trying.{AreTakable, IsTakableStep};
ghost use Rattle.kmipa_findings.specs.Walking.{EndsIn, IsWalked};

use crate::basis::Basis;
use crate::pace::Pace;
use crate::road::{Refusal, Road, Visit};
use crate::setting::Given;
use crate::trying::{Advance, try_over};
use kmipa_store::{Ledger, Mark};
use kmipa_trail::Fault;
use kmipa_turns::Step;
use std::alloc::Global;

/// How a search ends.
#[derive(Drop)]
pub(crate) enum Ended {
    /// All calls are taken, and these are the last of them.
    Whole(Vec<Visit>),
    /// No order was found, and nothing stays taken.
    Stuck,
    /// The budget is used up.
    Spent,
    /// So many seconds are over, which are all that it has.
    Over(u64),
}

/// The calls that were taken, each after a mark, and the depth of the newest mark.
#[derive(Drop)]
pub(crate) struct Stretch {
    pub path: Vec<Visit>,
    pub depth: usize,
}

/// How many calls a search may try altogether, and how many where it comes no farther.
#[derive(Clone, Copy)]
pub(crate) struct Limits {
    pub budget: u64,
    pub share: u64,
}

/// Takes the calls that remain, each time the next one that ends first and leads on.
pub(crate) fn walk<L: Ledger, P: Pace>(
    alloc: Global,
    ledger: &mut L,
    given: Given,
    road: &mut Road,
    limits: Limits,
    pace: &mut P,
) -> Result<Ended, Fault>
    requires sound { IsSound (L.state ledger.old).now }
    requires takable { AreTakable given.steps.now }
    ensures sound { OnOk result (IsSound (L.state ledger.new).now) }
    ensures over { IfOk result (EndsIn (P.seconds pace.old)) }
    ensures paced { P.seconds pace.new ≡ P.seconds pace.old }
{
    if road.is_whole() {
        return Ok(Ended::Whole(Vec::new(alloc)));
    }
    let mut stretch = Stretch {
        path: Vec::new(alloc),
        depth: 0,
    };
    'tries: for _ in 0..u64::MAX {
        let Some(place) = next_within(road, limits) else {
            road.end_here(alloc, &stretch.path)?;
            if !step_back(ledger, &mut stretch, road) {
                return Ok(Ended::Stuck);
            }
            continue;
        };
        if road.steps >= limits.budget {
            return Ok(Ended::Spent);
        }
        if let Some(after) = pace.over() {
            return Ok(Ended::Over(after));
        }
        road.count();
        pace.step(road.steps, road.held);
        let step = step_at(given.steps, place);
        try_step(alloc, ledger, given.basis, step, &mut stretch, road)?;
        if road.is_whole() {
            return Ok(Ended::Whole(stretch.path));
        }
    }
    Ok(Ended::Spent)
}

/// The next call to try, unless the search goes on for too long without coming farther.
fn next_within(road: &Road, limits: Limits) -> Option<usize> {
    if road.is_idle(limits.share) {
        None
    } else {
        road.next()
    }
}

/// The step at a place, where there is one.
fn step_at<'b, 'a>(steps: &'b [Step<'a>], place: usize) -> Option<Tried<'b, 'a>>
    requires { AreTakable steps.now }
    ensures { IfSome result (λ tried. IsTakableStep tried.step.now) }
{
    match steps.get(place) {
        Some(step) => Some(Tried { place, step }),
        None => None,
    }
}

/// A call that is tried: its place, and its step.
#[derive(Clone, Copy)]
struct Tried<'b, 'a> {
    place: usize,
    step: &'b Step<'a>,
}

/// Tries a step, where there is one: it is taken, or refused and remembered.
fn try_step<L: Ledger>(
    alloc: Global,
    ledger: &mut L,
    basis: Basis,
    tried: Option<Tried>,
    stretch: &mut Stretch,
    road: &mut Road,
) -> Result<(), Fault>
    requires takable { IfSome tried (λ tried. IsTakableStep tried.step.now) }
    requires walked { IsWalked stretch.old (L.state ledger.old) }
    ensures { OnOk result (IsWalked stretch.new (L.state ledger.new)) }
{
    let Some(tried) = tried else {
        return Ok(());
    };
    match try_over(alloc, ledger, basis, tried.step)? {
        Advance::Taken(depth) => {
            stretch.depth = depth;
            road.take(&mut stretch.path, tried.place)?;
        }
        Advance::Refused(item, why) => {
            let place = tried.place;
            road.refuse(alloc, &stretch.path, Refusal { place, item, why })?;
        }
    }
    Ok(())
}

/// Gives the call back that was taken last; false where none was.
fn step_back<L: Ledger>(ledger: &mut L, stretch: &mut Stretch, road: &mut Road) -> bool
    requires { IsWalked stretch.old (L.state ledger.old) }
    ensures { IsWalked stretch.new (L.state ledger.new) }
{
    let Some(visit) = stretch.path.pop() else {
        return false;
    };
    road.give_back(visit);
    let depth = stretch.depth;
    ledger.back(Mark { depth });
    stretch.depth = depth - 1;
    true
}
