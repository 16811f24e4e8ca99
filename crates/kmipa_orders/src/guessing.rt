//! The search for an order where some call waits for a payload.

ghost use Rattle.std.specs.Prelude.{◌≡◌, ◌≤◌, None, Some, IfOk, IfSome, length, map};
ghost use Rattle.kmipa_store.specs.Choices.{IsSound};
ghost use Rattle.kmipa_check.specs.Calls.{call_of};
ghost use Rattle.kmipa_orders.specs.Outcomes.{AreOver};
ghost use Rattle.kmipa_orders.specs.Guessing.{AreReadableOnes, AreRecordedCalls, GuessTried, IsBounded, IsReadableOne, IsRecordedCall, TurnTried};

use crate::candidate::Candidate;
use crate::guesses::guessed_turn;
use crate::laws_of_check::check_laws;
use crate::order::{not_taken, try_call};
use crate::plain::plain_ones;
use crate::remaining::Remaining;
use crate::watch::Watch;
use kmipa_batch::take_call;
use kmipa_check::{CheckFault, Grants, StepFault, step_of_turn};
use kmipa_msgs::Rules;
use kmipa_record::{Call, Turn};
use kmipa_store::{Ledger, Mark};
use std::alloc::Global;

/// What a search with guesses comes to.
#[derive(Drop)]
pub struct Guessed {
    /// The turns of all calls, in an order in which they were taken; none where the search gave up.
    pub turns: Option<Vec<Turn>>,
    /// How many calls were tried.
    pub steps: u64,
    /// How many seconds the search had, where it ended since they are over.
    pub over: Option<u64>,
}

/// Takes the calls one after the other, each time the first next one that leads on with its guesses, depth first.
pub fn guess_order<L: Ledger, W: Watch>(
    alloc: Global,
    ledger: &mut L,
    rules: &Rules,
    calls: &[Candidate],
    budget: u64,
    watch: &mut W,
) -> Result<Guessed, CheckFault>
    requires sound { IsSound (L.state ledger.old).now }
    requires recorded { AreRecordedCalls calls.now }
    ensures bounded { IfOk result (IsBounded budget) }
    ensures over { IfOk result (λ g. AreOver (W.seconds watch.old) g.over) }
{
    let plain = plain_ones(alloc, calls)?;
    let mut remaining = Remaining::new(alloc, calls)?;
    let mut path = Vec::new(alloc);
    let mut turns = Vec::new(alloc);
    let mut from = 0;
    let mut depth = 0;
    let mut steps = 0;
    'tries: while path.len() < calls.len() {
        match remaining.next(calls, from) {
            Some(place) => {
                if steps == budget {
                    return Ok(given_up(steps));
                }
                if let Some(after) = watch.over() {
                    return Ok(out_of_time(steps, after));
                }
                steps += 1;
                watch.step(steps, path.len());
                match try_one(alloc, ledger, rules, &calls[place], plain_at(&plain, place))? {
                    Some(taken) => {
                        watch.taken(taken.turn.call);
                        turns.push(taken.turn)?;
                        path.push(place)?;
                        remaining.take(calls, place);
                        depth = taken.depth;
                        from = 0;
                    }
                    None => from = place + 1,
                }
            }
            None => {
                let Some(place) = path.pop() else {
                    return Ok(given_up(steps));
                };
                turns.pop();
                ledger.back(Mark { depth });
                depth -= 1;
                remaining.give_back(calls, place);
                watch.given_back();
                from = place + 1;
            }
        }
    }
    Ok(Guessed {
        turns: Some(turns),
        steps,
        over: None,
    })
}

/// What is told where nothing more can be tried.
#[inline(always)]
pub fn given_up(steps: u64) -> Guessed
    ensures { result ≡ record { turns = None; steps = steps; over = None } }
{
    Guessed {
        turns: None,
        steps,
        over: None,
    }
}

/// What is told where so many seconds are over.
#[inline(always)]
pub fn out_of_time(steps: u64, after: u64) -> Guessed
    ensures { result ≡ record { turns = None; steps = steps; over = Some after } }
{
    Guessed {
        turns: None,
        steps,
        over: Some(after),
    }
}

/// A call that was taken: the turn that took it, and the depth of the mark after which it was.
#[derive(Drop)]
pub struct Taken {
    pub turn: Turn,
    pub depth: usize,
}

/// The call at a place, where it is plain.
#[inline(always)]
fn plain_at<'p, 'b, 'a>(
    plain: &'p [Option<Candidate<'b, 'a>>],
    place: usize,
) -> Option<&'p Candidate<'b, 'a>>
    requires { AreReadableOnes plain.now }
    ensures { IfSome result (λ one. IsReadableOne one.now) }
{
    match plain.get(place) {
        Some(one) => one.as_ref(),
        None => None,
    }
}

/// Takes a call after a new mark, as it was recorded where it is plain, and else with its guesses; or the ledger is as before.
#[inline(always)]
fn try_one<L: Ledger>(
    alloc: Global,
    ledger: &mut L,
    rules: &Rules,
    call: &Candidate,
    plain: Option<&Candidate>,
) -> Result<Option<Taken>, CheckFault>
    requires sound { IsSound (L.state ledger.old).now }
    requires recorded { IsRecordedCall (call_of call.now.call.now) }
    requires readable { IfSome plain (λ one. IsReadableOne one.now) }
    ensures { GuessTried (L.state ledger.old) result (L.state ledger.new) }
{
    match plain {
        Some(one) => try_plain(alloc, ledger, rules, one),
        None => try_guess(alloc, ledger, rules, call),
    }
}

/// Takes a plain call after a new mark; or it is impossible, and the ledger is as before.
#[inline(always)]
fn try_plain<L: Ledger>(
    alloc: Global,
    ledger: &mut L,
    rules: &Rules,
    call: &Candidate,
) -> Result<Option<Taken>, CheckFault>
    requires sound { IsSound (L.state ledger.old).now }
    requires readable { IsReadableOne call.now }
    ensures { GuessTried (L.state ledger.old) result (L.state ledger.new) }
{
    match try_call(alloc, ledger, rules, call)? {
        Some(depth) => Ok(Some(Taken {
            turn: Turn::bare(alloc, call.number),
            depth,
        })),
        None => Ok(None),
    }
}

/// Takes a call with its guesses after a new mark; or it is impossible with them, and the ledger is as before. An object is looked for as
/// it is when the call begins.
fn try_guess<L: Ledger>(
    alloc: Global,
    ledger: &mut L,
    rules: &Rules,
    call: &Candidate,
) -> Result<Option<Taken>, CheckFault>
    requires sound { IsSound (L.state ledger.old).now }
    requires recorded { IsRecordedCall (call_of call.now.call.now) }
    ensures { GuessTried (L.state ledger.old) result (L.state ledger.new) }
{
    ledger.set_moment(call.response.stamp);
    let turn = guessed_turn(alloc, ledger, call)?;
    match take_turn(alloc, ledger, rules, call.call, &turn)? {
        Some(depth) => Ok(Some(Taken { turn, depth })),
        None => Ok(None),
    }
}

/// Takes a call as a turn makes its step, after a new mark, and answers the mark's depth; or the ledger is as before. No turn that is tried so
/// gives a moment.
pub fn take_turn<L: Ledger>(
    alloc: Global,
    ledger: &mut L,
    rules: &Rules,
    call: &Call,
    turn: &Turn,
) -> Result<Option<usize>, CheckFault>
    requires sound { IsSound (L.state ledger.old).now }
    requires recorded { IsRecordedCall (call_of call.now) }
    requires named { turn.now.call ≡ call.now.number }
    ensures { TurnTried (L.state ledger.old) result (L.state ledger.new) }
{
    check_laws();
    let grants = Grants {
        tolerance: 0,
        own: &[],
    };
    let step = match step_of_turn(alloc, &grants, call, turn) {
        Ok(step) => step,
        Err(StepFault::Unfit(_)) => return Ok(None),
        Err(StepFault::Memory) => return Err(CheckFault::Memory),
    };
    let Ok(mark) = ledger.mark() else {
        return Err(CheckFault::Memory);
    };
    match take_call(
        alloc,
        ledger,
        rules,
        step.request(),
        step.response.response(),
        step.places(),
    ) {
        Ok(()) => {
            let Mark { depth } = mark;
            Ok(Some(depth))
        }
        Err(refusal) => {
            ledger.back(mark);
            not_taken(refusal)
        }
    }
}
