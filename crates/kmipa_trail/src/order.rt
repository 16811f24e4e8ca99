//! The order that a witness gives.

ghost use Rattle.std.specs.Prelude.{◌≡◌, ◌≢◌, ◌<◌, ◌^◌, pos, ◌≤ℤ◌, All, AllPairs, Some, length, map, slice_get, IfOk, MatchResult};
ghost use Rattle.kmipa_record.specs.Witnesses.{turn_of};
ghost use Rattle.kmipa_check.specs.Grants.{grants_of};
ghost use Rattle.kmipa_check.specs.Numbers.{Indexes};
ghost use Rattle.kmipa_turns.specs.Recorded.{recorded_of};
ghost use Rattle.kmipa_turns.specs.Steps.{step_of};
ghost use Rattle.kmipa_trail.specs.Ordering.{AreFormed, OrderFault, TurnRefused, fault_at, first_missing};
ghost use Rattle.kmipa_trail.specs.Orders.{IsFormed, IsOrder};

use crate::fault::Fault;
use kmipa_check::{FirstPlaces, Grants, StepFault, WitnessFault, WitnessKind};
use kmipa_record::Turn;
use kmipa_turns::{Recorded, Step, step_of_turn};
use std::alloc::Global;

/// Where numbers first stand.
#[derive(Drop)]
struct Numbers {
    /// Those of the calls.
    known: FirstPlaces,
    /// Those that the turns name.
    named: FirstPlaces,
}

/// The steps that the turns make with the calls, where this much is granted, or the first fault of the witness. Where the calls have numbers of their own, from 1 on,
/// the steps take each call once that has ended, and each open one at most once.
pub fn steps_of<'a>(
    alloc: Global,
    grants: &Grants,
    calls: &[Recorded<'a>],
    turns: &'a [Turn],
) -> Result<Vec<Step<'a>>, Fault>
    ensures formed { IfOk result
        (λ steps. AreFormed (grants_of grants.now) (map recorded_of calls.now) (map turn_of turns.now) (length turns.now)
        (map step_of steps.items)) }
    ensures ordered { All (λ call. pos 1 ≤ℤ call.number) calls.now
        → AllPairs (λ x y. x ≢ y) (map (λ call. call.number) (map recorded_of calls.now))
        → MatchResult result
        (λ steps. IsOrder (grants_of grants.now) (map recorded_of calls.now) (map turn_of turns.now)
        (map step_of steps.items))
        (OrderFault (grants_of grants.now) (map recorded_of calls.now) (map turn_of turns.now)) }
{
    let known = FirstPlaces::of(alloc, calls)?;
    let named = FirstPlaces::of(alloc, turns)?;
    let numbers = Numbers { known, named };
    let mut steps = Vec::with_capacity(alloc, turns.len())?;
    let mut place = 0;
    'turns: while place < turns.len() {
        match step_at(alloc, grants, calls, turns, &numbers, place) {
            Ok(step) => steps.push(step)?,
            Err(fault) => return Err(fault_at(place, fault)),
        }
        place += 1;
    }
    match left_out(calls, &numbers.named) {
        Some(number) => Err(Fault::Witness(WitnessFault {
            at: usize::try_from(number).unwrap_or(0),
            kind: WitnessKind::LeftOut,
        })),
        None => Ok(steps),
    }
}

/// The step that the turn at a place makes, or the first fault of the turn.
fn step_at<'a>(
    alloc: Global,
    grants: &Grants,
    calls: &[Recorded<'a>],
    turns: &'a [Turn],
    numbers: &Numbers,
    place: usize,
) -> Result<Step<'a>, StepFault>
    requires within { place < length turns.now }
    requires known { Indexes (map (λ call. Some call.number) calls.now) numbers.now.known }
    requires named { Indexes (map (λ turn. Some turn.call) turns.now) numbers.now.named }
    ensures { MatchResult result
        (λ step. IsFormed (grants_of grants.now) (map recorded_of calls.now) (map turn_of turns.now) place (step_of step))
        (TurnRefused (grants_of grants.now) (map recorded_of calls.now) (map turn_of turns.now) place) }
{
    let turn = &turns[place];
    let Some(at) = numbers.known.place(turn.call) else {
        return Err(StepFault::Unfit(WitnessKind::UnknownCall));
    };
    if !numbers.named.is_first(turn.call, place) {
        return Err(StepFault::Unfit(WitnessKind::Twice));
    }
    step_of_turn(alloc, grants, call_at(calls, at), turn)
}

/// The call at a place.
fn call_at<'b, 'a>(calls: &'b [Recorded<'a>], at: usize) -> &'b Recorded<'a>
    requires { at < length calls.now }
    ensures { slice_get calls.now at ≡ Some result.now }
{
    &calls[at]
}

/// The fault of a witness whose turn at a place, counted from 0, makes no step.
fn fault_at(place: usize, fault: StepFault) -> Fault
    requires { place < 2 ^ 63 }
    ensures { result ≡ fault_at place fault }
{
    match fault {
        StepFault::Unfit(kind) => Fault::Witness(WitnessFault {
            at: place + 1,
            kind,
        }),
        StepFault::Memory => Fault::Memory,
    }
}

/// The number of the first call that has ended and that no turn names.
fn left_out(calls: &[Recorded], named: &FirstPlaces) -> Option<i32>
    ensures { result ≡ first_missing named.now (map recorded_of calls.now) }
{
    for call in calls {
        if call.end.is_some() && named.place(call.number).is_none() {
            return Some(call.number);
        }
    }
    None
}
