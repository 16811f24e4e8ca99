//! Which call was missed of those that may be next.

ghost use Rattle.std.specs.Prelude.{◌≡◌, ◌<◌, ◌≤◌, ℕ, List, None, Contains, IfSome, IsTrue, length, true};
ghost use Rattle.kmipa_turns.specs.Steps.{StepOf, moment_of, step_of};
ghost use Rattle.kmipa_findings.specs.Boards.{IsBoard};
ghost use Rattle.kmipa_findings.specs.Exhausting.{AreCovered, AreRisingTrials, EndedBefore, HasNoStepAt, IsBareStep, IsCovered, IsStepAt, RanBefore, RunsAhead, SomeWaits};

use crate::board::Board;
use crate::forced::is_before;
use crate::ranking::moment_of;
use crate::trial::{Trial, Way};
use kmipa_turns::Step;

/// Where a search looks for a call: the calls, and whether they stand in the order of their begin marks; which are taken; which are refuted here; and the one
/// that ends first of those that are left, and one of the least moment.
#[derive(Clone, Copy)]
pub(crate) struct Place<'s, 'a> {
    pub trials: &'s [Trial<'a>],
    pub rising: bool,
    pub board: &'s Board,
    pub refuted: &'s [usize],
    pub soonest: usize,
    pub least: usize,
}

/// A call that may be next, and wasn't refuted; none where all that is left was refuted, waits for a payload, or can't be next.
pub(crate) fn missed(at: Place) -> Option<usize>
    requires rising { at.rising ≡ true → AreRisingTrials at.trials.now }
    ensures within { IfSome result (λ place. place < length at.entry.trials.now) }
    ensures covered { (count : ℕ) (taken : List ℕ) → IsBoard count taken at.entry.board.now → result ≡ None
        → AreCovered at.entry.trials.now taken at.entry.refuted.now }
{
    let mut place = at.board.low;
    'places: while place < at.trials.len() {
        if is_past(at, place) {
            return None;
        }
        if !is_covered(at, place) {
            return Some(place);
        }
        place += 1;
    }
    None
}

/// Whether the call at a place, and so each that begins behind it, began when one that is left had ended.
fn is_past(at: Place, place: usize) -> bool
    ensures rising { IsTrue result → at.entry.rising ≡ true }
    ensures behind { IsTrue result → (count : ℕ) (taken : List ℕ) → IsBoard count taken at.entry.board.now
        → EndedBefore at.entry.trials.now taken place }
{
    if !at.rising {
        return false;
    }
    is_behind(at, place)
}

/// Whether the call at a place is taken or refuted, waits for a payload, or can't be next.
fn is_covered(at: Place, place: usize) -> bool
    ensures { IsTrue result → (count : ℕ) (taken : List ℕ) → IsBoard count taken at.entry.board.now
        → IsCovered at.entry.trials.now taken at.entry.refuted.now place }
{
    if at.board.has(place) {
        return true;
    }
    if is_among(at.refuted, place) {
        return true;
    }
    if waits(at.trials, place) {
        return true;
    }
    if is_behind(at, place) {
        return true;
    }
    is_above(at, place)
}

fn is_among(places: &[usize], place: usize) -> bool
    ensures { IsTrue result → Contains places.now place }
{
    let mut index = 0;
    'places: while index < places.len() {
        if places[index] == place {
            return true;
        }
        index += 1;
    }
    false
}

/// Whether the call at a place has no step by itself.
fn waits(trials: &[Trial], place: usize) -> bool
    ensures { IsTrue result → HasNoStepAt trials.now place }
{
    match step_at(trials, place) {
        Some(_) => false,
        None => true,
    }
}

/// Whether a call waits for payloads.
pub(crate) fn any_waits(trials: &[Trial]) -> bool
    ensures { IsTrue result → SomeWaits trials.now }
{
    let mut place = 0;
    'trials: while place < trials.len() {
        if waits(trials, place) {
            return true;
        }
        place += 1;
    }
    false
}

/// Whether the call that ends first, of those that are left, ended before the one at a place began.
fn is_behind(at: Place, place: usize) -> bool
    ensures { IsTrue result → (count : ℕ) (taken : List ℕ) → IsBoard count taken at.entry.board.now
        → EndedBefore at.entry.trials.now taken place }
{
    if at.soonest >= place {
        return false;
    }
    if at.board.has(at.soonest) {
        return false;
    }
    let Some(first) = step_at(at.trials, at.soonest) else {
        return false;
    };
    let Some(step) = step_at(at.trials, place) else {
        return false;
    };
    is_before(first, step)
}

/// Whether the call of the least moment, of those that are left, has a lower one than the one at a place.
fn is_above(at: Place, place: usize) -> bool
    ensures { IsTrue result → (count : ℕ) (taken : List ℕ) → IsBoard count taken at.entry.board.now
        → RanBefore at.entry.trials.now taken place }
{
    if at.least == place {
        return false;
    }
    if at.board.has(at.least) {
        return false;
    }
    let Some(least) = step_at(at.trials, at.least) else {
        return false;
    };
    let Some(step) = step_at(at.trials, place) else {
        return false;
    };
    runs_ahead(least, step)
}

/// Whether one call has a lower moment than another.
fn runs_ahead(other: &Step, step: &Step) -> bool
    ensures { IsTrue result → RunsAhead (step_of other.now) (step_of step.now) }
{
    match (moment_of(other), moment_of(step)) {
        (Some(moment), Some(last)) => moment < last,
        _ => false,
    }
}

/// The step of the call at a place, where it waits for no payload.
fn step_at<'t, 'a>(trials: &'t [Trial<'a>], place: usize) -> Option<&'t Step<'a>>
    ensures some { IfSome result (λ step. IsStepAt trials.now place (step_of step.now)) }
    ensures none { result ≡ None → HasNoStepAt trials.now place }
{
    match trials.get(place) {
        Some(trial) => step_of_way(&trial.way),
        None => None,
    }
}

/// The step of a way of taking a call.
fn step_of_way<'t, 'a>(way: &'t Way<'a>) -> Option<&'t Step<'a>>
    ensures some { IfSome result (λ step. IsBareStep way.now (step_of step.now)) }
    ensures none { result ≡ None → (s : StepOf) → IsBareStep way.now s → ⊥ }
{
    match way {
        Way::Bare(step) => Some(step),
        Way::Waits(_) => None,
    }
}

/// Whether the calls stand in the order of their begin marks, as those of a transcript do.
pub(crate) fn are_rising(trials: &[Trial]) -> bool
    ensures { IsTrue result → AreRisingTrials trials.now }
{
    let mut most = 0;
    let mut place = 0;
    'trials: while place < trials.len() {
        if !begins_from(trials, place, most) {
            return false;
        }
        most = begin_at(trials, place, most);
        place += 1;
    }
    true
}

/// Whether the call at a place begins at this mark or behind it, or waits for a payload.
fn begins_from(trials: &[Trial], place: usize, mark: usize) -> bool
    ensures { IsTrue result → (b : StepOf) → IsStepAt trials.now place b → mark ≤ b.begin }
{
    match step_at(trials, place) {
        Some(step) => is_from(step, mark),
        None => true,
    }
}

fn is_from(step: &Step, mark: usize) -> bool
    ensures { IsTrue result → mark ≤ (step_of step.now).begin }
{
    mark <= step.begin
}

/// The later of a mark and the begin mark of the call at a place, where that doesn't wait for a payload.
fn begin_at(trials: &[Trial], place: usize, mark: usize) -> usize
    ensures mark { mark ≤ result }
    ensures begin { (b : StepOf) → IsStepAt trials.now place b → b.begin ≤ result }
{
    match step_at(trials, place) {
        Some(step) => later(step, mark),
        None => mark,
    }
}

fn later(step: &Step, mark: usize) -> usize
    ensures mark { mark ≤ result }
    ensures begin { (step_of step.now).begin ≤ result }
{
    if step.begin < mark { mark } else { step.begin }
}
