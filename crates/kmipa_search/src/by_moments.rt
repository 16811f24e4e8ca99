//! The search at other moments than Time Stamps, where the declaration has a tolerance.

ghost use Rattle.std.specs.Prelude.{◌≡◌, ◌≤◌, ◌⊎◌, ℕ, IfErr, IfSome, length};
ghost use Rattle.kmipa_record.specs.Declarations.{AreDeclared, declaration_of};
ghost use Rattle.kmipa_record.specs.Marks.{AreRecorded};
ghost use Rattle.kmipa_record.specs.Transcripts.{transcript_of};
ghost use Rattle.kmipa_check.specs.Grants.{GrantsNothing, grants_declared};
ghost use Rattle.kmipa_orders.specs.ByMoments.{FindsBehind, IsKept};
ghost use Rattle.kmipa_orders.specs.Found.{Finds, FindsIn, Searches, SearchesIn};

use crate::births::GivenAtBirth;
use crate::by_births::search_with_births;
use crate::searching::try_witness;
use kmipa_check::{CheckFault, needs_fill};
use kmipa_orders::{Found, dates_left, grants_nothing};
use kmipa_record::{Call, Declaration, Transcript, Turn, Witness};
use std::alloc::{AllocError, Global};

/// So many tries of all calls are made at moments, and so many besides with births.
const TRIES: u64 = 2;

const TRIES_WITH_BIRTHS: u64 = 3;

/// So many steps of a budget a search at Time Stamps may make. Where the declaration has a tolerance or own lines, those are left out in which each
/// call is tried at moments and with births; but not where they are more than half.
pub(crate) fn kept_steps(declaration: &Declaration, calls: &[Call], budget: u64) -> u64
    ensures { IsKept (declaration_of declaration.now) budget result }
{
    if grants_nothing(declaration) {
        return budget;
    }
    let left = tries(declaration).saturating_mul(calls.len() as u64);
    if left > budget / 2 {
        return budget;
    }
    budget - left
}

fn tries(declaration: &Declaration) -> u64 {
    if declaration.own_attributes.is_empty() {
        TRIES
    } else {
        TRIES + TRIES_WITH_BIRTHS
    }
}

/// What a search at Time Stamps answered; or where it gave up and the declaration has a tolerance, turns at other moments that a check accepts, if
/// some are found.
///
/// # Tries
/// The calls are taken in the order in which they ended, and left out where they didn't: each at its Time Stamp, but at no moment below that of
/// the call before; and then the same where each that left a date which some answer shows is taken at that date. Where the declaration has own lines,
/// births that answers show are put in then, `search_with_births` says how.
pub(crate) fn or_at_moments(
    alloc: Global,
    transcript: &Transcript,
    declaration: &Declaration,
    calls: &[Call],
    budget: u64,
    answered: Result<Found, CheckFault>,
) -> Result<Found, CheckFault>
    requires { AreDeclared (declaration_of declaration.now) }
    ensures { (seconds kept : ℕ) → AreRecorded (transcript_of transcript.now)
        → IsKept (declaration_of declaration.now) budget kept
        → SearchesIn seconds (transcript_of transcript.now) (declaration_of declaration.now) kept answered
        → SearchesIn seconds (transcript_of transcript.now) (declaration_of declaration.now) budget result }
{
    match answered {
        Ok(found) => found_at_moments(alloc, transcript, declaration, calls, budget, found),
        Err(fault) => Err(fault),
    }
}

/// The same of what a search found.
fn found_at_moments(
    alloc: Global,
    transcript: &Transcript,
    declaration: &Declaration,
    calls: &[Call],
    budget: u64,
    found: Found,
) -> Result<Found, CheckFault>
    requires { AreDeclared (declaration_of declaration.now) }
    ensures { (seconds kept : ℕ) → AreRecorded (transcript_of transcript.now)
        → IsKept (declaration_of declaration.now) budget kept
        → FindsIn seconds (transcript_of transcript.now) (declaration_of declaration.now) kept found
        → SearchesIn seconds (transcript_of transcript.now) (declaration_of declaration.now) budget result }
{
    match found {
        Found::Yes(witness, steps) => Ok(Found::Yes(witness, steps)),
        Found::GaveUp(steps) => gave_up(alloc, transcript, declaration, calls, budget, steps),
        Found::Refuted(steps, objects) => Ok(Found::Refuted(steps, objects)),
        Found::Impossible(steps, call) => Ok(Found::Impossible(steps, call)),
        Found::OutOfTime(steps, after) => Ok(Found::OutOfTime(steps, after)),
    }
}

/// The same of a search that gave up after so many steps.
fn gave_up(
    alloc: Global,
    transcript: &Transcript,
    declaration: &Declaration,
    calls: &[Call],
    budget: u64,
    steps: u64,
) -> Result<Found, CheckFault>
    requires { AreDeclared (declaration_of declaration.now) }
    ensures { (kept : ℕ) → AreRecorded (transcript_of transcript.now)
        → IsKept (declaration_of declaration.now) budget kept
        → Finds (transcript_of transcript.now) (declaration_of declaration.now) kept (Found.GaveUp steps)
        → Searches (transcript_of transcript.now) (declaration_of declaration.now) budget result }
{
    if grants_nothing(declaration) {
        Ok(Found::GaveUp(steps))
    } else {
        search_at_moments(alloc, transcript, declaration, calls, budget, steps)
    }
}

/// What is found at moments after so many steps: each try makes one step more for each turn, within the budget.
fn search_at_moments(
    alloc: Global,
    transcript: &Transcript,
    declaration: &Declaration,
    calls: &[Call],
    budget: u64,
    steps: u64,
) -> Result<Found, CheckFault>
    requires declared { AreDeclared (declaration_of declaration.now) }
    requires granted { GrantsNothing (grants_declared (declaration_of declaration.now)) → ⊥ }
    ensures finds { AreRecorded (transcript_of transcript.now)
        → FindsBehind (transcript_of transcript.now) (declaration_of declaration.now) budget (Found.GaveUp steps) result }
    ensures memory { IfErr result (λ fault. fault ≡ CheckFault.Memory) }
{
    let none = GivenAtBirth::none(alloc);
    let turns = turns_by_end(alloc, declaration, calls, &[], &none)?;
    let found = try_turns(alloc, transcript, declaration, budget, turns, steps)?;
    let dates = dates_left(alloc, calls, declaration, tolerance_of(declaration))?;
    let turns = turns_by_end(alloc, declaration, calls, &dates, &none)?;
    match or_turns(alloc, transcript, declaration, budget, turns, found)? {
        Found::GaveUp(steps) => {
            search_with_births(alloc, transcript, declaration, calls, budget, steps)
        }
        found => Ok(found),
    }
}

/// What was found, or else what is found by these turns.
pub(crate) fn or_turns(
    alloc: Global,
    transcript: &Transcript,
    declaration: &Declaration,
    budget: u64,
    turns: Option<Vec<Turn>>,
    found: Found,
) -> Result<Found, CheckFault>
    requires declared { AreDeclared (declaration_of declaration.now) }
    requires granted { GrantsNothing (grants_declared (declaration_of declaration.now)) → ⊥ }
    ensures finds { AreRecorded (transcript_of transcript.now)
        → FindsBehind (transcript_of transcript.now) (declaration_of declaration.now) budget found result }
    ensures memory { IfErr result (λ fault. fault ≡ CheckFault.Memory) }
{
    match found {
        Found::GaveUp(steps) => try_turns(alloc, transcript, declaration, budget, turns, steps),
        found => Ok(found),
    }
}

/// What is found after so many steps where a check accepts these turns, if there are some: one step more for each, within the budget.
pub(crate) fn try_turns(
    alloc: Global,
    transcript: &Transcript,
    declaration: &Declaration,
    budget: u64,
    turns: Option<Vec<Turn>>,
    steps: u64,
) -> Result<Found, CheckFault>
    requires declared { AreDeclared (declaration_of declaration.now) }
    requires granted { GrantsNothing (grants_declared (declaration_of declaration.now)) → ⊥ }
    ensures finds { AreRecorded (transcript_of transcript.now)
        → FindsBehind (transcript_of transcript.now) (declaration_of declaration.now) budget (Found.GaveUp steps) result }
    ensures memory { IfErr result (λ fault. fault ≡ CheckFault.Memory) }
{
    let Some(turns) = turns else {
        return Ok(Found::GaveUp(steps));
    };
    let all = steps.saturating_add(turns.len() as u64);
    if all > budget {
        return Ok(Found::GaveUp(steps));
    }
    match try_witness(alloc, transcript, declaration, Witness { turns }, all) {
        Ok(Found::Yes(witness, steps)) => Ok(Found::Yes(witness, steps)),
        Err(CheckFault::Memory) => Err(CheckFault::Memory),
        _ => Ok(Found::GaveUp(all)),
    }
}

/// The turns of the calls that have ended, in the order in which they did; none where one would be taken later than the tolerance allows, or waits
/// for a payload. Each is taken at its date, where it has one, and else at its Time Stamp; but at no moment below that of the turn before. What it
/// gives at birth is put in.
pub(crate) fn turns_by_end(
    alloc: Global,
    declaration: &Declaration,
    calls: &[Call],
    dates: &[Option<i64>],
    given: &GivenAtBirth,
) -> Result<Option<Vec<Turn>>, AllocError> {
    let tolerance = tolerance_of(declaration);
    let mut turns = Vec::with_capacity(alloc, calls.len())?;
    let mut moment = i64::MIN;
    for place in places_by_end(alloc, calls)? {
        let Some(call) = calls.get(place) else {
            continue;
        };
        let Some(response) = &call.response else {
            continue;
        };
        moment = match dates.get(place) {
            Some(Some(date)) => moment.max(*date),
            _ => moment.max(response.stamp),
        };
        if needs_fill(&call.request, response) || moment.abs_diff(response.stamp) > tolerance {
            return Ok(None);
        }
        let mut turn = turn_at(alloc, call.number, response.stamp, moment);
        turn.births = given.births(alloc, place)?;
        turns.push(turn)?;
    }
    Ok(Some(turns))
}

/// So many seconds a moment may be from the Time Stamp.
pub(crate) fn tolerance_of(declaration: &Declaration) -> u64 {
    u64::try_from(declaration.settings.tolerance).unwrap_or(0)
}

/// The turn that takes a call at a moment, which it gives where that isn't the Time Stamp.
fn turn_at(alloc: Global, call: i32, stamp: i64, moment: i64) -> Turn {
    let mut turn = Turn::bare(alloc, call);
    if moment != stamp {
        turn.moment = Some(moment);
    }
    turn
}

/// The places of the calls that have ended, in the order in which they did.
pub(crate) fn places_by_end(alloc: Global, calls: &[Call]) -> Result<Vec<usize>, AllocError> {
    let mut ends = Vec::new(alloc);
    for (place, call) in calls.iter().enumerate() {
        if let Some(end) = call.end {
            ends.push((end, place))?;
        }
    }
    ends.sort_unstable();
    let mut places = Vec::with_capacity(alloc, ends.len())?;
    for (_, place) in &ends {
        places.push(*place)?;
    }
    Ok(places)
}
