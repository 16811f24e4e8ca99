//! What is found along an order.

ghost use Rattle.std.specs.Prelude.{◌≡◌, ℕ, IfOk, IfSome, None, OnOk};
ghost use Rattle.kmipa_store.specs.Choices.{IsSound};
ghost use Rattle.kmipa_record.specs.Declarations.{AreDeclared, declaration_of};
ghost use Rattle.kmipa_record.specs.Marks.{AreRecorded};
ghost use Rattle.kmipa_record.specs.Transcripts.{transcript_of};
ghost use Rattle.kmipa_findings.specs.Outcomes.{Judges};
ghost use Rattle.kmipa_findings.specs.Trying.{IsTakableStep};

use crate::basis::{Basis, owners_along};
use crate::calls::step_of;
use crate::copying::copied_turn;
use crate::finding::Outcome;
use crate::judging::confirm;
use crate::proposal::Proposal;
use crate::proposing::nothing;
use crate::ranking::moment_of;
use crate::setting::{Found, Impossible, Settled, take_partly};
use crate::trying::{Advance, try_over};
use kmipa_check::{FirstPlaces, Grants, rules_of_declaration};
use kmipa_ops::Why;
use kmipa_record::{Declaration, Transcript, Turn};
use kmipa_store::Ledger;
use kmipa_trail::{Fault, open_world};
use kmipa_turns::{Recorded, Step, recorded_calls};
use std::alloc::{AllocError, Global};

/// What comes of an order of the calls that was found with so many steps: its turns are taken one after the other, and what is impossible where it stands is
/// set aside. None where they can't be taken so, or what is found can't be confirmed by a check.
pub fn judge_along(
    alloc: Global,
    transcript: &Transcript,
    declaration: &Declaration,
    turns: &[Turn],
    steps: u64,
) -> Result<Option<Outcome>, Fault>
    requires { AreDeclared (declaration_of declaration.now) }
    ensures { AreRecorded (transcript_of transcript.now) → IfOk result (λ found. IfSome found (λ outcome. (seconds : ℕ)
        → Judges seconds (transcript_of transcript.now) (declaration_of declaration.now) outcome)) }
{
    let proposal = propose_along(alloc, transcript, declaration, turns, steps)?;
    match confirm(alloc, transcript, declaration, proposal)? {
        Outcome::Judged(judged) => Ok(Some(Outcome::Judged(judged))),
        Outcome::Undecided(_) => Ok(None),
    }
}

/// These turns, with what is impossible set aside.
fn propose_along(
    alloc: Global,
    transcript: &Transcript,
    declaration: &Declaration,
    turns: &[Turn],
    steps: u64,
) -> Result<Proposal, Fault>
    requires { AreDeclared (declaration_of declaration.now) }
    ensures { IfOk result (λ p. p.over ≡ None) }
{
    let recorded = recorded_calls(alloc, transcript)?;
    let calls = calls_along(alloc, &recorded, turns)?;
    propose_by(alloc, declaration, &calls, turns, steps)
}

/// The same of these calls, each at the place of its turn.
fn propose_by<'a>(
    alloc: Global,
    declaration: &'a Declaration,
    calls: &[Option<Recorded<'a>>],
    turns: &'a [Turn],
    steps: u64,
) -> Result<Proposal, Fault>
    requires { AreDeclared (declaration_of declaration.now) }
    ensures { IfOk result (λ p. p.over ≡ None) }
{
    let owners = owners_along(alloc, declaration, calls, turns)?;
    let rules = rules_of_declaration(alloc, declaration)?;
    let mut ledger = open_world(alloc, declaration)?;
    let way = Way {
        basis: Basis {
            rules: &rules,
            owners: &owners,
        },
        grants: Grants::of(declaration),
    };
    let mut along = Along {
        found: Found {
            turns: Vec::new(alloc),
            findings: Vec::new(alloc),
        },
        last: None,
    };
    if !follow(alloc, &mut ledger, way, calls, turns, &mut along)? {
        return Ok(nothing(alloc));
    }
    Ok(proposed(along, steps))
}

/// The calls that turns name, each at the place of its turn; none where one names none.
fn calls_along<'a>(
    alloc: Global,
    recorded: &[Recorded<'a>],
    turns: &[Turn],
) -> Result<Vec<Option<Recorded<'a>>>, AllocError> {
    let places = FirstPlaces::of(alloc, recorded)?;
    let mut calls = Vec::with_capacity(alloc, turns.len())?;
    'turns: for turn in turns {
        calls.push(call_of(recorded, &places, turn))?;
    }
    Ok(calls)
}

/// By what is judged along an order, and what the server is granted.
#[derive(Clone, Copy)]
struct Way<'r, 'o, 'g> {
    basis: Basis<'r, 'o>,
    grants: Grants<'g>,
}

/// What was found so far, and the last moment.
#[derive(Drop)]
struct Along {
    found: Found,
    last: Option<i64>,
}

/// What was found along all turns.
fn proposed(along: Along, steps: u64) -> Proposal
    ensures { result.over ≡ None }
{
    let Found { turns, findings } = along.found;
    Proposal {
        turns,
        findings,
        steps,
        is_whole: true,
        over: None,
    }
}

/// Takes these turns, one after the other. Whether each has a call, and fits it.
fn follow<L: Ledger>(
    alloc: Global,
    ledger: &mut L,
    way: Way,
    calls: &[Option<Recorded>],
    turns: &[Turn],
    along: &mut Along,
) -> Result<bool, Fault>
    requires { IsSound (L.state ledger.old).now }
{
    'turns: for (call, turn) in calls.iter().zip(turns.iter()) {
        let Some(call) = call else {
            return Ok(false);
        };
        if !take_turn(alloc, ledger, way, call, turn, along)? {
            return Ok(false);
        }
    }
    Ok(true)
}

/// The call that a turn names.
fn call_of<'a>(calls: &[Recorded<'a>], places: &FirstPlaces, turn: &Turn) -> Option<Recorded<'a>> {
    let place = places.place(turn.call)?;
    match calls.get(place) {
        Some(call) => Some(*call),
        None => None,
    }
}

/// Takes the call of a turn, with what is impossible of it set aside. Whether the turn fits the call.
fn take_turn<L: Ledger>(
    alloc: Global,
    ledger: &mut L,
    way: Way,
    call: &Recorded,
    turn: &Turn,
    along: &mut Along,
) -> Result<bool, Fault>
    requires sound { IsSound (L.state ledger.old).now }
    ensures { OnOk result (IsSound (L.state ledger.new).now) }
{
    let Some(step) = step_of(alloc, &way.grants, call, turn)? else {
        return Ok(false);
    };
    match advance(alloc, ledger, way.basis, &step, along.last)? {
        Advance::Taken(_) => {
            along.last = later(along.last, moment_of(&step));
            along.found.turns.push(copied_turn(alloc, turn)?)?;
            Ok(true)
        }
        Advance::Refused(item, why) => {
            let impossible = Impossible {
                basis: way.basis,
                grants: way.grants,
                call,
                stamp: step.stamp,
                answer: (item, why),
            };
            set_aside_along(alloc, ledger, impossible, turn, along)
        }
    }
}

/// Takes a step, whose moment may not be before the last one.
fn advance<L: Ledger>(
    alloc: Global,
    ledger: &mut L,
    basis: Basis,
    step: &Step,
    last: Option<i64>,
) -> Result<Advance, Fault>
    requires sound { IsSound (L.state ledger.old).now }
    requires takable { IsTakableStep step.now }
    ensures { OnOk result (IsSound (L.state ledger.new).now) }
{
    if runs_back(last, moment_of(step)) {
        return Ok(Advance::Refused(0, Why::StampRunsBack));
    }
    try_over(alloc, ledger, basis, step)
}

/// Whether a moment, where there is one, is before the last one.
fn runs_back(last: Option<i64>, moment: Option<i64>) -> bool {
    match (last, moment) {
        (Some(last), Some(moment)) => moment < last,
        _ => false,
    }
}

/// The last moment behind a call of this moment, where it has one.
fn later(last: Option<i64>, moment: Option<i64>) -> Option<i64> {
    if moment.is_some() { moment } else { last }
}

/// Takes the call of a turn, with what is impossible of it set aside. Whether a turn fits it then.
fn set_aside_along<L: Ledger>(
    alloc: Global,
    ledger: &mut L,
    impossible: Impossible,
    turn: &Turn,
    along: &mut Along,
) -> Result<bool, Fault>
    requires sound { IsSound (L.state ledger.old).now }
    ensures { OnOk result (IsSound (L.state ledger.new).now) }
{
    let turn = copied_turn(alloc, turn)?;
    match take_partly(alloc, ledger, impossible, &mut along.found, turn)? {
        Some(Settled { moment }) => {
            along.last = later(along.last, moment);
            Ok(true)
        }
        None => Ok(false),
    }
}
