//! The search for an order of the calls, which goes on behind what is impossible.

ghost use Rattle.std.specs.Prelude.{◌≡◌, IfOk, IfSome, None, OnOk, Some};
ghost use Rattle.kmipa_store.specs.Choices.{IsSound};
ghost use Rattle.kmipa_record.specs.Declarations.{AreDeclared, declaration_of};
ghost use Rattle.kmipa_findings.specs.Trying.{AreTakable};

use crate::basis::{Basis, owners_behind};
use crate::calls::{bare_turns, ended_calls, spans_of, steps_made};
use crate::pace::Pace;
use crate::proposal::Proposal;
use crate::road::{Road, Visit};
use crate::setting::{Found, Given, set_aside};
use crate::walking::{Ended, Limits, walk};
use kmipa_check::{Grants, rules_of_declaration};
use kmipa_record::{Declaration, Transcript, Turn};
use kmipa_store::Ledger;
use kmipa_trail::{Fault, open_world};
use kmipa_turns::{Recorded, Step, recorded_calls};
use std::alloc::{AllocError, Global};

/// The calls that a search tries without coming farther, for each so many of its budget, and besides.
const PARTS: u64 = 64;

/// How many it tries so at least.
const LEAST: u64 = 1_000;

/// An order of the calls that have ended, with what is set aside where there is none without. Nothing is proposed where a call waits for a payload.
pub(crate) fn propose<P: Pace>(
    alloc: Global,
    transcript: &Transcript,
    declaration: &Declaration,
    budget: u64,
    pace: &mut P,
) -> Result<Proposal, Fault>
    requires { AreDeclared (declaration_of declaration.now) }
    ensures over { IfOk result (λ p. IfSome p.over (λ after. after ≡ P.seconds pace.old)) }
    ensures paced { P.seconds pace.new ≡ P.seconds pace.old }
{
    let recorded = recorded_calls(alloc, transcript)?;
    let calls = ended_calls(alloc, &recorded)?;
    let turns = bare_turns(alloc, &calls)?;
    propose_of(alloc, declaration, &calls, &turns, budget, pace)
}

/// The same of these calls, of which these are the bare turns.
fn propose_of<'a, P: Pace>(
    alloc: Global,
    declaration: &'a Declaration,
    calls: &[Recorded<'a>],
    turns: &'a [Turn],
    budget: u64,
    pace: &mut P,
) -> Result<Proposal, Fault>
    requires { AreDeclared (declaration_of declaration.now) }
    ensures over { IfOk result (λ p. IfSome p.over (λ after. after ≡ P.seconds pace.old)) }
    ensures paced { P.seconds pace.new ≡ P.seconds pace.old }
{
    let grants = Grants::of(declaration);
    let Some(steps) = steps_made(alloc, &grants, calls, turns)? else {
        return Ok(nothing(alloc));
    };
    let rules = rules_of_declaration(alloc, declaration)?;
    let mut ledger = open_world(alloc, declaration)?;
    let owners = owners_behind(alloc, declaration, &steps)?;
    let given = Given {
        basis: Basis {
            rules: &rules,
            owners: &owners,
        },
        grants,
        calls,
        steps: &steps,
    };
    search(alloc, &mut ledger, given, budget, pace)
}

/// Nothing is proposed.
pub(crate) fn nothing(alloc: Global) -> Proposal
    ensures { result.over ≡ None }
{
    Proposal {
        turns: Vec::new(alloc),
        findings: Vec::new(alloc),
        steps: 0,
        is_whole: false,
        over: None,
    }
}

/// Searches, sets aside what is impossible at the deepest place, and goes on behind it.
fn search<L: Ledger, P: Pace>(
    alloc: Global,
    ledger: &mut L,
    given: Given,
    budget: u64,
    pace: &mut P,
) -> Result<Proposal, Fault>
    requires sound { IsSound (L.state ledger.old).now }
    requires takable { AreTakable given.steps.now }
    ensures over { IfOk result (λ p. IfSome p.over (λ after. after ≡ P.seconds pace.old)) }
    ensures paced { P.seconds pace.new ≡ P.seconds pace.old }
{
    let mut road = Road::new(alloc, spans_of(alloc, given.steps)?)?;
    let mut found = Found {
        turns: Vec::new(alloc),
        findings: Vec::new(alloc),
    };
    let share = LEAST.max(budget / PARTS);
    let limits = Limits { budget, share };
    'rounds: for _ in 0..=given.calls.len() {
        match walk(alloc, ledger, given, &mut road, limits, pace)? {
            Ended::Whole(path) => {
                push_turns(alloc, &mut found.turns, given.steps, &path)?;
                return Ok(proposed(found, &road, true));
            }
            Ended::Spent => return Ok(proposed(found, &road, false)),
            Ended::Over(after) => return Ok(out_of_time(found, &road, after)),
            Ended::Stuck => {
                if !go_on(alloc, ledger, given, &mut road, &mut found)? {
                    return Ok(proposed(found, &road, false));
                }
            }
        }
    }
    Ok(proposed(found, &road, false))
}

/// Sets aside what is impossible at the deepest place. Whether that could be done.
fn go_on<L: Ledger>(
    alloc: Global,
    ledger: &mut L,
    given: Given,
    road: &mut Road,
    found: &mut Found,
) -> Result<bool, Fault>
    requires sound { IsSound (L.state ledger.old).now }
    requires takable { AreTakable given.steps.now }
    ensures { OnOk result (IsSound (L.state ledger.new).now) }
{
    match road.start_anew() {
        Some(stuck) => set_aside(alloc, ledger, given, road, found, &stuck),
        None => Ok(false),
    }
}

/// What was found so far.
fn proposed(found: Found, road: &Road, is_whole: bool) -> Proposal
    ensures { result.over ≡ None }
{
    let Found { turns, findings } = found;
    Proposal {
        turns,
        findings,
        steps: road.steps,
        is_whole,
        over: None,
    }
}

/// What was found where so many seconds are over.
fn out_of_time(found: Found, road: &Road, after: u64) -> Proposal
    ensures { result.over ≡ Some after }
{
    let Found { turns, findings } = found;
    Proposal {
        turns,
        findings,
        steps: road.steps,
        is_whole: false,
        over: Some(after),
    }
}

/// The bare turns of these calls, behind others.
fn push_turns(
    alloc: Global,
    turns: &mut Vec<Turn>,
    steps: &[Step],
    path: &[Visit],
) -> Result<(), AllocError> {
    'path: for visit in path {
        if let Some(step) = steps.get(visit.place) {
            turns.push(Turn::bare(alloc, step.number))?;
        }
    }
    Ok(())
}
