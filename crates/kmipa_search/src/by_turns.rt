//! The search by the lives of objects, of calls that aren't plain.

ghost use Rattle.std.specs.Prelude.{◌≡◌, IfErr, IfOk, IfSome};
ghost use Rattle.kmipa_store.specs.Choices.{IsSound};
ghost use Rattle.kmipa_record.specs.Declarations.{AreDeclared, declaration_of};
ghost use Rattle.kmipa_record.specs.Marks.{AreRecorded};
ghost use Rattle.kmipa_record.specs.Transcripts.{transcript_of};
ghost use Rattle.kmipa_orders.specs.Guessing.{AreAllRecorded};
ghost use Rattle.kmipa_orders.specs.Found.{Finds};

use crate::made_turns::{MadeBy, made_turn};
use crate::searching::try_witness;
use crate::sights::Sources;
use kmipa_check::{CheckFault, open_ledger, rules_of_declaration};
use kmipa_lives::{Proposed, propose_turns};
use kmipa_orders::{EARLY, Found, take_turn};
use kmipa_record::{Call, Declaration, Transcript, Turn, Witness};
use kmipa_store::Ledger;
use std::alloc::Global;

/// What is found where the lives of the objects propose turns, and a check accepts them: as many steps as a search makes before it asks for
/// them, and one for each turn. `None` where there are none, or the budget is less.
pub(crate) fn search_by_turns(
    alloc: Global,
    transcript: &Transcript,
    declaration: &Declaration,
    calls: &[Call],
    is_open: bool,
    budget: u64,
) -> Result<Option<Found>, CheckFault>
    requires declared { AreDeclared (declaration_of declaration.now) }
    requires recorded { AreAllRecorded calls.now }
    ensures finds { AreRecorded (transcript_of transcript.now)
        → IfOk result (λ found. IfSome found (Finds (transcript_of transcript.now) (declaration_of declaration.now) budget)) }
    ensures memory { IfErr result (λ fault. fault ≡ CheckFault.Memory) }
{
    let Some(turns) = proposed_turns(alloc, declaration, calls, is_open)? else {
        return Ok(None);
    };
    let steps = EARLY + turns.len() as u64;
    if steps > budget {
        return Ok(None);
    }
    match try_witness(alloc, transcript, declaration, Witness { turns }, steps) {
        Ok(Found::Yes(witness, steps)) => Ok(Some(Found::Yes(witness, steps))),
        Err(CheckFault::Memory) => Err(CheckFault::Memory),
        _ => Ok(None),
    }
}

/// The turns that the lives propose, where each is possible behind those ahead of it.
fn proposed_turns(
    alloc: Global,
    declaration: &Declaration,
    calls: &[Call],
    is_open: bool,
) -> Result<Option<Vec<Turn>>, CheckFault>
    requires declared { AreDeclared (declaration_of declaration.now) }
    requires recorded { AreAllRecorded calls.now }
    ensures { IfErr result (λ fault. fault ≡ CheckFault.Memory) }
{
    let rules = rules_of_declaration(alloc, declaration)?;
    let mut ledger = open_ledger(alloc, declaration)?;
    let Some(order) = propose_turns(alloc, calls, declaration, rules, &mut ledger, is_open)? else {
        return Ok(None);
    };
    let rules = rules_of_declaration(alloc, declaration)?;
    let mut ledger = open_ledger(alloc, declaration)?;
    let by = MadeBy {
        rules: &rules,
        sources: Sources { calls, declaration },
        is_open,
    };
    turns_along(alloc, &mut ledger, by, &order)
}

/// The turns of calls in this order, each of which is taken; none where one can't be.
fn turns_along<'b, 'a, L: Ledger>(
    alloc: Global,
    ledger: &mut L,
    by: MadeBy<'_, 'b, 'a>,
    order: &[Proposed<'b>],
) -> Result<Option<Vec<Turn>>, CheckFault>
    requires sound { IsSound (L.state ledger.old).now }
    requires recorded { AreAllRecorded by.sources.calls.now }
    ensures { IfErr result (λ fault. fault ≡ CheckFault.Memory) }
{
    let calls = by.sources.calls;
    let mut turns = Vec::with_capacity(alloc, order.len())?;
    let mut stamp = least_stamp(calls);
    'order: for proposed in order {
        if proposed.call >= calls.len() {
            return Ok(None);
        }
        let call = &calls[proposed.call];
        stamp = stamp_at(call, proposed, stamp);
        let Some(turn) = made_turn(alloc, ledger, by, call, proposed, stamp)? else {
            return Ok(None);
        };
        match take_turn(alloc, ledger, by.rules, call, &turn) {
            Ok(Some(_)) => {}
            Ok(None) => return Ok(None),
            Err(_) => return Err(CheckFault::Memory),
        }
        turns.push(turn)?;
    }
    Ok(Some(turns))
}

/// The Time Stamp of a turn behind one of this stamp.
fn stamp_at(call: &Call, proposed: &Proposed<'_>, before: i64) -> i64 {
    if let Some(response) = &call.response {
        return response.stamp;
    }
    for deed in &proposed.deeds {
        if let Some(date) = deed.date {
            return date;
        }
    }
    before
}

/// The least Time Stamp of the calls that have ended.
fn least_stamp(calls: &[Call]) -> i64 {
    let mut least = None;
    for call in calls {
        if let Some(response) = &call.response {
            least = Some(match least {
                Some(stamp) => response.stamp.min(stamp),
                None => response.stamp,
            });
        }
    }
    least.unwrap_or(0)
}
