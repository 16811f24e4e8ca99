//! The search by the lives of objects.

ghost use Rattle.std.specs.Prelude.{◌≡◌, ◌<◌, All, IfErr, IfOk, IfSome, List, length, map};
ghost use Rattle.kmipa_record.specs.Declarations.{AreDeclared, declaration_of};
ghost use Rattle.kmipa_record.specs.Marks.{AreRecorded, MarkOf};
ghost use Rattle.kmipa_check.specs.Calls.{AreCalls, IsRecorded, call_of};
ghost use Rattle.kmipa_orders.specs.Candidates.{candidate_step};
ghost use Rattle.kmipa_orders.specs.Plain.{ArePlain};
ghost use Rattle.kmipa_orders.specs.Progress.{AllReadable};
ghost use Rattle.kmipa_orders.specs.Found.{Finds};

use crate::accepted::accepted_order;
use kmipa_check::{CheckFault, open_ledger, rules_of_declaration};
use kmipa_lives::propose;
use kmipa_orders::{Candidate, EARLY, Found};
use kmipa_record::{Call, Declaration};
use std::alloc::Global;

/// What is found where the lives of the objects propose an order, and a check accepts it: as many steps as a search makes before it asks for
/// one, and one for each call. `None` where there is no such order, or the budget is less.
pub(crate) fn search_by_lives(
    alloc: Global,
    calls: &[Call],
    declaration: &Declaration,
    own: &[Candidate],
    budget: u64,
) -> Result<Option<Found>, CheckFault>
    requires declared { AreDeclared (declaration_of declaration.now) }
    requires each { (marks : List MarkOf) × All (IsRecorded marks) (map call_of calls.now) }
    requires readable { AllReadable (map candidate_step own.now) }
    ensures finds { (marks : List MarkOf) → AreRecorded marks → AreCalls marks (map call_of calls.now)
        → ArePlain (map call_of calls.now) (map candidate_step own.now)
        → IfOk result (λ found. IfSome found (Finds marks (declaration_of declaration.now) budget)) }
    ensures memory { IfErr result (λ fault. fault ≡ CheckFault.Memory) }
{
    let steps = EARLY + own.len() as u64;
    if steps > budget {
        return Ok(None);
    }
    match proposed_order(alloc, calls, declaration, own.len())? {
        Some(order) => accepted_order(alloc, calls, declaration, own, &order, steps),
        None => Ok(None),
    }
}

/// The order that the lives propose, where it has each of so many calls.
fn proposed_order(
    alloc: Global,
    calls: &[Call],
    declaration: &Declaration,
    count: usize,
) -> Result<Option<Vec<usize>>, CheckFault>
    requires { AreDeclared (declaration_of declaration.now) }
    ensures within { IfOk result (λ o. IfSome o (λ order. All (λ place. place < count) order.items)) }
    ensures each { IfOk result (λ o. IfSome o (λ order. length order.items ≡ count)) }
    ensures memory { IfErr result (λ fault. fault ≡ CheckFault.Memory) }
{
    if calls.len() != count {
        return Ok(None);
    }
    let Some(order) = places_by_lives(alloc, calls, declaration)? else {
        return Ok(None);
    };
    if order.len() != count {
        return Ok(None);
    }
    Ok(Some(order))
}

/// The places of calls in the order that the lives of a declaration's objects propose, if they propose one.
pub(crate) fn places_by_lives(
    alloc: Global,
    calls: &[Call],
    declaration: &Declaration,
) -> Result<Option<Vec<usize>>, CheckFault>
    requires { AreDeclared (declaration_of declaration.now) }
    ensures within { IfOk result (λ o. IfSome o (λ order. All (λ place. place < length calls.now) order.items)) }
    ensures memory { IfErr result (λ fault. fault ≡ CheckFault.Memory) }
{
    let rules = rules_of_declaration(alloc, declaration)?;
    let mut ledger = open_ledger(alloc, declaration)?;
    Ok(propose(alloc, calls, declaration, rules, &mut ledger)?)
}
