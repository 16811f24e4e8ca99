//! Orders of calls that a check accepts.

ghost use Rattle.std.specs.Prelude.{◌≡◌, ◌<◌, ◌≤◌, ℕ, All, IfErr, IfOk, IfSome, List, length, map};
ghost use Rattle.kmipa_record.specs.Declarations.{AreDeclared, declaration_of};
ghost use Rattle.kmipa_record.specs.Marks.{AreRecorded, MarkOf};
ghost use Rattle.kmipa_record.specs.Witnesses.{witness_of};
ghost use Rattle.kmipa_check.specs.Calls.{AreCalls, IsRecorded, call_of};
ghost use Rattle.kmipa_orders.specs.Candidates.{candidate_step};
ghost use Rattle.kmipa_orders.specs.Confirming.{turns_at};
ghost use Rattle.kmipa_orders.specs.Plain.{ArePlain};
ghost use Rattle.kmipa_orders.specs.Found.{Finds};

use kmipa_check::{CheckFault, Verdict, check_calls};
use kmipa_orders::{Candidate, Found, check_laws};
use kmipa_record::{Call, Declaration, Turn, Witness};
use std::alloc::{AllocError, Global};

/// What is found where a check accepts the calls in the order of these places, each of which was tried in so many steps; none where it doesn't.
pub(crate) fn accepted_order(
    alloc: Global,
    calls: &[Call],
    declaration: &Declaration,
    own: &[Candidate],
    order: &[usize],
    steps: u64,
) -> Result<Option<Found>, CheckFault>
    requires declared { AreDeclared (declaration_of declaration.now) }
    requires each { (marks : List MarkOf) × All (IsRecorded marks) (map call_of calls.now) }
    requires within { All (λ place. place < length own.now) order.now }
    requires paid { length order.now ≤ steps }
    ensures finds { (marks : List MarkOf) (budget : ℕ) → AreRecorded marks → AreCalls marks (map call_of calls.now)
        → ArePlain (map call_of calls.now) (map candidate_step own.now) → steps ≤ budget
        → IfOk result (λ found. IfSome found (Finds marks (declaration_of declaration.now) budget)) }
    ensures memory { IfErr result (λ fault. fault ≡ CheckFault.Memory) }
{
    check_laws();
    let witness = witness_at(alloc, own, order)?;
    match check_calls(alloc, calls, declaration, &witness) {
        Ok(Verdict::Yes) => Ok(Some(Found::Yes(witness, steps))),
        Err(CheckFault::Memory) => Err(CheckFault::Memory),
        _ => Ok(None),
    }
}

/// The witness that takes the calls at these places.
pub(crate) fn witness_at(
    alloc: Global,
    calls: &[Candidate],
    order: &[usize],
) -> Result<Witness, AllocError>
    requires { All (λ place. place < length calls.now) order.now }
    ensures { IfOk result (λ witness. witness_of witness ≡ turns_at (map candidate_step calls.now) order.now) }
{
    let mut turns = Vec::with_capacity(alloc, order.len())?;
    'places: for place in order {
        turns.push(Turn::bare(alloc, calls[*place].number))?;
    }
    Ok(Witness { turns })
}
