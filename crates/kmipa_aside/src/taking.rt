//! One place of a call, taken over any ledger.

ghost use Rattle.kmipa_store.specs.Choices.{IsSound};
ghost use Rattle.kmipa_passed.specs.Leaving.{aside_of, held_of};
ghost use Rattle.kmipa_aside.specs.Becoming.{TurnsPassed};
ghost use Rattle.kmipa_aside.specs.Passed.{passed_of};
ghost use Rattle.kmipa_aside.specs.Taking.{TakenPassed, TakenUnread};

use crate::passed::Passed;
use crate::setting::set_left;
use kmipa_ops::{Refusal, Why, is_other_number};
use kmipa_passed::{Held, SetAside, leaves};
use kmipa_store::Ledger;
use std::alloc::{AllocError, Global};

/// Takes a place that isn't judged, at the moment `t`, in seconds since 1970-01-01T00:00:00Z, where the ID Placeholder held this: what it leaves is
/// set aside, and what the placeholder holds behind it is answered. It is refused where the answer names another operation, and nothing is changed then.
/// After want of memory the ledger can be taken back to each of its marks.
pub fn take_passed<'a, L: Ledger>(
    alloc: Global,
    ledger: &mut L,
    t: i64,
    before: Held<'a>,
    place: &Passed<'a>,
) -> Result<Held<'a>, Refusal>
    requires { IsSound (L.state ledger.old).now }
    ensures { TakenPassed (L.state ledger.old) (held_of before.entry) t (passed_of place.now) result (L.state ledger.new) }
{
    if is_other_number(place.names, place.asks) {
        return Err(Refusal::Impossible(Why::OperationDiffers));
    }
    match leave(alloc, ledger, t, before, place) {
        Ok(after) => Ok(after),
        Err(_) => Err(Refusal::Memory),
    }
}

/// Leaves the ledger as such a place does, and answers what the placeholder holds.
fn leave<'a, L: Ledger>(
    alloc: Global,
    ledger: &mut L,
    t: i64,
    before: Held<'a>,
    place: &Passed<'a>,
) -> Result<Held<'a>, AllocError>
    ensures { TurnsPassed t (passed_of place.now) (held_of before.entry) (L.state ledger.old) result (L.state ledger.new) }
{
    let behind = leaves(alloc, &place.ask, &place.answer, before)?;
    set_left(alloc, ledger, t, &behind.aside)?;
    Ok(behind.held)
}

/// Takes a call that can't be read, at the moment `t`: what it leaves is set aside. After want of memory the ledger can be taken back to each of its
/// marks.
pub fn take_unread<L: Ledger>(
    alloc: Global,
    ledger: &mut L,
    t: i64,
    left: &SetAside,
) -> Result<(), AllocError>
    requires { IsSound (L.state ledger.old).now }
    ensures { TakenUnread (L.state ledger.old) t (aside_of left.now) result (L.state ledger.new) }
{
    set_left(alloc, ledger, t, left)
}
