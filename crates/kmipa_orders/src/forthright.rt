//! The order in which a search takes the calls if each that it tries is possible.

ghost use Rattle.std.specs.Prelude.{◌<◌, All, IfOk, length};

use crate::candidate::Candidate;
use crate::links::Links;
use crate::order::EARLY;
use crate::picking::pick_left;
use crate::ranks::Ranks;
use crate::remaining::Remaining;
use crate::taken::TakenCalls;
use crate::tried::{Tried, Trying};
use std::alloc::{AllocError, Global};

/// The places of the calls, in the order in which a search takes them if each that it tries is possible, as far as some call may be next. No
/// ledger is asked.
pub fn forthright_order(alloc: Global, calls: &[Candidate]) -> Result<Vec<usize>, AllocError>
    ensures { IfOk result (λ order. All (λ place. place < length calls.now) order.items) }
{
    let mut remaining = Remaining::new(alloc, calls)?;
    let wishes = Ranks::by_wish(alloc, calls)?;
    let mut by_wish = Links::new(alloc, calls.len())?;
    let mut taken = TakenCalls::new(alloc, calls.len())?;
    let mut order = Vec::with_capacity(alloc, calls.len())?;
    'places: while order.len() < calls.len() {
        let trying = Trying {
            tried: Tried::none(),
            left: calls.len() - order.len(),
            late: order.len() as u64 >= EARLY,
        };
        let Some(pick) = pick_left(&remaining, calls, &wishes, &by_wish, &taken, trying) else {
            return Ok(order);
        };
        remaining.take(calls, pick.place);
        by_wish.remove(wishes.rank(pick.place));
        taken.take(pick.place);
        order.push(pick.place)?;
    }
    Ok(order)
}
