//! The turn of a try.

ghost use Rattle.std.specs.Prelude.{◌≡◌, IfOk};
ghost use Rattle.kmipa_store.specs.Choices.{IsSound};
ghost use Rattle.kmipa_orders.specs.Guessing.{AreAllRecorded, GuessTried};

use super::answer::guessed_answer;
use super::tables::{Attempt, Tables, What};
use crate::guesses::guessed_turn;
use crate::guessing::{Taken, take_turn};
use kmipa_check::CheckFault;
use kmipa_msgs::Rules;
use kmipa_record::Turn;
use kmipa_store::Ledger;
use std::alloc::{AllocError, Global};

/// Takes a call as it is tried, its items in the order of these places, after a new mark; or it is impossible so, and the ledger is as before.
pub fn try_attempt<'b, 'a, L: Ledger>(
    alloc: Global,
    ledger: &mut L,
    rules: &Rules,
    tables: &Tables<'b, 'a>,
    attempt: Attempt<'b>,
    places: Vec<i32>,
) -> Result<Option<Taken>, CheckFault>
    requires sound { IsSound (L.state ledger.old).now }
    requires recorded { AreAllRecorded tables.now.calls.now }
    ensures { GuessTried (L.state ledger.old) result (L.state ledger.new) }
{
    if attempt.call >= tables.calls.len() {
        return Ok(None);
    }
    let call = &tables.calls[attempt.call];
    ledger.set_moment(attempt.stamp);
    let turn = turn_of(alloc, ledger, tables, attempt, call.number, places)?;
    match take_turn(alloc, ledger, rules, call, &turn)? {
        Some(depth) => Ok(Some(Taken { turn, depth })),
        None => Ok(None),
    }
}

/// The turn of a try, which names the call of this number.
fn turn_of<'b, 'a, L: Ledger>(
    alloc: Global,
    ledger: &L,
    tables: &Tables<'b, 'a>,
    attempt: Attempt<'b>,
    number: i32,
    places: Vec<i32>,
) -> Result<Turn, AllocError>
    ensures { IfOk result (λ turn. turn.call ≡ number) }
{
    let mut turn = Turn::bare(alloc, number);
    turn.places = places;
    match attempt.what {
        What::Ended(place) => {
            if let Some(own) = tables.own.get(place) {
                turn.fills = guessed_turn(alloc, ledger, own)?.fills;
            }
        }
        What::Open(place, id) => {
            if let Some(open) = tables.opens.get(place) {
                turn.answer = guessed_answer(alloc, open, id, attempt.stamp)?;
            }
        }
    }
    Ok(turn)
}
