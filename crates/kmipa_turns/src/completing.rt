//! A call that can be read, completed by its turn: with the fills and the births put in, at a moment.

ghost use Rattle.std.specs.Prelude.{◌↔◌, IsTrue, MatchResult, map};
ghost use Rattle.kmipa_record.specs.Witnesses.{TurnOf, turn_of};
ghost use Rattle.kmipa_check.specs.Deciding.{Decided};
ghost use Rattle.kmipa_check.specs.Grants.{GrantsOf, grants_of};
ghost use Rattle.kmipa_places.specs.Calls.{read_of};
ghost use Rattle.kmipa_places.specs.Places.{place_of};
ghost use Rattle.kmipa_turns.specs.Turning.{FullRefused, IsFull, IsPlain, Waits, WaitsSomewhere};

use crate::filling::{born_asks, filled_in};
use crate::sides::{Sides, put_together};
use kmipa_check::{Grants, StepFault, WitnessKind};
use kmipa_msgs::{Request, Response, is_wanted};
use kmipa_places::{Place, Readable};
use kmipa_record::Turn;
use std::alloc::Global;

/// The call with the fills and the births of a turn put in, at this moment.
pub fn completed<'a>(
    alloc: Global,
    grants: &Grants,
    turn: &'a Turn,
    moment: i64,
    said: Readable<'a>,
) -> Result<Readable<'a>, StepFault>
    ensures { MatchResult result
        (λ full. IsFull (grants_of grants.now) (read_of said.entry) (turn_of turn.now) moment (read_of full))
        (FullRefused (grants_of grants.now) (read_of said.entry) (turn_of turn.now)) }
{
    if is_plain(turn) {
        return plain(moment, said);
    }
    with_given(alloc, grants, turn, moment, said)
}

/// The same by way of its two sides, which fills and births are put into.
fn with_given<'a>(
    alloc: Global,
    grants: &Grants,
    turn: &'a Turn,
    moment: i64,
    said: Readable<'a>,
) -> Result<Readable<'a>, StepFault>
    ensures { MatchResult result
        (λ full. IsFull (grants_of grants.now) (read_of said.entry) (turn_of turn.now) moment (read_of full))
        (FullRefused (grants_of grants.now) (read_of said.entry) (turn_of turn.now)) }
{
    let Readable {
        option,
        ordered,
        pending,
        stamp,
        asks,
        outcomes,
        refused,
        places,
    } = said;
    let sides = Sides::of(alloc, places)?;
    let request = Request {
        option,
        ordered,
        items: sides.asks,
    };
    let response = Response {
        stamp,
        items: sides.answers,
    };
    let full = match filled_in(alloc, &request, &response, &turn.fills) {
        Ok(full) => full,
        Err(fault) => return Err(fault),
    };
    let born = match born_asks(alloc, grants, &request, &response, &turn.births) {
        Ok(born) => born,
        Err(fault) => return Err(fault),
    };
    let places = put_together(alloc, sides.kept, born, full.items)?;
    Ok(Readable {
        option,
        ordered,
        pending,
        stamp: moment,
        asks,
        outcomes,
        refused,
        places,
    })
}

/// Whether a turn gives no fills and no births.
fn is_plain(turn: &Turn) -> bool
    ensures { IsTrue result ↔ IsPlain (turn_of turn.now) }
{
    turn.fills.is_empty() && turn.births.is_empty()
}

/// The call by a turn that gives none: no place waits for a payload, and each stays as it is.
fn plain<'a>(moment: i64, said: Readable<'a>) -> Result<Readable<'a>, StepFault>
    ensures { (g : GrantsOf) (t : TurnOf) → IsPlain t → MatchResult result
        (λ full. IsFull g (read_of said.entry) t moment (read_of full)) (FullRefused g (read_of said.entry) t) }
{
    if waits_somewhere(said.places.as_slice()) {
        return Err(StepFault::Unfit(WitnessKind::FillMissing));
    }
    let mut full = said;
    full.stamp = moment;
    Ok(full)
}

/// Whether some place waits for a payload.
fn waits_somewhere(places: &[Place]) -> bool
    ensures { Decided result (WaitsSomewhere (map place_of places.now)) }
{
    let mut at = 0;
    'places: while at < places.len() {
        if waits(&places[at]) {
            return true;
        }
        at += 1;
    }
    false
}

/// Whether a place does.
fn waits(place: &Place) -> bool
    ensures { IsTrue result ↔ Waits (place_of place.now) }
{
    match place {
        Place::Judged(ask, answer) => is_wanted(ask, answer),
        Place::Passed(_, _) => false,
    }
}
