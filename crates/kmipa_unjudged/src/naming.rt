//! Which identifiers a step names.

ghost use Rattle.std.specs.Prelude.{◌≡◌, ◌++◌, IfOk, OnOk, map, option_map};
ghost use Rattle.kmipa_msgs.specs.Messages.{answer_of, ask_of, lent, maybe_lent, payload_of};
ghost use Rattle.kmipa_passed.specs.Leaving.{aside_of};
ghost use Rattle.kmipa_places.specs.Places.{place_of};
ghost use Rattle.kmipa_turns.specs.Steps.{step_of};
ghost use Rattle.kmipa_unjudged.specs.Naming.{ids_answered, ids_at, ids_left, ids_told, is_cause, may_change, named_among, named_at, named_by, named_from, named_in, only, operation_at, origin_at, origin_unread};
ghost use Rattle.kmipa_unjudged.specs.Told.{named_of};

use crate::named::{Named, Origin};
use kmipa_msgs::Payload;
use kmipa_passed::{Outcome, SetAside, Sort};
use kmipa_places::Place;
use kmipa_turns::{Step, Taken};
use std::alloc::{AllocError, Global};

/// What a step names, item by item; of a call that can't be read what it sets aside by its name.
pub(crate) fn named_in<'a>(alloc: Global, step: &Step<'a>) -> Result<Vec<Named<'a>>, AllocError>
    ensures { IfOk result (λ named. map named_of named.items ≡ named_in (step_of step.now)) }
{
    let mut named = Vec::new(alloc);
    match &step.taken {
        Taken::Leaves(left, _) => push_left(left, step.number, &mut named)?,
        Taken::Takes(call, _) => push_places(call.places.as_slice(), step, &mut named)?,
    }
    Ok(named)
}

fn push_left<'a>(
    left: &SetAside<'a>,
    call: i32,
    named: &mut Vec<Named<'a>>,
) -> Result<(), AllocError>
    ensures { OnOk result (map named_of named.new.items
        ≡ map named_of named.old.items ++ map (named_by (origin_unread call)) (ids_left (aside_of left.now))) }
{
    let origin = Origin {
        call,
        item: 0,
        operation: None,
    };
    match left {
        SetAside::These(ids) | SetAside::Strangers(ids) => push_ids(ids, origin, named),
        SetAside::All | SetAside::Over => Ok(()),
    }
}

/// What the places of a step name, the first of which is item 1: those that may have set something aside, ahead of all.
fn push_places<'a>(
    places: &[Place<'a>],
    step: &Step<'a>,
    named: &mut Vec<Named<'a>>,
) -> Result<(), AllocError>
    ensures { OnOk result (map named_of named.new.items
        ≡ map named_of named.old.items ++ named_among step.now.number (map place_of places.now)) }
{
    push_from(places, true, step, named)?;
    push_from(places, false, step, named)
}

/// What these places name; or nothing but those that may have set something aside.
fn push_from<'a>(
    places: &[Place<'a>],
    causes: bool,
    step: &Step<'a>,
    named: &mut Vec<Named<'a>>,
) -> Result<(), AllocError>
    ensures { OnOk result (map named_of named.new.items
        ≡ map named_of named.old.items ++ named_from causes step.now.number 1 (map place_of places.now)) }
{
    let mut item = 0;
    'places: while item < places.len() {
        let place = &places[item];
        item += 1;
        push_counted(place, causes, step, item, named)?;
    }
    Ok(())
}

/// What a place names, where it counts.
fn push_counted<'a>(
    place: &Place<'a>,
    causes: bool,
    step: &Step<'a>,
    item: usize,
    named: &mut Vec<Named<'a>>,
) -> Result<(), AllocError>
    ensures { OnOk result (map named_of named.new.items
        ≡ map named_of named.old.items ++ named_at causes step.now.number item (place_of place.now)) }
{
    if causes && !is_cause(place) {
        return Ok(());
    }
    let origin = origin_at(place, step.number, item);
    push_place(place, origin, named)
}

/// Whether an item may have set aside what it names.
fn is_cause(place: &Place) -> bool
    ensures { result ≡ is_cause (place_of place.now) }
{
    match place {
        Place::Judged(_, _) => false,
        Place::Passed(_, passed) => may_change(passed.ask.sort, passed.answer.outcome),
    }
}

fn may_change(sort: Sort, outcome: Outcome) -> bool
    ensures { result ≡ may_change sort outcome }
{
    sort != Sort::Looks && outcome != Outcome::Failed
}

/// Where a place stands, and what it asks for.
fn origin_at(place: &Place, call: i32, item: usize) -> Origin
    ensures { result ≡ origin_at call item (place_of place.now) }
{
    Origin {
        call,
        item,
        operation: Some(operation_at(place)),
    }
}

/// What a place names.
fn push_place<'a>(
    place: &Place<'a>,
    origin: Origin,
    named: &mut Vec<Named<'a>>,
) -> Result<(), AllocError>
    ensures { OnOk result (map named_of named.new.items
        ≡ map named_of named.old.items ++ map (named_by origin) (ids_at (place_of place.now))) }
{
    match place {
        Place::Judged(ask, answer) => {
            push_only(ask.asked.id(), origin, named)?;
            push_answered(&answer.payload, origin, named)
        }
        Place::Passed(_, passed) => {
            push_ids(&passed.ask.names, origin, named)?;
            push_ids(&passed.answer.names, origin, named)
        }
    }
}

/// The number of the operation that a place asks for.
fn operation_at(place: &Place) -> u32
    ensures { result ≡ operation_at (place_of place.now) }
{
    match place {
        Place::Judged(ask, _) => ask.operation().number(),
        Place::Passed(_, passed) => passed.asks,
    }
}

/// What its answer names.
fn push_answered<'a>(
    payload: &Option<Payload<'a>>,
    origin: Origin,
    named: &mut Vec<Named<'a>>,
) -> Result<(), AllocError>
    ensures { OnOk result (map named_of named.new.items ≡ map named_of named.old.items
        ++ map (named_by origin) (ids_answered (option_map payload_of payload.now))) }
{
    match payload {
        Some(payload) => push_told(payload, origin, named),
        None => Ok(()),
    }
}

fn push_told<'a>(
    payload: &Payload<'a>,
    origin: Origin,
    named: &mut Vec<Named<'a>>,
) -> Result<(), AllocError>
    ensures { OnOk result (map named_of named.new.items ≡ map named_of named.old.items
        ++ map (named_by origin) (ids_told (payload_of payload.now))) }
{
    match payload {
        Payload::Create(made) => push_only(Some(made.id), origin, named),
        Payload::Register(made) => push_only(Some(made.id), origin, named),
        Payload::Locate(located) => push_ids(&located.ids, origin, named),
        Payload::Get(got) => push_only(got.id, origin, named),
        Payload::GetAttributes(got) => push_only(got.id, origin, named),
        Payload::Change(changed) => push_only(changed.id, origin, named),
    }
}

/// One identifier, where there is one.
fn push_only<'a>(
    id: Option<&'a str>,
    origin: Origin,
    named: &mut Vec<Named<'a>>,
) -> Result<(), AllocError>
    ensures { OnOk result (map named_of named.new.items ≡ map named_of named.old.items
        ++ map (named_by origin) (only (maybe_lent id.entry))) }
{
    if let Some(id) = id {
        named.push(Named { id, origin })?;
    }
    Ok(())
}

/// These identifiers.
fn push_ids<'a>(
    ids: &[&'a str],
    origin: Origin,
    named: &mut Vec<Named<'a>>,
) -> Result<(), AllocError>
    ensures { OnOk result (map named_of named.new.items ≡ map named_of named.old.items
        ++ map (named_by origin) (map lent ids.now)) }
{
    'ids: for id in ids {
        named.push(Named { id: *id, origin })?;
    }
    Ok(())
}
