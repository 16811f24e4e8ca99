//! The open calls that are tried where no ended call is possible.

use super::due::{first_from, fitting_makers};
use super::identifiers::push_named;
use super::standing::Standing;
use super::tables::{Attempt, Tables};
use kmipa_msgs::{Answer, Ask, Payload};
use kmipa_ops::{Effect, Fit, matches, row_of};
use kmipa_store::Ledger;
use std::alloc::{AllocError, Global};

/// So many calls that may be next are looked at.
const WINDOW: usize = 64;

/// So many objects that they name are looked at.
const OBJECTS: usize = 256;

/// The open calls to try before all that is answered later than a date that they can have left: the first one last.
pub fn due_here<'b, 'a>(
    alloc: Global,
    tables: &Tables<'b, 'a>,
    standing: &Standing,
    last: i64,
) -> Result<Vec<Attempt<'b>>, AllocError> {
    let mut tries = Vec::new(alloc);
    if tables.due.is_empty() {
        return Ok(tries);
    }
    let first = first_from(&tables.due, last);
    let mut end = first_from(&tables.due, standing.stamp(tables));
    'due: while end > first {
        end -= 1;
        if let Some(due) = tables.due.get(end) {
            push_open(&mut tries, tables, standing, due.open, due.id, due.date)?;
        }
    }
    Ok(tries)
}

/// The open calls to try where no ended call is possible, the first one last: those that make an object that a call names which may be next,
/// those that change one, those that change an object that such a Locate leaves out, and, unless an open call was taken just before, the others
/// that change one.
pub fn related<'b, 'a, L: Ledger>(
    alloc: Global,
    ledger: &L,
    tables: &Tables<'b, 'a>,
    standing: &Standing,
    is_behind_open: bool,
) -> Result<Vec<Attempt<'b>>, AllocError> {
    let mut tries = Vec::new(alloc);
    if tables.opens.is_empty() {
        return Ok(tries);
    }
    let next = next_calls(alloc, tables, standing)?;
    let objects = named_objects(alloc, tables, &next)?;
    push_makers(alloc, &mut tries, ledger, tables, standing, &objects)?;
    push_all_changers(&mut tries, tables, standing, &objects)?;
    push_all_left_out(&mut tries, ledger, tables, standing, &next)?;
    if !is_behind_open {
        push_others(&mut tries, tables, standing, &objects)?;
    }
    tries.reverse();
    Ok(tries)
}

/// The ended calls that may be next.
fn next_calls(
    alloc: Global,
    tables: &Tables,
    standing: &Standing,
) -> Result<Vec<usize>, AllocError> {
    let mut next = Vec::new(alloc);
    let mut from = 0;
    'run: while from < tables.own.len() {
        let Some(place) = standing.remaining.next(&tables.own, from) else {
            return Ok(next);
        };
        if place < from || next.len() >= WINDOW {
            return Ok(next);
        }
        next.push(place)?;
        from = place + 1;
    }
    Ok(next)
}

/// The objects that these calls name, each once, in the order in which they are named.
fn named_objects(alloc: Global, tables: &Tables, next: &[usize]) -> Result<Vec<usize>, AllocError> {
    let mut ids = Vec::new(alloc);
    'next: for number in next {
        if let Some(own) = tables.own.get(*number) {
            push_named(&mut ids, own.call)?;
        }
    }
    let mut objects = Vec::new(alloc);
    'ids: for id in &ids {
        note_object(&mut objects, tables, *id)?;
    }
    Ok(objects)
}

fn note_object<'b, 'a>(
    objects: &mut Vec<usize>,
    tables: &Tables<'b, 'a>,
    id: &'b str,
) -> Result<(), AllocError> {
    let Some(number) = tables.stories.find(id) else {
        return Ok(());
    };
    if objects.len() < OBJECTS && !objects.contains(&number) {
        objects.push(number)?;
    }
    Ok(())
}

/// The Creates and Registers that can have brought one of these objects that isn't there.
fn push_makers<'b, 'a, L: Ledger>(
    alloc: Global,
    tries: &mut Vec<Attempt<'b>>,
    ledger: &L,
    tables: &Tables<'b, 'a>,
    standing: &Standing,
    objects: &[usize],
) -> Result<(), AllocError> {
    'objects: for number in objects {
        if let (Some(id), Some(story)) = (
            tables.stories.id(*number),
            tables.stories.story(*number),
        ) {
            if !story.is_brought && ledger.find(id).is_none() {
                let makers = fitting_makers(alloc, &tables.opens, &tables.makers, story)?;
                push_here(tries, tables, standing, &makers, id)?;
            }
        }
    }
    Ok(())
}

/// The calls that change one of these objects.
fn push_all_changers<'b, 'a>(
    tries: &mut Vec<Attempt<'b>>,
    tables: &Tables<'b, 'a>,
    standing: &Standing,
    objects: &[usize],
) -> Result<(), AllocError> {
    'objects: for number in objects {
        if let (Some(id), Some(story)) = (
            tables.stories.id(*number),
            tables.stories.story(*number),
        ) {
            push_here(tries, tables, standing, &story.changers, id)?;
        }
    }
    Ok(())
}

/// These open calls about an object, at the Time Stamp of this place.
fn push_here<'b, 'a>(
    tries: &mut Vec<Attempt<'b>>,
    tables: &Tables<'b, 'a>,
    standing: &Standing,
    opens: &[usize],
    id: &'b str,
) -> Result<(), AllocError> {
    'opens: for number in opens {
        push_open(tries, tables, standing, *number, id, standing.stamp(tables))?;
    }
    Ok(())
}

/// The calls that change an object that one of these Locates has to list, and doesn't.
fn push_all_left_out<'b, 'a, L: Ledger>(
    tries: &mut Vec<Attempt<'b>>,
    ledger: &L,
    tables: &Tables<'b, 'a>,
    standing: &Standing,
    next: &[usize],
) -> Result<(), AllocError> {
    'next: for number in next {
        if let Some(own) = tables.own.get(*number) {
            let asks = own.request.items.as_slice();
            let answers = own.response.items.as_slice();
            push_all_items_left_out(tries, ledger, tables, standing, asks, answers)?;
        }
    }
    Ok(())
}

fn push_all_items_left_out<'b, 'a, L: Ledger>(
    tries: &mut Vec<Attempt<'b>>,
    ledger: &L,
    tables: &Tables<'b, 'a>,
    standing: &Standing,
    asks: &[Ask],
    answers: &[Answer],
) -> Result<(), AllocError> {
    'items: for (ask, answer) in asks.iter().zip(answers.iter()) {
        push_left_out(tries, ledger, tables, standing, ask, answer)?;
    }
    Ok(())
}

fn push_left_out<'b, 'a, L: Ledger>(
    tries: &mut Vec<Attempt<'b>>,
    ledger: &L,
    tables: &Tables<'b, 'a>,
    standing: &Standing,
    ask: &Ask,
    answer: &Answer,
) -> Result<(), AllocError> {
    if !is_locate(ask) {
        return Ok(());
    }
    'opens: for (number, open) in tables.opens.iter().enumerate() {
        if let Some(id) = open.id() {
            if is_left_out(ledger, ask, answer, id) {
                push_open(tries, tables, standing, number, id, standing.stamp(tables))?;
            }
        }
    }
    Ok(())
}

fn is_locate(ask: &Ask) -> bool {
    match row_of(&ask.asked).effect {
        Effect::Lists(_) => true,
        _ => false,
    }
}

/// Whether a Locate has to list an object as it is now, and doesn't.
fn is_left_out<L: Ledger>(ledger: &L, ask: &Ask, answer: &Answer, id: &str) -> bool {
    let Effect::Lists(filter) = row_of(&ask.asked).effect else {
        return false;
    };
    let Some(Payload::Locate(located)) = &answer.payload else {
        return false;
    };
    let Some(place) = ledger.find(id) else {
        return false;
    };
    matches(ledger.at(place), filter, ledger.state(place)) == Fit::Must
        && !located.ids.contains(&id)
}

/// The calls that change another object than these.
fn push_others<'b, 'a>(
    tries: &mut Vec<Attempt<'b>>,
    tables: &Tables<'b, 'a>,
    standing: &Standing,
    objects: &[usize],
) -> Result<(), AllocError> {
    'opens: for (number, open) in tables.opens.iter().enumerate() {
        if let Some(id) = open.id() {
            if !is_among(tables, objects, id) {
                push_open(tries, tables, standing, number, id, standing.stamp(tables))?;
            }
        }
    }
    Ok(())
}

fn is_among<'b, 'a>(tables: &Tables<'b, 'a>, objects: &[usize], id: &'b str) -> bool {
    match tables.stories.find(id) {
        Some(number) => objects.contains(&number),
        None => false,
    }
}

/// The try of an open call, where it may be taken.
fn push_open<'b, 'a>(
    tries: &mut Vec<Attempt<'b>>,
    tables: &Tables<'b, 'a>,
    standing: &Standing,
    number: usize,
    id: &'b str,
    stamp: i64,
) -> Result<(), AllocError> {
    if !standing.may_open(tables, number) {
        return Ok(());
    }
    if let Some(attempt) = tables.open(number, id, stamp) {
        tries.push(attempt)?;
    }
    Ok(())
}
