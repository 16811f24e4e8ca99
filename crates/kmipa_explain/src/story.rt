//! The story of an object up to a refused item.

ghost use Rattle.std.specs.Prelude.{◌≡◌, ◌<◌, ◌≤◌, ◌++◌, IfOk, IfSome, MatchOption, OnOk, bytes_eq, drop, filter, find, length, map, option_map, take};
ghost use Rattle.kmipa_record.specs.Declarations.{declaration_of};
ghost use Rattle.kmipa_record.specs.Entries.{entry_of};
ghost use Rattle.kmipa_check.specs.Steps.{step_of};
ghost use Rattle.kmipa_explain.specs.Kept.{AreNone, PassesAt, one_if};
ghost use Rattle.kmipa_explain.specs.Reading.{IsStoryAt, is_that, seen_item};
ghost use Rattle.kmipa_explain.specs.Stories.{TellsStory, TellsStoryIn, event_of, happens_to, is_about, is_declared, is_done, is_undone, makes_it};

use crate::explanation::{Event, Story};
use crate::item::Item;
use crate::items::items_of;
use kmipa_check::{Refused, Step};
use kmipa_msgs::Status;
use kmipa_record::{Declaration, Entry};
use std::alloc::{AllocError, Global};

/// The story of the object that a refused item is about, where it is about one.
pub fn story_of(
    alloc: Global,
    declaration: &Declaration,
    steps: &[Step],
    refused: Refused,
) -> Result<Option<Story>, AllocError>
    ensures { IfOk result (TellsStory (declaration_of declaration.now) (map step_of steps.now) refused) }
{
    let items = items_of(alloc, steps)?;
    story_in(alloc, declaration, &items, refused)
}

/// The same, among these items.
fn story_in(
    alloc: Global,
    declaration: &Declaration,
    items: &[Item],
    refused: Refused,
) -> Result<Option<Story>, AllocError>
    ensures { IfOk result (TellsStoryIn (declaration_of declaration.now) (map seen_item items.now) refused) }
{
    let Some(at) = refused_place(items, refused) else {
        return Ok(None);
    };
    match &items[at].about {
        Some(id) => Ok(Some(story_at(alloc, declaration, items, at, id.as_str())?)),
        None => Ok(None),
    }
}

/// The story of the object of this identifier, where the refused item stands at this place.
fn story_at(
    alloc: Global,
    declaration: &Declaration,
    items: &[Item],
    at: usize,
    id: &str,
) -> Result<Story, AllocError>
    requires { at < length items.now }
    ensures { IfOk result (IsStoryAt (declaration_of declaration.now) (map seen_item items.now) at id.now) }
{
    Ok(Story {
        identifier: String::from_str(alloc, id)?,
        declared: is_declared(declaration, id),
        events: events_ahead(alloc, items, at, id)?,
        born_later: birth_behind(items, at + 1, id),
    })
}

/// The place of the refused item among these, where it is there and is about an identifier.
fn refused_place(items: &[Item], refused: Refused) -> Option<usize>
    ensures found { MatchOption result (AreNone (is_that refused) (map seen_item items.now))
        (PassesAt (is_that refused) (map seen_item items.now)) }
    ensures within { IfSome result (λ place. place < length items.now) }
{
    let mut place = 0;
    'items: while place < items.len() {
        if is_that(&items[place], refused) {
            return Some(place);
        }
        place += 1;
    }
    None
}

/// Whether an item is the refused one and is about an identifier.
fn is_that(item: &Item, refused: Refused) -> bool
    ensures { result ≡ is_that refused (seen_item item.now) }
{
    item.turn == refused.turn && item.item == refused.item && item.about.is_some()
}

/// What happened ahead of a place to the object of this identifier.
fn events_ahead(
    alloc: Global,
    items: &[Item],
    at: usize,
    id: &str,
) -> Result<Vec<Event>, AllocError>
    requires { at ≤ length items.now }
    ensures { IfOk result
        (λ events. events.items ≡ map event_of (filter (happens_to id.now) (take at (map seen_item items.now)))) }
{
    let mut events = Vec::new(alloc);
    let mut place = 0;
    'items: while place < at {
        note(&mut events, &items[place], id)?;
        place += 1;
    }
    Ok(events)
}

/// Notes what happened by an item to the object of this identifier.
fn note(events: &mut Vec<Event>, item: &Item, id: &str) -> Result<(), AllocError>
    ensures { OnOk result (events.new.items
        ≡ events.old.items ++ one_if (event_of (seen_item item.now)) (happens_to id.now (seen_item item.now))) }
{
    if happens_to(item, id) {
        events.push(event_of(item))?;
    }
    Ok(())
}

/// The first item from a place on that made an object of this identifier.
fn birth_behind(items: &[Item], first: usize, id: &str) -> Option<Event>
    ensures { result ≡ option_map event_of (find (makes_it id.now) (drop first (map seen_item items.now))) }
{
    let mut place = first;
    'items: while place < items.len() {
        let item = &items[place];
        if makes_it(item, id) {
            return Some(event_of(item));
        }
        place += 1;
    }
    None
}

/// Whether an item made an object of this identifier.
fn makes_it(item: &Item, id: &str) -> bool
    ensures { result ≡ makes_it id.now (seen_item item.now) }
{
    happens_to(item, id) && item.makes
}

/// Whether something happened by an item to the object of this identifier.
pub(crate) fn happens_to(item: &Item, id: &str) -> bool
    ensures { result ≡ happens_to id.now (seen_item item.now) }
{
    is_done(item.status) && is_about(item, id)
}

/// Whether an item of this status was done.
fn is_done(status: Status) -> bool
    ensures { result ≡ is_done status }
{
    match status {
        Status::Success | Status::Undone => true,
        Status::Failed => false,
    }
}

/// Whether an item is about this identifier.
pub(crate) fn is_about(item: &Item, id: &str) -> bool
    ensures { result ≡ is_about id.now (seen_item item.now).about }
{
    match &item.about {
        Some(other) => other.as_str() == id,
        None => false,
    }
}

/// What is told of an item.
pub(crate) fn event_of(item: &Item) -> Event
    ensures { result ≡ event_of (seen_item item.now) }
{
    Event {
        turn: item.turn,
        call: item.call,
        item: item.item,
        stamp: item.stamp,
        operation: item.operation,
        undone: is_undone(item.status),
    }
}

/// Whether an item of this status was undone.
fn is_undone(status: Status) -> bool
    ensures { result ≡ is_undone status }
{
    match status {
        Status::Undone => true,
        Status::Success | Status::Failed => false,
    }
}

/// Whether the declaration has an object of this identifier.
fn is_declared(declaration: &Declaration, id: &str) -> bool
    ensures { result ≡ is_declared (declaration_of declaration.now) id.now }
{
    let mut place = 0;
    'entries: while place < declaration.entries.len() {
        if has_id(&declaration.entries[place], id) {
            return true;
        }
        place += 1;
    }
    false
}

/// Whether a declared object has this identifier.
fn has_id(entry: &Entry, id: &str) -> bool
    ensures { result ≡ bytes_eq (entry_of entry.now).id id.now }
{
    entry.id.as_str() == id
}
