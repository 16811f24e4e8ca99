//! Whence the object is of which a cause speaks, and what it has.

ghost use Rattle.std.specs.Prelude.{◌≡◌, ◌≤◌, IfOk, is_some, length, map, option_map, take};
ghost use Rattle.kmipa_record.specs.Declarations.{declaration_of};
ghost use Rattle.kmipa_check.specs.Steps.{step_of};
ghost use Rattle.kmipa_explain.specs.Items.{items_of};
ghost use Rattle.kmipa_explain.specs.Meant.{dates_told};
ghost use Rattle.kmipa_explain.specs.Reading.{seen_item, seen_start, seen_subject};
ghost use Rattle.kmipa_explain.specs.Sources.{ahead_of, bytes_known_source, bytes_source, comes_before, date_among, date_source, done_by, first_turn, is_at, later, object_source, other_than, sources_in, start_of, state_source, whence_among, whence_of};

use crate::effects::NO_DATES;
use crate::explanation::Event;
use crate::held::DatesHeld;
use crate::holding::{dates_in, entry_named};
use crate::item::Item;
use crate::items::items_of;
use crate::sought::{Sought, date_among, first_event, same_date};
use crate::source::{Source, Whence};
use crate::subject::Subject;
use kmipa_check::{Refused, Step};
use kmipa_object::State;
use kmipa_ops::Judged;
use kmipa_record::Declaration;
use std::alloc::{AllocError, Global};

/// What a declaration says of an object.
#[derive(Clone, Copy)]
pub struct Start {
    pub declared: bool,
    pub dates: DatesHeld,
    /// Whether with its bytes.
    pub bytes: bool,
}

/// Whence the object is, and what it has, where this item is refused in the order of these steps.
pub fn whence_of(
    alloc: Global,
    declaration: &Declaration,
    steps: &[Step],
    refused: Refused,
    subject: &Option<Subject>,
) -> Result<Option<Whence>, AllocError>
    ensures { IfOk result (λ whence. whence ≡ option_map (whence_of (declaration_of declaration.now)
        (items_of (map step_of steps.now)) refused) (option_map seen_subject subject.now)) }
{
    match subject {
        Some(subject) => {
            let items = items_of(alloc, steps)?;
            Ok(Some(whence_in(declaration, &items, refused, subject)))
        }
        None => Ok(None),
    }
}

/// The same among these items.
fn whence_in(
    declaration: &Declaration,
    items: &[Item],
    refused: Refused,
    subject: &Subject,
) -> Whence
    ensures { result ≡ whence_of (declaration_of declaration.now) (map seen_item items.now) refused
        (seen_subject subject.now) }
{
    let ahead = &items[..count_ahead(items, refused)];
    whence_among(declaration, refused.turn, ahead, subject)
}

/// The same at this turn, where these items are ahead.
fn whence_among(declaration: &Declaration, now: usize, ahead: &[Item], subject: &Subject) -> Whence
    ensures { result ≡ whence_among (declaration_of declaration.now) now (map seen_item ahead.now)
        (seen_subject subject.now) }
{
    let start = start_of(declaration, subject.identifier.as_str());
    let known = sources_in(start, now, ahead, subject);
    Whence {
        state: state_source(ahead, subject.state, subject.dates, &known),
        ..known
    }
}

/// How many items stand ahead of the refused one.
fn count_ahead(items: &[Item], refused: Refused) -> usize
    ensures ahead { take result (map seen_item items.now) ≡ ahead_of refused (map seen_item items.now) }
    ensures within { result ≤ length items.now }
{
    let mut place = 0;
    'items: while place < items.len() {
        if is_at(&items[place], refused) {
            return place;
        }
        place += 1;
    }
    place
}

/// Whether an item is the refused one.
fn is_at(item: &Item, refused: Refused) -> bool
    ensures { result ≡ is_at refused (seen_item item.now) }
{
    item.turn == refused.turn && item.item == refused.item
}

/// What a declaration says of the object of this identifier.
fn start_of(declaration: &Declaration, id: &str) -> Start
    ensures { seen_start result ≡ start_of (declaration_of declaration.now) id.now }
{
    match entry_named(&declaration.entries, id) {
        Some(entry) => Start {
            declared: true,
            dates: dates_in(&entry.attrs),
            bytes: entry.bytes.is_some(),
        },
        None => Start {
            declared: false,
            dates: NO_DATES,
            bytes: false,
        },
    }
}

/// The sources of all but its state.
fn sources_in(start: Start, now: usize, ahead: &[Item], subject: &Subject) -> Whence
    ensures { result ≡ sources_in (seen_start start) now (map seen_item ahead.now) (seen_subject subject.now) }
{
    let id = subject.identifier.as_str();
    let dates = subject.dates;
    Whence {
        object: object_source(start, now, ahead, id),
        state: None,
        initial: date_source(start, now, ahead, id, Judged::InitialDate, dates),
        activation: date_source(start, now, ahead, id, Judged::ActivationDate, dates),
        deactivation: date_source(start, now, ahead, id, Judged::DeactivationDate, dates),
        destroy: date_source(start, now, ahead, id, Judged::DestroyDate, dates),
        compromise: date_source(start, now, ahead, id, Judged::CompromiseDate, dates),
        bytes: bytes_known_source(start, now, ahead, subject),
    }
}

/// The source of an object: it is declared, or an item made it.
fn object_source(start: Start, now: usize, ahead: &[Item], id: &str) -> Option<Source>
    ensures { result ≡ object_source (seen_start start) now (map seen_item ahead.now) id.now }
{
    if start.declared {
        return Some(Source::Declared);
    }
    done_by(first_event(ahead, now, id, Sought::Birth))
}

/// The source of a date among these: the object is declared with it, or an item set it.
fn date_source(
    start: Start,
    now: usize,
    ahead: &[Item],
    id: &str,
    date: Judged,
    dates: DatesHeld,
) -> Option<Source>
    ensures { result ≡ date_source (seen_start start) now (map seen_item ahead.now) id.now date
        (date_among (dates_told dates) date) }
{
    let second = date_among(dates, date);
    if same_date(date_among(start.dates, date), second) {
        return Some(Source::Declared);
    }
    done_by(first_event(ahead, now, id, Sought::Date(date, second)))
}

/// The source of the bytes of an object, where they are known.
fn bytes_known_source(start: Start, now: usize, ahead: &[Item], subject: &Subject) -> Option<Source>
    ensures { result ≡ bytes_known_source (seen_start start) now (map seen_item ahead.now) (seen_subject subject.now) }
{
    if !subject.bytes {
        return None;
    }
    bytes_source(start, now, ahead, subject.identifier.as_str())
}

/// The source of the bytes that are known: they are declared, or an item told them.
fn bytes_source(start: Start, now: usize, ahead: &[Item], id: &str) -> Option<Source>
    ensures { result ≡ bytes_source (seen_start start) now (map seen_item ahead.now) id.now }
{
    if start.bytes {
        return Some(Source::Declared);
    }
    let first = first_turn(object_source(start, now, ahead, id));
    done_by(first_event(ahead, now, id, Sought::Bytes(first)))
}

/// The turn from which on an object of this source is there.
fn first_turn(source: Option<Source>) -> usize
    ensures { result ≡ first_turn source }
{
    match source {
        Some(Source::Done(event)) => event.turn,
        Some(Source::Declared) | None => 0,
    }
}

fn done_by(event: Option<Event>) -> Option<Source>
    ensures { result ≡ done_by event }
{
    match event {
        Some(event) => Some(Source::Done(event)),
        None => None,
    }
}

/// The source of a state, by the dates and their sources.
fn state_source(ahead: &[Item], state: State, dates: DatesHeld, known: &Whence) -> Option<Source>
    ensures { result ≡ state_source (map seen_item ahead.now) state (dates_told dates) known.now }
{
    match state {
        State::PreActive => known.object,
        State::Active => known.activation,
        State::Deactivated => {
            if comes_before(dates.activation, dates.deactivation) {
                return known.deactivation;
            }
            later(ahead, known.activation, known.deactivation)
        }
        State::Compromised => known.compromise,
        State::Destroyed => known.destroy,
        State::DestroyedCompromised => later(ahead, known.destroy, known.compromise),
    }
}

/// Whether both dates are there, and one is less than the other.
fn comes_before(one: Option<i64>, other: Option<i64>) -> bool
    ensures { result ≡ comes_before one other }
{
    match (one, other) {
        (Some(one), Some(other)) => one < other,
        _ => false,
    }
}

/// Of two sources the later one.
fn later(ahead: &[Item], one: Option<Source>, other: Option<Source>) -> Option<Source>
    ensures { result ≡ later (map seen_item ahead.now) one other }
{
    match (one, other) {
        (None, _) => other,
        (_, None) => one,
        (Some(Source::Declared), _) => other,
        (_, Some(Source::Declared)) => one,
        (Some(Source::Done(one)), Some(Source::Done(other))) => {
            let first = first_event(ahead, 0, "", Sought::Either(one, other));
            Some(Source::Done(other_than(first, one, other)))
        }
    }
}

/// Of two items the one that is not the first of them.
fn other_than(first: Option<Event>, one: Event, other: Event) -> Event
    ensures { result ≡ other_than first one other }
{
    match first {
        Some(first) if first.turn == one.turn && first.item == one.item => other,
        Some(_) => one,
        None => other,
    }
}
