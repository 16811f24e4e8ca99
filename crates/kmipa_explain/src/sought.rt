//! The first item of a kind that is sought among those ahead.

ghost use Rattle.std.specs.Prelude.{◌≡◌, find, map, option_map};
ghost use Rattle.kmipa_explain.specs.Reading.{seen_item, test_of};
ghost use Rattle.kmipa_explain.specs.Sources.{counts, first_event, is_event, same_date, stays, date_among};
ghost use Rattle.kmipa_explain.specs.Meant.{dates_told};

use crate::explanation::Event;
use crate::held::DatesHeld;
use crate::item::Item;
use crate::story::{event_of, happens_to, is_about};
use kmipa_msgs::Status;
use kmipa_ops::Judged;

/// What is sought of an object.
#[derive(Clone, Copy)]
pub enum Sought {
    /// What made it.
    Birth,
    /// What may have set this date to this second.
    Date(Judged, Option<i64>),
    /// What told its bytes, where it is there from this turn on.
    Bytes(usize),
    /// One of these two.
    Either(Event, Event),
}

/// The first of these items that is sought of the object of this identifier, at this turn.
pub fn first_event(ahead: &[Item], now: usize, id: &str, sought: Sought) -> Option<Event>
    ensures { result ≡ first_event (test_of now id.now sought) (map seen_item ahead.now) }
{
    let mut place = 0;
    'items: while place < ahead.len() {
        let item = &ahead[place];
        if passes(item, now, id, sought) {
            return Some(event_of(item));
        }
        place += 1;
    }
    None
}

/// Whether an item is sought.
fn passes(item: &Item, now: usize, id: &str, sought: Sought) -> bool
    ensures { result ≡ test_of now id.now sought (seen_item item.now) }
{
    match sought {
        Sought::Birth => counts(item, now, id) && item.makes,
        Sought::Date(date, second) => {
            counts(item, now, id) && same_date(date_among(item.sets, date), second)
        }
        Sought::Bytes(first) => happens_to(item, id) && item.teaches && item.turn >= first,
        Sought::Either(one, other) => is_event(item, one) || is_event(item, other),
    }
}

/// Whether what an item did to the object of this identifier is there.
fn counts(item: &Item, now: usize, id: &str) -> bool
    ensures { result ≡ counts now id.now (seen_item item.now) }
{
    stays(now, item.turn, item.status) && is_about(item, id)
}

/// Whether what an item of a turn did is there at another.
fn stays(now: usize, turn: usize, status: Status) -> bool
    ensures { result ≡ stays now turn status }
{
    match status {
        Status::Success => true,
        Status::Undone => turn == now,
        Status::Failed => false,
    }
}

/// Whether an item is this one.
fn is_event(item: &Item, event: Event) -> bool
    ensures { result ≡ is_event event (seen_item item.now) }
{
    item.turn == event.turn && item.item == event.item
}

/// One of the five dates; another attribute is none.
pub fn date_among(dates: DatesHeld, date: Judged) -> Option<i64>
    ensures { result ≡ date_among (dates_told dates) date }
{
    match date {
        Judged::InitialDate => dates.initial,
        Judged::ActivationDate => dates.activation,
        Judged::DeactivationDate => dates.deactivation,
        Judged::DestroyDate => dates.destroy,
        Judged::CompromiseDate => dates.compromise,
        _ => None,
    }
}

/// Whether both dates are there, and are the same.
pub fn same_date(one: Option<i64>, other: Option<i64>) -> bool
    ensures { result ≡ same_date one other }
{
    match (one, other) {
        (Some(one), Some(other)) => one == other,
        _ => false,
    }
}
