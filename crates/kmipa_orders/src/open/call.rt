//! Calls without an end mark, as a search may take them.

use super::identifiers::asked_id;
use kmipa_msgs::Ask;
use kmipa_ops::{Change, Effect, row_of};
use kmipa_record::Call;

/// What the success of an item leaves, which shows in a date of its object.
#[derive(Clone, Copy, PartialEq, Eq)]
pub enum Event {
    /// A new object, with its Initial Date.
    Made,
    /// An Activation Date.
    Activated,
    /// A Deactivation Date or a Compromise Date.
    Revoked,
    /// A Destroy Date.
    Destroyed,
}

/// A call without an end mark whose request has one item, where the item's success leaves something.
#[derive(Clone, Copy, Drop)]
pub struct OpenCall<'b, 'a> {
    /// Its place among the calls.
    pub place: usize,
    /// The place of its begin mark among the marks.
    pub begin: usize,
    pub ask: &'b Ask<'a>,
    pub event: Event,
}

impl<'b, 'a> OpenCall<'b, 'a> {
    /// The call at a place, where it is such a one.
    pub fn of(call: &'b Call<'a>, place: usize) -> Option<OpenCall<'b, 'a>> {
        if call.end.is_some() {
            return None;
        }
        if call.request.items.len() != 1 {
            return None;
        }
        let ask = &call.request.items[0];
        let event = event_of(ask)?;
        Some(OpenCall {
            place,
            begin: call.begin,
            ask,
            event,
        })
    }

    /// The identifier of the object that it changes; none where it makes one.
    pub fn id(&self) -> Option<&'b str> {
        asked_id(self.ask)
    }
}

/// What the success of an item leaves, if it leaves anything.
pub fn event_of(ask: &Ask) -> Option<Event> {
    match row_of(&ask.asked).effect {
        Effect::Makes(_) => Some(Event::Made),
        Effect::Changes(change) => Some(event_left(change)),
        _ => None,
    }
}

fn event_left(change: Change) -> Event {
    match change {
        Change::Activate => Event::Activated,
        Change::Revoke(_) => Event::Revoked,
        Change::Destroy => Event::Destroyed,
    }
}
