//! What the calls say of one object.

use crate::fates::{Aim, Fate};
use crate::items::{Known, Touch};
use crate::openings::is_bound;
use crate::shown::{Given, Shown};
use crate::switches::Switches;
use crate::times::{Time, time_at};
use kmipa_msgs::{BatchOption, Rules, Status};
use kmipa_record::Call;
use std::alloc::{AllocError, Global};

/// The calls, their times, and the rules of the server.
#[derive(Drop)]
pub struct Recording<'b, 'a> {
    pub calls: &'b [Call<'a>],
    pub times: Vec<Time>,
    pub rules: Rules,
    /// What open calls do.
    pub switches: Switches,
    /// Whether open calls may be taken, and the items of batches without order in any order.
    pub is_open: bool,
    /// The least Time Stamp of an ended call.
    pub least: i64,
}

/// The items of one call about the object: the touches at these places.
#[derive(Clone, Copy)]
pub struct Group {
    pub call: usize,
    pub from: usize,
    pub to: usize,
    /// It may change the object.
    pub is_change: bool,
    /// It changes the object wherever it is possible.
    pub is_needed: bool,
    /// Its call is open: it is a change, or isn't done.
    pub is_open: bool,
    /// Its call is open, and its items leave the object as it is: they have to be possible only where others of the call are done.
    pub is_asked: bool,
    /// The items that may be done with these end before this place.
    pub end: usize,
}

/// The Time Stamps that an item of an open call may have by the dates of its object: not below one, and below another.
#[derive(Clone, Copy)]
pub struct Period {
    pub since: Option<i64>,
    pub until: Option<i64>,
}

impl Period {
    /// All of them.
    pub(crate) fn any() -> Period {
        Period {
            since: None,
            until: None,
        }
    }

    /// Those that the Activation Date of an object leaves to the first Activate or Revoke of it: a Revoke comes since that date, and an Activate before it.
    pub(crate) fn of_first(given: Given, fate: Fate) -> Period {
        let (since, until) = match fate {
            Fate::Activated => (None, given.activation),
            Fate::Deactivated => (given.activation, None),
            _ => (None, None),
        };
        Period { since, until }
    }
}

/// What the calls say of one object: its items, call by call.
#[derive(Drop)]
pub struct Story<'s> {
    pub recording: &'s Recording<'s, 's>,
    pub id: &'s str,
    pub shown: Shown<'s>,
    /// The dates that it was given, where its birth or the declaration says them.
    given: Given,
    pub touches: &'s [Touch],
    pub groups: Vec<Group>,
    /// Nothing shows it: it is there only where an open call made it for the sake of other items.
    pub is_unseen: bool,
}

impl<'s> Story<'s> {
    /// That of these touches, which stand call by call.
    pub(crate) fn of(
        alloc: Global,
        recording: &'s Recording<'s, 's>,
        known: &Known<'s>,
        touches: &'s [Touch],
        is_unseen: bool,
    ) -> Result<Story<'s>, AllocError> {
        let mut groups: Vec<Group> = Vec::new(alloc);
        for (place, touch) in touches.iter().enumerate() {
            let own = Group::of(recording, *touch, place);
            match groups.last_mut() {
                Some(group) if group.call == touch.call => group.take(own),
                _ => groups.push(own)?,
            }
        }
        Ok(Story {
            recording,
            id: known.id,
            shown: known.shown,
            given: match known.given {
                Some((_, given)) => Given::of(given),
                None => Given::nothing(),
            },
            touches,
            groups: with_parts(alloc, recording, touches, &groups)?,
            is_unseen,
        })
    }

    /// Whether two groups are of one call.
    pub(crate) fn is_of_call(&self, one: usize, other: usize) -> bool {
        match (self.groups.get(one), self.groups.get(other)) {
            (Some(one), Some(other)) => one.call == other.call,
            _ => false,
        }
    }

    /// Whether the touch at a place is done by some group of a chain.
    pub(crate) fn is_done(&self, chain: &[usize], place: usize) -> bool {
        chain.iter().any(|group| match self.groups.get(*group) {
            Some(group) => group.from <= place && place < group.to,
            None => false,
        })
    }

    /// Whether a chain says of an item at a place that it doesn't do that nothing does: it changes the object by its name wherever it is
    /// possible, or the chain does items ahead of it.
    pub(crate) fn is_settled(&self, chain: &[usize], place: usize, aim: Aim<'_>) -> bool {
        aim.is_sure()
            || chain.iter().any(|group| match self.groups.get(*group) {
                Some(group) => group.from <= place && place < group.end,
                None => false,
            })
    }

    /// The date that the success of an item leaves behind a chain, as far as one is shown that its object wasn't given at birth: a Destroy also
    /// deactivates what no Revoke has.
    pub(crate) fn date_left(&self, chain: &[usize], fate: Fate, own: Given) -> Option<i64> {
        let date = self.shown.date_left(fate, own);
        if date.is_some() || fate != Fate::Destroyed || self.is_deactivated(chain) {
            return date;
        }
        self.shown.deactivation.besides(own.deactivation)
    }

    /// The dates that the object was given by the item of a chain that makes it, the first of its group, or else as is known anyway.
    pub(crate) fn given_along(&self, chain: &[usize]) -> Given {
        for group in chain {
            if let Some(first) = self.items(*group).first() {
                if let Some(given) = given_by(self.recording, *first) {
                    return given;
                }
            }
        }
        self.given
    }

    /// The open call and its item by which a chain makes the object; or the greatest number and that of the object.
    pub(crate) fn brought_along(&self, chain: &[usize]) -> (usize, usize) {
        for number in chain {
            if let Some(group) = self.groups.get(*number) {
                if let Some(first) = self.touches.get(group.from) {
                    if group.is_open && first.fate == Fate::Born {
                        return (first.call, first.item);
                    }
                }
            }
        }
        match self.touches.first() {
            Some(touch) => (usize::MAX, touch.object),
            None => (usize::MAX, usize::MAX),
        }
    }

    /// The call of a chain that destroys the object.
    pub(crate) fn gone_along(&self, chain: &[usize]) -> Option<usize> {
        for number in chain {
            let items = self.items(*number);
            let is_end = items.iter().any(|touch| touch.fate == Fate::Destroyed
                && may_change(self.recording, *touch));
            if is_end {
                return Some(items.first()?.call);
            }
        }
        None
    }

    /// The place of the first Activate or Revoke of a chain.
    pub(crate) fn first_handling(&self, chain: &[usize]) -> Option<usize> {
        for number in chain {
            let Some(group) = self.groups.get(*number) else {
                continue;
            };
            for place in group.from..group.to {
                match self.touches.get(place) {
                    Some(touch) if touch.fate.is_handling() => return Some(place),
                    _ => {}
                }
            }
        }
        None
    }

    /// Whether an item of a chain may deactivate by a Revoke.
    fn is_deactivated(&self, chain: &[usize]) -> bool {
        chain.iter().any(|group| {
            self.items(*group)
                .iter()
                .any(|touch| touch.fate == Fate::Deactivated)
        })
    }

    /// The items of a group.
    pub(crate) fn items(&self, group: usize) -> &[Touch] {
        match self.groups.get(group) {
            Some(group) => self.touches.get(group.from..group.to).unwrap_or(&[]),
            None => &[],
        }
    }

    /// When the call of a group was.
    pub(crate) fn time(&self, group: usize) -> Time {
        let call = match self.groups.get(group) {
            Some(group) => group.call,
            None => usize::MAX,
        };
        time_at(&self.recording.times, call)
    }
}

impl Group {
    /// That of one item, at this place.
    fn of(recording: &Recording<'_, '_>, touch: Touch, place: usize) -> Group {
        let is_open = match recording.calls.get(touch.call) {
            Some(call) => call.end.is_none(),
            None => false,
        };
        let is_change = may_change(recording, touch);
        Group {
            call: touch.call,
            from: place,
            to: place.saturating_add(1),
            is_change,
            is_needed: is_change && !is_open && touch.fate.is_sure(),
            is_open,
            is_asked: false,
            end: place.saturating_add(1),
        }
    }

    /// Takes the next item of its call.
    fn take(&mut self, next: Group) {
        self.to = next.to;
        self.end = next.end;
        self.is_change = self.is_change || next.is_change;
        self.is_needed = self.is_needed || next.is_needed;
    }
}

/// The groups, and in the place of one of an open call the parts of it that may be done.
fn with_parts(
    alloc: Global,
    recording: &Recording<'_, '_>,
    touches: &[Touch],
    groups: &[Group],
) -> Result<Vec<Group>, AllocError> {
    let mut all = Vec::with_capacity(alloc, groups.len())?;
    for group in groups {
        if group.is_open {
            add_segments(recording, touches, *group, &mut all)?;
        } else {
            all.push(*group)?;
        }
    }
    Ok(all)
}

/// Adds the parts of a group: the items behind one that makes the object go with it alone.
fn add_segments(
    recording: &Recording<'_, '_>,
    touches: &[Touch],
    group: Group,
    all: &mut Vec<Group>,
) -> Result<(), AllocError> {
    let mut from = group.from;
    for place in group.from.saturating_add(1)..group.to.saturating_add(1) {
        if place == group.to || is_birth(touches, place) {
            let segment = Group {
                from,
                to: place,
                end: place,
                is_change: true,
                ..group
            };
            add_parts(recording, touches, segment, all)?;
            from = place;
        }
    }
    Ok(())
}

/// Adds the parts of items that go together: of a batch under Undo the whole, under Stop each from the front on. Those that may leave the object as
/// it is need not be done.
fn add_parts(
    recording: &Recording<'_, '_>,
    touches: &[Touch],
    segment: Group,
    all: &mut Vec<Group>,
) -> Result<(), AllocError> {
    let Some(call) = recording.calls.get(segment.call) else {
        return Ok(());
    };
    if !is_bound(call) {
        return add_runs(touches, segment, all);
    }
    let first = first_change(recording, touches, segment, false);
    let sure = first_change(recording, touches, segment, true);
    let from = match call.request.option {
        BatchOption::Undo => segment.end.saturating_sub(1),
        _ => segment.from,
    };
    for to in from.saturating_add(1)..segment.end.saturating_add(1) {
        if to > first {
            all.push(Group { to, ..segment })?;
        }
        if to <= sure {
            all.push(Group {
                to,
                is_change: false,
                is_asked: true,
                ..segment
            })?;
        }
    }
    Ok(())
}

/// So many items that hang on nothing are combined.
const MOST_COMBINED: usize = 8;

/// Adds each run of items that hang on nothing but the one that makes the object.
fn add_runs(touches: &[Touch], segment: Group, all: &mut Vec<Group>) -> Result<(), AllocError> {
    let count = segment.end.saturating_sub(segment.from);
    let last = if is_birth(touches, segment.from) || count > MOST_COMBINED {
        segment.from.saturating_add(1)
    } else {
        segment.end
    };
    for from in segment.from..last {
        for to in from.saturating_add(1)..segment.end.saturating_add(1) {
            all.push(Group {
                from,
                to,
                ..segment
            })?;
        }
    }
    Ok(())
}

/// The place of the first item that makes or changes the object, or that does wherever it is possible; the end where there is none.
fn first_change(
    recording: &Recording<'_, '_>,
    touches: &[Touch],
    segment: Group,
    is_sure: bool,
) -> usize {
    for place in segment.from..segment.end {
        if let Some(touch) = touches.get(place) {
            if may_change(recording, *touch) && (touch.fate.is_sure() || !is_sure) {
                return place;
            }
        }
    }
    segment.end
}

/// The dates that an object was given by the item that makes it.
fn given_by(recording: &Recording<'_, '_>, touch: Touch) -> Option<Given> {
    let call = recording.calls.get(touch.call)?;
    let new = Aim::of(call.request.items.get(touch.item)?).newborn()?;
    Some(Given::of(new.attributes))
}

/// Whether the item at a place makes the object.
fn is_birth(touches: &[Touch], place: usize) -> bool {
    match touches.get(place) {
        Some(touch) => touch.fate == Fate::Born,
        None => false,
    }
}

/// Whether an item may change the object that it is about: it is done, or its call is open.
pub(crate) fn may_change(recording: &Recording<'_, '_>, touch: Touch) -> bool {
    touch.fate.is_deed()
        && !time_at(&recording.times, touch.call).is_undone
        && match recording.calls.get(touch.call) {
            Some(call) => call.response.is_none() || has_status(call, touch.item, Status::Success),
            None => false,
        }
}

/// Whether an answer says that the item at a place has this status.
pub(crate) fn has_status(call: &Call<'_>, item: usize, status: Status) -> bool {
    let Some(response) = &call.response else {
        return false;
    };
    match response.items.get(item) {
        Some(answer) => answer.status == status,
        None => false,
    }
}
