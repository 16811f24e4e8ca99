//! Which items of a call are searched.

use super::scope::Scope;
use kmipa_aside::Passed;
use kmipa_attrs::Filter;
use kmipa_msgs::{Answer, Ask, Payload, Status};
use kmipa_ops::{Effect, row_of};
use kmipa_passed::{Asked as Meant, Held, Outcome, Shown, Sort};
use kmipa_places::{Place, Readable};
use std::alloc::{AllocError, Global};

/// An item that is searched.
#[derive(Clone, Copy)]
pub(crate) struct Part {
    /// Its place in the call, from 0.
    pub place: usize,
    /// Whether it is a Locate that lists what is out of the scope, which is searched without that.
    pub shortened: bool,
    /// As many are listed then, where more might not be.
    pub maximum: Option<i32>,
}

/// Where the items of a call are, one after the other.
#[derive(Drop)]
struct Standing<'n, 'a> {
    scope: Scope<'n, 'a>,
    call: i32,
    /// The place of the call's begin mark.
    begin: usize,
    /// Whether some item was undone: an item that failed is searched then whatever it is about, since without it none would be.
    undone: bool,
    /// What the ID Placeholder holds.
    held: Held<'a>,
    /// What it holds where the items that are searched are done alone.
    kept: Option<&'a str>,
}

/// The items of a call that are searched: this is its number, and this the place of its begin mark.
pub(crate) fn parts_of<'a>(
    alloc: Global,
    scope: Scope<'_, 'a>,
    number: i32,
    begin: usize,
    call: &Readable<'a>,
) -> Result<Vec<Part>, AllocError> {
    let mut standing = Standing {
        scope,
        call: number,
        begin,
        undone: call.outcomes.contains(&Outcome::Undone),
        held: Held::Empty,
        kept: None,
    };
    let mut parts = Vec::new(alloc);
    'places: for (place, item) in call.places.iter().enumerate() {
        if let Some(part) = standing.part_at(place, item) {
            parts.push(part)?;
        }
    }
    Ok(parts)
}

impl<'n, 'a> Standing<'n, 'a> {
    /// The item at a place, where it is searched.
    fn part_at(&mut self, place: usize, item: &Place<'a>) -> Option<Part> {
        match item {
            Place::Passed(_, passed) => {
                self.pass(passed);
                None
            }
            Place::Judged(ask, answer) => self.judged_part(place, ask, answer),
        }
    }

    fn judged_part(&mut self, place: usize, ask: &Ask<'a>, answer: &Answer<'a>) -> Option<Part> {
        if self.scope.suspects.has_item(self.call, place) {
            self.leave_out(answer);
            return None;
        }
        match row_of(&ask.asked).effect {
            Effect::Makes(_) => self.of_birth(place, answer),
            Effect::Lists(filter) => self.of_locate(place, filter, answer),
            Effect::ShowsBytes | Effect::Changes(_) => {
                self.of_object(place, ask.asked.id(), answer)
            }
            Effect::ShowsAttributes(_) => self.of_attributes(place, ask.asked.id(), answer),
            Effect::Nothing | Effect::Unread => Some(whole(place)),
        }
    }

    /// An item that isn't judged is left out.
    fn pass(&mut self, passed: &Passed<'a>) {
        if passed.answer.outcome == Outcome::Failed {
            return;
        }
        match passed.ask.sort {
            Sort::Makes => self.held = held_by(passed.answer.first),
            Sort::Looks if passed.ask.locates => self.held = held_behind(passed.answer.shown),
            Sort::Looks | Sort::Changes => {}
            Sort::MayMake | Sort::EndsJudging => self.held = Held::Unknown,
        }
    }

    /// An item that is judged is left out.
    fn leave_out(&mut self, answer: &Answer<'a>) {
        match &answer.payload {
            Some(Payload::Create(born)) | Some(Payload::Register(born)) => {
                self.held = Held::Holds(born.id);
            }
            Some(Payload::Locate(_)) => self.held = Held::Unknown,
            _ => {}
        }
    }

    /// A Create or a Register. Where it failed that may be for what is out of the scope.
    fn of_birth(&mut self, place: usize, answer: &Answer<'a>) -> Option<Part> {
        if answer.status == Status::Failed {
            return self.if_undone(place);
        }
        match &answer.payload {
            Some(Payload::Create(born)) | Some(Payload::Register(born)) => {
                self.held = Held::Holds(born.id);
                if self.scope.leaves_out(born.id) {
                    return None;
                }
                self.kept = Some(born.id);
            }
            _ => {
                self.held = Held::Empty;
                self.kept = None;
            }
        }
        Some(whole(place))
    }

    /// A Locate, without what it lists that is out of the scope. Where it lists as many as it may, and all of these are, it says nothing else.
    fn of_locate(&mut self, place: usize, filter: &Filter, answer: &Answer<'a>) -> Option<Part> {
        let Some(Payload::Locate(located)) = &answer.payload else {
            return Some(whole(place));
        };
        let listed = located.ids.len();
        let (count, first) = self.within(&located.ids);
        self.held = held_alone(&located.ids);
        let is_full = is_reached(filter.maximum, listed);
        if is_full && count == 0 && listed > 0 {
            return None;
        }
        self.kept = if count == 1 { first } else { None };
        Some(Part {
            place,
            shortened: count < listed,
            maximum: if is_full {
                i32::try_from(count).ok()
            } else {
                None
            },
        })
    }

    /// How many of these are within the scope, and the first of them.
    fn within(&self, ids: &[&'a str]) -> (usize, Option<&'a str>) {
        let mut count = 0usize;
        let mut first = None;
        'ids: for id in ids {
            if !self.scope.leaves_out(id) {
                count = count.saturating_add(1);
                first = first.or(Some(*id));
            }
        }
        (count, first)
    }

    /// An item about an object: that of this identifier, or the one that the ID Placeholder holds.
    fn of_object(&self, place: usize, id: Option<&'a str>, answer: &Answer) -> Option<Part> {
        let within = match (id, self.held) {
            (Some(id), _) => !self.scope.leaves_out(id),
            (None, Held::Holds(id)) => !self.scope.leaves_out(id) && self.kept == Some(id),
            (None, Held::Empty) => self.kept.is_none(),
            (None, Held::Unknown) => false,
        };
        if within {
            return Some(whole(place));
        }
        if answer.status == Status::Failed && !self.is_suspected(id) {
            return self.if_undone(place);
        }
        None
    }

    /// Whether all items about an object are suspected: that of this identifier, or the one that the ID Placeholder holds.
    fn is_suspected(&self, id: Option<&'a str>) -> bool {
        match self.meant(id) {
            Some(id) => self.scope.suspects.has_object(id),
            None => false,
        }
    }

    /// The identifier of the object that is meant, where it is known.
    fn meant(&self, id: Option<&'a str>) -> Option<&'a str> {
        match (id, self.held) {
            (Some(id), _) | (None, Held::Holds(id)) => Some(id),
            (None, Held::Empty) | (None, Held::Unknown) => None,
        }
    }

    /// A Get Attributes, unless it began behind a call that isn't judged and changed attributes of the object.
    fn of_attributes(&self, place: usize, id: Option<&'a str>, answer: &Answer) -> Option<Part> {
        let part = self.of_object(place, id, answer)?;
        if answer.status != Status::Failed && self.is_changed(id) {
            return None;
        }
        Some(part)
    }

    /// Whether a call that began before, and isn't judged, may have changed attributes of the object that is meant.
    fn is_changed(&self, id: Option<&'a str>) -> bool {
        match self.meant(id) {
            Some(id) => self.scope.names.is_changed(id, self.begin),
            None => false,
        }
    }

    /// An item that failed, where others were undone for it.
    fn if_undone(&self, place: usize) -> Option<Part> {
        if self.undone {
            Some(whole(place))
        } else {
            None
        }
    }
}

/// An item that is searched as it is.
fn whole(place: usize) -> Part {
    Part {
        place,
        shortened: false,
        maximum: None,
    }
}

/// Whether so many are as many as may be listed.
fn is_reached(maximum: Option<i32>, count: usize) -> bool {
    match maximum {
        Some(maximum) => match usize::try_from(maximum) {
            Ok(maximum) => maximum <= count,
            Err(_) => false,
        },
        None => false,
    }
}

fn held_by<'a>(meant: Meant<'a>) -> Held<'a> {
    match meant {
        Meant::Named(id) => Held::Holds(id),
        Meant::Placeholder | Meant::Unnamed => Held::Unknown,
    }
}

fn held_behind<'a>(shown: Shown<'a>) -> Held<'a> {
    match shown {
        Shown::Nothing => Held::Empty,
        Shown::Only(id) => Held::Holds(id),
        Shown::Unclear => Held::Unknown,
    }
}

/// What the ID Placeholder holds behind a Locate that lists these.
fn held_alone<'a>(ids: &[&'a str]) -> Held<'a> {
    match ids.first() {
        Some(id) if ids.len() == 1 => Held::Holds(id),
        _ => Held::Empty,
    }
}
