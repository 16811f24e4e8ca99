//! Names that no two live objects share, and names that a server says are taken.
//!
//! Where the times of two bearers of one name overlap, one of them is gone before the other is born. Where an object is refused since its name is
//! taken, some bearer of it was born before.

use crate::choices::{Choice, Done, Wish, add_choice};
use crate::fates::{Aim, Fate};
use crate::items::{Items, brought};
use crate::stories::Recording;
use crate::switches::{Ending, Switches, new_node, open_aim};
use crate::times::{Time, time_at};
use kmipa_attrs::{AttrSet, Name};
use kmipa_batch::is_refused_message;
use kmipa_msgs::{Answer, Ask, Cause, Rules, Status};
use kmipa_record::Call;
use std::alloc::{AllocError, Global};

/// So many bearers of one name that may live at once are looked at.
const MOST_AT_ONCE: usize = 64;

/// So many choices are made by names.
const MOST_CHOICES: usize = 100_000;

/// How an object came by its name.
#[derive(Clone, Copy, PartialEq, Eq, PartialOrd, Ord)]
enum How {
    /// It was there, and destroyed already.
    Past,
    /// It was there.
    Declared,
    /// A call brought it.
    Done,
    /// A call brought it that was undone.
    Undone,
    /// An open call brings it, if it was done.
    Open,
}

/// An object that has a name from its birth on until it is gone.
#[derive(Clone, Copy, PartialEq, Eq, PartialOrd, Ord)]
struct Bearer<'b> {
    value: &'b str,
    kind: u32,
    /// The begin mark of the call that brings it.
    begin: usize,
    how: How,
    /// The node of its birth, of a call this one, and the item of it.
    born: usize,
    item: usize,
    /// The node from which on it isn't live.
    gone: usize,
    /// Its number, where that is known.
    object: usize,
}

/// The bearers of names, and the items that were refused since a name is taken.
#[derive(Drop)]
pub struct Names<'b> {
    is_unique: bool,
    bearers: Vec<Bearer<'b>>,
    refused: Vec<(usize, usize)>,
    /// A node ahead of all calls, and one behind them.
    first: usize,
    last: usize,
}

impl<'b> Names<'b> {
    /// Those of the calls, of which open ones count where these may be taken, and of the objects that are declared. Nodes are added to the times of all.
    pub(crate) fn of<'a>(
        alloc: Global,
        calls: &'b [Call<'a>],
        items: &Items<'b>,
        rules: &Rules,
        times: &mut Vec<Time>,
        is_open: bool,
    ) -> Result<Names<'b>, AllocError> {
        let mut names = Names {
            is_unique: rules.unique_names,
            bearers: Vec::new(alloc),
            refused: refused_items(alloc, calls, rules)?,
            first: 0,
            last: 0,
        };
        if !names.is_unique && names.refused.is_empty() {
            return Ok(names);
        }
        names.first = new_node(times, i64::MIN, i64::MIN)?;
        names.last = new_node(times, i64::MAX, i64::MAX)?;
        names.take_declared(items)?;
        for (place, call) in calls.iter().enumerate() {
            if is_open || call.response.is_some() {
                names.take_call(items, place, call)?;
            }
        }
        names.bearers.sort()?;
        Ok(names)
    }

    fn take_declared(&mut self, items: &Items<'b>) -> Result<(), AllocError> {
        for object in 0..items.declared {
            let Some(known) = items.objects.get(object) else {
                break;
            };
            if let Some((_, given)) = known.given {
                let how = match given.destroy {
                    Some(_) => How::Past,
                    None => How::Declared,
                };
                let birth = Bearer::of(0, how, (self.first, 0), object);
                self.push_bearers(given, birth)?;
            }
        }
        Ok(())
    }

    fn take_call<'a>(
        &mut self,
        items: &Items<'b>,
        place: usize,
        call: &'b Call<'a>,
    ) -> Result<(), AllocError> {
        for (item, ask) in call.request.items.iter().enumerate() {
            if let (Aim::Newborn(new), Some((how, object))) = (
                Aim::of(ask),
                birth_at(items, call, item),
            ) {
                let birth = Bearer::of(call.begin, how, (place, item), object);
                self.push_bearers(new.attributes, birth)?;
            }
        }
        Ok(())
    }

    /// Adds a bearer of each of these names.
    fn push_bearers(&mut self, given: &'b AttrSet, birth: Bearer<'b>) -> Result<(), AllocError> {
        for name in given.names.as_slice() {
            self.bearers.push(Bearer {
                value: name.value.as_str(),
                kind: name.kind,
                ..birth
            })?;
        }
        Ok(())
    }

    /// The places of the first bearers of a name, as many as are looked at: from one on, and before another.
    fn places(&self, name: &Name) -> (usize, usize) {
        let from = self
            .bearers
            .partition_point(|bearer| bearer.is_ahead_of(name));
        let to = self
            .bearers
            .partition_point(|bearer| bearer.is_ahead_of(name) || bearer.has(name));
        (from, to.min(from.saturating_add(MOST_AT_ONCE)))
    }

    /// Whether another object has the name of the bearer at a place.
    fn is_shared(&self, place: usize) -> bool {
        let Some(own) = self.bearers.get(place) else {
            return false;
        };
        let ahead = self.bearers.get(place.wrapping_sub(1));
        let behind = self.bearers.get(place.saturating_add(1));
        match (ahead, behind) {
            (Some(other), _) if own.is_named_as(other) => true,
            (_, Some(other)) => own.is_named_as(other),
            _ => false,
        }
    }

    /// Notes from when on each bearer is gone, once it is known what open calls are about. Nodes are added where the lives of an object say it.
    pub(crate) fn close<'a>(
        &mut self,
        alloc: Global,
        calls: &'b [Call<'a>],
        items: &Items<'b>,
        times: &mut Vec<Time>,
        switches: &mut Switches,
    ) -> Result<(), AllocError> {
        if !self.is_unique {
            return Ok(());
        }
        let open = open_ends(alloc, calls, items)?;
        switches.last = self.last;
        for place in 0..self.bearers.len() {
            if self.is_shared(place) {
                self.close_one(items, times, switches, &open, place)?;
            }
        }
        switches.endings.sort_unstable();
        Ok(())
    }

    fn close_one(
        &mut self,
        items: &Items<'b>,
        times: &mut Vec<Time>,
        switches: &mut Switches,
        open: &[usize],
        place: usize,
    ) -> Result<(), AllocError> {
        let (first, last) = (self.first, self.last);
        let Some(bearer) = self.bearers.get_mut(place) else {
            return Ok(());
        };
        if bearer.how == How::Open {
            switches.add_edge(first, bearer.born)?;
            switches.add_edge(bearer.born, last)?;
        }
        bearer.gone = match (bearer.how, items.gone(bearer.object)) {
            (How::Past, _) => first,
            (How::Undone, _) => bearer.born,
            (How::Declared | How::Done, Some(call)) => call,
            (How::Declared | How::Done, None) if !has(open, bearer.object) => last,
            _ => {
                let node = new_node(times, i64::MIN, i64::MAX)?;
                switches.endings.push(bearer.ending(node))?;
                node
            }
        };
        Ok(())
    }

    /// The names that are refused as taken where no bearer is known to be born before, in their order.
    pub(crate) fn wanted<'a>(
        &self,
        alloc: Global,
        calls: &'b [Call<'a>],
        times: &[Time],
    ) -> Result<Vec<(&'b str, u32)>, AllocError> {
        let mut wanted = Vec::new(alloc);
        for (place, item) in &self.refused {
            let names = names_at(calls, *place, *item);
            if !names.iter().any(|name| self.is_had(times, name, *place)) {
                push_names(names, &mut wanted)?;
            }
        }
        wanted.sort()?;
        Ok(wanted)
    }

    /// Whether an object is known to have a name by when a call is taken, or too many may.
    fn is_had(&self, times: &[Time], name: &Name, call: usize) -> bool {
        let (from, to) = self.places(name);
        let is_late = match self.bearers.get(to) {
            Some(bearer) if bearer.has(name) => time_at(times, call).end < bearer.begin,
            _ => true,
        };
        let front = self.bearers.get(from..to).unwrap_or(&[]);
        !is_late || front.iter().any(|bearer| bearer.is_sure(times, call))
    }

    /// Adds the choices that names leave; or answers that two objects share one.
    pub(crate) fn add_choices<'a>(
        &self,
        alloc: Global,
        recording: &Recording<'b, 'a>,
        choices: &mut Vec<Choice>,
    ) -> Result<bool, AllocError> {
        for (place, item) in &self.refused {
            let names = names_at(recording.calls, *place, *item);
            self.add_refusal(alloc, recording, choices, names, *place)?;
        }
        Ok(!self.is_unique || self.add_all_pairs(alloc, &recording.times, choices)?)
    }

    /// Adds a choice for each two bearers of a name that may live at once; or answers that two do.
    fn add_all_pairs(
        &self,
        alloc: Global,
        times: &[Time],
        choices: &mut Vec<Choice>,
    ) -> Result<bool, AllocError> {
        let most = choices.len().saturating_add(MOST_CHOICES);
        let mut live = Vec::new(alloc);
        for bearer in &self.bearers {
            live = left_of(alloc, times, &live, bearer)?;
            if choices.len() < most && !add_pairs(alloc, times, choices, &live, bearer)? {
                return Ok(false);
            }
            if bearer.how != How::Past {
                live.push(*bearer)?;
            }
        }
        Ok(true)
    }

    /// Adds the choice of the bearer of one of these names that was born before a call which is refused for that.
    fn add_refusal(
        &self,
        alloc: Global,
        recording: &Recording<'_, '_>,
        choices: &mut Vec<Choice>,
        names: &[Name],
        call: usize,
    ) -> Result<(), AllocError> {
        let times = recording.times.as_slice();
        if names.iter().any(|name| self.is_had(times, name, call)) {
            return Ok(());
        }
        let mut bearers = Vec::new(alloc);
        for name in names {
            let (from, to) = self.places(name);
            bearers.extend_from_slice(self.bearers.get(from..to).unwrap_or(&[]))?;
        }
        let mut options = Vec::new(alloc);
        let mut done = Vec::new(alloc);
        for bearer in &bearers {
            add_bringer(alloc, recording, bearer, call, &mut options, &mut done)?;
        }
        add_choice(alloc, choices, options, done, None)
    }
}

impl<'b> Bearer<'b> {
    /// An object that is born at a node, by an item; its name is told later, and when it is gone.
    fn of(begin: usize, how: How, born: (usize, usize), object: usize) -> Bearer<'b> {
        Bearer {
            value: "",
            kind: 0,
            begin,
            how,
            born: born.0,
            item: born.1,
            gone: usize::MAX,
            object,
        }
    }

    /// Whether it has this name.
    fn has(&self, name: &Name) -> bool {
        self.value == name.value.as_str() && self.kind == name.kind
    }

    /// Whether its name comes before this one.
    fn is_ahead_of(&self, name: &Name) -> bool {
        let value = name.value.as_str();
        self.value < value || self.value == value && self.kind < name.kind
    }

    /// Whether it has the name of another.
    fn is_named_as(&self, other: &Bearer<'_>) -> bool {
        self.value == other.value && self.kind == other.kind
    }

    /// Whether it is known to be born by when a call is taken.
    fn is_sure(&self, times: &[Time], call: usize) -> bool {
        match self.how {
            How::Past => true,
            How::Declared => true,
            How::Done => {
                self.born == call || time_at(times, self.born).is_before(time_at(times, call))
            }
            _ => self.born == call,
        }
    }

    /// The node of its end, where its lives say when that is.
    fn ending(&self, node: usize) -> Ending {
        let by = match self.how {
            How::Open => (self.born, self.item),
            _ => (usize::MAX, self.object),
        };
        Ending { by, node }
    }
}

/// How the item at a place brings an object, and the number of that; none where it brings none.
fn birth_at<'b, 'a>(items: &Items<'b>, call: &'b Call<'a>, item: usize) -> Option<(How, usize)> {
    let Some(response) = &call.response else {
        return Some((How::Open, usize::MAX));
    };
    if is_refused_message(response) {
        return None;
    }
    let answer = response.items.get(item)?;
    match answer.status {
        Status::Success => Some((How::Done, items.find(brought(&answer.payload)?)?)),
        Status::Undone => Some((How::Undone, usize::MAX)),
        Status::Failed => None,
    }
}

/// The objects that an open call may destroy, in their order.
fn open_ends(
    alloc: Global,
    calls: &[Call<'_>],
    items: &Items<'_>,
) -> Result<Vec<usize>, AllocError> {
    let mut objects = Vec::new(alloc);
    for touch in &items.touches {
        if touch.fate == Fate::Destroyed && open_aim(calls, *touch).is_some() {
            objects.push(touch.object)?;
        }
    }
    objects.sort_unstable();
    Ok(objects)
}

/// Whether a number is among these, which ascend.
fn has(numbers: &[usize], number: usize) -> bool {
    let place = numbers.partition_point(|other| *other < number);
    numbers.get(place).copied() == Some(number)
}

/// The items that were refused since a name is taken, and for no other cause.
fn refused_items(
    alloc: Global,
    calls: &[Call<'_>],
    rules: &Rules,
) -> Result<Vec<(usize, usize)>, AllocError> {
    let mut refused = Vec::new(alloc);
    for (place, call) in calls.iter().enumerate() {
        push_refused(place, call, rules, &mut refused)?;
    }
    Ok(refused)
}

fn push_refused(
    place: usize,
    call: &Call<'_>,
    rules: &Rules,
    refused: &mut Vec<(usize, usize)>,
) -> Result<(), AllocError> {
    let Some(response) = &call.response else {
        return Ok(());
    };
    if is_refused_message(response) {
        return Ok(());
    }
    let asks = call.request.items.iter();
    for (item, (ask, answer)) in asks.zip(response.items.iter()).enumerate() {
        if let Aim::Newborn(_) = Aim::of(ask) {
            if is_taken(rules, answer) {
                refused.push((place, item))?;
            }
        }
    }
    Ok(())
}

/// Whether an answer says that a name is taken, and nothing else.
fn is_taken(rules: &Rules, answer: &Answer<'_>) -> bool {
    let Some(reason) = answer.reason else {
        return false;
    };
    answer.status == Status::Failed
        && rules.rows.iter().any(|row| row.reason == reason)
        && rules.rows.iter().all(|row| row.reason != reason || row.cause == Cause::TakenName)
}

/// The names that an item gives what it makes.
fn names_at<'b, 'a>(calls: &'b [Call<'a>], call: usize, item: usize) -> &'b [Name] {
    let Some(call) = calls.get(call) else {
        return &[];
    };
    match call.request.items.get(item) {
        Some(ask) => given_names(ask),
        None => &[],
    }
}

fn given_names<'b, 'a>(ask: &'b Ask<'a>) -> &'b [Name] {
    match Aim::of(ask) {
        Aim::Newborn(new) => new.attributes.names.as_slice(),
        _ => &[],
    }
}

fn push_names<'b>(names: &'b [Name], all: &mut Vec<(&'b str, u32)>) -> Result<(), AllocError> {
    for name in names {
        all.push((name.value.as_str(), name.kind))?;
    }
    Ok(())
}

/// Those of these bearers, at most so many, that have the name of another, and may live when it is born.
fn left_of<'b>(
    alloc: Global,
    times: &[Time],
    live: &[Bearer<'b>],
    bearer: &Bearer<'b>,
) -> Result<Vec<Bearer<'b>>, AllocError> {
    let mut left = Vec::new(alloc);
    let old = live.len().saturating_sub(MOST_AT_ONCE);
    for other in live.get(old..).unwrap_or(&[]) {
        if other.is_named_as(bearer) && time_at(times, other.gone).end >= bearer.begin {
            left.push(*other)?;
        }
    }
    Ok(left)
}

/// Adds a choice for each of these bearers and another one: which of both is gone first; or answers that neither can be.
fn add_pairs(
    alloc: Global,
    times: &[Time],
    choices: &mut Vec<Choice>,
    live: &[Bearer<'_>],
    bearer: &Bearer<'_>,
) -> Result<bool, AllocError> {
    for other in live {
        if !is_settled(times, other, bearer) {
            let mut options = Vec::new(alloc);
            push_first(alloc, times, other, bearer, &mut options)?;
            push_first(alloc, times, bearer, other, &mut options)?;
            if options.is_empty() {
                return Ok(false);
            }
            add_choice(alloc, choices, options, Vec::new(alloc), None)?;
        }
    }
    Ok(true)
}

/// Whether nothing is to be chosen of two bearers of a name: one call is about both, or their times don't overlap.
fn is_settled(times: &[Time], one: &Bearer<'_>, other: &Bearer<'_>) -> bool {
    one.born == other.born
        || one.gone == other.born
        || other.gone == one.born
        || time_at(times, one.gone).is_before(time_at(times, other.born))
        || time_at(times, other.gone).is_before(time_at(times, one.born))
}

/// Adds the option that a bearer is gone before another is born, if times leave it.
fn push_first(
    alloc: Global,
    times: &[Time],
    one: &Bearer<'_>,
    other: &Bearer<'_>,
    options: &mut Vec<Vec<Wish>>,
) -> Result<(), AllocError> {
    if !time_at(times, other.born).is_before(time_at(times, one.gone)) {
        let mut wishes = Vec::new(alloc);
        wishes.push(Wish {
            from: one.gone,
            to: other.born,
        })?;
        options.push(wishes)?;
    }
    Ok(())
}

/// Adds the options that a bearer is born before a call: of one that an open call brings, for each object that it may have brought.
fn add_bringer(
    alloc: Global,
    recording: &Recording<'_, '_>,
    bearer: &Bearer<'_>,
    call: usize,
    options: &mut Vec<Vec<Wish>>,
    done: &mut Vec<Vec<Done>>,
) -> Result<(), AllocError> {
    let times = recording.times.as_slice();
    let birth = Wish {
        from: bearer.born,
        to: call,
    };
    if bearer.how == How::Undone || time_at(times, call).is_before(time_at(times, bearer.born)) {
        return Ok(());
    }
    if bearer.how == How::Open {
        let switches = &recording.switches;
        return switches.add_claimed(alloc, (bearer.born, bearer.item), birth, options, done);
    }
    let mut wishes = Vec::new(alloc);
    wishes.push(birth)?;
    options.push(wishes)?;
    done.push(Vec::new(alloc))?;
    Ok(())
}
