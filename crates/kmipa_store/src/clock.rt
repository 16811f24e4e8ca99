//! States told at one moment, and the dates at which they change.

ghost use Rattle.std.specs.Prelude.{◌≡◌, ◌<◌, false, length, IfSome};
ghost use Rattle.std.specs.Int.{int_min};
ghost use Rattle.kmipa_object.specs.Lists.{updated};
ghost use Rattle.kmipa_store.specs.Clock.{Awaits, looked, states_at};
ghost use Rattle.kmipa_store.specs.Features.{is_lasting};
ghost use Rattle.kmipa_store.specs.Queries.{next_with};

use crate::fault::StoreFault;
use crate::feature::Feature;
use crate::objects::Objects;
use crate::states::States;
use kmipa_object::{Life, State, state_at};
use std::alloc::Global;
use std::collections::BTreeSet;
use std::marker::Model;
use std::ops::Bound;

/// The state of each object at one moment, and the dates at which states change, in order, with the places of the objects.
///
/// # What a moment costs
/// A new moment looks again only at the objects with a date between the old moment and the new, whichever comes first. Where one
/// of the two is below the floor it looks at each object.
///
/// # Dates of the past
/// A date that is at most the present moment is not put in order: the floor rises to it instead, if it was lower. A date in order
/// stays while going back may need it. A change tells which dates it brought and what the floor was before it; going back takes
/// those dates away, and the floor is what it was.
#[derive(Drop)]
pub struct Clock {
    moment: i64,
    states: States,
    due: BTreeSet<(i64, usize)>,
    floor: i64,
}

/// The dates that a change brought: those that did not stand in order for its place before; and the floor before it.
#[derive(Clone, Copy, PartialEq, Eq)]
pub struct Brought {
    activation: Option<i64>,
    deactivation: Option<i64>,
    floor: i64,
}

impl Model for Clock {
    ghost use Rattle.kmipa_store.specs.Clock.{Time};

    ghost Value = { Time };

    ghost view = { λ c. record { moment = c.moment; states = c.states; due = record { floor = c.floor; keys = c.due.keys } } };
}

impl Clock {
    ghost use Rattle.std.specs.Prelude.{◌-◌, ◌<◌, [], pos, take, Some, slice_get};
    ghost use Rattle.kmipa_object.specs.Life.{dates_of, state};
    ghost use Rattle.kmipa_store.specs.Clock.{AddsLife, NotesDate, NotesLife, dropped, without};

    /// No states and no dates, at moment 0.
    pub fn new(alloc: Global) -> Clock
        ensures moment { result.moment ≡ pos 0 }
        ensures states { result.states ≡ [] }
    {
        Clock {
            moment: 0,
            states: States::new(alloc),
            due: BTreeSet::new(alloc),
            floor: i64::MIN,
        }
    }

    /// The moment of the states, in seconds since 1970-01-01T00:00:00Z.
    pub fn moment(&self) -> i64
        ensures { result ≡ self.now.moment }
    {
        self.moment
    }

    /// The state of the object at a place.
    pub fn state(&self, place: usize) -> State
        requires { place < length self.now.states }
        ensures { slice_get self.now.states place ≡ Some result }
    {
        self.states.at(place)
    }

    /// The first place from this one on whose object has this feature, one that doesn't last, at the moment.
    pub fn next_with(&self, objects: &Objects, feature: Feature, from: usize) -> Option<usize>
        requires told { self.now.states ≡ states_at objects.now self.now.moment }
        requires passing { is_lasting feature ≡ false }
        ensures place { result ≡ next_with feature self.now.moment from objects.now }
        ensures within { IfSome result (λ place. place < length objects.now) }
    {
        self.states.next(objects, feature, self.moment, from)
    }

    /// Makes `next_with` quick, where there are many objects and there is memory for it.
    pub fn prepare(&mut self)
        ensures { self.new ≡ self.old }
    {
        self.states.prepare();
    }

    /// Another moment: the objects with a date between the two are looked at again, or each where one of the two is below the floor.
    pub fn set_moment(&mut self, objects: &Objects, t: i64)
        requires told { self.old.states ≡ states_at objects.now self.old.moment }
        requires awaited { Awaits objects.now self.old.due }
        ensures { self.new ≡ record { moment = t; states = states_at objects.now t; due = self.old.due } }
    {
        if t == self.moment {
            return;
        }
        if self.moment.min(t) < self.floor {
            tell_each(&mut self.states, objects, t);
        } else {
            look_over(&mut self.states, &self.due, objects, self.moment, t);
        }
        self.moment = t;
    }

    /// The object at a place leads this life from now on.
    pub fn tell(&mut self, place: usize, life: Life)
        ensures { self.new ≡ record self.old {
          states = updated self.old.states place
              (λ _. state (dates_of life) self.old.moment);
        } }
    {
        let told = state_at(&life, self.moment);
        self.states.set(place, told);
    }

    /// The dates of a life are waited for from now on, and what they brought is the answer.
    pub fn note(&mut self, place: usize, life: Life) -> Result<Brought, StoreFault>
        ensures { NotesLife self.old place life result self.new }
    {
        let floor = self.floor;
        let activation = self.note_date(place, life.activation)?;
        match self.note_date(place, life.deactivation) {
            Ok(deactivation) => Ok(Brought {
                activation,
                deactivation,
                floor,
            }),
            Err(fault) => {
                self.drop_date(place, activation);
                self.floor = floor;
                Err(fault)
            }
        }
    }

    /// Takes the dates away that a change of the object at a place brought, and puts the floor back.
    pub fn forget(&mut self, place: usize, brought: Brought)
        ensures { self.new ≡ record self.old { due = without self.old.due place brought } }
    {
        self.drop_date(place, brought.deactivation);
        self.drop_date(place, brought.activation);
        self.floor = brought.floor;
    }

    /// The state and the dates of an object after the others, at this place.
    pub fn add(&mut self, place: usize, life: Life) -> Result<Brought, StoreFault>
        ensures { AddsLife self.old place life result self.new }
    {
        let brought = self.note(place, life)?;
        match self.states.push(state_at(&life, self.moment)) {
            Ok(()) => Ok(brought),
            Err(fault) => {
                self.forget(place, brought);
                Err(fault)
            }
        }
    }

    /// Takes the last state away, and what the last object brought.
    pub fn remove(&mut self, place: usize, brought: Brought)
        ensures { self.new ≡ record self.old {
          states = take
              (length self.old.states - 1) self.old.states;
          due = without self.old.due place brought;
        } }
    {
        self.states.pop();
        self.forget(place, brought);
    }

    /// The floor rises to a date of the past; a later one is put in order, and answered if it did not stand there.
    fn note_date(&mut self, place: usize, date: Option<i64>) -> Result<Option<i64>, StoreFault>
        ensures { NotesDate self.old place date result self.new }
    {
        let Some(date) = date else {
            return Ok(None);
        };
        if date <= self.moment {
            self.floor = self.floor.max(date);
            return Ok(None);
        }
        let Ok(fresh) = self.due.insert((date, place)) else {
            return Err(StoreFault::Memory);
        };
        if fresh {
            return Ok(Some(date));
        }
        Ok(None)
    }

    fn drop_date(&mut self, place: usize, date: Option<i64>)
        ensures { self.new ≡ record self.old {
          due = record self.old.due { keys = dropped self.old.due.keys place date };
        } }
    {
        if let Some(date) = date {
            let _ = self.due.remove(&(date, place));
        }
    }
}

/// Tells the state of each object anew.
fn tell_each(states: &mut States, objects: &Objects, t: i64)
    requires { length states.old ≡ length objects.now }
    ensures { states.new ≡ states_at objects.now t }
{
    for place in 0..objects.len() {
        states.set(place, objects.state(place, t));
    }
}

/// Tells anew the states of the objects with a date above the smaller of two moments and at most the greater.
fn look_over(
    states: &mut States,
    due: &BTreeSet<(i64, usize)>,
    objects: &Objects,
    before: i64,
    t: i64,
)
    requires told { states.old ≡ states_at objects.now before }
    requires awaited { Awaits objects.now (record { floor = int_min before t; keys = due.now.keys }) }
    ensures { states.new ≡ states_at objects.now t }
{
    let behind = objects.len();
    let start = Bound::Excluded((before.min(t), behind));
    let end = Bound::Included((before.max(t), behind));
    for one in due.range((start, end)) {
        look_again(states, objects, one.1, t);
    }
}

/// Tells the state of the object at a place anew, if there is one.
fn look_again(states: &mut States, objects: &Objects, place: usize, t: i64)
    ensures { states.new ≡ looked objects.now states.old place t }
{
    if place < objects.len() {
        states.set(place, objects.state(place, t));
    }
}
