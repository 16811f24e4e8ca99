//! The objects of the present, with their names, their states and their dates.

ghost use Rattle.std.specs.Prelude.{◌≡◌, ◌-◌, length, map, slice_get};
ghost use Rattle.kmipa_attrs.specs.Sets.{name_of};
ghost use Rattle.kmipa_store.specs.Features.{Forgets, KnowsLasting};
ghost use Rattle.kmipa_store.specs.Ledger.{held};
ghost use Rattle.kmipa_store.specs.Names.{KeepsOthers, ListsAgain};
ghost use Rattle.kmipa_store.specs.Objects.{GivesFormer, exchanged};

use crate::changes::{ObjectChange, Undo};
use crate::clock::Clock;
use crate::counted::Counted;
use crate::fault::StoreFault;
use crate::feature::Feature;
use crate::features::Features;
use crate::names::Names;
use crate::sought::Sought;
use kmipa_attrs::{Filter, Name};
use kmipa_object::{Life, Object, State};
use std::alloc::Global;
use std::marker::Model;

/// Objects, counted by their names, an index of these, one of what else lasts, what was looked for among them, and a clock that tells the
/// state of each object.
///
/// # Names that are not listed
/// What goes back to a mark finds its names listed already. Should one of them be not, and find no memory, all objects are looked at for a
/// name from then on.
#[derive(Drop)]
pub struct Present {
    alloc: Global,
    objects: Counted,
    names: Names,
    are_names_listed: bool,
    features: Features,
    sought: Sought,
    clock: Clock,
}

impl Model for Present {
    ghost use Rattle.std.specs.Prelude.{◌≡◌};
    ghost use Rattle.kmipa_store.specs.Clock.{states_at};
    ghost use Rattle.kmipa_store.specs.Features.{KnowsLasting};
    ghost use Rattle.kmipa_store.specs.Names.{Knows};
    ghost use Rattle.kmipa_store.specs.Present.{Standing};
    ghost use Rattle.kmipa_store.specs.Sought.{KnowsSought};

    ghost Value = { Standing };

    ghost view = { λ p. record { dated = record { objects = p.objects; due = p.clock.due }; moment = p.clock.moment } };

    ghost invariant = { λ p. (p.clock.states ≡ states_at p.objects p.clock.moment) × Knows p.are_names_listed p.names p.objects × KnowsLasting p.features p.objects × KnowsSought p.sought p.objects };
}

impl Present {
    ghost use Rattle.std.specs.Prelude.{◌≡◌, ◌≤◌, ◌<◌, ◌++◌, ◌∷◌, [], pos, length, slice_get, string_bytes, Some, None, IfSome};
    ghost use Rattle.kmipa_object.specs.Lists.{updated};
    ghost use Rattle.kmipa_store.specs.Ledger.{held, cards_of, id_at, place_of, relived};
    ghost use Rattle.kmipa_store.specs.Present.{AreAwaited, Makes};
    ghost use Rattle.kmipa_attrs.specs.Filters.{filter_of};
    ghost use Rattle.kmipa_store.specs.Queries.{AllLack, Leaps, lasting, next_live_named, next_named, next_with, any_live_named, state_of_place};

    /// No objects, at moment 0.
    pub fn new(alloc: Global) -> Present
        ensures objects { result.dated.objects ≡ [] }
        ensures moment { result.moment ≡ pos 0 }
    {
        Present {
            alloc,
            objects: Counted::new(alloc),
            names: Names::new(alloc),
            are_names_listed: true,
            features: Features::new(alloc),
            sought: Sought::new(alloc),
            clock: Clock::new(alloc),
        }
    }

    /// The place of the object with this identifier.
    pub fn find(&self, id: &str) -> Option<usize>
        ensures place { result ≡ place_of id.now (cards_of self.now.dated.objects) }
        ensures within { IfSome result (λ place. place < length self.now.dated.objects) }
    {
        self.objects.plain().find(id)
    }

    /// How many objects there are.
    pub fn len(&self) -> usize
        ensures { result ≡ length self.now.dated.objects }
    {
        self.objects.len()
    }

    /// The object at a place.
    pub fn at(&self, place: usize) -> &Object
        requires { place < length self.now.dated.objects }
        ensures { slice_get self.now.dated.objects place ≡ Some (held result.now) }
    {
        self.objects.at(place)
    }

    /// The first place from this one on whose object has this name.
    pub fn next_named(&self, value: &str, kind: u32, from: usize) -> Option<usize>
        ensures place { result ≡ next_named value.now kind from self.now.dated.objects }
        ensures within { IfSome result (λ place. place < length self.now.dated.objects) }
    {
        let objects = self.objects.plain();
        if self.are_names_listed {
            self.names.next(objects, value, kind, from)
        } else {
            objects.next_named(value, kind, from)
        }
    }

    /// The first place from this one on whose object has this name and no Destroy Date.
    pub fn next_live_named(&self, value: &str, kind: u32, from: usize) -> Option<usize>
        ensures place { result ≡ next_live_named value.now kind from self.now.dated.objects }
        ensures within { IfSome result (λ place. place < length self.now.dated.objects) }
    {
        self.objects.next_live_named(value, kind, from)
    }

    /// Whether an object without a Destroy Date has this name.
    pub fn any_live_named(&self, value: &str, kind: u32) -> bool
        ensures { result ≡ any_live_named value.now kind self.now.dated.objects }
    {
        if self.objects.is_none_live(value, kind) {
            return false;
        }
        let objects = self.objects.plain();
        if self.are_names_listed {
            self.names.any_live(objects, value, kind)
        } else {
            objects.any_live_named(value, kind)
        }
    }

    /// The first place from this one on whose object has this feature, at the moment.
    pub fn next_with(&self, feature: Feature, from: usize) -> Option<usize>
        ensures place { result ≡ next_with feature self.now.moment from self.now.dated.objects }
        ensures within { IfSome result (λ place. place < length self.now.dated.objects) }
    {
        let objects = self.objects.plain();
        if feature.is_lasting() {
            self.features
                .next(objects, feature, self.clock.moment(), from)
        } else {
            self.clock.next_with(objects, feature, from)
        }
    }

    /// Makes `next_with` quick, where there are many objects and there is memory for it.
    pub fn prepare(&mut self, feature: Feature)
        ensures { self.new ≡ self.old }
    {
        if !feature.is_lasting() {
            self.clock.prepare();
            return;
        }
        if self.features.is_known() {
            return;
        }
        self.features = lasting_of(self.alloc, &self.objects);
    }

    /// A place from this one on, ahead of which each object from this one on lacks something that lasts of what the filter asks for.
    pub fn ahead(&self, filter: &Filter, from: usize) -> usize
        ensures { Leaps (lasting (filter_of filter.now)) self.now.dated.objects from result }
    {
        self.sought.ahead(filter, from)
    }

    /// How far was looked for what the filter asks for.
    pub fn end_of(&self, filter: &Filter) -> usize
        ensures { result ≤ length self.now.dated.objects }
    {
        self.sought.end_of(filter, self.objects.len())
    }

    /// Each object from one place to another lacks something that lasts of what the filter asks for.
    pub fn remember(&mut self, filter: &Filter, from: usize, to: usize)
        requires { AllLack (lasting (filter_of filter.now)) self.old.dated.objects from to }
        ensures { self.new ≡ self.old }
    {
        if self.objects.len() < to {
            return;
        }
        self.sought.remember(filter, from, to);
    }

    /// The moment of the states, in seconds since 1970-01-01T00:00:00Z.
    pub fn moment(&self) -> i64
        ensures { result ≡ self.now.moment }
    {
        self.clock.moment()
    }

    /// The state of the object at a place, at the moment.
    pub fn state(&self, place: usize) -> State
        requires { place < length self.now.dated.objects }
        ensures { state_of_place self.now.dated.objects place self.now.moment ≡ Some result }
    {
        self.clock.state(place)
    }

    /// Another moment.
    pub fn set_moment(&mut self, t: i64)
        requires { AreAwaited self.old.dated }
        ensures { self.new ≡ record self.old { moment = t } }
    {
        self.clock.set_moment(self.objects.plain(), t);
    }

    /// Adds an object, whose identifier no other has, after the others.
    pub fn push(&mut self, object: Object) -> Result<ObjectChange, StoreFault>
        requires { place_of (string_bytes object.id) (cards_of self.old.dated.objects) ≡ None }
        ensures { Makes self.old (self.old.dated.objects ++ held object ∷ []) result self.new }
    {
        let place = self.objects.len();
        self.names.note(place, object.given.names.as_slice())?;
        let brought = self.clock.add(place, object.life)?;
        match self.objects.push(object) {
            Ok(()) => {
                self.features.note_object(place, self.objects.at(place));
                Ok(ObjectChange::Added(brought))
            }
            Err(fault) => {
                self.clock.remove(place, brought);
                Err(fault)
            }
        }
    }

    /// The object at a place leads this life from now on.
    pub fn set_life(&mut self, place: usize, life: Life) -> Result<ObjectChange, StoreFault>
        requires { place < length self.old.dated.objects }
        ensures { Makes self.old (relived self.old.dated.objects place life) result self.new }
    {
        let before = self.objects.at(place).life;
        let brought = self.clock.note(place, life)?;
        self.objects.set_life(place, life);
        self.clock.tell(place, life);
        Ok(ObjectChange::Replaced(place, before, brought))
    }

    /// The object at a place is another one of the same identifier from now on. The names of the former one stay listed.
    pub fn renew(&mut self, place: usize, object: Object) -> Result<ObjectChange, StoreFault>
        requires there { place < length self.old.dated.objects }
        requires same { id_at self.old.dated.objects place ≡ Some (string_bytes object.id) }
        ensures { Makes self.old (updated self.old.dated.objects place (λ _. held object)) result self.new }
    {
        let life = object.life;
        let names = object.given.names.as_slice();
        self.names.note(place, names)?;
        let mut other = Box::new(self.alloc, object)?;
        let brought = self.clock.note(place, life)?;
        exchange(&mut self.objects, &mut self.features, place, &mut other);
        self.sought.touch(place);
        self.clock.tell(place, life);
        Ok(ObjectChange::Renewed(place, other, brought))
    }
}

impl Undo<ObjectChange> for Present {
    ghost use Rattle.kmipa_store.specs.Present.{standing_unmade};

    ghost unmade = { standing_unmade };

    fn take_back(&mut self, change: ObjectChange) {
        match change {
            ObjectChange::Added(brought) => {
                forget_last(&mut self.names, &mut self.features, &self.objects);
                self.objects.pop();
                let last = self.objects.len();
                self.sought.touch(last);
                self.clock.remove(last, brought);
            }
            ObjectChange::Replaced(place, life, brought) => {
                self.objects.set_life(place, life);
                self.clock.tell(place, life);
                self.clock.forget(place, brought);
            }
            ObjectChange::Renewed(place, former, brought) => {
                let mut former = Box::into_inner(former);
                let led = former.life;
                let names = former.given.names.as_slice();
                let are_listed = list_again(&mut self.names, self.are_names_listed, place, names);
                self.are_names_listed = are_listed;
                exchange(&mut self.objects, &mut self.features, place, &mut former);
                self.sought.touch(place);
                self.clock.tell(place, led);
                self.clock.forget(place, brought);
            }
        }
    }
}

/// The object at a place, if there is one, and another one are exchanged, but for their identifiers.
fn exchange(objects: &mut Counted, features: &mut Features, place: usize, other: &mut Object)
    ensures after { objects.new ≡ exchanged objects.old place (held other.old) }
    ensures former { GivesFormer (slice_get objects.old place) (held other.old) (held other.new) }
    ensures features { KnowsLasting features.old objects.old → KnowsLasting features.new objects.new }
{
    if place >= objects.len() {
        return;
    }
    let before = objects.at(place);
    features.forget_object(place, before);
    objects.exchange(place, other);
    let after = objects.at(place);
    features.note_object(place, after);
}

/// Lists the names of what went back to a place, and answers whether all names are listed then, if they were. These were listed when they
/// came, so that they want no memory.
fn list_again(names: &mut Names, are_listed: bool, place: usize, former: &[Name]) -> bool
    ensures { ListsAgain names.old are_listed place (map name_of former.now) result names.new }
{
    match names.note(place, former) {
        Ok(()) => are_listed,
        Err(_) => false,
    }
}

/// Lists the names and the features of the last object no longer, if there is one.
fn forget_last(names: &mut Names, features: &mut Features, objects: &Counted)
    ensures names { KeepsOthers names.old (length objects.now - 1) names.new }
    ensures features { Forgets features.old (length objects.now - 1) features.new }
{
    if let Some(last) = objects.len().checked_sub(1) {
        let object = objects.at(last);
        names.forget(last, object.given.names.as_slice());
        features.forget_object(last, object);
    }
}

/// Lists of the features that last of these objects; where they are few no lists are begun.
fn lasting_of(alloc: Global, objects: &Counted) -> Features
    ensures { KnowsLasting result objects.now }
{
    let mut features = Features::begun(alloc, objects.len());
    for place in 0..objects.len() {
        features.note_object(place, objects.at(place));
    }
    features
}
