//! Where the objects stand that have a feature.

ghost use Rattle.std.specs.Prelude.{◌≡◌, ◌<◌, length, IfSome};
ghost use Rattle.kmipa_object.specs.declared.state.State.{State};
ghost use Rattle.kmipa_store.specs.Ledger.{held};
ghost use Rattle.kmipa_store.specs.Queries.{next_with};
ghost use Rattle.kmipa_store.specs.Features.{algorithm_of, length_of, life_of, stands_with};

use crate::feature::{Feature, has_feature};
use crate::objects::Objects;
use kmipa_object::{Object, State};
use std::alloc::Global;
use std::collections::BTreeSet;
use std::ops::Bound;

/// With fewer objects than these each is looked at, and nothing is listed.
const FEW: usize = 64;

/// The codes of features and the places of objects that have them, once they are asked for; the last number is always 0.
///
/// # What else is listed
/// Two features may have one code: who asks looks whether the object at the place has the feature.
///
/// # Lists that are not begun
/// Until a feature is asked for nothing is listed, and so it is again where a place found no memory. All objects are looked at then.
#[derive(Drop)]
pub struct Features {
    alloc: Global,
    by_code: BTreeSet<(u64, usize, usize)>,
    is_known: bool,
}

impl Features {
    ghost use Rattle.std.specs.Prelude.{[], true, false};
    ghost use Rattle.kmipa_store.specs.Features.{Forgets, KnowsFeature, Notes, NotesIf, NotesLasting, NotesState};

    /// No lists.
    pub fn new(alloc: Global) -> Features
        ensures { result.is_known ≡ false }
    {
        Features {
            alloc,
            by_code: BTreeSet::new(alloc),
            is_known: false,
        }
    }

    /// Lists of no object, to which so many are to come; where these are few no lists are begun.
    pub fn begun(alloc: Global, count: usize) -> Features
        ensures { result.by_code.keys ≡ [] }
    {
        Features {
            alloc,
            by_code: BTreeSet::new(alloc),
            is_known: count >= FEW,
        }
    }

    /// Whether the lists are begun.
    pub fn is_known(&self) -> bool
        ensures { result ≡ self.now.is_known }
    {
        self.is_known
    }

    /// The first place from this one on whose object has this feature at the moment.
    pub fn next(&self, objects: &Objects, feature: Feature, t: i64, from: usize) -> Option<usize>
        requires { KnowsFeature self.now feature t objects.now }
        ensures place { result ≡ next_with feature t from objects.now }
        ensures within { IfSome result (λ place. place < length objects.now) }
    {
        if !self.is_known {
            return objects.next_with(feature, t, from);
        }
        let count = objects.len();
        if count < from {
            return None;
        }
        let code = feature.code();
        let start = Bound::Included((code, from, 0));
        let end = Bound::Excluded((code, count, 0));
        for one in self.by_code.range((start, end)) {
            if stands_with(objects, one.1, feature, t) {
                return Some(one.1);
            }
        }
        None
    }

    /// Lists a place under a feature, where there is memory.
    fn note(&mut self, place: usize, feature: Feature)
        ensures { Notes self.old place feature self.new }
    {
        if !self.is_known {
            return;
        }
        if let Err(_) = self.by_code.insert((feature.code(), place, 0)) {
            self.give_up();
        }
    }

    /// Nothing is listed any more.
    fn give_up(&mut self)
        ensures { self.new.is_known ≡ false }
    {
        *self = Features::new(self.alloc);
    }

    /// Lists a place under a feature no longer.
    fn forget(&mut self, place: usize, feature: Feature)
        ensures { Forgets self.old place self.new }
    {
        if self.is_known {
            let _ = self.by_code.remove(&(feature.code(), place, 0));
        }
    }

    /// Lists a place under the features that last of the object there.
    pub fn note_object(&mut self, place: usize, object: &Object)
        ensures { NotesLasting self.old place (held object.now) self.new }
    {
        self.note(place, Feature::Kind(object.kind.number()));
        self.note_if(place, algorithm_of(object));
        self.note_if(place, length_of(object));
    }

    /// Lists a place under the features that last of the object there no longer.
    pub fn forget_object(&mut self, place: usize, object: &Object)
        ensures { Forgets self.old place self.new }
    {
        self.forget(place, Feature::Kind(object.kind.number()));
        self.forget_if(place, algorithm_of(object));
        self.forget_if(place, length_of(object));
    }

    /// Lists a place under the features of a state.
    pub fn note_state(&mut self, place: usize, state: State)
        ensures { NotesState self.old place state self.new }
    {
        self.note(place, Feature::State(state.number()));
        self.note_if(place, life_of(state));
    }

    /// Lists a place under the features of a state no longer.
    pub fn forget_state(&mut self, place: usize, state: State)
        ensures { Forgets self.old place self.new }
    {
        self.forget(place, Feature::State(state.number()));
        self.forget_if(place, life_of(state));
    }

    /// Lists a place under a feature, where there is one, and memory.
    fn note_if(&mut self, place: usize, feature: Option<Feature>)
        ensures { NotesIf self.old place feature self.new }
    {
        if let Some(feature) = feature {
            self.note(place, feature);
        }
    }

    /// Lists a place under a feature, where there is one, no longer.
    fn forget_if(&mut self, place: usize, feature: Option<Feature>)
        ensures { Forgets self.old place self.new }
    {
        if let Some(feature) = feature {
            self.forget(place, feature);
        }
    }
}

/// Whether there is an object at a place, with this feature.
fn stands_with(objects: &Objects, place: usize, feature: Feature, t: i64) -> bool
    ensures { result ≡ stands_with objects.now place feature t }
{
    if place >= objects.len() {
        return false;
    }
    has_feature(objects.at(place), feature, t)
}

/// The algorithm of an object as a feature.
fn algorithm_of(object: &Object) -> Option<Feature>
    ensures { result ≡ algorithm_of (held object.now) }
{
    match object.given.algorithm {
        Some(number) => Some(Feature::Algorithm(number)),
        None => None,
    }
}

/// The length of an object as a feature.
fn length_of(object: &Object) -> Option<Feature>
    ensures { result ≡ length_of (held object.now) }
{
    match object.given.length {
        Some(bits) => Some(Feature::Length(bits)),
        None => None,
    }
}

/// What it says of an object that it is in this state: whether it has no Destroy Date.
fn life_of(state: State) -> Option<Feature>
    ensures { result ≡ life_of state }
{
    match state {
        State::PreActive | State::Active | State::Deactivated | State::Compromised => {
            Some(Feature::Live)
        }
        State::Destroyed | State::DestroyedCompromised => None,
    }
}
