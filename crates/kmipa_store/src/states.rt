//! States by the places of objects, and where the objects stand that are in one.

ghost use Rattle.std.specs.Prelude.{◌≡◌, ◌<◌, false, length, IfSome};
ghost use Rattle.kmipa_store.specs.Features.{is_lasting};
ghost use Rattle.kmipa_store.specs.Queries.{next_with};

use crate::fault::StoreFault;
use crate::feature::Feature;
use crate::features::Features;
use crate::objects::Objects;
use kmipa_object::State;
use std::alloc::Global;
use std::marker::Model;

/// The states of objects by their places, and lists of these by what the states are.
#[derive(Drop)]
pub struct States {
    alloc: Global,
    in_order: Vec<State>,
    features: Features,
}

impl Model for States {
    ghost use Rattle.std.specs.Prelude.{List};
    ghost use Rattle.kmipa_object.specs.declared.state.State.{State};
    ghost use Rattle.kmipa_store.specs.Features.{KnowsStates};

    ghost Value = { List State };

    ghost view = { λ s. s.in_order.items };

    ghost invariant = { λ s. KnowsStates s.features s.in_order.items };
}

impl States {
    ghost use Rattle.std.specs.Prelude.{◌-◌, [], take, Some, slice_get};
    ghost use Rattle.kmipa_object.specs.Lists.{updated};
    ghost use Rattle.kmipa_store.specs.Clock.{states_at};
    ghost use Rattle.kmipa_store.specs.Memory.{Pushes};

    /// No states.
    pub fn new(alloc: Global) -> States
        ensures { result ≡ [] }
    {
        States {
            alloc,
            in_order: Vec::new(alloc),
            features: Features::new(alloc),
        }
    }

    /// How many there are.
    pub fn len(&self) -> usize
        ensures { result ≡ length self.now }
    {
        self.in_order.len()
    }

    /// The state at a place.
    pub fn at(&self, place: usize) -> State
        requires { place < length self.now }
        ensures { slice_get self.now place ≡ Some result }
    {
        self.in_order[place]
    }

    /// The first place from this one on whose object has this feature, one that doesn't last.
    pub fn next(&self, objects: &Objects, feature: Feature, t: i64, from: usize) -> Option<usize>
        requires told { self.now ≡ states_at objects.now t }
        requires passing { is_lasting feature ≡ false }
        ensures place { result ≡ next_with feature t from objects.now }
        ensures within { IfSome result (λ place. place < length objects.now) }
    {
        self.features.next(objects, feature, t, from)
    }

    /// Makes `next` quick, where there are many states and there is memory for it.
    pub fn prepare(&mut self)
        ensures { self.new ≡ self.old }
    {
        if self.features.is_known() {
            return;
        }
        let mut features = Features::begun(self.alloc, self.in_order.len());
        for place in 0..self.in_order.len() {
            features.note_state(place, self.in_order[place]);
        }
        self.features = features;
    }

    /// A state after the others.
    pub fn push(&mut self, state: State) -> Result<(), StoreFault>
        ensures { Pushes self.old state result self.new }
    {
        let place = self.in_order.len();
        self.in_order.push(state)?;
        self.features.note_state(place, state);
        Ok(())
    }

    /// Takes the last state away, if there is one.
    pub fn pop(&mut self)
        ensures { self.new ≡ take (length self.old - 1) self.old }
    {
        let Some(last) = self.in_order.pop() else {
            return;
        };
        self.features.forget_state(self.in_order.len(), last);
    }

    /// Writes a state at a place, if one stands there.
    pub fn set(&mut self, place: usize, state: State)
        ensures { self.new ≡ updated self.old place (λ _. state) }
    {
        if place >= self.in_order.len() {
            return;
        }
        let before = self.in_order[place];
        if is_same(before, state) {
            return;
        }
        self.in_order[place] = state;
        self.features.forget_state(place, before);
        self.features.note_state(place, state);
    }
}

ghost use Rattle.std.specs.Prelude.{◌==◌};
ghost use Rattle.kmipa_object.specs.Life.{state_number};

/// Whether two states are the same.
fn is_same(one: State, other: State) -> bool
    ensures { result ≡ (state_number one == state_number other) }
{
    one.number() == other.number()
}
