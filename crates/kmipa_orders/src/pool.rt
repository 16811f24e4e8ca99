//! The states in which objects stood at dead ends, each kept once.

ghost use Rattle.std.specs.Prelude.{◌≡◌, ◌<◌, IfOk, IfSome, length};
ghost use Rattle.kmipa_object.specs.declared.life.SecretNo.{SecretNo};
ghost use Rattle.kmipa_object.specs.declared.life.Material.TheVariants.{Secret};
ghost use Rattle.kmipa_store.specs.Ledger.{held};
ghost use Rattle.kmipa_store.specs.Choices.{IsSound};
ghost use Rattle.kmipa_orders.specs.Ends.{AreAlike, IsAlikeAt, still_shared, stills_shared};
ghost use Rattle.kmipa_orders.specs.Stills.{still, stills};

use crate::stills::{Still, copy_of, known_of, stands_at};
use kmipa_attrs::Name;
use kmipa_object::Object;
use kmipa_store::Ledger;
use std::alloc::{AllocError, Global};
use std::rc::Rc;

/// What a state costs besides its texts, its names and its bytes. They are more than it takes.
const STATE_BYTES: usize = 512;

const NAME_BYTES: usize = 64;

/// So many states of a place are compared with the object there at most, the newest first.
const MOST_COMPARED: usize = 64;

/// States of objects, by their places. An end has them from here, so that what doesn't change from one end to the next
/// is there once. A state is handed out only where it was compared with the object, or copied of it: of the objects with which a search
/// began as far as they can change, and of the others in full.
#[derive(Drop)]
pub struct Pool {
    places: Vec<Vec<Rc<Still>>>,
    /// More bytes than they take.
    pub bytes: usize,
}

impl Pool {
    /// No states.
    pub fn new(alloc: Global) -> Pool {
        Pool {
            places: Vec::new(alloc),
            bytes: 0,
        }
    }

    /// The states of all objects of a ledger, in the order of arrival, so many of which were there when the search began; or none, where they
    /// would take more bytes than these.
    pub fn share_all<L: Ledger>(
        &mut self,
        alloc: Global,
        ledger: &L,
        front: usize,
        room: usize,
    ) -> Result<Option<Vec<Rc<Still>>>, AllocError>
        requires { IsSound (L.state ledger.now).now }
        ensures { IfOk result (λ objects. IfSome objects
            (λ objects. AreAlike front (stills_shared objects.items) (stills (L.state ledger.now).now))) }
    {
        let mut objects = Vec::with_capacity(alloc, ledger.len())?;
        let mut place = 0;
        'objects: while place < ledger.len() {
            if self.bytes > room {
                return Ok(None);
            }
            let object = ledger.at(place);
            objects.push(self.share(alloc, ledger, object, place, front)?)?;
            place += 1;
        }
        Ok(Some(objects))
    }

    /// The state of the object at a place.
    fn share<L: Ledger>(
        &mut self,
        alloc: Global,
        ledger: &L,
        object: &Object,
        place: usize,
        front: usize,
    ) -> Result<Rc<Still>, AllocError>
        requires { (secret : SecretNo) → object.now.life.material ≡ Secret secret
            → secret.number < length (L.state ledger.now).now.secrets }
        ensures { IfOk result
            (λ state. IsAlikeAt front place (still_shared state)
            (still (L.state ledger.now).now.secrets (held object.now))) }
    {
        if let Some(states) = self.places.get(place) {
            if let Some(state) = state_among(ledger, object, states.as_slice(), place, front) {
                return state.clone();
            }
        }
        let state = Rc::new(alloc, copy_of(alloc, ledger, object)?)?;
        self.bytes = self.bytes.saturating_add(cost_of(ledger, object));
        self.keep(alloc, place, state.clone()?)?;
        Ok(state)
    }

    /// One state more of a place, which is at most the first that has none.
    fn keep(&mut self, alloc: Global, place: usize, state: Rc<Still>) -> Result<(), AllocError> {
        if place >= self.places.len() {
            self.places.push(Vec::new(alloc))?;
        }
        if let Some(states) = self.places.get_mut(place) {
            states.push(state)?;
        }
        Ok(())
    }
}

/// One of the newest of these states, in which the object of a ledger at a place stands.
#[inline(never)]
fn state_among<'s, L: Ledger>(
    ledger: &L,
    object: &Object,
    states: &'s [Rc<Still>],
    at: usize,
    front: usize,
) -> Option<&'s Rc<Still>>
    requires { (secret : SecretNo) → object.now.life.material ≡ Secret secret
        → secret.number < length (L.state ledger.now).now.secrets }
    ensures { IfSome result
        (λ state. IsAlikeAt front at (still_shared state.now)
        (still (L.state ledger.now).now.secrets (held object.now))) }
{
    let mut place = states.len();
    let mut compared = 0;
    'states: while place > 0 {
        if compared >= MOST_COMPARED {
            return None;
        }
        compared += 1;
        place -= 1;
        let state = &states[place];
        if stands_at(ledger, object, state, at, front) {
            return Some(state);
        }
    }
    None
}

/// More bytes than the copy of an object takes.
fn cost_of<L: Ledger>(ledger: &L, object: &Object) -> usize
    requires { (secret : SecretNo) → object.now.life.material ≡ Secret secret
        → secret.number < length (L.state ledger.now).now.secrets }
{
    let known = match known_of(ledger, object.life.material) {
        Some(bytes) => bytes.len(),
        None => 0,
    };
    STATE_BYTES
        .saturating_add(object.id.len())
        .saturating_add(known)
        .saturating_add(cost_of_names(object.given.names.as_slice()))
}

fn cost_of_names(names: &[Name]) -> usize {
    let mut bytes: usize = 0;
    'names: for name in names {
        bytes = bytes
            .saturating_add(NAME_BYTES)
            .saturating_add(name.value.len());
    }
    bytes
}
