//! Changes of objects, of secrets and of what is set aside, written down so that they can be taken back.

ghost use Rattle.std.specs.Prelude.{◌≡◌, ◌<◌, ◌≤◌, ◌++◌, ◌∷◌, [], true, length, slice_get, string_bytes, Some, None};
ghost use Rattle.kmipa_object.specs.Lists.{updated};
ghost use Rattle.kmipa_store.specs.AsideIds.{aside_unmade, entry_place, said};
ghost use Rattle.kmipa_store.specs.Ledger.{held, cards_of, id_at, place_of, relived, told};
ghost use Rattle.kmipa_store.specs.Calls.{is_unknown};
ghost use Rattle.kmipa_store.specs.Histories.{Logs, RolledTo, while_marked};
ghost use Rattle.kmipa_store.specs.Journal.{secret_unmade};
ghost use Rattle.kmipa_store.specs.Present.{LogsObjects, WritesDown};

use crate::aside_ids::AsideIds;
use crate::clock::Brought;
use crate::fault::StoreFault;
use crate::present::Present;
use crate::secrets::Secrets;
use kmipa_object::{Life, Object, Rule};

/// A change of the objects, and the dates that it brought.
#[derive(Drop)]
pub enum ObjectChange {
    /// An object was added.
    Added(Brought),
    /// The object at a place led this life before.
    Replaced(usize, Life, Brought),
    /// The object at a place was this one before.
    Renewed(usize, Box<Object>, Brought),
}

/// A change of the secrets.
#[derive(Clone, Copy, PartialEq, Eq)]
pub enum SecretChange {
    /// A secret was made.
    Made,
    /// The bytes of the secret of a number were learned.
    Learned(usize),
}

/// A change of the identifiers that are set aside.
#[derive(Clone, Copy, PartialEq, Eq)]
pub enum AsideChange {
    /// One was set aside that never was.
    Added,
    /// Whether the one at a place was set aside before.
    Said(usize, bool),
}

/// A mark: how many changes there were, whether the rest was set aside, and whether judging was over.
#[derive(Clone, Copy, PartialEq, Eq)]
pub struct Place {
    pub objects: usize,
    pub secrets: usize,
    pub asides: usize,
    pub rest: bool,
    pub over: bool,
}

/// What can take changes back.
pub trait Undo<C> {
    ghost unmade: { Self → C → Self };

    fn take_back(&mut self, change: C)
        ensures { self.new ≡ unmade self.old change };
}

impl Undo<SecretChange> for Secrets {
    ghost unmade = { secret_unmade };

    fn take_back(&mut self, change: SecretChange) {
        match change {
            SecretChange::Made => self.pop(),
            SecretChange::Learned(number) => self.forget(number),
        }
    }
}

impl Undo<AsideChange> for AsideIds {
    ghost unmade = { aside_unmade };

    fn take_back(&mut self, change: AsideChange) {
        match change {
            AsideChange::Added => self.pop(),
            AsideChange::Said(place, before) => self.say(place, before),
        }
    }
}

/// Takes the newest changes back, until this many are left.
pub fn roll_back<C, T: Undo<C>>(subject: &mut T, changes: &mut Vec<C>, count: usize)
    requires { count ≤ length changes.old.items }
    ensures { RolledTo T.unmade subject.old changes.old.items count subject.new changes.new.items }
{
    while changes.len() > count {
        let Some(change) = changes.pop() else {
            return;
        };
        subject.take_back(change);
    }
}

/// Where no mark stands nothing stays written down.
pub fn forget_unmarked<C: Drop>(changes: &mut Vec<C>, places: &Vec<Place>)
    ensures { changes.new.items ≡ while_marked places.now.items changes.old.items }
{
    if places.is_empty() {
        changes.clear();
    }
}

/// Adds an object, whose identifier no other has, and writes that down, or neither.
pub fn push_object(
    present: &mut Present,
    changes: &mut Vec<ObjectChange>,
    places: &Vec<Place>,
    object: Object,
) -> Result<(), StoreFault>
    requires { place_of (string_bytes object.id) (cards_of present.old.dated.objects) ≡ None }
    ensures { LogsObjects places.now.items present.old changes.old.items
        (present.old.dated.objects ++ held object ∷ []) result present.new changes.new.items }
{
    let change = present.push(object)?;
    write_down(present, changes, places, change)
}

/// Gives an object another life, and writes that down, or neither.
pub fn set_life(
    present: &mut Present,
    changes: &mut Vec<ObjectChange>,
    places: &Vec<Place>,
    place: usize,
    life: Life,
) -> Result<(), StoreFault>
    requires { place < length present.old.dated.objects }
    ensures { LogsObjects places.now.items present.old changes.old.items
        (relived present.old.dated.objects place life) result present.new changes.new.items }
{
    let change = present.set_life(place, life)?;
    write_down(present, changes, places, change)
}

/// Puts another object of the same identifier at a place, and writes that down, or neither.
pub fn renew_object(
    present: &mut Present,
    changes: &mut Vec<ObjectChange>,
    places: &Vec<Place>,
    place: usize,
    object: Object,
) -> Result<(), StoreFault>
    requires there { place < length present.old.dated.objects }
    requires same { id_at present.old.dated.objects place ≡ Some (string_bytes object.id) }
    ensures { LogsObjects places.now.items present.old changes.old.items
        (updated present.old.dated.objects place (λ _. held object)) result present.new changes.new.items }
{
    let change = present.renew(place, object)?;
    write_down(present, changes, places, change)
}

/// Writes down a change that was just made, or takes it back.
fn write_down(
    present: &mut Present,
    changes: &mut Vec<ObjectChange>,
    places: &Vec<Place>,
    change: ObjectChange,
) -> Result<(), StoreFault>
    ensures { WritesDown places.now.items present.old changes.old.items change result present.new changes.new.items }
{
    match changes.push(change) {
        Ok(()) => {
            forget_unmarked(changes, places);
            Ok(())
        }
        Err(unwritten) => {
            present.take_back(unwritten.value);
            Err(StoreFault::Memory)
        }
    }
}

/// Adds a secret of unknown bytes, and writes that down, or neither.
pub fn push_secret(
    secrets: &mut Secrets,
    changes: &mut Vec<SecretChange>,
    places: &Vec<Place>,
    rule: Rule,
) -> Result<(), StoreFault>
    ensures { Logs secret_unmade places.now.items secrets.old changes.old.items
        (secrets.old ++ record { rule = rule; bytes = None } ∷ []) result secrets.new changes.new.items }
{
    changes.push(SecretChange::Made)?;
    match secrets.push(rule) {
        Ok(()) => {
            forget_unmarked(changes, places);
            Ok(())
        }
        Err(fault) => {
            let _ = changes.pop();
            Err(fault)
        }
    }
}

/// Gives an unknown secret its bytes, and writes that down, or neither.
pub fn tell_secret(
    secrets: &mut Secrets,
    changes: &mut Vec<SecretChange>,
    places: &Vec<Place>,
    number: usize,
    bytes: Vec<u8>,
) -> Result<(), StoreFault>
    requires there { number < length secrets.old }
    requires unknown { is_unknown (slice_get secrets.old number) ≡ true }
    ensures { Logs secret_unmade places.now.items secrets.old changes.old.items
        (told secrets.old number bytes.items) result secrets.new changes.new.items }
{
    changes.push(SecretChange::Learned(number))?;
    secrets.tell(number, bytes);
    forget_unmarked(changes, places);
    Ok(())
}

/// Sets an identifier aside that never was, and writes that down, or neither.
pub fn push_aside(
    asides: &mut AsideIds,
    changes: &mut Vec<AsideChange>,
    places: &Vec<Place>,
    id: &str,
) -> Result<(), StoreFault>
    requires { entry_place id.now asides.old ≡ None }
    ensures { Logs aside_unmade places.now.items asides.old changes.old.items
        (asides.old ++ (id.now, true) ∷ []) result asides.new changes.new.items }
{
    changes.push(AsideChange::Added)?;
    match asides.push(id) {
        Ok(()) => {
            forget_unmarked(changes, places);
            Ok(())
        }
        Err(fault) => {
            let _ = changes.pop();
            Err(fault)
        }
    }
}

/// Sets the identifier at a place aside or takes it in, and writes that down, or neither.
pub fn say_aside(
    asides: &mut AsideIds,
    changes: &mut Vec<AsideChange>,
    places: &Vec<Place>,
    place: usize,
    aside: bool,
) -> Result<(), StoreFault>
    requires { place < length asides.old }
    ensures { Logs aside_unmade places.now.items asides.old changes.old.items
        (said asides.old place aside) result asides.new changes.new.items }
{
    let before = asides.is_at(place);
    changes.push(AsideChange::Said(place, before))?;
    asides.say(place, aside);
    forget_unmarked(changes, places);
    Ok(())
}
