//! The objects of a ledger as they stand.

ghost use Rattle.std.specs.Prelude.{◌≡◌, ◌<◌, true, IfOk, length, map, option_map};
ghost use Rattle.kmipa_attrs.specs.Sets.{attributes_of, name_of};
ghost use Rattle.kmipa_object.specs.Inventory.{card_of, given_of};
ghost use Rattle.kmipa_object.specs.Life.{dates_of};
ghost use Rattle.kmipa_object.specs.declared.life.SecretNo.{SecretNo};
ghost use Rattle.kmipa_object.specs.declared.life.Material.TheVariants.{Secret};
ghost use Rattle.kmipa_store.specs.Ledger.{held};
ghost use Rattle.kmipa_store.specs.Choices.{IsSound};
ghost use Rattle.kmipa_record.specs.Entries.{items_of};
ghost use Rattle.kmipa_check.specs.Left.{bytes_left};
ghost use Rattle.kmipa_orders.specs.Ends.{IsAlikeAt, StandAmong, StandsAmong, still_of, stills_shared};
ghost use Rattle.kmipa_orders.specs.Stills.{still, stills};

use kmipa_attrs::{AttrSet, Name};
use kmipa_object::{Life, Material, Object};
use kmipa_store::Ledger;
use std::alloc::{AllocError, Global};
use std::rc::Rc;

/// An object as it stands: a copy of it, and of its bytes where they are known.
#[derive(Drop)]
pub struct Still {
    pub object: Object,
    pub bytes: Option<Vec<u8>>,
}

/// A copy of an object, as it stands.
pub fn copy_of<L: Ledger>(alloc: Global, ledger: &L, object: &Object) -> Result<Still, AllocError>
    requires { (secret : SecretNo) → object.now.life.material ≡ Secret secret
        → secret.number < length (L.state ledger.now).now.secrets }
    ensures { IfOk result (λ s. still_of s ≡ still (L.state ledger.now).now.secrets (held object.now)) }
{
    Ok(Still {
        object: object.copy(alloc)?,
        bytes: copy_known(alloc, ledger, object.life.material)?,
    })
}

fn copy_known<L: Ledger>(
    alloc: Global,
    ledger: &L,
    material: Material,
) -> Result<Option<Vec<u8>>, AllocError>
    requires { (secret : SecretNo) → material ≡ Secret secret
        → secret.number < length (L.state ledger.now).now.secrets }
    ensures { IfOk result (λ bytes. option_map items_of bytes ≡ bytes_left (L.state ledger.now).now.secrets material) }
{
    match known_of(ledger, material) {
        Some(bytes) => Ok(Some(Vec::from_slice(alloc, bytes)?)),
        None => Ok(None),
    }
}

/// The bytes of this material, where they are known.
pub fn known_of<L: Ledger>(ledger: &L, material: Material) -> Option<&[u8]>
    requires { (secret : SecretNo) → material ≡ Secret secret
        → secret.number < length (L.state ledger.now).now.secrets }
    ensures { option_map (λ bytes. bytes.now) result ≡ bytes_left (L.state ledger.now).now.secrets material }
{
    match material {
        Material::Gone => None,
        Material::Secret(secret) => ledger.secret(secret),
    }
}

/// Whether the objects of a ledger stand as these do. Of the first so many, with which a search begins, only what can change is looked at;
/// the others may have arrived in another order.
#[inline(never)]
pub fn stand_so<L: Ledger>(ledger: &L, objects: &[Rc<Still>], front: usize) -> bool
    requires { IsSound (L.state ledger.now).now }
    ensures { result ≡ true → StandAmong front (stills_shared objects.now) (stills (L.state ledger.now).now) }
{
    if objects.len() != ledger.len() {
        return false;
    }
    let mut place = objects.len();
    'objects: while place > 0 {
        place -= 1;
        if !stands_among(ledger, &objects[place], place, front) {
            return false;
        }
    }
    true
}

/// Whether an object stands among those of a ledger: one of the first so many at its own place, and any other wherever it arrived.
#[inline(always)]
fn stands_among<L: Ledger>(ledger: &L, kept: &Still, place: usize, front: usize) -> bool
    requires sound { IsSound (L.state ledger.now).now }
    requires within { place < length (L.state ledger.now).now.objects }
    ensures { result ≡ true
        → StandsAmong front place (still_of kept.now) (stills (L.state ledger.now).now) }
{
    let object = ledger.at(place);
    if stands_at(ledger, object, kept, place, front) {
        return true;
    }
    if place < front {
        return false;
    }
    let Some(other) = ledger.find(kept.object.id.as_str()) else {
        return false;
    };
    let object = ledger.at(other);
    stands_at(ledger, object, kept, place, front)
}

/// Whether the object at a place stands as this one does; of the first so many places as far as it can change.
#[inline(always)]
pub fn stands_at<L: Ledger>(
    ledger: &L,
    object: &Object,
    kept: &Still,
    place: usize,
    front: usize,
) -> bool
    requires { (secret : SecretNo) → object.now.life.material ≡ Secret secret
        → secret.number < length (L.state ledger.now).now.secrets }
    ensures { result ≡ true
        → IsAlikeAt front place (still_of kept.now) (still (L.state ledger.now).now.secrets (held object.now)) }
{
    if place >= front {
        return stands_so(ledger, object, kept);
    }
    if !has_same_dates(&kept.object.life, &object.life) {
        return false;
    }
    let known = known_of(ledger, object.life.material);
    are_known(&kept.bytes, known)
}

/// Whether an object of a ledger stands as this one does.
#[inline(always)]
fn stands_so<L: Ledger>(ledger: &L, object: &Object, kept: &Still) -> bool
    requires { (secret : SecretNo) → object.now.life.material ≡ Secret secret
        → secret.number < length (L.state ledger.now).now.secrets }
    ensures { result ≡ true → still_of kept.now ≡ still (L.state ledger.now).now.secrets (held object.now) }
{
    if !is_equal(&kept.object, object) {
        return false;
    }
    are_known(&kept.bytes, known_of(ledger, object.life.material))
}

/// Whether known bytes are the same, or unknown both times.
#[inline(always)]
fn are_known(kept: &Option<Vec<u8>>, known: Option<&[u8]>) -> bool
    ensures { result ≡ true → option_map items_of kept.now ≡ option_map (λ bytes. bytes.now) known.entry }
{
    match kept {
        Some(kept) => match known {
            Some(known) => kept.as_slice() == known,
            None => false,
        },
        None => match known {
            Some(_) => false,
            None => true,
        },
    }
}

/// Whether two objects are equal, but for the numbers of their secrets.
#[inline(always)]
fn is_equal(one: &Object, other: &Object) -> bool
    ensures { result ≡ true → card_of one.now ≡ card_of other.now }
{
    if !has_same_dates(&one.life, &other.life) {
        return false;
    }
    if one.kind != other.kind {
        return false;
    }
    if one.id.as_str() != other.id.as_str() {
        return false;
    }
    gives_same(&one.given, &other.given)
}

/// Whether two lives have the same dates.
#[inline(always)]
fn has_same_dates(one: &Life, other: &Life) -> bool
    ensures { result ≡ true → dates_of one.now ≡ dates_of other.now }
{
    if one.initial != other.initial {
        return false;
    }
    if one.activation != other.activation {
        return false;
    }
    if one.deactivation != other.deactivation {
        return false;
    }
    if one.destroy != other.destroy {
        return false;
    }
    one.compromise == other.compromise
}

/// Whether names, algorithm, length and mask are the same.
#[inline(always)]
fn gives_same(one: &AttrSet, other: &AttrSet) -> bool
    ensures { result ≡ true → given_of (attributes_of one.now) ≡ given_of (attributes_of other.now) }
{
    if one.algorithm != other.algorithm {
        return false;
    }
    if one.length != other.length {
        return false;
    }
    if one.mask != other.mask {
        return false;
    }
    are_same_names(one.names.as_slice(), other.names.as_slice())
}

/// Whether names are the same, in the same order.
#[inline(always)]
fn are_same_names(names: &[Name], others: &[Name]) -> bool
    ensures { result ≡ true → map name_of names.now ≡ map name_of others.now }
{
    if names.len() != others.len() {
        return false;
    }
    let mut place = names.len();
    'names: while place > 0 {
        place -= 1;
        if !is_same_name(&names[place], &others[place]) {
            return false;
        }
    }
    true
}

#[inline(always)]
fn is_same_name(name: &Name, other: &Name) -> bool
    ensures { result ≡ true → name_of name.now ≡ name_of other.now }
{
    if name.kind != other.kind {
        return false;
    }
    name.value.as_str() == other.value.as_str()
}
