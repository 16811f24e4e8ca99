//! New objects: what Create and Register share.

ghost use Rattle.std.specs.Prelude.{◌≡◌, Some, find, map};
ghost use Rattle.kmipa_attrs.specs.Sets.{attributes_of, name_of};
ghost use Rattle.kmipa_object.specs.Life.{dates_of};
ghost use Rattle.kmipa_store.specs.Ledger.{cards_of};
ghost use Rattle.kmipa_msgs.specs.Messages.{lent, maybe_lent, registered_of, rules_of};
ghost use Rattle.kmipa_ops.specs.After.{LeavesAfter};
ghost use Rattle.kmipa_ops.specs.Placeholders.{placeholder_of};
ghost use Rattle.kmipa_ops.specs.Whys.{whys};
ghost use Rattle.kmipa_ops.specs.Adding.{MakesOwn, with_own, adding_speaks, name_taken, newborn};

use crate::echo::is_other_number;
use crate::names::any_live_named;
use crate::placeholder::Placeholder;
use crate::why::Why;
use kmipa_attrs::{AttrSet, Name, ObjectType};
use kmipa_msgs::{Registered, Rules};
use kmipa_object::{Life, Material, Object, Rule, SecretNo};
use kmipa_store::Ledger;
use std::alloc::{AllocError, Global};

/// A new object: its identifier, its type, its attributes, and its bytes where the client brings them.
#[derive(Drop)]
pub struct Newborn<'a> {
    pub id: &'a str,
    pub kind: ObjectType,
    pub attributes: AttrSet,
    pub material: Option<&'a [u8]>,
}

/// The lowest reason against a new object of this type and these names, for which there are bytes or aren't.
pub(crate) fn why_not_added<L: Ledger>(
    ledger: &L,
    rules: &Rules,
    kind: ObjectType,
    names: &[Name],
    has_bytes: bool,
    answered: &Registered,
) -> Option<Why>
    ensures { result ≡ find
        (adding_speaks (rules_of rules.now) (cards_of (L.state ledger.now).now.objects) kind
        (map name_of names.now) has_bytes (registered_of answered.now)) whys }
{
    if ledger.find(answered.id).is_some() {
        return Some(Why::IdentifierTaken);
    }
    if is_name_taken(ledger, rules, names) {
        return Some(Why::NameTaken);
    }
    if !has_bytes {
        return Some(Why::LengthImpossible);
    }
    if is_other_number(answered.object_type, kind.number()) {
        return Some(Why::EchoDiffers);
    }
    None
}

fn is_name_taken<L: Ledger>(ledger: &L, rules: &Rules, names: &[Name]) -> bool
    ensures { result ≡ name_taken (rules_of rules.now) (cards_of (L.state ledger.now).now.objects)
        (map name_of names.now) }
{
    rules.unique_names && any_live_named(ledger, names)
}

/// Adds a new object against which nothing speaks, and the placeholder holds its identifier.
pub(crate) fn add<L: Ledger>(
    alloc: Global,
    ledger: &mut L,
    placeholder: &mut Placeholder,
    object: Newborn,
) -> Result<(), AllocError>
    ensures { LeavesAfter (L.state ledger.old)
        (with_own (L.state ledger.old).now
        (newborn (L.moment ledger.old) (lent object.entry.id) object.entry.kind
        (attributes_of object.entry.attributes)) (maybe_lent object.entry.material))
        (Some (lent object.entry.id)) result (L.state ledger.new) (placeholder_of placeholder.new) }
{
    let Newborn {
        id,
        kind,
        attributes,
        material,
    } = object;
    let own_id = String::from_str(alloc, id)?;
    let held_id = String::from_str(alloc, id)?;
    let t = ledger.moment();
    let activation = attributes.activation;
    let deactivation = attributes.deactivation;
    let secret = new_own(ledger, Rule::of(kind, &attributes), material)?;
    let object = Object {
        id: own_id,
        kind,
        given: attributes,
        life: new_life(t, activation, deactivation, secret),
    };
    match ledger.add(object) {
        Ok(_) => {
            placeholder.id = Some(held_id);
            Ok(())
        }
        Err(_) => Err(AllocError),
    }
}

/// The life of a new object of this secret, with the dates that it was given, in seconds since 1970-01-01T00:00:00Z: its Initial Date is the moment.
pub fn new_life(
    t: i64,
    activation: Option<i64>,
    deactivation: Option<i64>,
    secret: SecretNo,
) -> Life
    ensures dates { dates_of result
        ≡ record {
          initial = Some t;
          activation = activation;
          deactivation = deactivation;
          destroy = None;
          compromise =
              None;
        } }
    ensures material { result.material ≡ Material.Secret secret }
{
    Life {
        initial: Some(t),
        activation,
        deactivation,
        destroy: None,
        compromise: None,
        material: Material::Secret(secret),
    }
}

/// A new secret of the ledger, of known bytes or unknown ones that fit the rule.
pub fn new_own<L: Ledger>(
    ledger: &mut L,
    rule: Rule,
    material: Option<&[u8]>,
) -> Result<SecretNo, AllocError>
    ensures { MakesOwn (L.state ledger.old) rule (maybe_lent material.entry) result (L.state ledger.new) }
{
    let Ok(secret) = ledger.new_secret(rule) else {
        return Err(AllocError);
    };
    let Some(bytes) = material else {
        return Ok(secret);
    };
    match ledger.learn(secret, bytes) {
        Ok(()) => Ok(secret),
        Err(_) => Err(AllocError),
    }
}
