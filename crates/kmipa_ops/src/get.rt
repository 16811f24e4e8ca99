//! Get.

ghost use Rattle.std.specs.Prelude.{◌≡◌, ◌<◌, IfSome, false, length, bytes_eq, cond, find, option_and_then, option_map, slice_get};
ghost use Rattle.kmipa_object.specs.Inventory.{admits};
ghost use Rattle.kmipa_store.specs.Choices.{IsSound};
ghost use Rattle.kmipa_store.specs.Ledger.{held};
ghost use Rattle.kmipa_msgs.specs.Messages.{got_of, gets, id_of, maybe_lent, payload_of, rules_of};
ghost use Rattle.kmipa_ops.specs.After.{Changes};
ghost use Rattle.kmipa_ops.specs.Shown.{HasRule, IsSecretOf, bytes_speak, live_speak, shown_speak};
ghost use Rattle.kmipa_ops.specs.Whys.{whys};
ghost use Rattle.kmipa_ops.specs.Get.{differs_at, get_speaks, seen_got, shows_other, taught};
ghost use Rattle.kmipa_ops.specs.Meant.{place_meant};

use crate::deed::{Before, Deed};
use crate::echo::{clash_lengths, clash_numbers, is_other_id, is_other_type};
use crate::objects::is_excluded;
use crate::operation_row::{Effect, OperationRow, Subject};
use crate::placeholder::Placeholder;
use crate::why::Why;
use kmipa_msgs::{Get, Got, Payload, Rules};
use kmipa_object::{Act, Material, Object, Rule, SecretNo};
use kmipa_store::Ledger;
use std::alloc::{AllocError, Global};

impl<'a> Deed for Get<'a> {
    ghost asked = { λ get. gets (id_of get) };

    fn is_of(&self, payload: &Payload) -> bool {
        match payload {
            Payload::Get(_) => true,
            _ => false,
        }
    }

    fn may_lack(&self) -> bool {
        true
    }

    fn is_idle(&self) -> bool {
        false
    }

    fn row(&self) -> OperationRow<'_> {
        OperationRow {
            subject: Subject::Object(self.id, Act::Get, false),
            effect: Effect::ShowsBytes,
        }
    }

    fn holds<'p>(&self, held: Option<&'p str>, _payload: &Option<Payload<'p>>) -> Option<&'p str> {
        held
    }

    fn why_not_done<L: Ledger>(
        &self,
        _alloc: Global,
        ledger: &L,
        before: Before<'_>,
        payload: &Option<Payload>,
    ) -> Result<Option<Why>, AllocError> {
        let about = before.placeholder.meant(self.id);
        Ok(why_not_got(ledger, before.rules, before.place, about, shown(payload)))
    }

    fn leave<L: Ledger>(
        &self,
        _alloc: Global,
        ledger: &mut L,
        _placeholder: &mut Placeholder,
        place: Option<usize>,
        payload: &Option<Payload>,
    ) -> Result<(), AllocError> {
        match shown(payload) {
            Some(got) => teach(ledger, place, got.block.material),
            None => Ok(()),
        }
    }
}

/// What a payload shows, if it is one of a Get.
fn shown<'a>(payload: &'a Option<Payload<'a>>) -> Option<&'a Got<'a>>
    ensures { option_map (λ got. got_of got.now) result ≡ option_and_then seen_got (option_map payload_of payload.now) }
{
    match payload {
        Some(Payload::Get(got)) => Some(got),
        _ => None,
    }
}

/// The lowest reason against a Get that is done: of the object at this place, which is shown so if the payload is there.
pub(crate) fn why_not_got<L: Ledger>(
    ledger: &L,
    rules: &Rules,
    place: Option<usize>,
    about: Option<&str>,
    shown: Option<&Got>,
) -> Option<Why>
    requires sound { IsSound (L.state ledger.now).now }
    requires place { place ≡ place_meant (L.state ledger.now).now.objects (maybe_lent about) }
    requires within { IfSome place (λ p. p < length (L.state ledger.now).now.objects) }
    ensures { result ≡ find
        (get_speaks (rules_of rules.now) (L.state ledger.now).now (maybe_lent about.entry) (L.moment ledger.now)
        (option_map (λ got. got_of got.now) shown.entry)) whys }
{
    let Some(place) = place else {
        return Some(Why::NoSuchObject);
    };
    if is_excluded(rules, Act::Get, ledger.state(place)) {
        return Some(Why::WrongState);
    }
    let object = ledger.at(place);
    match object.life.material {
        Material::Gone => None,
        Material::Secret(secret) => why_not_live(ledger, about, object, secret, shown),
    }
}

/// The lowest reason against a Get of a live object.
fn why_not_live<L: Ledger>(
    ledger: &L,
    about: Option<&str>,
    object: &Object,
    secret: SecretNo,
    shown: Option<&Got>,
) -> Option<Why>
    requires { IsSecretOf (L.state ledger.now).now (held object.now) secret }
    ensures { result ≡ live_speak (L.state ledger.now).now (maybe_lent about.entry) (held object.now) secret
        (option_map (λ got. got_of got.now) shown.entry) }
{
    match shown {
        Some(got) => why_not_shown(ledger, about, object, secret, got),
        None => None,
    }
}

/// The lowest reason against what a Get shows of a live object.
fn why_not_shown<L: Ledger>(
    ledger: &L,
    about: Option<&str>,
    object: &Object,
    secret: SecretNo,
    got: &Got,
) -> Option<Why>
    requires { IsSecretOf (L.state ledger.now).now (held object.now) secret }
    ensures { result ≡ shown_speak (L.state ledger.now).now (maybe_lent about.entry) (held object.now) secret
        (got_of got.now) }
{
    if let Some(why) = why_not_bytes(ledger, secret, object.rule(), got.block.material) {
        return Some(why);
    }
    if shows_other(object, got) {
        return Some(Why::AttributeDiffers);
    }
    if is_other_id(got.id, about) {
        return Some(Why::EchoDiffers);
    }
    None
}

/// The bytes that are known, or the rule where none are.
fn why_not_bytes<L: Ledger>(ledger: &L, secret: SecretNo, rule: Rule, bytes: &[u8]) -> Option<Why>
    requires { HasRule (L.state ledger.now).now secret rule }
    ensures { result ≡ bytes_speak (slice_get (L.state ledger.now).now.secrets secret.number) bytes.now }
{
    match ledger.secret(secret) {
        Some(known) => differing(known, bytes),
        None => breaking(rule, bytes),
    }
}

fn differing(known: &[u8], bytes: &[u8]) -> Option<Why>
    ensures { result ≡ cond (bytes_eq known.now bytes.now) None (Some Why.BytesDiffer) }
{
    if known == bytes {
        None
    } else {
        Some(Why::BytesDiffer)
    }
}

fn breaking(rule: Rule, bytes: &[u8]) -> Option<Why>
    ensures { result ≡ cond (admits rule bytes.now) None (Some Why.LengthImpossible) }
{
    if rule.admits(bytes) {
        None
    } else {
        Some(Why::LengthImpossible)
    }
}

fn shows_other(object: &Object, got: &Got) -> bool
    ensures { result ≡ shows_other (got_of got.now) (Some (held object.now)) }
{
    is_other_type(got.object_type, object.kind)
        || is_other_type(Some(got.shape), object.kind)
        || clash_numbers(got.block.algorithm, object.given.algorithm)
        || clash_lengths(got.block.length, object.given.length)
}

/// From now on the object at this place has the bytes that were shown, of which none known differ: known ones are not looked at again.
pub(crate) fn teach<L: Ledger>(
    ledger: &mut L,
    place: Option<usize>,
    bytes: &[u8],
) -> Result<(), AllocError>
    requires sound { IsSound (L.state ledger.old).now }
    requires within { IfSome place (λ p. p < length (L.state ledger.old).now.objects) }
    requires same { differs_at (L.state ledger.old).now
        (option_and_then (slice_get (L.state ledger.old).now.objects) place) bytes.now ≡ false }
    ensures { Changes (L.state ledger.old)
        (taught (L.state ledger.old).now
        (option_and_then (slice_get (L.state ledger.old).now.objects) place) bytes.now) result (L.state ledger.new) }
{
    let Some(place) = place else {
        return Ok(());
    };
    let Material::Secret(secret) = ledger.at(place).life.material else {
        return Ok(());
    };
    if let Some(_known) = ledger.secret(secret) {
        return Ok(());
    }
    match ledger.learn(secret, bytes) {
        Ok(()) => Ok(()),
        Err(_) => Err(AllocError),
    }
}
