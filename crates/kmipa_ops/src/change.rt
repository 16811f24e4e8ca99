//! Activate, Revoke and Destroy: the operations that change an object.

ghost use Rattle.std.specs.Prelude.{◌≡◌, ◌<◌, IfOk, IfSome, length, MatchResult, false, find, is_some, option_and_then, option_map, true};
ghost use Rattle.kmipa_object.specs.Inventory.{card_of};
ghost use Rattle.kmipa_object.specs.Life.{dates_of, state};
ghost use Rattle.kmipa_object.specs.Table.{allowed};
ghost use Rattle.kmipa_msgs.specs.Messages.{maybe_lent, payload_of, rules_of};
ghost use Rattle.kmipa_ops.specs.After.{Changes};
ghost use Rattle.kmipa_ops.specs.Changes.{act_of, dates_after, id_in, seen_changed};
ghost use Rattle.kmipa_ops.specs.Whys.{whys};
ghost use Rattle.kmipa_ops.specs.Changes.{changed_at, dates_left, held_left, material_after, material_left, change_speaks};
ghost use Rattle.kmipa_ops.specs.Meant.{is_not, place_meant};

use crate::echo::is_other_id;
use crate::objects::is_excluded;
use crate::why::Why;
use kmipa_msgs::{Payload, Rules};
use kmipa_object::{Act, Life, WrongState, activated, destroyed, revoked};
use kmipa_store::Ledger;
use std::alloc::AllocError;

/// An operation that changes an object.
#[derive(Clone, Copy, PartialEq, Eq)]
pub enum Change {
    Activate,
    /// With this Revocation Reason Code.
    Revoke(u32),
    Destroy,
}

/// Whether a payload is the answer of such an operation.
pub(crate) fn is_change(payload: &Payload) -> bool
    ensures { result ≡ is_some (seen_changed (payload_of payload.now)) }
{
    match payload {
        Payload::Change(_) => true,
        _ => false,
    }
}

/// The identifier that the answer of a change shows.
pub(crate) fn id_shown<'a>(payload: &'a Option<Payload<'a>>) -> Option<&'a str>
    ensures { maybe_lent result ≡ id_in (option_and_then seen_changed (option_map payload_of payload.now)) }
{
    match payload {
        Some(Payload::Change(changed)) => changed.id,
        _ => None,
    }
}

/// The lowest reason against a change that is done: of the object at this place, whose identifier is shown so if it is.
pub(crate) fn why_not_changed<L: Ledger>(
    ledger: &L,
    rules: &Rules,
    place: Option<usize>,
    about: Option<&str>,
    change: Change,
    shown: Option<&str>,
) -> Option<Why>
    requires place { place ≡ place_meant (L.state ledger.now).now.objects (maybe_lent about) }
    requires within { IfSome place (λ p. p < length (L.state ledger.now).now.objects) }
    ensures { result ≡ find
        (change_speaks (rules_of rules.now) (L.state ledger.now).now.objects (maybe_lent about.entry) (L.moment ledger.now) change
        (maybe_lent shown.entry)) whys }
{
    let Some(place) = place else {
        return Some(Why::NoSuchObject);
    };
    if is_excluded(rules, act_of(change), ledger.state(place)) {
        return Some(Why::WrongState);
    }
    if is_other_id(shown, about) {
        return Some(Why::EchoDiffers);
    }
    None
}

/// Its row in the table of states.
pub(crate) fn act_of(change: Change) -> Act
    ensures { result ≡ act_of change }
{
    match change {
        Change::Activate => Act::Activate,
        Change::Revoke(code) => Act::of_revoke(code),
        Change::Destroy => Act::Destroy,
    }
}

/// From now on the object at this place leads the life that the change leaves.
pub(crate) fn change_object<L: Ledger>(
    ledger: &mut L,
    place: Option<usize>,
    change: Change,
) -> Result<(), AllocError>
    requires { IfSome place (λ p. p < length (L.state ledger.old).now.objects) }
    ensures { Changes (L.state ledger.old)
        (record {
          objects = changed_at (L.state ledger.old).now.objects place
              (held_left change (L.moment ledger.old));
          secrets = (L.state ledger.old).now.secrets;
          aside = (L.state ledger.old).now.aside;
        }) result
        (L.state ledger.new) }
{
    let Some(place) = place else {
        return Ok(());
    };
    let life = life_left(ledger.at(place).life, change, ledger.moment());
    match ledger.replace(place, life) {
        Ok(()) => Ok(()),
        Err(_) => Err(AllocError),
    }
}

/// The life after the change, or as it is where the table excludes it.
fn life_left(life: Life, change: Change, t: i64) -> Life
    ensures dates { dates_of result ≡ dates_left change t (dates_of life) }
    ensures material { result.material ≡ material_left change t (dates_of life) life.material }
{
    match life_after(life, change, t) {
        Ok(after) => after,
        Err(_) => life,
    }
}

fn life_after(life: Life, change: Change, t: i64) -> Result<Life, WrongState>
    ensures dates { IfOk result (λ after. dates_of after ≡ dates_after change t (dates_of life)) }
    ensures material { IfOk result (λ after. after.material ≡ material_after change life.material) }
    ensures err { MatchResult result (λ _. is_not (allowed (act_of change) (state (dates_of life) t)) ≡ false)
        (λ _. is_not (allowed (act_of change) (state (dates_of life) t)) ≡ true) }
{
    match change {
        Change::Activate => activated(life, t),
        Change::Revoke(code) => revoked(life, code, t),
        Change::Destroy => destroyed(life, t),
    }
}
