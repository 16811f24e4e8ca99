//! What is set aside, in a ledger.

ghost use Rattle.std.specs.Prelude.{◌≡◌, ◌<◌, IfSome, length, map};
ghost use Rattle.kmipa_msgs.specs.Messages.{lent};
ghost use Rattle.kmipa_object.specs.Life.{dates_of};
ghost use Rattle.kmipa_passed.specs.Leaving.{aside_of};
ghost use Rattle.kmipa_aside.specs.Becoming.{Turns, bodied};
ghost use Rattle.kmipa_aside.specs.Worlds.{set_all_aside, set_aside, set_each_aside, set_stranger_aside, set_strangers_aside, with_left};

use crate::standing::is_judged;
use kmipa_object::{Life, Material};
use kmipa_passed::SetAside;
use kmipa_store::Ledger;
use std::alloc::{AllocError, Global};

/// Sets aside what an item leaves so that isn't judged.
pub(crate) fn set_left<L: Ledger>(
    alloc: Global,
    ledger: &mut L,
    t: i64,
    left: &SetAside,
) -> Result<(), AllocError>
    ensures { Turns (with_left t (aside_of left.now)) (L.state ledger.old) result (L.state ledger.new) }
{
    match left {
        SetAside::These(ids) => set_each(ledger, t, ids),
        SetAside::Strangers(ids) => set_strangers(ledger, t, ids),
        SetAside::All => set_all(alloc, ledger, t),
        SetAside::Over => {
            ledger.end_judging();
            Ok(())
        }
    }
}

/// Sets each of these aside.
fn set_each<L: Ledger>(ledger: &mut L, t: i64, ids: &[&str]) -> Result<(), AllocError>
    ensures { Turns (set_each_aside t (map lent ids.now)) (L.state ledger.old) result (L.state ledger.new) }
{
    for id in ids {
        set_aside(ledger, t, id)?;
    }
    Ok(())
}

/// Sets those of these aside that no judged object has.
fn set_strangers<L: Ledger>(ledger: &mut L, t: i64, ids: &[&str]) -> Result<(), AllocError>
    ensures { Turns (set_strangers_aside t (map lent ids.now)) (L.state ledger.old) result (L.state ledger.new) }
{
    for id in ids {
        set_stranger(ledger, t, id)?;
    }
    Ok(())
}

/// Sets an identifier aside, unless a judged object has it.
fn set_stranger<L: Ledger>(ledger: &mut L, t: i64, id: &str) -> Result<(), AllocError>
    ensures { Turns (set_stranger_aside t id.now) (L.state ledger.old) result (L.state ledger.new) }
{
    if is_judged(ledger, id) {
        return Ok(());
    }
    set_aside(ledger, t, id)
}

/// Sets everything aside: each object, and whatever else there may be.
pub(crate) fn set_all<L: Ledger>(alloc: Global, ledger: &mut L, t: i64) -> Result<(), AllocError>
    ensures { Turns (set_all_aside t) (L.state ledger.old) result (L.state ledger.new) }
{
    for place in 0..ledger.len() {
        let id = String::from_str(alloc, ledger.at(place).id.as_str())?;
        set_aside(ledger, t, id.as_str())?;
    }
    ledger.set_rest_aside();
    Ok(())
}

/// Sets an identifier aside, with the object that has it.
fn set_aside<L: Ledger>(ledger: &mut L, t: i64, id: &str) -> Result<(), AllocError>
    ensures { Turns (set_aside t id.now) (L.state ledger.old) result (L.state ledger.new) }
{
    let place = ledger.find(id);
    leave_body(ledger, t, place)?;
    match ledger.set_aside(id) {
        Ok(()) => Ok(()),
        Err(_) => Err(AllocError),
    }
}

/// The object at this place, if there is one, is a body from now on.
fn leave_body<L: Ledger>(ledger: &mut L, t: i64, place: Option<usize>) -> Result<(), AllocError>
    requires { IfSome place (λ p. p < length (L.state ledger.old).now.objects) }
    ensures { Turns (bodied t place) (L.state ledger.old) result (L.state ledger.new) }
{
    let Some(place) = place else {
        return Ok(());
    };
    let life = life_of_body(ledger.at(place).life, t);
    match ledger.replace(place, life) {
        Ok(()) => Ok(()),
        Err(_) => Err(AllocError),
    }
}

/// The life of a body that led this one: it is destroyed, and its bytes are gone.
fn life_of_body(life: Life, t: i64) -> Life
    ensures dates { dates_of result ≡ record (dates_of life) { destroy = Some t } }
    ensures material { result.material ≡ Material.Gone }
{
    Life {
        destroy: Some(t),
        material: Material::Gone,
        ..life
    }
}
