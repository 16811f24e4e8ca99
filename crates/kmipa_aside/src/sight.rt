//! By what a call is judged, and which objects are hidden from its client.

ghost use Rattle.std.specs.Prelude.{◌≡◌, ◌++◌, ◌∷◌, [], IfOk, OnOk, map};
ghost use Rattle.kmipa_msgs.specs.Messages.{lent};
ghost use Rattle.kmipa_ops.specs.Locate.{is_listed};
ghost use Rattle.kmipa_aside.specs.Missed.{is_any};
ghost use Rattle.kmipa_aside.specs.Sights.{hidden_from, is_of, owned_of, sight_of};

use crate::owned::Owned;
use kmipa_msgs::Rules;
use std::alloc::{AllocError, Global};

/// The rules, the identity of the client of a call, and whose the objects are, each once: those of others are hidden from it. Where each client sees every
/// object, none is anyone's.
#[derive(Clone, Copy)]
pub struct Sight<'r, 'p> {
    pub rules: &'r Rules,
    pub me: &'p [u8],
    pub owners: &'p [Owned<'p>],
}

/// Whether some object is hidden.
pub(crate) fn hides_some(sight: Sight) -> bool
    ensures { result ≡ is_any (sight_of sight.entry).hidden }
{
    for owned in sight.owners {
        if !is_of(sight.me, owned) {
            return true;
        }
    }
    false
}

/// Whether this object is hidden.
pub(crate) fn is_hidden_id(sight: Sight, id: &str) -> bool
    ensures { result ≡ is_listed (sight_of sight.entry).hidden id.now }
{
    for owned in sight.owners {
        if hides(sight.me, owned, id) {
            return true;
        }
    }
    false
}

/// Whether an object of this identifier is another's.
fn hides(me: &[u8], owned: &Owned, id: &str) -> bool
    ensures { result ≡ is_listed (hidden_from me.now (owned_of owned.now ∷ [])) id.now }
{
    if is_of(me, owned) {
        return false;
    }
    owned.id == id
}

/// Whether an object is this client's.
fn is_of(me: &[u8], owned: &Owned) -> bool
    ensures { result ≡ is_of me.now (owned_of owned.now) }
{
    me == owned.owner
}

/// The identifiers of all that are hidden.
pub(crate) fn hidden_ids<'p>(
    alloc: Global,
    sight: Sight<'_, 'p>,
) -> Result<Vec<&'p str>, AllocError>
    ensures { IfOk result (λ ids. map lent ids.items ≡ (sight_of sight.entry).hidden) }
{
    let mut ids = Vec::new(alloc);
    for owned in sight.owners {
        push_hidden(&mut ids, sight.me, *owned)?;
    }
    Ok(ids)
}

/// The identifier of an object more, where it is another's.
fn push_hidden<'p>(ids: &mut Vec<&'p str>, me: &[u8], owned: Owned<'p>) -> Result<(), AllocError>
    ensures { OnOk result
        (map lent ids.new.items ≡ map lent ids.old.items ++ hidden_from me.now (owned_of owned.entry ∷ [])) }
{
    if is_of(me, &owned) {
        return Ok(());
    }
    ids.push(owned.id)?;
    Ok(())
}
