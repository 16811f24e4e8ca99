//! Whose the objects of a declaration are.

ghost use Rattle.std.specs.Prelude.{◌≡◌, ◌<◌, ◌++◌, IfOk, OnOk, length, map, option_map, slice_get};
ghost use Rattle.std.specs.String.{string_bytes};
ghost use Rattle.kmipa_store.specs.Ledger.{cards_of};
ghost use Rattle.kmipa_aside.specs.Sights.{owned_of};
ghost use Rattle.kmipa_beside.specs.Owners.{named_at, named_from, named_of, owned_as, owners_by};

use crate::named::Named;
use kmipa_aside::Owned;
use kmipa_msgs::Visibility;
use kmipa_store::Ledger;
use kmipa_trail::identity;
use std::alloc::{AllocError, Global};

/// The objects of a ledger that are someone's, where these are their owners.
pub(crate) fn owners_named<L: Ledger>(
    alloc: Global,
    ledger: &L,
    owners: &[Option<String>],
) -> Result<Vec<Named>, AllocError>
    requires { length owners.now ≡ length (L.state ledger.now).now.objects }
    ensures { IfOk result (λ named. map named_of named.items
        ≡ named_from (cards_of (L.state ledger.now).now.objects) (map (option_map string_bytes) owners.now)) }
{
    let mut named = Vec::new(alloc);
    for place in 0..owners.len() {
        push_named(alloc, ledger, owners, place, &mut named)?;
    }
    Ok(named)
}

/// The object at a place, where it is someone's.
fn push_named<L: Ledger>(
    alloc: Global,
    ledger: &L,
    owners: &[Option<String>],
    place: usize,
    named: &mut Vec<Named>,
) -> Result<(), AllocError>
    requires owner { place < length owners.now }
    requires object { place < length (L.state ledger.now).now.objects }
    ensures { OnOk result (map named_of named.new.items ≡ map named_of named.old.items
        ++ named_at (slice_get (cards_of (L.state ledger.now).now.objects) place)
        (slice_get (map (option_map string_bytes) owners.now) place)) }
{
    let Some(client) = &owners[place] else {
        return Ok(());
    };
    let object = ledger.at(place);
    named.push(Named {
        id: String::from_str(alloc, object.id.as_str())?,
        client: String::from_str(alloc, client.as_str())?,
    })?;
    Ok(())
}

/// Their owners; none, where each client sees every object.
pub(crate) fn owners_at_first<'a>(
    alloc: Global,
    visibility: Visibility,
    named: &'a [Named],
) -> Result<Vec<Owned<'a>>, AllocError>
    ensures { IfOk result
        (λ owners. map owned_of owners.items ≡ owners_by visibility (map owned_as (map named_of named.now))) }
{
    match visibility {
        Visibility::Everyone => Ok(Vec::new(alloc)),
        Visibility::MayHide | Visibility::MustHide => owners_of(alloc, named),
    }
}

fn owners_of<'a>(alloc: Global, named: &'a [Named]) -> Result<Vec<Owned<'a>>, AllocError>
    ensures { IfOk result (λ owners. map owned_of owners.items ≡ map owned_as (map named_of named.now)) }
{
    let mut owners = Vec::with_capacity(alloc, named.len())?;
    for one in named {
        owners.push(owner_of(one))?;
    }
    Ok(owners)
}

fn owner_of(named: &Named) -> Owned<'_>
    ensures { owned_of result ≡ owned_as (named_of named.now) }
{
    Owned {
        id: named.id.as_str(),
        owner: identity(named.client.as_str()),
    }
}
