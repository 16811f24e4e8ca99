//! Whose objects there are, at the start and behind each step.

ghost use Rattle.std.specs.Prelude.{◌≡◌, ◌++◌, ◌∷◌, [], IfOk, OnOk, bytes_eq, map, option_map};
ghost use Rattle.kmipa_msgs.specs.Messages.{lent, maybe_lent, payload_of};
ghost use Rattle.kmipa_record.specs.Entries.{entry_of};
ghost use Rattle.kmipa_places.specs.Places.{place_of};
ghost use Rattle.kmipa_turns.specs.Steps.{step_of, taken_of};
ghost use Rattle.kmipa_aside.specs.Ever.{id_made};
ghost use Rattle.kmipa_aside.specs.Sights.{owned_of};
ghost use Rattle.kmipa_trail.specs.Owners.{births_at, births_in, born_at, id_kept, disowned, ends_identity, identity, owned_by, owners_at_first, owners_behind, owners_declared, owners_made, owners_with};
ghost use Rattle.kmipa_trail.specs.Owning.{is_owned};

use kmipa_aside::Owned;
use kmipa_msgs::{Payload, Status, Visibility};
use kmipa_places::Place;
use kmipa_record::Entry;
use kmipa_turns::{Step, Taken};
use std::alloc::{AllocError, Global};

/// Whose the declared objects are, where that is declared; no one's, where each client sees every object.
pub fn owners_at_first<'a>(
    alloc: Global,
    visibility: Visibility,
    entries: &'a [Entry],
) -> Result<Vec<Owned<'a>>, AllocError>
    ensures { IfOk result (λ owners. map owned_of owners.items ≡ owners_at_first visibility (map entry_of entries.now)) }
{
    match visibility {
        Visibility::Everyone => Ok(Vec::new(alloc)),
        Visibility::MayHide | Visibility::MustHide => owners_declared(alloc, entries),
    }
}

fn owners_declared<'a>(alloc: Global, entries: &'a [Entry]) -> Result<Vec<Owned<'a>>, AllocError>
    ensures { IfOk result (λ owners. map owned_of owners.items ≡ owners_declared (map entry_of entries.now)) }
{
    let mut owners = Vec::new(alloc);
    for entry in entries {
        push_owner(&mut owners, entry)?;
    }
    Ok(owners)
}

/// Whose a declared object is, where that is declared.
fn push_owner<'a>(owners: &mut Vec<Owned<'a>>, entry: &'a Entry) -> Result<(), AllocError>
    ensures { OnOk result
        (map owned_of owners.new.items
        ≡ map owned_of owners.old.items ++ owned_by (entry_of entry.now).id (entry_of entry.now).owner) }
{
    let Some(owner) = &entry.owner else {
        return Ok(());
    };
    owners.push(Owned {
        id: entry.id.as_str(),
        owner: identity(owner.as_str()),
    })?;
    Ok(())
}

/// The identity of a client: its text up to the first blank or slash.
pub fn identity(client: &str) -> &[u8]
    ensures { result.now ≡ identity client.now }
{
    let bytes = client.as_bytes();
    let mut length = 0;
    'bytes: while length < bytes.len() {
        if ends_identity(bytes[length]) {
            return &bytes[..length];
        }
        length += 1;
    }
    bytes
}

fn ends_identity(byte: u8) -> bool
    ensures { result ≡ ends_identity byte }
{
    byte == b' ' || byte == b'/'
}

/// Behind a step the new objects are its client's, unless each client sees every object.
pub fn own_births<'a>(
    alloc: Global,
    visibility: Visibility,
    owners: &mut Vec<Owned<'a>>,
    step: &Step<'a>,
) -> Result<(), AllocError>
    ensures { OnOk result
        (map owned_of owners.new.items
        ≡ owners_behind visibility (map owned_of owners.old.items) (step_of step.now)) }
{
    match visibility {
        Visibility::Everyone => Ok(()),
        Visibility::MayHide | Visibility::MustHide => own_made(alloc, owners, step),
    }
}

fn own_made<'a>(
    alloc: Global,
    owners: &mut Vec<Owned<'a>>,
    step: &Step<'a>,
) -> Result<(), AllocError>
    ensures { OnOk result
        (map owned_of owners.new.items ≡ owners_made (map owned_of owners.old.items) (step_of step.now)) }
{
    let born = births_in(alloc, &step.taken)?;
    own_each(alloc, owners, identity(step.client), born.as_slice())
}

/// These identifiers are this client's.
fn own_each<'a>(
    alloc: Global,
    owners: &mut Vec<Owned<'a>>,
    me: &'a [u8],
    ids: &[&'a str],
) -> Result<(), AllocError>
    ensures { OnOk result
        (map owned_of owners.new.items ≡ owners_with me.now (map owned_of owners.old.items) (map lent ids.now)) }
{
    for id in ids {
        own(alloc, owners, me, *id)?;
    }
    Ok(())
}

/// An identifier is this client's.
fn own<'a>(
    alloc: Global,
    owners: &mut Vec<Owned<'a>>,
    me: &'a [u8],
    id: &'a str,
) -> Result<(), AllocError>
    ensures { OnOk result
        (map owned_of owners.new.items ≡ owners_with me.now (map owned_of owners.old.items) (id.now ∷ [])) }
{
    leave(alloc, owners, id)?;
    owners.push(Owned { id, owner: me })?;
    Ok(())
}

/// An identifier is no one's.
fn leave(alloc: Global, owners: &mut Vec<Owned>, id: &str) -> Result<(), AllocError>
    ensures { OnOk result (map owned_of owners.new.items ≡ disowned id.now (map owned_of owners.old.items)) }
{
    if !is_owned(owners.as_slice(), id) {
        return Ok(());
    }
    *owners = disowned(alloc, owners.as_slice(), id)?;
    Ok(())
}

/// Whether an identifier is someone's.
fn is_owned(owners: &[Owned], id: &str) -> bool
    ensures { result ≡ is_owned id.now (map owned_of owners.now) }
{
    for owned in owners {
        if is_of(owned, id) {
            return true;
        }
    }
    false
}

/// Whether it tells whose this identifier is.
fn is_of(owned: &Owned, id: &str) -> bool
    ensures { result ≡ bytes_eq id.now (owned_of owned.now).id }
{
    id == owned.id
}

/// Whose the others are.
fn disowned<'a>(alloc: Global, owners: &[Owned<'a>], id: &str) -> Result<Vec<Owned<'a>>, AllocError>
    ensures { IfOk result (λ others. map owned_of others.items ≡ disowned id.now (map owned_of owners.now)) }
{
    let mut others = Vec::with_capacity(alloc, owners.len())?;
    for owned in owners {
        push_other(&mut others, id, *owned)?;
    }
    Ok(others)
}

/// Whose an identifier is, where it isn't this one.
fn push_other<'a>(others: &mut Vec<Owned<'a>>, id: &str, owned: Owned<'a>) -> Result<(), AllocError>
    ensures { OnOk result
        (map owned_of others.new.items ≡ map owned_of others.old.items ++ disowned id.now (owned_of owned.entry ∷ [])) }
{
    if is_of(&owned, id) {
        return Ok(());
    }
    others.push(owned)?;
    Ok(())
}

/// The identifiers of the objects that a call gives birth to.
pub fn births_in<'a>(alloc: Global, taken: &Taken<'a>) -> Result<Vec<&'a str>, AllocError>
    ensures { IfOk result (λ ids. map lent ids.items ≡ births_in (taken_of taken.now)) }
{
    match taken {
        Taken::Leaves(_, _) => Ok(Vec::new(alloc)),
        Taken::Takes(call, _) => births_at(alloc, call.places.as_slice()),
    }
}

fn births_at<'a>(alloc: Global, places: &[Place<'a>]) -> Result<Vec<&'a str>, AllocError>
    ensures { IfOk result (λ ids. map lent ids.items ≡ births_at (map place_of places.now)) }
{
    let mut ids = Vec::new(alloc);
    for place in places {
        push_born(&mut ids, place)?;
    }
    Ok(ids)
}

/// The identifier of the object that a place gives birth to, if it gives birth to one.
fn push_born<'a>(ids: &mut Vec<&'a str>, place: &Place<'a>) -> Result<(), AllocError>
    ensures { OnOk result (map lent ids.new.items ≡ map lent ids.old.items ++ born_at (place_of place.now)) }
{
    let Some(id) = born_at(place) else {
        return Ok(());
    };
    ids.push(id)?;
    Ok(())
}

fn born_at<'a>(place: &Place<'a>) -> Option<&'a str>
    ensures { id_kept (maybe_lent result) ≡ born_at (place_of place.now) }
{
    match place {
        Place::Judged(_, answer) => match answer.status {
            Status::Success => id_made(&answer.payload),
            Status::Failed | Status::Undone => None,
        },
        Place::Passed(_, _) => None,
    }
}

fn id_made<'a>(payload: &Option<Payload<'a>>) -> Option<&'a str>
    ensures { maybe_lent result ≡ id_made (option_map payload_of payload.now) }
{
    match payload {
        Some(Payload::Create(created)) => Some(created.id),
        Some(Payload::Register(registered)) => Some(registered.id),
        Some(Payload::Locate(_)) | Some(Payload::Get(_)) | Some(Payload::GetAttributes(_)) => None,
        Some(Payload::Change(_)) | None => None,
    }
}
