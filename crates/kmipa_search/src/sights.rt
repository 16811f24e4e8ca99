//! What an item of an open call shows, where it has to have succeeded.

ghost use Rattle.std.specs.Prelude.{◌≡◌, ◌<◌, IfSome, length};
ghost use Rattle.kmipa_object.specs.declared.life.Material.TheVariants.{Secret};
ghost use Rattle.kmipa_object.specs.declared.life.SecretNo.{SecretNo};
ghost use Rattle.kmipa_store.specs.Choices.{IsSound};

use kmipa_attrs::{AttrSet, Filter, ObjectType};
use kmipa_msgs::{Answer, Ask, Payload};
use kmipa_object::{Object, State};
use kmipa_ops::{Effect, Fit, Placeholder, matches, row_of};
use kmipa_orders::known_of;
use kmipa_record::{Call, Declaration};
use kmipa_store::Ledger;
use std::alloc::{AllocError, Global};

/// What an item shows.
#[derive(Drop)]
pub(crate) enum Sight {
    Nothing,
    /// The bytes of an object of this type.
    Bytes(ObjectType, Vec<u8>),
    Attributes(AttrSet),
    /// The identifiers of objects.
    Listed(Vec<String>),
}

/// Where bytes of objects stand that some message shows.
#[derive(Clone, Copy)]
pub(crate) struct Sources<'b, 'a> {
    pub calls: &'b [Call<'a>],
    pub declaration: &'b Declaration,
}

/// What an item shows over a ledger; nothing where its object isn't there.
pub(crate) fn sight_of<L: Ledger>(
    alloc: Global,
    ledger: &L,
    sources: Sources<'_, '_>,
    placeholder: &Placeholder,
    ask: &Ask,
) -> Result<Sight, AllocError>
    requires { IsSound (L.state ledger.now).now }
{
    let row = row_of(&ask.asked);
    if let Effect::Lists(filter) = row.effect {
        return Ok(Sight::Listed(listed(alloc, ledger, filter)?));
    }
    let Some(place) = place_of(ledger, placeholder, row.subject.id()) else {
        return Ok(Sight::Nothing);
    };
    let object = ledger.at(place);
    match row.effect {
        Effect::ShowsBytes => {
            let bytes = bytes_of(alloc, ledger, sources, object)?;
            Ok(Sight::Bytes(object.kind, bytes))
        }
        Effect::ShowsAttributes(_) => Ok(Sight::Attributes(attributes_of(
            alloc,
            object,
            ledger.state(place),
        )?)),
        _ => Ok(Sight::Nothing),
    }
}

fn place_of<L: Ledger>(ledger: &L, placeholder: &Placeholder, asked: Option<&str>) -> Option<usize>
    ensures { IfSome result (λ place. place < length (L.state ledger.now).now.objects) }
{
    match (asked, &placeholder.id) {
        (Some(id), _) => ledger.find(id),
        (None, Some(id)) => ledger.find(id.as_str()),
        (None, None) => None,
    }
}

/// The objects that have to be listed, as many as may be.
fn listed<L: Ledger>(
    alloc: Global,
    ledger: &L,
    filter: &Filter,
) -> Result<Vec<String>, AllocError> {
    let most = match filter.maximum {
        Some(most) => usize::try_from(most).unwrap_or(0),
        None => usize::MAX,
    };
    let mut ids = Vec::new(alloc);
    for place in 0..ledger.len() {
        let object = ledger.at(place);
        if ids.len() < most && matches(object, filter, ledger.state(place)) == Fit::Must {
            ids.push(String::from_str(alloc, object.id.as_str())?)?;
        }
    }
    Ok(ids)
}

/// All attributes of an object in a state.
fn attributes_of(alloc: Global, object: &Object, state: State) -> Result<AttrSet, AllocError> {
    let mut shown = object.given.copy(alloc)?;
    let life = &object.life;
    shown.object_type = Some(object.kind.number());
    shown.state = Some(state.number());
    shown.initial = life.initial;
    shown.activation = life.activation;
    shown.deactivation = life.deactivation;
    shown.destroy = life.destroy;
    shown.compromise = life.compromise;
    Ok(shown)
}

/// The bytes of an object: those that are known by now, or that some message shows, or else zeros.
fn bytes_of<L: Ledger>(
    alloc: Global,
    ledger: &L,
    sources: Sources<'_, '_>,
    object: &Object,
) -> Result<Vec<u8>, AllocError>
    requires { (secret : SecretNo) → object.now.life.material ≡ Secret secret
        → secret.number < length (L.state ledger.now).now.secrets }
{
    let known = match known_of(ledger, object.life.material) {
        Some(bytes) => Some(bytes),
        None => known_bytes(sources, object.id.as_str()),
    };
    match known {
        Some(bytes) => Vec::from_slice(alloc, bytes),
        None => Vec::from_elem(alloc, 0u8, length_of(object)),
    }
}

/// How many bytes an object has, as far as its length says.
fn length_of(object: &Object) -> usize {
    match object.given.length {
        Some(bits) => (usize::try_from(bits).unwrap_or(0) / 8).min(0x1_0000),
        None => 16,
    }
}

/// The bytes of the object with this identifier that some message shows.
fn known_bytes<'b, 'a>(sources: Sources<'b, 'a>, id: &str) -> Option<&'b [u8]> {
    for call in sources.calls {
        if let Some(response) = &call.response {
            for (ask, answer) in call.request.items.iter().zip(response.items.iter()) {
                if let Some(bytes) = shown_bytes(ask, answer, id) {
                    return Some(bytes);
                }
            }
        }
    }
    declared_bytes(sources.declaration, id)
}

fn declared_bytes<'b>(declaration: &'b Declaration, id: &str) -> Option<&'b [u8]> {
    for entry in &declaration.entries {
        if entry.id.as_str() == id {
            return match &entry.bytes {
                Some(bytes) => Some(bytes.as_slice()),
                None => None,
            };
        }
    }
    None
}

/// The bytes of the object with this identifier that an item brings or shows.
fn shown_bytes<'b, 'a>(ask: &'b Ask<'a>, answer: &'b Answer<'a>, id: &str) -> Option<&'b [u8]> {
    let row = row_of(&ask.asked);
    match (row.effect, &answer.payload) {
        (Effect::Makes(new), Some(Payload::Register(made))) if made.id == id => new.material(),
        (Effect::ShowsBytes, Some(Payload::Get(got))) if got.id.or(row.subject.id()) == Some(id) =>
            { Some(got.block.material) }
        _ => None,
    }
}
