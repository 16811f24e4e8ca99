//! What a run leaves, as a declaration.

ghost use Rattle.std.specs.Prelude.{◌≡◌, ◌<◌, length, IfOk, option_map};
ghost use Rattle.kmipa_attrs.specs.Sets.{attributes_of};
ghost use Rattle.kmipa_object.specs.Inventory.{card_of};
ghost use Rattle.kmipa_object.specs.declared.life.SecretNo.{SecretNo};
ghost use Rattle.kmipa_store.specs.Choices.{IsSound};
ghost use Rattle.kmipa_store.specs.Ledger.{held};
ghost use Rattle.kmipa_record.specs.Declarations.{declaration_of};
ghost use Rattle.kmipa_record.specs.Entries.{entry_of, items_of};
ghost use Rattle.kmipa_check.specs.Left.{attributes_left, bytes_left, entry_left, declaration_left};

use kmipa_attrs::AttrSet;
use kmipa_object::{Material, Object};
use kmipa_record::{Declaration, Entry};
use kmipa_store::Ledger;
use std::alloc::{AllocError, Global};

/// The declaration of a ledger's objects, in their order, with their bytes where they are known, and with the rules of another declaration.
pub fn declaration_left<L: Ledger>(
    alloc: Global,
    ledger: &L,
    declaration: &Declaration,
) -> Result<Declaration, AllocError>
    requires { IsSound (L.state ledger.now).now }
    ensures { IfOk result
        (λ left. declaration_of left ≡ declaration_left (declaration_of declaration.now) (L.state ledger.now).now) }
{
    let mut entries = Vec::new(alloc);
    let mut place = 0;
    'places: while place < ledger.len() {
        let object = ledger.at(place);
        entries.push(entry_left(alloc, ledger, object)?)?;
        place += 1;
    }
    Ok(Declaration {
        settings: declaration.settings,
        rows: Vec::from_slice(alloc, &declaration.rows)?,
        allow_lines: Vec::from_slice(alloc, &declaration.allow_lines)?,
        own_attributes: Vec::from_slice(alloc, &declaration.own_attributes)?,
        entries,
        asides: Vec::new(alloc),
    })
}

/// The entry of an object of the ledger.
fn entry_left<L: Ledger>(alloc: Global, ledger: &L, object: &Object) -> Result<Entry, AllocError>
    requires { (secret : SecretNo) → object.now.life.material ≡ Material.Secret secret
        → secret.number < length (L.state ledger.now).now.secrets }
    ensures { IfOk result (λ entry. entry_of entry ≡ entry_left (L.state ledger.now).now.secrets (held object.now)) }
{
    Ok(Entry {
        id: String::from_str(alloc, object.id.as_str())?,
        kind: object.kind,
        attrs: attributes_left(alloc, object)?,
        bytes: bytes_left(alloc, ledger, object.life.material)?,
        owner: None,
    })
}

/// The attributes of an object, with its dates.
fn attributes_left(alloc: Global, object: &Object) -> Result<AttrSet, AllocError>
    ensures { IfOk result (λ attrs. attributes_of attrs ≡ attributes_left (card_of object.now)) }
{
    let mut attrs = object.given.copy(alloc)?;
    attrs.object_type = None;
    attrs.state = None;
    attrs.initial = object.life.initial;
    attrs.activation = object.life.activation;
    attrs.deactivation = object.life.deactivation;
    attrs.destroy = object.life.destroy;
    attrs.compromise = object.life.compromise;
    Ok(attrs)
}

/// The bytes of an object, where they are known.
fn bytes_left<L: Ledger>(
    alloc: Global,
    ledger: &L,
    material: Material,
) -> Result<Option<Vec<u8>>, AllocError>
    requires { (secret : SecretNo) → material ≡ Material.Secret secret
        → secret.number < length (L.state ledger.now).now.secrets }
    ensures { IfOk result (λ bytes. option_map items_of bytes ≡ bytes_left (L.state ledger.now).now.secrets material) }
{
    match material {
        Material::Gone => Ok(None),
        Material::Secret(secret) => match ledger.secret(secret) {
            Some(bytes) => Ok(Some(Vec::from_slice(alloc, bytes)?)),
            None => Ok(None),
        },
    }
}
