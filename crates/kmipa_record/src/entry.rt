//! Entries: the objects that a server held before the first call.

ghost use Rattle.std.specs.Prelude.{◌≡◌, ◌≢◌, ◌↔◌, ◌*◌, ℕ, pos, List, length, IsTrue, Option, Some, None, IfSome, option_map, MatchOption, IfOk};
ghost use Rattle.kmipa_ttlv.specs.Tree.{Trees};
ghost use Rattle.kmipa_ttlv.specs.ViewTree.{view_tree, view_trees};
ghost use Rattle.kmipa_attrs.specs.Attributes.{SaysAttributes};
ghost use Rattle.kmipa_attrs.specs.Sets.{Attributes, attributes_of};
ghost use Rattle.kmipa_attrs.specs.declared.object_type.ObjectType.{ObjectType};
ghost use Rattle.kmipa_msgs.specs.Messages.{lent};
ghost use Rattle.kmipa_record.specs.DeclarationReading.{are_whole_bytes};
ghost use Rattle.kmipa_record.specs.Entries.{EntryOf, entry_of, items_of, entry_item, material, ownership, AreBytes, SaysEntry, AreListed, key_bits, IsDeclarable};

use crate::shape::{bytes_of, children_of, copied, copied_text, enumeration_of, text_of};
use crate::tags::{ENTRY, OWNER};
use kmipa_attrs::tags::{
    ACTIVATION_DATE, ATTRIBUTES, COMPROMISE_DATE, CRYPTOGRAPHIC_ALGORITHM, CRYPTOGRAPHIC_LENGTH,
    CRYPTOGRAPHIC_USAGE_MASK, DEACTIVATION_DATE, DESTROY_DATE, INITIAL_DATE, KEY_MATERIAL, NAME,
    OBJECT_TYPE, UNIQUE_IDENTIFIER,
};
use kmipa_attrs::{AttrFault, AttrSet, ObjectType, Side, read_children};
use kmipa_ttlv::{Children, View};
use std::alloc::{AllocError, Global};

/// The attributes that an entry may have.
const LISTED: [u32; 9] = [
    NAME,
    CRYPTOGRAPHIC_ALGORITHM,
    CRYPTOGRAPHIC_LENGTH,
    CRYPTOGRAPHIC_USAGE_MASK,
    INITIAL_DATE,
    ACTIVATION_DATE,
    DEACTIVATION_DATE,
    DESTROY_DATE,
    COMPROMISE_DATE,
];

/// Cryptographic Algorithm AES (KMIP 2.1, section 11).
const AES: u32 = 3;

/// An object that the server held.
#[derive(Drop)]
pub struct Entry {
    /// Unique Identifier.
    pub id: String,
    /// Object Type.
    pub kind: ObjectType,
    /// Its judged attributes but Object Type and State.
    pub attrs: AttrSet,
    /// The bytes of its Key Material, where they are declared.
    pub bytes: Option<Vec<u8>>,
    /// The client that it is of, where that is declared.
    pub owner: Option<String>,
}

/// The entry that an item says, where it may be declared.
pub fn entry_in(alloc: Global, item: &View) -> Result<Option<Entry>, AllocError>
    ensures { IfOk result (λ o. MatchOption o ((e : EntryOf) → SaysEntry (view_tree item.now) e → ¬ (IsDeclarable e))
        (λ entry. SaysEntry (view_tree item.now) (entry_of entry) × IsDeclarable (entry_of entry))) }
{
    let Some(parts) = parts_in(item) else {
        return Ok(None);
    };
    let Some(attrs) = listed_in(alloc, parts.attributes)? else {
        return Ok(None);
    };
    let entry = Entry {
        id: String::from_str(alloc, parts.id)?,
        kind: parts.kind,
        attrs,
        bytes: copied(alloc, parts.bytes)?,
        owner: copied_text(alloc, parts.owner)?,
    };
    if is_declarable(&entry) {
        Ok(Some(entry))
    } else {
        Ok(None)
    }
}

/// What stands in the record of an entry.
#[derive(Clone, Copy)]
struct Parts<'a> {
    id: &'a str,
    kind: ObjectType,
    attributes: Children<'a>,
    bytes: Option<&'a [u8]>,
    owner: Option<&'a str>,
}

/// The parts of an entry's record.
fn parts_in<'a>(item: &View<'a>) -> Option<Parts<'a>>
    ensures { MatchOption result
        ((id : List ℕ) (kind : ObjectType) (attributes : Trees) (bytes owner : Option (List ℕ))
        → view_tree item.now ≢ entry_item id kind attributes bytes owner)
        (λ p. view_tree item.now
        ≡ entry_item p.id.now p.kind (view_trees p.attributes) (option_map lent p.bytes) (option_map lent p.owner)) }
{
    let mut children = children_of(item, ENTRY)?;
    let id = text_of(&children.next()?, UNIQUE_IDENTIFIER)?;
    let kind = ObjectType::of(enumeration_of(&children.next()?, OBJECT_TYPE)?)?;
    let attributes = children_of(&children.next()?, ATTRIBUTES)?;
    let (bytes, behind_bytes) = material_before(children);
    let owner = owner_in(behind_bytes)?;
    Some(Parts {
        id,
        kind,
        attributes,
        bytes,
        owner,
    })
}

/// The bytes that the children begin with, if any, and the children behind them.
fn material_before<'a>(children: Children<'a>) -> (Option<&'a [u8]>, Children<'a>)
    ensures split { view_trees children.entry ≡ material (option_map lent result.0) (view_trees result.1) }
    ensures first { option_map lent result.0 ≡ None
        → (bytes : List ℕ) (rest : Trees) → view_trees children.entry ≢ material (Some bytes) rest }
{
    let mut rest = children;
    let Some(child) = rest.next() else {
        return (None, children);
    };
    match bytes_of(&child, KEY_MATERIAL) {
        Some(bytes) => (Some(bytes), rest),
        None => (None, children),
    }
}

/// The owner that the last children of an entry's record declare, if any.
fn owner_in<'a>(children: Children<'a>) -> Option<Option<&'a str>>
    ensures { MatchOption result ((owner : Option (List ℕ)) → view_trees children.entry ≢ ownership owner)
        (λ o. view_trees children.entry ≡ ownership (option_map lent o)) }
{
    let mut children = children;
    let Some(child) = children.next() else {
        return Some(None);
    };
    let owner = text_of(&child, OWNER)?;
    if children.next().is_some() {
        return None;
    }
    Some(Some(owner))
}

/// The set that the attributes of an entry say, where each is one that an entry may have.
fn listed_in(alloc: Global, children: Children) -> Result<Option<AttrSet>, AllocError>
    ensures { IfOk result
        (λ o. MatchOption o
        ((a : Attributes) → AreListed (view_trees children.entry) → ¬ (SaysAttributes (view_trees children.entry) a))
        (λ set. AreListed (view_trees children.entry)
        × SaysAttributes (view_trees children.entry) (attributes_of set))) }
{
    if !are_listed(children) {
        return Ok(None);
    }
    match read_children(alloc, children, Side::Server) {
        Ok(set) => Ok(Some(set)),
        Err(fault) => match fault {
            AttrFault::Memory => Err(AllocError),
            AttrFault::WrongType | AttrFault::Repeated | AttrFault::NotForClients => Ok(None),
        },
    }
}

fn are_listed(children: Children) -> bool
    ensures { IsTrue result ↔ AreListed (view_trees children.entry) }
{
    let mut left = children;
    'children: while let Some(child) = left.next() {
        if !LISTED.contains(&child.tag.number) {
            return false;
        }
    }
    true
}

/// Whether the bytes of an entry may be declared so.
pub fn is_declarable(entry: &Entry) -> bool
    requires { IfSome (option_map items_of entry.now.bytes) AreBytes }
    ensures { IsTrue result ↔ IsDeclarable (entry_of entry.now) }
{
    if entry.attrs.destroy.is_some() {
        return entry.bytes.is_none();
    }
    match key_bits(entry.kind, &entry.attrs) {
        Some(bits) => are_whole_bytes(bits) && has_bits(&entry.bytes, bits),
        None => true,
    }
}

/// The bits that the bytes of such an object have, where that is laid down.
fn key_bits(kind: ObjectType, attrs: &AttrSet) -> Option<i32>
    ensures { result ≡ key_bits kind (attributes_of attrs.now) }
{
    match (kind, attrs.algorithm, attrs.length) {
        (ObjectType::SymmetricKey, Some(AES), Some(bits)) => Some(bits),
        _ => None,
    }
}

/// Whether bits are those of one byte or of more.
fn are_whole_bytes(bits: i32) -> bool
    ensures { result ≡ are_whole_bytes bits }
{
    bits > 0 && bits % 8 == 0
}

/// Whether the bytes, where they are there, have this many bits.
fn has_bits(bytes: &Option<Vec<u8>>, bits: i32) -> bool
    ensures { IsTrue result ↔ IfSome (option_map items_of bytes.now) (λ items. bits ≡ pos (8 * length items)) }
{
    match bytes {
        Some(bytes) => bits >= 0 && bits as u128 == 8 * bytes.len() as u128,
        None => true,
    }
}
