//! Declarations that are written, in the lowest version that serves.

ghost use Rattle.std.specs.Prelude.{◌≡◌, ◌∷◌, ◌↔◌, IsTrue, map, OnOk, IfOk, IfErr};
ghost use Rattle.std.specs.Io.{StartsWith};
ghost use Rattle.std.specs.String.{string_bytes};
ghost use Rattle.kmipa_ttlv.specs.ItemTree.{tree};
ghost use Rattle.kmipa_msgs.specs.Messages.{row_of};
ghost use Rattle.kmipa_record.specs.DeclarationRecords.{row_item, aside_item};
ghost use Rattle.kmipa_record.specs.Declarations.{declaration_of, IsDeclaration, IsDeclarationWithin};
ghost use Rattle.kmipa_record.specs.DeclarationWriting.{IsWritableDeclaration, MayBeDeclared, IsLowestHeader, written_records};
ghost use Rattle.kmipa_record.specs.Entries.{entry_of, written_entry, IsTooLong};
ghost use Rattle.kmipa_record.specs.Lines.{allow_line_item, own_line_item};
ghost use Rattle.kmipa_record.specs.Settings.{declaration_header};
ghost use Rattle.kmipa_record.specs.Writing.{Appends, IsWrittenDeclaration, IsWrittenDeclarationWithin, IsPlain, AreUnowned, Unwritten, AddsAll, Refused};
ghost use Rattle.kmipa_record.specs.declared.declaration_header.DeclarationHeader.{DeclarationHeader};

use crate::append::{Written, append, append_all};
use crate::declaration::Declaration;
use crate::declaration_header::{DeclarationHeader, write_declaration_header};
use crate::declaration_testing::test_declaration;
use crate::declaration_version::DeclarationVersion;
use crate::entry::Entry;
use crate::fault::{RecordFault, RecordKind};
use crate::own_attribute::OwnAttribute;
use crate::reach::Reach;
use crate::tags::{ACT, ALLOW, ALLOW_LINE, ASIDE_ENTRY, CAUSE, ENTRY, OWN_LINE, OWNER, ROW};
use kmipa_attrs::tags::{
    ATTRIBUTE_REFERENCE, KEY_MATERIAL, OBJECT_TYPE, RESULT_REASON, STATE, UNIQUE_IDENTIFIER,
};
use kmipa_attrs::write_short_attrs;
use kmipa_msgs::Row;
use kmipa_object::AllowLine;
use kmipa_ttlv::{Item, Tag, spelled_len};
use std::alloc::{AllocError, Global};

/// Appends a declaration of this, by which calls are judged, in the lowest version that serves.
///
/// `Entry` at 0 where no bytes are one: an identifier, a cell or an own attribute that stands twice, an entry or a line that may not be
/// declared, an entry with an attribute that no entry has, settings that it may not have, or a record too long for one item. An `Err`
/// changes nothing.
pub fn write_declaration(
    alloc: Global,
    declaration: &Declaration,
    out: &mut Vec<u8>,
) -> Result<(), RecordFault>
    // What is appended is a declaration of this, padded with zeros.
    ensures written { OnOk result
        (Appends (IsWrittenDeclaration (declaration_of declaration.now)) out.old.items out.new.items) }
    // It is refused where no bytes are one, or where memory ran out.
    ensures refused { IfErr result (Unwritten (λ bytes. IsDeclaration bytes (declaration_of declaration.now))) }
    ensures same { IfErr result (λ _. out.new.items ≡ out.old.items) }
{
    write_declaration_within(alloc, declaration, Reach::Judged, out)
}

/// Appends a declaration of this, as `write_declaration`, as far as `reach` says: `Entry` at 0 where something of it is out of reach.
pub fn write_declaration_within(
    alloc: Global,
    declaration: &Declaration,
    reach: Reach,
    out: &mut Vec<u8>,
) -> Result<(), RecordFault>
    ensures written { OnOk result
        (Appends (IsWrittenDeclarationWithin reach (declaration_of declaration.now)) out.old.items out.new.items) }
    ensures refused { IfErr result
        (Unwritten (λ bytes. IsDeclarationWithin reach bytes (declaration_of declaration.now))) }
    ensures same { IfErr result (λ _. out.new.items ≡ out.old.items) }
{
    let start = out.len();
    match put_declaration(alloc, declaration, reach, out) {
        Ok(()) => Ok(()),
        Err(kind) => {
            out.truncate(start);
            Err(RecordFault { offset: 0, kind })
        }
    }
}

/// Whether an entry is too long for one item, so that no declaration has it.
pub fn is_too_long(alloc: Global, entry: &Entry) -> Result<bool, AllocError>
    ensures { IfOk result (λ long. IsTrue long ↔ IsTooLong (entry_of entry.now)) }
{
    let item = entry.item(alloc)?;
    match spelled_len(&item) {
        Some(_) => Ok(false),
        None => Ok(true),
    }
}

fn put_declaration(
    alloc: Global,
    declaration: &Declaration,
    reach: Reach,
    out: &mut Vec<u8>,
) -> Result<(), RecordKind>
    ensures put { OnOk result
        (MayBeDeclared reach (declaration_of declaration.now)
        × (h : DeclarationHeader) × IsLowestHeader h (declaration_of declaration.now)
        × AddsAll (declaration_header h ∷ written_records (declaration_of declaration.now)) out.old.items out.new.items) }
    ensures refused { IfErr result (Refused (IsWritableDeclaration reach (declaration_of declaration.now))) }
    ensures grows { StartsWith out.new.items out.old.items }
{
    test_declaration(alloc, declaration, reach)?;
    let header = header_of(declaration);
    append(&write_declaration_header(alloc, &header)?, out)?;
    append_all(alloc, &declaration.rows, out)?;
    append_all(alloc, &declaration.allow_lines, out)?;
    append_all(alloc, &declaration.own_attributes, out)?;
    append_all(alloc, &declaration.entries, out)?;
    append_all(alloc, &declaration.asides, out)
}

/// The header of a declaration of this, of the lowest version that serves.
fn header_of(declaration: &Declaration) -> DeclarationHeader
    ensures { IsLowestHeader result (declaration_of declaration.now) }
{
    let version = if is_plain(declaration) {
        DeclarationVersion::First
    } else {
        DeclarationVersion::Second
    };
    DeclarationHeader {
        version,
        settings: declaration.settings,
    }
}

/// Whether version 1 can declare this.
fn is_plain(declaration: &Declaration) -> bool
    ensures { IsTrue result ↔ IsPlain (declaration_of declaration.now) }
{
    declaration.settings.are_plain()
        && declaration.allow_lines.is_empty()
        && declaration.own_attributes.is_empty()
        && declaration.asides.is_empty()
        && are_unowned(&declaration.entries)
}

/// Whether no entry has an owner.
fn are_unowned(entries: &[Entry]) -> bool
    ensures { IsTrue result ↔ AreUnowned (map entry_of entries.now) }
{
    for entry in entries {
        if entry.owner.is_some() {
            return false;
        }
    }
    true
}

impl Written for Row {
    ghost item_of = { λ row. row_item (row_of row) };

    fn item(&self, alloc: Global) -> Result<Item, AllocError> {
        let reason = Item::enumeration(
            Tag {
                number: RESULT_REASON,
            },
            self.reason,
        );
        let cause = Item::enumeration(Tag { number: CAUSE }, self.cause.number());
        let mut children = Vec::with_capacity(alloc, 2)?;
        children.push(reason)?;
        children.push(cause)?;
        Ok(Item::structure(Tag { number: ROW }, children))
    }
}

impl Written for AllowLine {
    ghost item_of = { allow_line_item };

    fn item(&self, alloc: Global) -> Result<Item, AllocError> {
        let mut children = Vec::with_capacity(alloc, 3)?;
        children.push(Item::enumeration(Tag { number: ACT }, self.act.number()))?;
        children.push(Item::enumeration(Tag { number: STATE }, self.state.number()))?;
        children.push(Item::enumeration(Tag { number: ALLOW }, self.allow.number()))?;
        Ok(Item::structure(Tag { number: ALLOW_LINE }, children))
    }
}

impl Written for OwnAttribute {
    ghost item_of = { own_line_item };

    fn item(&self, alloc: Global) -> Result<Item, AllocError> {
        let reference = Item::enumeration(
            Tag {
                number: ATTRIBUTE_REFERENCE,
            },
            self.tag(),
        );
        let mut children = Vec::with_capacity(alloc, 1)?;
        children.push(reference)?;
        Ok(Item::structure(Tag { number: OWN_LINE }, children))
    }
}

/// An identifier is written as one that is set aside.
impl Written for String {
    ghost item_of = { λ id. aside_item (string_bytes id) };

    fn item(&self, alloc: Global) -> Result<Item, AllocError> {
        let id = Item::text(
            alloc,
            Tag {
                number: UNIQUE_IDENTIFIER,
            },
            self,
        )?;
        let mut children = Vec::with_capacity(alloc, 1)?;
        children.push(id)?;
        Ok(Item::structure(
            Tag {
                number: ASIDE_ENTRY,
            },
            children,
        ))
    }
}

impl Written for Entry {
    ghost item_of = { λ entry. written_entry (entry_of entry) };

    fn item(&self, alloc: Global) -> Result<Item, AllocError> {
        let id = Item::text(
            alloc,
            Tag {
                number: UNIQUE_IDENTIFIER,
            },
            &self.id,
        )?;
        let kind = Item::enumeration(
            Tag {
                number: OBJECT_TYPE,
            },
            self.kind.number(),
        );
        let attributes = write_short_attrs(alloc, &self.attrs)?;
        let mut children = Vec::with_capacity(alloc, 5)?;
        children.push(id)?;
        children.push(kind)?;
        children.push(attributes)?;
        if let Some(bytes) = &self.bytes {
            let tag = Tag {
                number: KEY_MATERIAL,
            };
            children.push(Item::bytes(alloc, tag, bytes)?)?;
        }
        if let Some(owner) = &self.owner {
            children.push(Item::text(alloc, Tag { number: OWNER }, owner)?)?;
        }
        Ok(Item::structure(Tag { number: ENTRY }, children))
    }
}
