//! Whether some bytes are a declaration of this, whatever the lengths of its records.

ghost use Rattle.std.specs.Prelude.{◌≡◌, ◌∷◌, ◌++◌, ◌≢◌, ◌↔◌, [], ℕ, List, IsTrue, map, All, OnOk, IfErr, IfSome, MatchResult, option_map};
ghost use Rattle.std.specs.String.{string_bytes};
ghost use Rattle.kmipa_attrs.specs.Sets.{attributes_of};
ghost use Rattle.kmipa_record.specs.Declarations.{declaration_of};
ghost use Rattle.kmipa_record.specs.DeclarationWriting.{AreDistinct, AreLines, AreNoted, AreOwn, AreSayable, HasFitSettings, MayBeDeclared, MayStand, MayStandTogether, ids_of};
ghost use Rattle.kmipa_record.specs.Entries.{entry_of, items_of, AreBytes};
ghost use Rattle.kmipa_record.specs.Writing.{Refused};

use crate::allow_line::{is_movable, is_new_cell};
use crate::declaration::Declaration;
use crate::entry::{Entry, is_declarable};
use crate::fault::RecordKind;
use crate::own_attribute::OwnAttribute;
use crate::own_line::is_new_attribute;
use crate::reach::Reach;
use crate::settings::is_tolerance;
use crate::shape::are_bytes;
use kmipa_attrs::AttrSet;
use kmipa_object::AllowLine;
use std::alloc::Global;
use std::collections::BTreeSet;

/// Tests whether this may be declared within reach, whatever the lengths of its records; `Entry` where it may not.
pub fn test_declaration(
    alloc: Global,
    declaration: &Declaration,
    reach: Reach,
) -> Result<(), RecordKind>
    ensures may { OnOk result (MayBeDeclared reach (declaration_of declaration.now)) }
    ensures refused { IfErr result (Refused (MayBeDeclared reach (declaration_of declaration.now))) }
{
    if !has_fit_settings(declaration, reach) {
        return Err(RecordKind::Entry);
    }
    test_lines(alloc, &declaration.allow_lines)?;
    test_attributes(alloc, &declaration.own_attributes)?;
    test_objects(alloc, &declaration.entries, &declaration.asides)
}

/// Whether these settings may stand in a declaration within reach, with the identifiers that it sets aside.
fn has_fit_settings(declaration: &Declaration, reach: Reach) -> bool
    ensures { IsTrue result ↔ HasFitSettings reach (declaration_of declaration.now) }
{
    let settings = &declaration.settings;
    is_tolerance(settings.tolerance)
        && reach.reaches_settings(settings)
        && (declaration.asides.is_empty() || reach.reaches_asides(settings))
}

/// Tests whether these lines may stand in one declaration; `Entry` where they may not.
fn test_lines(alloc: Global, lines: &[AllowLine]) -> Result<(), RecordKind>
    ensures lines { OnOk result (AreLines lines.now) }
    ensures refused { IfErr result (Refused (AreLines lines.now)) }
{
    let mut seen = Vec::new(alloc);
    for line in lines {
        if !is_movable(line) {
            return Err(RecordKind::Entry);
        }
        if !is_new_cell(&seen, line) {
            return Err(RecordKind::Entry);
        }
        let Ok(()) = seen.push(*line) else {
            return Err(RecordKind::Memory);
        };
    }
    Ok(())
}

/// Tests whether own lines of these attributes may stand in one declaration; `Entry` where they may not.
fn test_attributes(alloc: Global, attributes: &[OwnAttribute]) -> Result<(), RecordKind>
    ensures own { OnOk result (AreOwn attributes.now) }
    ensures refused { IfErr result (Refused (AreOwn attributes.now)) }
{
    let mut seen = Vec::new(alloc);
    for attribute in attributes {
        if !is_new_attribute(&seen, *attribute) {
            return Err(RecordKind::Entry);
        }
        let Ok(()) = seen.push(*attribute) else {
            return Err(RecordKind::Memory);
        };
    }
    Ok(())
}

/// Tests whether these entries and identifiers may stand in one declaration, whatever their lengths; `Entry` where they may not.
fn test_objects(alloc: Global, entries: &[Entry], asides: &[String]) -> Result<(), RecordKind>
    ensures together { OnOk result
        (MayStandTogether (map entry_of entries.now) (map string_bytes asides.now)) }
    ensures refused { IfErr result
        (Refused (MayStandTogether (map entry_of entries.now) (map string_bytes asides.now))) }
{
    let mut identifiers = BTreeSet::new(alloc);
    test_entries(entries, &mut identifiers)?;
    test_asides(asides, &mut identifiers)
}

/// Tests whether these entries may stand in one declaration, whatever their lengths, and notes their identifiers; `Entry` where they may not.
fn test_entries(entries: &[Entry], identifiers: &mut BTreeSet<String>) -> Result<(), RecordKind>
    requires { AreNoted identifiers.old [] }
    ensures together { OnOk result
        (All MayStand (map entry_of entries.now) × AreNoted identifiers.new (ids_of (map entry_of entries.now))) }
    ensures refused { IfErr result (Refused (MayStandTogether (map entry_of entries.now) [])) }
{
    for entry in entries {
        if !may_stand(entry) {
            return Err(RecordKind::Entry);
        }
        note(&entry.id, identifiers)?;
    }
    Ok(())
}

/// Tests whether these identifiers are new, and notes them; `Entry` where they aren't.
fn test_asides(asides: &[String], identifiers: &mut BTreeSet<String>) -> Result<(), RecordKind>
    ensures distinct { (ids : List (List ℕ)) → AreNoted identifiers.old ids
        → OnOk result (AreDistinct (ids ++ map string_bytes asides.now)) }
    ensures refused { (ids : List (List ℕ)) → AreNoted identifiers.old ids
        → IfErr result (Refused (AreDistinct (ids ++ map string_bytes asides.now))) }
{
    for id in asides {
        note(id, identifiers)?;
    }
    Ok(())
}

/// Notes an identifier; `Entry` where it was noted.
fn note(id: &String, identifiers: &mut BTreeSet<String>) -> Result<(), RecordKind>
    ensures { (ids : List (List ℕ)) → AreNoted identifiers.old ids
        → MatchResult result (λ _. AreNoted identifiers.new (ids ++ string_bytes id.now ∷ []))
        (Refused (AreDistinct (ids ++ string_bytes id.now ∷ []))) }
{
    let copy = id.clone()?;
    match identifiers.insert(copy) {
        Ok(true) => {}
        Ok(false) => return Err(RecordKind::Entry),
        Err(_) => return Err(RecordKind::Memory),
    }
    Ok(())
}

fn may_stand(entry: &Entry) -> bool
    ensures { IsTrue result ↔ MayStand (entry_of entry.now) }
{
    small_bytes(entry);
    is_declarable(entry) && are_sayable(&entry.attrs)
}

fn small_bytes(entry: &Entry)
    ensures { IfSome (option_map items_of entry.now.bytes) AreBytes }
{
    match &entry.bytes {
        Some(bytes) => are_bytes(bytes),
        None => {}
    }
}

/// Whether some record of an entry says these attributes.
fn are_sayable(attrs: &AttrSet) -> bool
    ensures { IsTrue result ↔ AreSayable (attributes_of attrs.now) }
{
    attrs.object_type.is_none() && attrs.state.is_none() && attrs.names_differ()
}
