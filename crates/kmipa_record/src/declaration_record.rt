//! The records of a declaration.

ghost use Rattle.std.specs.Prelude.{◌≢◌, ◌≡◌, ℕ, List, IfOk, MatchOption};
ghost use Rattle.kmipa_ttlv.specs.ViewTree.{view_tree};
ghost use Rattle.kmipa_object.specs.declared.allow.AllowLine.{AllowLine};
ghost use Rattle.kmipa_record.specs.DeclarationReading.{SaysFit, IsRecord};
ghost use Rattle.kmipa_record.specs.DeclarationRecords.{aside_item};
ghost use Rattle.kmipa_record.specs.Lines.{allow_line_item, IsMovable, own_line_item};
ghost use Rattle.kmipa_record.specs.Taking.{record_of};
ghost use Rattle.kmipa_record.specs.declared.own_attribute.OwnAttribute.{OwnAttribute};

use crate::allow_line::{allow_line_in, is_movable};
use crate::aside::aside_in;
use crate::entry::{Entry, entry_in};
use crate::own_attribute::OwnAttribute;
use crate::own_line::own_attribute_in;
use crate::record::Record;
use crate::row::row_in;
use kmipa_msgs::Row;
use kmipa_object::AllowLine;
use kmipa_ttlv::View;
use std::alloc::{AllocError, Global};

/// A record of a declaration.
#[derive(Drop)]
pub enum DeclarationRecord {
    Row(Row),
    /// What the server says of an operation in a state.
    Allow(AllowLine),
    /// An attribute that the server itself may give an object at birth.
    Own(OwnAttribute),
    Entry(Entry),
    /// An identifier that is set aside.
    Aside(String),
}

impl Record for DeclarationRecord {
    ghost says = { λ item r. SaysFit item (record_of r) };

    ghost is_record = { IsRecord };

    fn of(alloc: Global, item: &View) -> Result<Option<DeclarationRecord>, AllocError> {
        if let Some(row) = row_in(item) {
            return Ok(Some(DeclarationRecord::Row(row)));
        }
        match entry_in(alloc, item)? {
            Some(entry) => Ok(Some(DeclarationRecord::Entry(entry))),
            None => other_record(alloc, item),
        }
    }
}

/// The record that an item is which is no row, and no entry that may be declared.
fn other_record(alloc: Global, item: &View) -> Result<Option<DeclarationRecord>, AllocError>
    ensures { IfOk result
        (λ o. MatchOption o
        (((l : AllowLine) → IsMovable l → view_tree item.now ≢ allow_line_item l)
        × ((a : OwnAttribute) → view_tree item.now ≢ own_line_item a)
        × ((id : List ℕ) → view_tree item.now ≢ aside_item id))
        (λ r. SaysFit (view_tree item.now) (record_of r))) }
{
    if let Some(line) = movable_line_in(item) {
        return Ok(Some(DeclarationRecord::Allow(line)));
    }
    if let Some(attribute) = own_attribute_in(item) {
        return Ok(Some(DeclarationRecord::Own(attribute)));
    }
    match aside_in(item) {
        Some(id) => Ok(Some(DeclarationRecord::Aside(String::from_str(alloc, id)?))),
        None => Ok(None),
    }
}

/// The allow line that an item says, where it may move the table's word.
fn movable_line_in(item: &View) -> Option<AllowLine>
    ensures { MatchOption result ((l : AllowLine) → IsMovable l → view_tree item.now ≢ allow_line_item l)
        (λ l. (view_tree item.now ≡ allow_line_item l) × IsMovable l) }
{
    let line = allow_line_in(item)?;
    if is_movable(&line) { Some(line) } else { None }
}
