//! The records of a declaration, as far as it was read.

ghost use Rattle.std.specs.Prelude.{◌≡◌, ◌↔◌, IsTrue};
ghost use Rattle.kmipa_record.specs.DeclarationReading.{declared_by, AreKept, Displaces, HasNone, Keeps, Takes};
ghost use Rattle.kmipa_record.specs.Declarations.{declaration_of, nothing_declared};
ghost use Rattle.kmipa_record.specs.Taking.{record_of};

use crate::allow_line::is_new_cell;
use crate::declaration::Declaration;
use crate::declaration_record::DeclarationRecord;
use crate::entry::Entry;
use crate::fault::RecordKind;
use crate::hashes::identifier_hash;
use crate::own_attribute::OwnAttribute;
use crate::own_line::is_new_attribute;
use crate::settings::Settings;
use crate::taking::TakesRecords;
use kmipa_msgs::Row;
use kmipa_object::AllowLine;
use std::alloc::Global;
use std::collections::{BTreeMap, BTreeSet};

/// What was declared, and where the identifiers of the entries stand.
///
/// # What an identifier costs
/// That of an entry is found by its whole hash, and not copied. Where a later identifier has the same hash, the earlier one joins the others.
#[derive(Drop)]
pub struct Records {
    rows: Vec<Row>,
    allow_lines: Vec<AllowLine>,
    own_attributes: Vec<OwnAttribute>,
    entries: Vec<Entry>,
    asides: Vec<String>,
    /// The place of the last entry whose identifier has a hash.
    places: BTreeMap<u64, usize>,
    /// Identifiers whose hash a later one has, and those that are set aside.
    others: BTreeSet<String>,
}

impl Records {
    ghost use Rattle.kmipa_record.specs.declared.settings.Settings.{Settings};

    /// No records.
    pub fn new(alloc: Global) -> Records
        ensures none { (s : Settings) → declared_by s result ≡ nothing_declared s }
        ensures kept { AreKept result }
    {
        Records {
            rows: Vec::new(alloc),
            allow_lines: Vec::new(alloc),
            own_attributes: Vec::new(alloc),
            entries: Vec::new(alloc),
            asides: Vec::new(alloc),
            places: BTreeMap::new(alloc),
            others: BTreeSet::new(alloc),
        }
    }

    fn take_row(&mut self, row: Row) -> Result<(), RecordKind>
        requires { AreKept self.old }
        ensures { Takes self.old self.new (record_of (DeclarationRecord.Row row)) result }
    {
        if !self.allow_lines.is_empty()
            || !self.own_attributes.is_empty()
            || !self.has_no_objects()
        {
            return Err(RecordKind::Entry);
        }
        match self.rows.push(row) {
            Ok(()) => Ok(()),
            Err(_) => Err(RecordKind::Memory),
        }
    }

    fn take_line(&mut self, line: AllowLine) -> Result<(), RecordKind>
        requires { AreKept self.old }
        ensures { Takes self.old self.new (record_of (DeclarationRecord.Allow line)) result }
    {
        if !self.own_attributes.is_empty()
            || !self.has_no_objects()
            || !is_new_cell(&self.allow_lines, &line)
        {
            return Err(RecordKind::Entry);
        }
        match self.allow_lines.push(line) {
            Ok(()) => Ok(()),
            Err(_) => Err(RecordKind::Memory),
        }
    }

    fn take_attribute(&mut self, attribute: OwnAttribute) -> Result<(), RecordKind>
        requires { AreKept self.old }
        ensures { Takes self.old self.new (record_of (DeclarationRecord.Own attribute)) result }
    {
        if !self.has_no_objects() || !is_new_attribute(&self.own_attributes, attribute) {
            return Err(RecordKind::Entry);
        }
        match self.own_attributes.push(attribute) {
            Ok(()) => Ok(()),
            Err(_) => Err(RecordKind::Memory),
        }
    }

    /// Whether there is no entry, and no identifier is set aside.
    fn has_no_objects(&self) -> bool
        ensures { IsTrue result ↔ HasNone self.now }
    {
        self.entries.is_empty() && self.asides.is_empty()
    }

    fn take_entry(&mut self, entry: Entry) -> Result<(), RecordKind>
        requires { AreKept self.old }
        ensures { Takes self.old self.new (record_of (DeclarationRecord.Entry entry)) result }
    {
        let hash = identifier_hash(entry.id.as_str());
        let Ok(earlier) = self.places.insert(hash, self.entries.len()) else {
            return Err(RecordKind::Memory);
        };
        self.displace(earlier)?;
        if self.others.contains(entry.id.as_str()) {
            return Err(RecordKind::Identifier);
        }
        match self.entries.push(entry) {
            Ok(()) => Ok(()),
            Err(_) => Err(RecordKind::Memory),
        }
    }

    fn take_aside(&mut self, id: String) -> Result<(), RecordKind>
        requires { AreKept self.old }
        ensures { Takes self.old self.new (record_of (DeclarationRecord.Aside id)) result }
    {
        let earlier = self.places.get(&identifier_hash(id.as_str())).copied();
        self.displace(earlier)?;
        let Ok(copy) = id.clone() else {
            return Err(RecordKind::Memory);
        };
        match self.others.insert(copy) {
            Ok(true) => {}
            Ok(false) => return Err(RecordKind::Identifier),
            Err(_) => return Err(RecordKind::Memory),
        }
        match self.asides.push(id) {
            Ok(()) => Ok(()),
            Err(_) => Err(RecordKind::Memory),
        }
    }

    /// Puts the identifier of the entry at an earlier place among the others, if there is one.
    fn displace(&mut self, earlier: Option<usize>) -> Result<(), RecordKind>
        ensures { Displaces self.old earlier result self.new }
    {
        let Some(place) = earlier else {
            return Ok(());
        };
        let Some(entry) = self.entries.get(place) else {
            return Ok(());
        };
        let Ok(id) = entry.id.clone() else {
            return Err(RecordKind::Memory);
        };
        match self.others.insert(id) {
            Ok(_) => Ok(()),
            Err(_) => Err(RecordKind::Memory),
        }
    }

    /// The declaration of these records.
    pub fn into_declaration(self, settings: Settings) -> Declaration
        ensures { declaration_of result ≡ declared_by settings self }
    {
        Declaration {
            settings,
            rows: self.rows,
            allow_lines: self.allow_lines,
            own_attributes: self.own_attributes,
            entries: self.entries,
            asides: self.asides,
        }
    }
}

impl TakesRecords for Records {
    ghost holds = { Keeps };

    ghost takes = { λ _. Unit {0} };

    fn take(&mut self, given: DeclarationRecord) -> Result<(), RecordKind> {
        match given {
            DeclarationRecord::Row(row) => self.take_row(row),
            DeclarationRecord::Allow(line) => self.take_line(line),
            DeclarationRecord::Own(attribute) => self.take_attribute(attribute),
            DeclarationRecord::Entry(entry) => self.take_entry(entry),
            DeclarationRecord::Aside(id) => self.take_aside(id),
        }
    }
}
