//! The ledger that a declaration opens, into which its objects are moved while it is read.

ghost use Rattle.std.specs.Prelude.{◌≡◌, map, None, IfOk};
ghost use Rattle.kmipa_attrs.specs.Sets.{attributes_of};
ghost use Rattle.kmipa_object.specs.Inventory.{place_of};
ghost use Rattle.kmipa_object.specs.Life.{dates_of};
ghost use Rattle.kmipa_store.specs.Ledger.{cards_of};
ghost use Rattle.kmipa_store.specs.States.{state_of_journal};
ghost use Rattle.kmipa_stream.specs.Opening.{has_objects, is_used};
ghost use Rattle.kmipa_msgs.specs.Messages.{row_of, rules_of};
ghost use Rattle.kmipa_record.specs.Entries.{IsDeclarable, entry_of};
ghost use Rattle.kmipa_check.specs.Described.{dates_in};
ghost use Rattle.kmipa_check.specs.Opening.{Declares, Places};
ghost use Rattle.kmipa_check.specs.Runs.{rows_declared};

use kmipa_attrs::AttrSet;
use kmipa_msgs::{Row, Rules};
use kmipa_object::{AllowLine, Life, Material, Object, Rule};
use kmipa_record::{
    DeclarationRecord, Entry, OwnAttribute, RecordKind, Settings, TakesRecords, is_new_attribute,
    is_new_cell,
};
use kmipa_store::{Journal, Ledger, StoreFault};
use std::alloc::{AllocError, Global};

/// The ledger of a server before any call, and the rows, allow lines and own lines of its declaration, as far as this was read.
///
/// An entry is let go as its object is added; its identifier and its attributes become the object's.
#[derive(Drop)]
pub struct Opening {
    /// It stands for exactly the inventories that the entries describe. The identifiers of aside entries are set aside by their names.
    pub ledger: Journal,
    pub rows: Vec<Row>,
    pub allow_lines: Vec<AllowLine>,
    /// The attributes that the server itself may give an object at birth.
    pub own_attributes: Vec<OwnAttribute>,
    /// The owner of each object, in the order of the entries, where it has one.
    pub owners: Vec<Option<String>>,
}

impl Opening {
    ghost use Rattle.std.specs.Prelude.{MatchResult};
    ghost use Rattle.kmipa_record.specs.DeclarationRecords.{aside};
    ghost use Rattle.kmipa_record.specs.Declarations.{DeclarationOf, HasNoObjects, MayFollow, nothing_declared, with_record};
    ghost use Rattle.kmipa_check.specs.Deciding.{Decided};
    ghost use Rattle.kmipa_record.specs.Taking.{Refuses, record_of};
    ghost use Rattle.kmipa_record.specs.declared.settings.Settings.{Settings};
    ghost use Rattle.kmipa_stream.specs.Opening.{Opens};

    /// Before the first record.
    pub fn new(alloc: Global) -> Opening
        ensures { (settings : Settings) → Opens result (nothing_declared settings) }
    {
        Opening {
            ledger: Journal::new(alloc),
            rows: Vec::new(alloc),
            allow_lines: Vec::new(alloc),
            own_attributes: Vec::new(alloc),
            owners: Vec::new(alloc),
        }
    }

    /// Whether no object was declared so far, and no identifier is set aside.
    fn is_without_objects(&self) -> bool
        ensures { (declared : DeclarationOf) → Opens self.now declared
            → Decided result (HasNoObjects declared) }
    {
        !has_objects(&self.ledger)
    }

    fn take_row(&mut self, row: Row) -> Result<(), RecordKind>
        ensures { (declared : DeclarationOf) → Opens self.old declared
            → MatchResult result
            (λ _. MayFollow declared (record_of (DeclarationRecord.Row row))
            × Opens self.new (with_record declared (record_of (DeclarationRecord.Row row))))
            (Refuses declared (record_of (DeclarationRecord.Row row))) }
    {
        if !self.is_without_objects() || !self.allow_lines.is_empty() {
            return Err(RecordKind::Entry);
        }
        if !self.own_attributes.is_empty() {
            return Err(RecordKind::Entry);
        }
        match self.rows.push(row) {
            Ok(()) => Ok(()),
            Err(_) => Err(RecordKind::Memory),
        }
    }

    fn take_line(&mut self, line: AllowLine) -> Result<(), RecordKind>
        ensures { (declared : DeclarationOf) → Opens self.old declared
            → MatchResult result
            (λ _. MayFollow declared (record_of (DeclarationRecord.Allow line))
            × Opens self.new (with_record declared (record_of (DeclarationRecord.Allow line))))
            (Refuses declared (record_of (DeclarationRecord.Allow line))) }
    {
        if !self.is_without_objects() || !self.own_attributes.is_empty() {
            return Err(RecordKind::Entry);
        }
        if !is_new_cell(&self.allow_lines, &line) {
            return Err(RecordKind::Entry);
        }
        match self.allow_lines.push(line) {
            Ok(()) => Ok(()),
            Err(_) => Err(RecordKind::Memory),
        }
    }

    fn take_attribute(&mut self, attribute: OwnAttribute) -> Result<(), RecordKind>
        ensures { (declared : DeclarationOf) → Opens self.old declared
            → MatchResult result
            (λ _. MayFollow declared (record_of (DeclarationRecord.Own attribute))
            × Opens self.new (with_record declared (record_of (DeclarationRecord.Own attribute))))
            (Refuses declared (record_of (DeclarationRecord.Own attribute))) }
    {
        if !self.is_without_objects() || !is_new_attribute(&self.own_attributes, attribute) {
            return Err(RecordKind::Entry);
        }
        match self.own_attributes.push(attribute) {
            Ok(()) => Ok(()),
            Err(_) => Err(RecordKind::Memory),
        }
    }

    fn take_entry(&mut self, entry: Entry) -> Result<(), RecordKind>
        requires { IsDeclarable (entry_of entry) }
        ensures { (declared : DeclarationOf) → Opens self.old declared
            → MatchResult result
            (λ _. MayFollow declared (record_of (DeclarationRecord.Entry entry))
            × Opens self.new (with_record declared (record_of (DeclarationRecord.Entry entry))))
            (Refuses declared (record_of (DeclarationRecord.Entry entry))) }
    {
        if is_used(&self.ledger, entry.id.as_str()) {
            return Err(RecordKind::Identifier);
        }
        let Entry {
            id,
            kind,
            attrs,
            bytes,
            owner,
        } = entry;
        let Ok(()) = self.owners.push(owner) else {
            return Err(RecordKind::Memory);
        };
        let ownerless = Entry {
            id,
            kind,
            attrs,
            bytes,
            owner: None,
        };
        match declare(&mut self.ledger, ownerless) {
            Ok(()) => Ok(()),
            Err(_) => Err(RecordKind::Memory),
        }
    }

    fn take_aside(&mut self, id: &str) -> Result<(), RecordKind>
        ensures { (declared : DeclarationOf) → Opens self.old declared
            → MatchResult result
            (λ _. MayFollow declared (aside id.now)
            × Opens self.new (with_record declared (aside id.now)))
            (Refuses declared (aside id.now)) }
    {
        if is_used(&self.ledger, id) {
            return Err(RecordKind::Identifier);
        }
        match self.ledger.set_aside(id) {
            Ok(()) => Ok(()),
            Err(_) => Err(RecordKind::Memory),
        }
    }
}

/// Whether the ledger has an object, or something is set aside.
fn has_objects(ledger: &Journal) -> bool
    ensures { result ≡ has_objects (state_of_journal ledger.now).now }
{
    ledger.len() > 0 || ledger.is_any_aside()
}

/// Whether an object of the ledger has this identifier, or it is set aside.
fn is_used(ledger: &Journal, id: &str) -> bool
    ensures { result ≡ is_used (state_of_journal ledger.now).now id.now }
{
    ledger.find(id).is_some() || ledger.is_aside(id)
}

impl TakesRecords for Opening {
    ghost use Rattle.kmipa_stream.specs.Opening.{Opens, IsOpened};

    ghost holds = { Opens };

    ghost takes = { IsOpened };

    fn take(&mut self, given: DeclarationRecord) -> Result<(), RecordKind> {
        match given {
            DeclarationRecord::Row(row) => self.take_row(row),
            DeclarationRecord::Allow(line) => self.take_line(line),
            DeclarationRecord::Entry(entry) => self.take_entry(entry),
            DeclarationRecord::Own(attribute) => self.take_attribute(attribute),
            DeclarationRecord::Aside(id) => self.take_aside(id.as_str()),
        }
    }
}

/// The rules of a declaration with these settings, rows and lines; one without rows has the default ones.
pub fn rules_with(
    alloc: Global,
    settings: Settings,
    rows: Vec<Row>,
    allow_lines: Vec<AllowLine>,
) -> Result<Rules, AllocError>
    ensures { IfOk result
        (λ rules. rules_of rules
        ≡ record { unique_names = settings.unique_names; rows = rows_declared (map row_of rows.items); allow_lines = allow_lines.items; visibility = settings.visibility }) }
{
    let rows = if rows.is_empty() {
        Rules::default_rules(alloc)?.rows
    } else {
        rows
    };
    Ok(Rules {
        unique_names: settings.unique_names,
        rows,
        allow_lines,
        visibility: settings.visibility,
    })
}

/// Adds the object of an entry, whose identifier no object has. Refused for memory alone.
fn declare<L: Ledger>(ledger: &mut L, entry: Entry) -> Result<(), StoreFault>
    requires declarable { IsDeclarable (entry_of entry) }
    requires free { place_of (entry_of entry).id (cards_of (L.state ledger.old).now.objects) ≡ None }
    ensures { Declares (L.state ledger.old) (entry_of entry) result (L.state ledger.new) }
{
    let material = material_of(ledger, &entry)?;
    let life = life_of(&entry.attrs, material);
    let _place = ledger.add(Object {
        id: entry.id,
        kind: entry.kind,
        given: entry.attrs,
        life,
    })?;
    Ok(())
}

/// Where the bytes of a declared object are: a live one's in a new secret. Refused for memory alone.
fn material_of<L: Ledger>(ledger: &mut L, entry: &Entry) -> Result<Material, StoreFault>
    requires { IsDeclarable (entry_of entry.now) }
    ensures { Places (L.state ledger.old) (entry_of entry.now) result (L.state ledger.new) }
{
    if entry.attrs.destroy.is_some() {
        return Ok(Material::Gone);
    }
    let secret = ledger.new_secret(Rule::of(entry.kind, &entry.attrs))?;
    match &entry.bytes {
        Some(bytes) => {
            ledger.learn(secret, bytes)?;
            Ok(Material::Secret(secret))
        }
        None => Ok(Material::Secret(secret)),
    }
}

/// The life of an object with the dates among these attributes.
fn life_of(attrs: &AttrSet, material: Material) -> Life
    ensures dates { dates_of result ≡ dates_in (attributes_of attrs.now) }
    ensures material { result.material ≡ material }
{
    Life {
        initial: attrs.initial,
        activation: attrs.activation,
        deactivation: attrs.deactivation,
        destroy: attrs.destroy,
        compromise: attrs.compromise,
        material,
    }
}
