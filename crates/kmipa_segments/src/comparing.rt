//! What a server was asked for between two segments, held against what its answers leave by then.

ghost use Rattle.std.specs.Prelude.{◌≡◌, ◌↔◌, ◌<◌, ℕ, List, [], IfOk, IsTrue, MatchOption, length, map, option_map, string_bytes, true};
ghost use Rattle.kmipa_ttlv.specs.Input.{came_of, is_ended, is_failed, IsFileOf};
ghost use Rattle.kmipa_record.specs.Declarations.{declaration_of};
ghost use Rattle.kmipa_record.specs.Entries.{entry_of};
ghost use Rattle.kmipa_segments.specs.Comparing.{AreCompared, AreKnown, AreTold, ComparesAmong, ComparesFile, DiffersAmong, HasAlike, IsFound, IsMisfit, IsOf, IsToldOrNot, PrintsCompared, PrintsDifference, PrintsFitting, difference_text};

use crate::parts::{Part, part_apart};
use kmipa_check::AuditFault;
use kmipa_jobs::Status;
use kmipa_record::{Declaration, Entry, RecordFault, RecordKind, read_declaration};
use kmipa_runs::{Lines, fault_lines, quoted_text};
use kmipa_ttlv::Input;
use std::alloc::{AllocError, Global};
use std::collections::BTreeMap;
use std::io::Read;

/// How what a server tells of its objects differs from what its answers leave.
#[derive(Drop)]
pub enum Difference {
    /// A live object of this identifier is left, and isn't told.
    Untold(String),
    /// An object of this identifier is told, and isn't left.
    Unleft(String),
    /// The object of this identifier is left and told, and differs in this part.
    Other(String, Part),
}

/// What came of comparing a declaration.
#[derive(Drop)]
pub struct Compared {
    /// How many objects it tells of.
    pub entries: usize,
    /// The first difference, if there is one: first of those that are told, then of those that are left.
    pub difference: Option<Difference>,
}

/// Reads a declaration that a server was asked for, of which nothing was read, and holds it against the one that is left.
pub fn compare_input<R: Read>(
    alloc: Global,
    left: &Declaration,
    input: &mut Input<R>,
) -> Result<Compared, RecordFault>
    requires { came_of input.old ≡ [] }
    ensures compares { (d : List ℕ) → IsFileOf d input.new
        → ComparesFile (declaration_of left.now) d (is_failed input.new) result }
    ensures reads { IfOk result (λ compared.
        AreCompared (declaration_of left.now) compared (came_of input.new) × IsTrue (is_ended input.new)) }
{
    let told = read_declaration(alloc, input)?;
    match first_difference(alloc, &left.entries, &told.entries) {
        Ok(difference) => Ok(Compared {
            entries: told.entries.len(),
            difference,
        }),
        Err(_) => Err(RecordFault {
            offset: 0,
            kind: RecordKind::Memory,
        }),
    }
}

/// The first difference between what is left and what is told.
fn first_difference(
    alloc: Global,
    left: &[Entry],
    told: &[Entry],
) -> Result<Option<Difference>, AllocError>
    ensures { IfOk result (ComparesAmong (map entry_of left.now) (map entry_of told.now)) }
{
    match first_misfit(alloc, left, told)? {
        Some(difference) => Ok(Some(difference)),
        None => first_untold(alloc, left, told),
    }
}

/// The first of the objects that are told that isn't left, or differs.
fn first_misfit(
    alloc: Global,
    left: &[Entry],
    told: &[Entry],
) -> Result<Option<Difference>, AllocError>
    ensures { IfOk result (λ difference. MatchOption difference
        (AreKnown (map entry_of left.now) (map entry_of told.now))
        (DiffersAmong (map entry_of left.now) (map entry_of told.now))) }
{
    let places = places_of(alloc, left)?;
    let mut place = 0;
    'told: while place < told.len() {
        let entry = &told[place];
        if let Some(difference) = misfit(alloc, entry, left, &places)? {
            return Ok(Some(difference));
        }
        place += 1;
    }
    Ok(None)
}

/// How an object that is told differs from those that are left, if it does.
fn misfit(
    alloc: Global,
    entry: &Entry,
    left: &[Entry],
    places: &BTreeMap<&str, usize>,
) -> Result<Option<Difference>, AllocError>
    ensures { IfOk result (λ difference. MatchOption difference
        (HasAlike (map entry_of left.now) (entry_of entry.now))
        (IsMisfit (map entry_of left.now) (entry_of entry.now))) }
{
    let Some(own) = find(left, places, entry.id.as_str()) else {
        return Ok(Some(Difference::Unleft(copy_of(alloc, entry)?)));
    };
    let Some(part) = part_apart(own, entry) else {
        return Ok(None);
    };
    Ok(Some(Difference::Other(copy_of(alloc, entry)?, part)))
}

/// The first of the live objects that are left that isn't told.
fn first_untold(
    alloc: Global,
    left: &[Entry],
    told: &[Entry],
) -> Result<Option<Difference>, AllocError>
    ensures { IfOk result (λ difference. MatchOption difference
        (AreTold (map entry_of left.now) (map entry_of told.now))
        (DiffersAmong (map entry_of left.now) (map entry_of told.now))) }
{
    let places = places_of(alloc, told)?;
    let mut place = 0;
    'left: while place < left.len() {
        let entry = &left[place];
        if is_untold(entry, told, &places) {
            return Ok(Some(Difference::Untold(copy_of(alloc, entry)?)));
        }
        place += 1;
    }
    Ok(None)
}

/// Whether an object is live, and isn't among those that are told.
fn is_untold(entry: &Entry, told: &[Entry], places: &BTreeMap<&str, usize>) -> bool
    ensures { IsToldOrNot (entry_of entry.now) (map entry_of told.now) result }
{
    match entry.attrs.destroy {
        Some(_) => false,
        None => find(told, places, entry.id.as_str()).is_none(),
    }
}

fn copy_of(alloc: Global, entry: &Entry) -> Result<String, AllocError>
    ensures { IfOk result (λ id. string_bytes id ≡ (entry_of entry.now).id) }
{
    String::from_str(alloc, entry.id.as_str())
}

/// Where each identifier stands: a hint, which saves looking through all.
fn places_of(alloc: Global, entries: &[Entry]) -> Result<BTreeMap<&str, usize>, AllocError> {
    let mut places = BTreeMap::new(alloc);
    let mut place = 0;
    'entries: while place < entries.len() {
        places.insert(entries[place].id.as_str(), place)?;
        place += 1;
    }
    Ok(places)
}

/// The object of an identifier, by the hint or else by looking through all.
fn find<'a>(entries: &'a [Entry], places: &BTreeMap<&str, usize>, id: &str) -> Option<&'a Entry>
    ensures { IsFound (map entry_of entries.now) id.now (option_map (λ entry. entry_of entry.now) result) }
{
    if let Some(place) = places.get(id) {
        if is_at(entries, *place, id) {
            return Some(&entries[*place]);
        }
    }
    look_through(entries, id)
}

/// Whether the object of an identifier stands at a place.
fn is_at(entries: &[Entry], place: usize, id: &str) -> bool
    ensures { result ≡ true → (place < length entries.now) × IsOf (map entry_of entries.now) place id.now }
{
    place < entries.len() && is_of(&entries[place], id)
}

/// Whether an object has this identifier.
fn is_of(entry: &Entry, id: &str) -> bool
    ensures { IsTrue result ↔ ((entry_of entry.now).id ≡ id.now) }
{
    entry.id.as_str() == id
}

fn look_through<'a>(entries: &'a [Entry], id: &str) -> Option<&'a Entry>
    ensures { IsFound (map entry_of entries.now) id.now (option_map (λ entry. entry_of entry.now) result) }
{
    let mut place = 0;
    'entries: while place < entries.len() {
        let entry = &entries[place];
        if is_of(entry, id) {
            return Some(entry);
        }
        place += 1;
    }
    None
}

/// The line of what a comparison answers.
pub fn compared_lines(
    alloc: Global,
    compared: &Result<Compared, RecordFault>,
) -> Result<Lines, AllocError>
    ensures { IfOk result (λ lines. PrintsCompared compared.now lines.status (string_bytes lines.text)) }
{
    match compared {
        Ok(compared) => match &compared.difference {
            None => fits_lines(alloc, compared.entries),
            Some(difference) => difference_lines(alloc, difference),
        },
        Err(fault) => fault_lines(alloc, &AuditFault::Declaration(*fault)),
    }
}

fn fits_lines(alloc: Global, entries: usize) -> Result<Lines, AllocError>
    ensures { IfOk result (λ lines. PrintsFitting entries lines.status (string_bytes lines.text)) }
{
    Ok(Lines {
        text: format!(in alloc; "fits: {entries} entries\n")?,
        status: Status::Done,
    })
}

fn difference_lines(alloc: Global, difference: &Difference) -> Result<Lines, AllocError>
    ensures { IfOk result (λ lines. PrintsDifference difference.now lines.status (string_bytes lines.text)) }
{
    Ok(Lines {
        text: difference_text(alloc, difference)?,
        status: Status::No,
    })
}

fn difference_text(alloc: Global, difference: &Difference) -> Result<String, AllocError>
    ensures { IfOk result (λ text. string_bytes text ≡ difference_text difference.now) }
{
    match difference {
        Difference::Untold(id) => {
            let object = quoted_text(alloc, id.as_str())?;
            format!(in alloc; "differs: object {object} is left and not told\n")
        }
        Difference::Unleft(id) => {
            let object = quoted_text(alloc, id.as_str())?;
            format!(in alloc; "differs: object {object} is told and not left\n")
        }
        Difference::Other(id, part) => {
            let object = quoted_text(alloc, id.as_str())?;
            let part = part.name();
            format!(in alloc; "differs: object {object} in {part}\n")
        }
    }
}
