//! Declarations: what a server held before the first call.

ghost use Rattle.std.specs.Prelude.{◌≡◌, ◌<◌, ◌≢◌, ℕ, List, [], true, false, IsTrue, IfOk, IfErr, MatchResult};
ghost use Rattle.kmipa_ttlv.specs.Input.{came_of, taken_of, is_ended, is_failed, IsFileOf, StaysOver};
ghost use Rattle.kmipa_record.specs.Files.{Tells, TellsItem};
ghost use Rattle.kmipa_record.specs.DeclarationReading.{HasRead};
ghost use Rattle.kmipa_record.specs.Declarations.{declaration_of, nothing_declared, AreDeclared, IsDeclaration, DeclarationFault, IsDeclarationUpTo, IsDeclarationWithin, DeclarationFaultWithin, IsDeclarationUpToWithin};
ghost use Rattle.kmipa_record.specs.Taking.{HasTaken, TakesAll};
ghost use Rattle.kmipa_record.specs.declared.settings.Settings.{Settings};

use crate::admitting::{hand_over, read_declaration_header};
use crate::declaration_header::DeclarationHeader;
use crate::declaration_record::DeclarationRecord;
use crate::entry::Entry;
use crate::fault::{RecordFault, RecordKind};
use crate::own_attribute::OwnAttribute;
use crate::reach::Reach;
use crate::record::{Next, read_next};
use crate::records::Records;
use crate::settings::Settings;
use crate::taking::TakesRecords;
use kmipa_msgs::Row;
use kmipa_object::AllowLine;
use kmipa_ttlv::Input;
use std::alloc::Global;
use std::io::Read;

/// What is declared of a server.
#[derive(Drop)]
pub struct Declaration {
    pub settings: Settings,
    /// The causes of its refusals; where there is none, Item Not Found is for what isn't there.
    pub rows: Vec<Row>,
    /// Its own words for cells of the table of states.
    pub allow_lines: Vec<AllowLine>,
    /// The attributes that it may give an object at birth by itself.
    pub own_attributes: Vec<OwnAttribute>,
    /// The objects that it held, in the order of their arrival.
    pub entries: Vec<Entry>,
    /// Identifiers that are set aside.
    pub asides: Vec<String>,
}

/// Reads a declaration by which calls are judged, of whose bytes none was read.
///
/// `Device` and `Memory` are reported with the place of the item that was being read.
pub fn read_declaration<R: Read>(
    alloc: Global,
    input: &mut Input<R>,
) -> Result<Declaration, RecordFault>
    requires { came_of input.old ≡ [] }
    // What is read is what the bytes are that came, to the end that was seen.
    ensures found { IfOk result
        (λ declaration. IsDeclaration (came_of input.new) (declaration_of declaration) × IsTrue (is_ended input.new)) }
    // What is read may be declared.
    ensures declared { IfOk result (λ declaration. AreDeclared (declaration_of declaration)) }
    // Else the first fault is reported, whatever follows what came, and nothing where the end was seen;
    // unless a read failed or memory ran out.
    ensures fault { (file : List ℕ) → IsFileOf file input.new
        → IfErr result (Tells DeclarationFault IsDeclarationUpTo file (is_failed input.new)) }
    // These two are reported where the item begins that was being read.
    ensures place { IfErr result (TellsItem (came_of input.new)) }
    ensures sound { MatchResult result (λ _. is_failed input.new ≡ false)
        (λ f. f.kind ≢ RecordKind.Device → is_failed input.new ≡ false) }
    // Over a reader whose bytes are known what came is their front, and all where the end was seen.
    ensures over { StaysOver R.remaining input.old input.new }
{
    read_declaration_within(alloc, input, Reach::Judged)
}

/// Reads a declaration as far as `reach` says, of whose bytes none was read: what is out of reach is a fault, as in `read_declaration`.
pub fn read_declaration_within<R: Read>(
    alloc: Global,
    input: &mut Input<R>,
    reach: Reach,
) -> Result<Declaration, RecordFault>
    requires { came_of input.old ≡ [] }
    ensures found { IfOk result
        (λ declaration. IsDeclarationWithin reach (came_of input.new) (declaration_of declaration)
        × IsTrue (is_ended input.new)) }
    ensures declared { IfOk result (λ declaration. AreDeclared (declaration_of declaration)) }
    ensures fault { (file : List ℕ) → IsFileOf file input.new
        → IfErr result
        (Tells (DeclarationFaultWithin reach) (IsDeclarationUpToWithin reach) file (is_failed input.new)) }
    ensures place { IfErr result (TellsItem (came_of input.new)) }
    ensures sound { MatchResult result (λ _. is_failed input.new ≡ false)
        (λ f. f.kind ≢ RecordKind.Device → is_failed input.new ≡ false) }
    ensures over { StaysOver R.remaining input.old input.new }
{
    let mut records = Records::new(alloc);
    let settings = read_declaration_into(alloc, input, reach, &mut records)?;
    Ok(records.into_declaration(settings))
}

/// Reads a declaration of whose bytes none was read into what takes its records, and answers its settings.
pub fn read_declaration_into<R: Read, T: TakesRecords>(
    alloc: Global,
    input: &mut Input<R>,
    reach: Reach,
    taker: &mut T,
) -> Result<Settings, RecordFault>
    requires came { came_of input.old ≡ [] }
    // It took nothing so far.
    requires none { (settings : Settings) → T.holds taker.old (nothing_declared settings) }
    requires takes { TakesAll reach T.takes }
    // It stands for what the bytes are that came, to the end that was seen.
    ensures found { IfOk result
        (λ settings. HasTaken reach T.holds settings (came_of input.new) taker.new × IsTrue (is_ended input.new)) }
    // Else as `read_declaration_within`.
    ensures fault { (file : List ℕ) → IsFileOf file input.new
        → IfErr result
        (Tells (DeclarationFaultWithin reach) (IsDeclarationUpToWithin reach) file (is_failed input.new)) }
    ensures place { IfErr result (TellsItem (came_of input.new)) }
    ensures sound { MatchResult result (λ _. is_failed input.new ≡ false)
        (λ f. f.kind ≢ RecordKind.Device → is_failed input.new ≡ false) }
    ensures over { StaysOver R.remaining input.old input.new }
{
    let mut bytes = Vec::new(alloc);
    let header = read_declaration_header(alloc, input, &mut bytes, reach)?;
    'records: while read_record(alloc, input, &mut bytes, reach, &header, taker)? {}
    Ok(header.settings)
}

/// Hands over the next record of a declaration with this header; `false` at the end.
fn read_record<R: Read, T: TakesRecords>(
    alloc: Global,
    input: &mut Input<R>,
    bytes: &mut Vec<u8>,
    reach: Reach,
    header: &DeclarationHeader,
    taker: &mut T,
) -> Result<bool, RecordFault>
    requires read { HasRead reach header.now T.holds (came_of input.old) taker.old }
    requires takes { TakesAll reach T.takes }
    ensures read { IfOk result (λ _. HasRead reach header.now T.holds (came_of input.new) taker.new) }
    ensures fault { (file : List ℕ) → IsFileOf file input.new
        → IfErr result
        (Tells (DeclarationFaultWithin reach) (IsDeclarationUpToWithin reach) file (is_failed input.new)) }
    ensures place { IfErr result (TellsItem (came_of input.new)) }
    ensures end { IfOk result (λ more. more ≡ false → IsTrue (is_ended input.new)) }
    ensures nearer { IfOk result (λ more. more ≡ true → taken_of input.old < taken_of input.new) }
    ensures sound { MatchResult result (λ _. is_failed input.new ≡ false)
        (λ f. f.kind ≢ RecordKind.Device → is_failed input.new ≡ false) }
    ensures over { StaysOver R.remaining input.old input.new }
{
    let offset = input.taken();
    let next: Next<DeclarationRecord> = read_next(alloc, input, bytes)?;
    match next {
        Next::End => Ok(false),
        Next::Other => Err(RecordFault {
            offset,
            kind: RecordKind::Entry,
        }),
        Next::Record(next_record) => match hand_over(reach, header, next_record, taker) {
            Ok(()) => Ok(true),
            Err(kind) => Err(RecordFault { offset, kind }),
        },
    }
}
