//! What the header of a declaration admits, within reach.

ghost use Rattle.std.specs.Prelude.{◌≡◌, ◌≢◌, ◌↔◌, ◌++◌, ℕ, List, [], IsTrue, false, IfOk, IfErr, MatchResult};
ghost use Rattle.kmipa_ttlv.specs.Input.{came_of, taken_of, is_failed, IsFileOf, StaysOver};
ghost use Rattle.kmipa_record.specs.DeclarationReading.{IsReadSoFar, IsRefused};
ghost use Rattle.kmipa_record.specs.DeclarationRecords.{IsFit};
ghost use Rattle.kmipa_record.specs.Declarations.{DeclarationOf, Admits, DeclarationFaultWithin, IsDeclarationUpToWithin, MayFollow, nothing_declared, with_record};
ghost use Rattle.kmipa_record.specs.Files.{Tells, TellsItem};
ghost use Rattle.kmipa_record.specs.Settings.{MayHave};
ghost use Rattle.kmipa_record.specs.Reaches.{ReachesSettings};
ghost use Rattle.kmipa_record.specs.Taking.{TakesAll, record_of};

use crate::declaration_header::DeclarationHeader;
use crate::declaration_record::DeclarationRecord;
use crate::declaration_version::DeclarationVersion;
use crate::fault::{RecordFault, RecordKind};
use crate::reach::Reach;
use crate::record::read_header;
use crate::taking::TakesRecords;
use kmipa_ttlv::Input;
use std::alloc::Global;
use std::io::Read;

/// The header of a declaration, of whose bytes none was read: `Header` where it is none, or out of reach.
pub fn read_declaration_header<R: Read>(
    alloc: Global,
    input: &mut Input<R>,
    bytes: &mut Vec<u8>,
    reach: Reach,
) -> Result<DeclarationHeader, RecordFault>
    requires { came_of input.old ≡ [] }
    ensures read { (after : List ℕ)
        → IfOk result
        (λ header. IsReadSoFar reach header (came_of input.new ++ after) (nothing_declared header.settings) after
        (taken_of input.new)) }
    ensures fault { (file : List ℕ) → IsFileOf file input.new
        → IfErr result
        (Tells (DeclarationFaultWithin reach) (IsDeclarationUpToWithin reach) file (is_failed input.new)) }
    ensures place { IfErr result (TellsItem (came_of input.new)) }
    ensures sound { MatchResult result (λ _. is_failed input.new ≡ false)
        (λ f. f.kind ≢ RecordKind.Device → is_failed input.new ≡ false) }
    ensures over { StaysOver R.remaining input.old input.new }
{
    let offset = input.taken();
    let header: DeclarationHeader = read_header(alloc, input, bytes)?;
    if !reach.reaches_settings(&header.settings) {
        return Err(RecordFault {
            offset,
            kind: RecordKind::Header,
        });
    }
    Ok(header)
}

/// Hands over a record, where a declaration with this header may have it.
pub fn hand_over<T: TakesRecords>(
    reach: Reach,
    header: &DeclarationHeader,
    given: DeclarationRecord,
    taker: &mut T,
) -> Result<(), RecordKind>
    requires may { MayHave header.now.version header.now.settings }
    requires reached { ReachesSettings reach header.now.settings }
    requires fit { IsFit (record_of given) }
    requires takes { TakesAll reach T.takes }
    requires held { (declared : DeclarationOf) × T.holds taker.old declared }
    ensures { (declared : DeclarationOf) → T.holds taker.old declared
        → MatchResult result
        (λ _. Admits reach header.now (record_of given) × MayFollow declared (record_of given)
        × T.holds taker.new (with_record declared (record_of given)))
        (IsRefused reach header.now declared (record_of given)) }
{
    if !admits(reach, header, &given) {
        return Err(RecordKind::Entry);
    }
    taker.take(given)
}

/// Whether a declaration with this header may have the record within reach.
fn admits(reach: Reach, header: &DeclarationHeader, given: &DeclarationRecord) -> bool
    ensures { IsTrue result ↔ Admits reach header.now (record_of given.now) }
{
    match given {
        DeclarationRecord::Row(_) => true,
        DeclarationRecord::Entry(entry) => entry.owner.is_none() || is_second(header),
        DeclarationRecord::Allow(_) | DeclarationRecord::Own(_) => is_second(header),
        DeclarationRecord::Aside(_) => reach.reaches_asides(&header.settings),
    }
}

fn is_second(header: &DeclarationHeader) -> bool
    ensures { IsTrue result ↔ (header.now.version ≡ DeclarationVersion.Second) }
{
    match header.version {
        DeclarationVersion::First => false,
        DeclarationVersion::Second => true,
    }
}
