//! `chain`: segments one after the other, with a line for each, and the line of the whole.

ghost use Rattle.std.specs.Prelude.{◌≡◌, ◌≢◌, ◌⊎◌, ◌++◌, ℕ, List, [], IsTrue, IfErr, IfOk, None, Some, Result, codes, string_bytes};
ghost use Rattle.std.specs.Io.{StartsWith, appended_bytes};
ghost use Rattle.kmipa_ttlv.specs.Input.{came_of, is_ended, is_failed, IsFileOf};
ghost use Rattle.kmipa_record.specs.Declarations.{AreDeclared, DeclarationOf, declaration_of, DeclarationFault, IsDeclaration, IsDeclarationUpTo};
ghost use Rattle.kmipa_record.specs.Files.{Tells};
ghost use Rattle.kmipa_record.specs.declared.fault.RecordFault.{RecordFault};
ghost use Rattle.kmipa_check.specs.declared.auditing.AuditFault.{AuditFault};
ghost use Rattle.kmipa_runs.specs.Lines.{PrintsFault};
ghost use Rattle.kmipa_searches.specs.Searches.{found_status, found_text};
ghost use Rattle.kmipa_jobs.specs.Statuses.{IsSilent};
ghost use Rattle.kmipa_segments.specs.Chaining.{EndsChain, IsChain, IsKept, IsKeptNext, IsNextOf, chain_text};
ghost use Rattle.kmipa_segments.specs.Chains.{ChecksNext, IsNamed, PrintsJudged, PrintsUnjudged, SearchesNext, TellsChecked, TellsSearched};
ghost use Rattle.kmipa_segments.specs.Comparing.{ComparesFile, Fits, PrintsCompared};
ghost use Rattle.kmipa_segments.specs.Leaving.{PrintsLeft};
ghost use Rattle.kmipa_segments.specs.declared.comparing.Compared.{Compared};
ghost use Rattle.kmipa_segments.specs.declared.next.NextSegment.{NextSegment};
ghost use Rattle.kmipa_segments.specs.declared.segment_search.FoundSegment.{FoundSegment};

use crate::asked::NextSearch;
use crate::chain::Chain;
use crate::comparing::{compare_input, compared_lines};
use crate::gaps::gap_lines;
use crate::leaving::{left_lines, tell_left};
use crate::next::Unjudged;
use kmipa_check::{AuditFault, Left};
use kmipa_jobs::Status;
use kmipa_orders::{Found, Watch};
use kmipa_record::write_witness;
use kmipa_runs::{append, fault_lines};
use kmipa_searches::{Searched, searched_lines};
use kmipa_ttlv::Input;
use std::alloc::{AllocError, Global};
use std::io::Read;

/// The chain of no segments, from the declaration that is read of an input of which nothing was read. Where that is none, appends the line of its
/// first fault and answers the status.
pub fn chain_begin<R: Read>(
    alloc: Global,
    declaration: &mut Input<R>,
    out: &mut Vec<u8>,
) -> Result<Chain, Status>
    requires { came_of declaration.old ≡ [] }
    ensures begins { IfOk result (λ chain.
        IsDeclaration (came_of declaration.new) (declaration_of chain.held.declaration)
        × IsTrue (is_ended declaration.new)
        × IsChain (declaration_of chain.held.declaration) [] chain) }
    ensures declared { IfOk result (λ chain. AreDeclared (declaration_of chain.held.declaration)) }
    ensures refuses { IfErr result (λ status. (fault : RecordFault)
        × ((d : List ℕ) → IsFileOf d declaration.new
        → Tells DeclarationFault IsDeclarationUpTo d (is_failed declaration.new) fault)
        × (PrintsFault (AuditFault.Declaration fault) status (appended_bytes out.old.items out.new.items)
        ⊎ IsSilent status (appended_bytes out.old.items out.new.items))) }
    ensures appends { StartsWith out.new.items out.old.items }
{
    Chain::read(alloc, declaration, out)
}

/// Judges the next segment of a chain by its witness: appends its name and the lines of the verdict, or of the fault in their place, and answers
/// the status. A segment that isn't linked behind those before it isn't judged, and the line of its gap is appended. At a yes the chain holds what
/// the segment leaves. Where memory runs out nothing is appended, and the status is `Failed`.
pub fn chain_check<R: Read>(
    alloc: Global,
    chain: &mut Chain,
    name: &str,
    transcript: &mut Input<R>,
    witness: &mut Input<R>,
    out: &mut Vec<u8>,
) -> Status
    requires declared { AreDeclared (declaration_of chain.old.held.declaration) }
    requires transcript { came_of transcript.old ≡ [] }
    requires witness { came_of witness.old ≡ [] }
    ensures prints { (outcome : Result NextSegment Unjudged)
        × ((t w : List ℕ) → IsFileOf t transcript.new → IsFileOf w witness.new
        → ChecksNext chain.old chain.new.links name.now t w (is_failed transcript.new) (is_failed witness.new) outcome)
        × (PrintsJudged (TellsChecked chain.old.held) name.now outcome result (appended_bytes out.old.items out.new.items)
        ⊎ IsSilent result (appended_bytes out.old.items out.new.items)) }
    // Status 0 is answered only where the chain goes on with what came of this segment.
    ensures goes_on { result ≡ Status.Done
        → IsNextOf chain.old chain.new
        (record { name = name.now; transcript = came_of transcript.new; witness = Some (came_of witness.new) })
        × IsTrue (is_ended transcript.new) × IsTrue (is_ended witness.new) }
    // Then chain_witness makes a witness by which this segment goes on; behind a no it makes none.
    ensures kept { result ≡ Status.Done → IsKeptNext chain.old chain.new name.now (came_of transcript.new) }
    ensures let_go { result ≢ Status.Done → (result ≡ Status.Failed) ⊎ (chain.new.witness ≡ None) }
    ensures declared { AreDeclared (declaration_of chain.new.held.declaration) }
    ensures appends { StartsWith out.new.items out.old.items }
{
    let mut told = Vec::new(alloc);
    match chain.check_next(alloc, name, transcript, witness, &mut told) {
        Ok(status) => append_named(alloc, name, &told, status, out),
        Err(unjudged) => tell_unjudged(alloc, name, &unjudged, out),
    }
}

/// Judges the next segment of a chain by a witness that is searched for, in the same way.
pub fn chain_search<R: Read, W: Watch>(
    alloc: Global,
    chain: &mut Chain,
    next: NextSearch<'_>,
    transcript: &mut Input<R>,
    watch: &mut W,
    out: &mut Vec<u8>,
) -> Status
    requires declared { AreDeclared (declaration_of chain.old.held.declaration) }
    requires transcript { came_of transcript.old ≡ [] }
    ensures prints { (outcome : Result FoundSegment Unjudged)
        × ((t : List ℕ) → IsFileOf t transcript.new
        → SearchesNext chain.old chain.new.links next.entry.name.now t (is_failed transcript.new)
        (W.seconds watch.old) next.entry.budget outcome)
        × (PrintsJudged TellsSearched next.entry.name.now outcome result (appended_bytes out.old.items out.new.items)
        ⊎ IsSilent result (appended_bytes out.old.items out.new.items)) }
    ensures goes_on { result ≡ Status.Done
        → IsNextOf chain.old chain.new
        (record { name = next.entry.name.now; transcript = came_of transcript.new; witness = None })
        × IsTrue (is_ended transcript.new) }
    // Then chain_witness makes a witness by which this segment goes on; behind a no it makes none.
    ensures kept { result ≡ Status.Done → IsKeptNext chain.old chain.new next.entry.name.now (came_of transcript.new) }
    ensures let_go { result ≢ Status.Done → (result ≡ Status.Failed) ⊎ (chain.new.witness ≡ None) }
    ensures declared { AreDeclared (declaration_of chain.new.held.declaration) }
    ensures appends { StartsWith out.new.items out.old.items }
{
    let mut told = Vec::new(alloc);
    match chain.search_next(alloc, next, transcript, watch, &mut told) {
        Ok(status) => append_named(alloc, next.name, &told, status, out),
        Err(unjudged) => tell_unjudged(alloc, next.name, &unjudged, out),
    }
}

/// Appends the witness by which the last segment was judged to `made`, as a file, where that was a yes. Where it wasn't, and where memory runs out,
/// nothing is appended, and the status is `Failed`.
pub fn chain_witness(alloc: Global, chain: &Chain, made: &mut Vec<u8>) -> Status
    ensures made { result ≡ Status.Done → IsKept chain.now (appended_bytes made.old.items made.new.items) }
    ensures nothing { result ≢ Status.Done → (result ≡ Status.Failed) × (made.new.items ≡ made.old.items) }
    ensures makes { StartsWith made.new.items made.old.items }
{
    let Some(witness) = &chain.witness else {
        return Status::Failed;
    };
    match write_witness(alloc, witness, made) {
        Ok(()) => Status::Done,
        Err(_) => Status::Failed,
    }
}

/// Appends why a segment wasn't judged: its name and the line of the fault, or the line of its gap. The status is never `Done`.
fn tell_unjudged(alloc: Global, name: &str, unjudged: &Unjudged, out: &mut Vec<u8>) -> Status
    ensures tells { PrintsUnjudged name.now unjudged.now result (appended_bytes out.old.items out.new.items)
        ⊎ IsSilent result (appended_bytes out.old.items out.new.items) }
    ensures undone { result ≢ Status.Done }
    ensures appends { StartsWith out.new.items out.old.items }
{
    match unjudged {
        Unjudged::Fault(fault) => tell_fault(alloc, name, fault, out),
        Unjudged::Gap(gap) => append(gap_lines(alloc, name, gap), out),
    }
}

fn tell_fault(alloc: Global, name: &str, fault: &AuditFault, out: &mut Vec<u8>) -> Status
    ensures tells { IsNamed name.now (λ told. PrintsFault fault.now result told)
        (appended_bytes out.old.items out.new.items)
        ⊎ IsSilent result (appended_bytes out.old.items out.new.items) }
    ensures undone { result ≢ Status.Done }
    ensures appends { StartsWith out.new.items out.old.items }
{
    match fault_lines(alloc, fault) {
        Ok(lines) => append_named(alloc, name, lines.text.as_bytes(), lines.status, out),
        Err(_) => Status::Failed,
    }
}

/// Appends that a segment isn't judged, since so many seconds, all that the chain has, are over: its name, and the line of a search that ended
/// ahead of its first step. The status is never `Done`. Where memory runs out nothing is appended, and the status is `Failed`.
pub fn chain_out_of_time(alloc: Global, name: &str, seconds: u64, out: &mut Vec<u8>) -> Status
    ensures tells { ((result ≡ found_status (Found.OutOfTime 0 seconds))
        × IsNamed name.now (λ told. told ≡ found_text (Found.OutOfTime 0 seconds))
        (appended_bytes out.old.items out.new.items))
        ⊎ IsSilent result (appended_bytes out.old.items out.new.items) }
    ensures undone { result ≢ Status.Done }
    ensures appends { StartsWith out.new.items out.old.items }
{
    let searched = Searched {
        forced: None,
        found: Found::OutOfTime(0, seconds),
        tally: None,
    };
    match searched_lines(alloc, &searched) {
        Ok(lines) => append_named(alloc, name, lines.text.as_bytes(), lines.status, out),
        Err(_) => Status::Failed,
    }
}

/// Holds a declaration that the server was asked for against what the segments so far leave: appends its name and the line of the first
/// difference, or that there is none, or of the file's first fault, and answers the status. Where memory runs out nothing is appended, and the
/// status is `Failed`.
pub fn chain_compare<R: Read>(
    alloc: Global,
    chain: &Chain,
    name: &str,
    told: &mut Input<R>,
    out: &mut Vec<u8>,
) -> Status
    requires { came_of told.old ≡ [] }
    ensures prints { (outcome : Result Compared RecordFault)
        × ((d : List ℕ) → IsFileOf d told.new
        → ComparesFile (declaration_of chain.now.held.declaration) d (is_failed told.new) outcome)
        × (IsNamed name.now (λ lines. PrintsCompared outcome result lines) (appended_bytes out.old.items out.new.items)
        ⊎ IsSilent result (appended_bytes out.old.items out.new.items)) }
    // Status 0 is answered only where what is told fits.
    ensures fits { result ≡ Status.Done → (other : DeclarationOf) × IsDeclaration (came_of told.new) other
        × Fits (declaration_of chain.now.held.declaration) other × IsTrue (is_ended told.new) }
    ensures appends { StartsWith out.new.items out.old.items }
{
    let compared = compare_input(alloc, &chain.held.declaration, told);
    let Ok(lines) = compared_lines(alloc, &compared) else {
        return Status::Failed;
    };
    append_named(alloc, name, lines.text.as_bytes(), lines.status, out)
}

/// Appends the line of a whole chain of so many segments, each of which was a yes: how many calls they take, and what is left. Where the
/// declaration that is left is asked for, `--leaves OUT`, it is appended to `made`, as a file; where no bytes are that declaration, the line says
/// why, and nothing is made. Where memory runs out nothing is appended to either, and the status is `Failed`.
pub fn chain_end(
    alloc: Global,
    chain: &Chain,
    segments: usize,
    leaves: bool,
    out: &mut Vec<u8>,
    made: &mut Vec<u8>,
) -> Status
    ensures tells { EndsChain leaves (chain_text segments chain.now.calls) chain.now.held result
        (appended_bytes out.old.items out.new.items) (appended_bytes made.old.items made.new.items)
        ⊎ (IsSilent result (appended_bytes out.old.items out.new.items)
        × (appended_bytes made.old.items made.new.items ≡ [])) }
    ensures nothing { result ≢ Status.Done → made.new.items ≡ made.old.items }
    ensures appends { StartsWith out.new.items out.old.items }
    ensures makes { StartsWith made.new.items made.old.items }
{
    let Ok(front) = front_text(alloc, segments, chain.calls) else {
        return Status::Failed;
    };
    if leaves {
        tell_left(alloc, front.as_str(), &chain.held, out, made)
    } else {
        tell_held(alloc, front.as_str(), &chain.held, out)
    }
}

fn front_text(alloc: Global, segments: usize, calls: u64) -> Result<String, AllocError>
    ensures { IfOk result (λ text. string_bytes text ≡ chain_text segments calls) }
{
    format!(in alloc; "chain: {segments} segments, {calls} calls; ")
}

/// Appends a front and the line of what is left, where its declaration isn't asked for.
fn tell_held(alloc: Global, front: &str, left: &Left, out: &mut Vec<u8>) -> Status
    ensures tells { ((result ≡ Status.Done) × ((told : List ℕ) × PrintsLeft left.now told
        × (appended_bytes out.old.items out.new.items ≡ front.now ++ told)))
        ⊎ IsSilent result (appended_bytes out.old.items out.new.items) }
    ensures appends { StartsWith out.new.items out.old.items }
{
    let Ok(text) = left_lines(alloc, front, left) else {
        return Status::Failed;
    };
    if out.extend_from_slice(text.as_bytes()).is_err() {
        return Status::Failed;
    }
    Status::Done
}

/// Appends the lines of a segment behind its name. Where there are none, memory ran out.
fn append_named(alloc: Global, name: &str, told: &[u8], status: Status, out: &mut Vec<u8>) -> Status
    ensures named { ((result ≡ status) × (told.now ≢ [])
        × (appended_bytes out.old.items out.new.items ≡ name.now ++ (codes ": " ++ told.now)))
        ⊎ IsSilent result (appended_bytes out.old.items out.new.items) }
    ensures appends { StartsWith out.new.items out.old.items }
{
    if told.is_empty() {
        return Status::Failed;
    }
    let Ok(lines) = named_lines(alloc, name, told) else {
        return Status::Failed;
    };
    if out.extend_from_slice(&lines).is_err() {
        return Status::Failed;
    }
    status
}

fn named_lines(alloc: Global, name: &str, told: &[u8]) -> Result<Vec<u8>, AllocError>
    ensures { IfOk result (λ lines. lines.items ≡ name.now ++ (codes ": " ++ told.now)) }
{
    let mut lines = Vec::new(alloc);
    lines.extend_from_slice(name.as_bytes())?;
    lines.extend_from_slice(b": ")?;
    lines.extend_from_slice(told)?;
    Ok(lines)
}
