//! What a check tells in JSON.

ghost use Rattle.std.specs.Prelude.{◌≡◌, take, IfOk, string_bytes};
ghost use Rattle.kmipa_ttlv.specs.Input.{came_of};
ghost use Rattle.kmipa_json.specs.Told.{items_of, members_of};
ghost use Rattle.kmipa_telling.specs.Held.{HoldsAll};
ghost use Rattle.kmipa_telling.specs.Seals.{KnowsJudged};
ghost use Rattle.kmipa_telling.specs.Telling.{PrintsJson, TellsOutcome, audit_head, check_files, input_members, opened, own_bytes, read_members, transcript_members};

use crate::held::ReadFiles;
use crate::seals::tell_seal;
use crate::telling::{tell_fault, tell_verdict};
use kmipa_check::{AuditFault, Audited};
use kmipa_jobs::Status;
use kmipa_json::{JsonList, JsonObject, told_file};
use kmipa_record::Head;
use kmipa_runs::Lines;
use kmipa_ttlv::Input;
use std::alloc::{AllocError, Global};

/// The version of the auditor.
pub const VERSION: &str = "0.1.0";

/// The head of the transcript that was audited, if it is sealed.
pub fn audit_head(outcome: Result<Audited, AuditFault>) -> Option<Head>
    ensures { result ≡ audit_head outcome }
{
    match outcome {
        Ok(audited) => audited.transcript.head,
        Err(_) => None,
    }
}

/// The object of an audit of files whose bytes are held, with this outcome, on a line.
pub fn audited_object<R>(
    alloc: Global,
    torn: Option<u64>,
    files: &ReadFiles<R>,
    outcome: &Result<Audited, AuditFault>,
) -> Result<Lines, AllocError>
    requires held { HoldsAll files.now.held.now files.now.transcript.now files.now.declaration.now
        files.now.witness.now }
    requires known { KnowsJudged outcome.now (came_of files.now.transcript.now) (audit_head outcome.now) }
    ensures { IfOk result (λ lines. PrintsJson torn files.now.transcript.now files.now.declaration.now
        files.now.witness.now outcome.now lines.status (string_bytes lines.text)) }
{
    let mut told = opened_object(alloc, torn, files, outcome)?;
    let status = tell_outcome(alloc, &mut told, outcome)?;
    Ok(Lines {
        text: told.into_line()?,
        status,
    })
}

/// An object that has what every one has, where an audit of these files had this outcome.
fn opened_object<R>(
    alloc: Global,
    torn: Option<u64>,
    files: &ReadFiles<R>,
    outcome: &Result<Audited, AuditFault>,
) -> Result<JsonObject, AllocError>
    requires { HoldsAll files.now.held.now files.now.transcript.now files.now.declaration.now
        files.now.witness.now }
    ensures { IfOk result (λ told. members_of told
        ≡ opened (check_files torn (audit_head outcome.now) files.now.transcript.now files.now.declaration.now
        files.now.witness.now)) }
{
    match outcome {
        Ok(audited) => open_files(alloc, torn, files, &audited.transcript.head),
        Err(_) => open_files(alloc, torn, files, &None),
    }
}

/// An object that has what every one has, where these files were read whose bytes are held, and this head is to be told of the transcript.
pub fn open_files<R>(
    alloc: Global,
    torn: Option<u64>,
    files: &ReadFiles<R>,
    known: &Option<Head>,
) -> Result<JsonObject, AllocError>
    requires { HoldsAll files.now.held.now files.now.transcript.now files.now.declaration.now
        files.now.witness.now }
    ensures { IfOk result (λ told. members_of told
        ≡ opened (check_files torn known.now files.now.transcript.now files.now.declaration.now
        files.now.witness.now)) }
{
    let mut told = JsonList::new(alloc);
    told.push_object(transcript_object(
        alloc,
        torn,
        files.transcript,
        &files.held.transcript,
        known,
    )?)?;
    told.push_object(read_object(
        alloc,
        "declaration",
        files.declaration,
        &files.held.declaration,
    )?)?;
    told.push_object(read_object(alloc, "witness", files.witness, &files.held.witness)?)?;
    open_object(alloc, told)
}

/// What is told of a transcript that was read, whose bytes are held, and this head.
pub fn transcript_object<R>(
    alloc: Global,
    torn: Option<u64>,
    input: &Input<R>,
    held: &[u8],
    known: &Option<Head>,
) -> Result<JsonObject, AllocError>
    requires { held.now ≡ came_of input.now }
    ensures { IfOk result (λ told. members_of told ≡ transcript_members torn known.now input.now) }
{
    let own = own_bytes(torn, held);
    let mut told = file_object(alloc, "transcript", input.ended(), own)?;
    tell_seal(alloc, &mut told, torn, known)?;
    Ok(told)
}

/// The bytes of a transcript that are its own; of a torn one they are so many.
fn own_bytes(torn: Option<u64>, held: &[u8]) -> &[u8]
    ensures { result.now ≡ own_bytes torn held.now }
{
    match torn {
        Some(length) => front_of(held, length as usize),
        None => held,
    }
}

/// So many bytes, or all where there are no more.
fn front_of(held: &[u8], length: usize) -> &[u8]
    ensures { result.now ≡ take length held.now }
{
    if held.len() <= length {
        return held;
    }
    let (front, _) = held.split_at(length);
    front
}

/// What is told of a file that was read, whose bytes are held.
pub fn read_object<R>(
    alloc: Global,
    role: &str,
    input: &Input<R>,
    held: &[u8],
) -> Result<JsonObject, AllocError>
    requires { held.now ≡ came_of input.now }
    ensures { IfOk result (λ told. members_of told ≡ input_members role.now input.now) }
{
    file_object(alloc, role, input.ended(), held)
}

/// What is told of a file of these bytes, which was read to its end or not.
fn file_object(
    alloc: Global,
    role: &str,
    ended: bool,
    bytes: &[u8],
) -> Result<JsonObject, AllocError>
    ensures { IfOk result (λ told. members_of told ≡ read_members role.now ended bytes.now) }
{
    if ended {
        return told_file(alloc, role, bytes);
    }
    let mut told = JsonObject::new(alloc);
    told.put_text("role", role)?;
    Ok(told)
}

/// An object that has what every one has.
pub fn open_object(alloc: Global, files: JsonList) -> Result<JsonObject, AllocError>
    ensures { IfOk result (λ told. members_of told ≡ opened (items_of files)) }
{
    let mut told = JsonObject::new(alloc);
    told.put_text("auditor", VERSION)?;
    told.put_list("files", files)?;
    Ok(told)
}

fn tell_outcome(
    alloc: Global,
    told: &mut JsonObject,
    outcome: &Result<Audited, AuditFault>,
) -> Result<Status, AllocError>
    ensures { IfOk result (λ status. TellsOutcome outcome.now status (members_of told.old) (members_of told.new)) }
{
    match outcome {
        Ok(audited) => tell_verdict(
            alloc,
            told,
            &audited.verdict,
            &audited.transcript,
            &audited.declaration,
            &audited.witness,
        ),
        Err(fault) => tell_fault(alloc, told, fault),
    }
}
