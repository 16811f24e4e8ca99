//! What an object of a judging has whatever it tells: the files that were read; and faults that are told with them.

ghost use Rattle.std.specs.Prelude.{◌≡◌, ◌⊎◌, IfOk, None, Some, option_map, string_bytes};
ghost use Rattle.kmipa_ttlv.specs.Input.{came_of};
ghost use Rattle.kmipa_json.specs.Told.{members_of};
ghost use Rattle.kmipa_judge.specs.Forms.{IsHeld, ahead, judge_files};
ghost use Rattle.kmipa_judge.specs.Object.{TellsFaultWhole};
ghost use Rattle.kmipa_judge.specs.Runs.{MakesNothing, PrintsFaultSo};
ghost use Rattle.kmipa_jobs.specs.Statuses.{IsSilent};
ghost use Rattle.kmipa_telling.specs.Telling.{opened};

use crate::form::JudgeForm;
use crate::run::JudgeRun;
use kmipa_check::AuditFault;
use kmipa_json::{JsonList, JsonObject};
use kmipa_record::Head;
use kmipa_runs::{Lines, append, fault_lines};
use kmipa_telling::{FaultTold, open_object, read_object, tell_fault_told, transcript_object};
use kmipa_ttlv::Input;
use std::alloc::{AllocError, Global};

/// What came of the files of a judging, where it is held.
#[derive(Drop)]
pub(crate) struct JudgeHeld {
    pub transcript: Vec<u8>,
    pub declaration: Vec<u8>,
}

impl JudgeHeld {
    ghost use Rattle.std.specs.Prelude.{◌≡◌, []};

    /// No bytes.
    pub(crate) fn new(alloc: Global) -> JudgeHeld
        ensures transcript { result.transcript.items ≡ [] }
        ensures declaration { result.declaration.items ≡ [] }
    {
        JudgeHeld {
            transcript: Vec::new(alloc),
            declaration: Vec::new(alloc),
        }
    }
}

/// The object that is opened for the two files, where one is asked for, with this head of the transcript.
pub(crate) fn open_both<R>(
    alloc: Global,
    form: JudgeForm,
    transcript: &Input<R>,
    declaration: &Input<R>,
    held: &JudgeHeld,
    known: &Option<Head>,
) -> Result<Option<JsonObject>, AllocError>
    requires transcript { IsHeld form held.now.transcript.items transcript.now }
    requires declaration { IsHeld form held.now.declaration.items declaration.now }
    ensures { IfOk result (λ told. option_map members_of told
        ≡ ahead form known.now transcript.now (Some declaration.now)) }
{
    match form {
        JudgeForm::Lines => Ok(None),
        JudgeForm::Object(torn) => {
            let told = object_of_both(alloc, torn, transcript, declaration, held, known)?;
            Ok(Some(told))
        }
    }
}

fn object_of_both<R>(
    alloc: Global,
    torn: Option<u64>,
    transcript: &Input<R>,
    declaration: &Input<R>,
    held: &JudgeHeld,
    known: &Option<Head>,
) -> Result<JsonObject, AllocError>
    requires transcript { held.now.transcript.items ≡ came_of transcript.now }
    requires declaration { held.now.declaration.items ≡ came_of declaration.now }
    ensures { IfOk result (λ told. members_of told
        ≡ opened (judge_files torn known.now transcript.now (Some declaration.now))) }
{
    let mut files = JsonList::new(alloc);
    files.push_object(transcript_object(alloc, torn, transcript, &held.transcript, known)?)?;
    files.push_object(read_object(alloc, "declaration", declaration, &held.declaration)?)?;
    open_object(alloc, files)
}

/// The same for a transcript alone.
pub(crate) fn open_one<R>(
    alloc: Global,
    form: JudgeForm,
    transcript: &Input<R>,
    held: &[u8],
    known: &Option<Head>,
) -> Result<Option<JsonObject>, AllocError>
    requires { IsHeld form held.now transcript.now }
    ensures { IfOk result (λ told. option_map members_of told ≡ ahead form known.now transcript.now None) }
{
    match form {
        JudgeForm::Lines => Ok(None),
        JudgeForm::Object(torn) => {
            let told = object_of_one(alloc, torn, transcript, held, known)?;
            Ok(Some(told))
        }
    }
}

fn object_of_one<R>(
    alloc: Global,
    torn: Option<u64>,
    transcript: &Input<R>,
    held: &[u8],
    known: &Option<Head>,
) -> Result<JsonObject, AllocError>
    requires { held.now ≡ came_of transcript.now }
    ensures { IfOk result (λ told. members_of told ≡ opened (judge_files torn known.now transcript.now None)) }
{
    let mut files = JsonList::new(alloc);
    files.push_object(transcript_object(alloc, torn, transcript, held, known)?)?;
    open_object(alloc, files)
}

/// Tells the first fault of a file: in lines, or in the object that is opened. Nothing is made.
pub(crate) fn unread(alloc: Global, opened: Option<JsonObject>, fault: &AuditFault) -> JudgeRun
    ensures told { PrintsFaultSo (option_map members_of opened) fault.now result.status result.lines.items
        ⊎ IsSilent result.status result.lines.items }
    ensures nothing { MakesNothing result.witness.items result.declaration.items }
    ensures head { result.head ≡ None }
{
    let mut lines = Vec::new(alloc);
    let status = append(fault_told(alloc, opened, fault), &mut lines);
    JudgeRun {
        status,
        lines,
        head: None,
        witness: Vec::new(alloc),
        declaration: Vec::new(alloc),
    }
}

fn fault_told(
    alloc: Global,
    opened: Option<JsonObject>,
    fault: &AuditFault,
) -> Result<Lines, AllocError>
    ensures { IfOk result (λ lines. PrintsFaultSo (option_map members_of opened) fault.now lines.status
        (string_bytes lines.text)) }
{
    match opened {
        None => fault_lines(alloc, fault),
        Some(told) => fault_object(alloc, told, fault),
    }
}

/// The line of an object that gets besides what it has what is told of a fault.
fn fault_object(alloc: Global, told: JsonObject, fault: &AuditFault) -> Result<Lines, AllocError>
    ensures { IfOk result (λ lines. TellsFaultWhole (members_of told) fault.now lines.status
        (string_bytes lines.text)) }
{
    let mut told = told;
    let fault = FaultTold::bare(*fault);
    let status = tell_fault_told(alloc, &mut told, &fault)?;
    let text = told.into_line()?;
    Ok(Lines { text, status })
}
