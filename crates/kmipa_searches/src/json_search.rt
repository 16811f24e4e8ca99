//! What a search tells in JSON.

ghost use Rattle.std.specs.Prelude.{◌≡◌, ◌⊎◌, IfOk, IsOkAnd, OnOk, None, Result, [], string_bytes};
ghost use Rattle.std.specs.Io.{StartsWith, appended_bytes};
ghost use Rattle.kmipa_json.specs.Told.{items_of, members_of};
ghost use Rattle.kmipa_ttlv.specs.Input.{came_of};
ghost use Rattle.kmipa_check.specs.Audits.{AreAccepted};
ghost use Rattle.kmipa_runs.specs.Knowing.{KnowsSeals};
ghost use Rattle.kmipa_jobs.specs.Statuses.{IsSilent};
ghost use Rattle.kmipa_searches.specs.JsonSearches.{BothEnded, DecidesInputs, MakesFile, PrintsJsonSearch, TellsJudged, judged_items};
ghost use Rattle.kmipa_telling.specs.Seals.{KnowsJudged};

use crate::judged::{Judged, judge_records};
use crate::options::SearchOptions;
use crate::searched::FoundOutput;
use crate::telling_found::tell_judged;
use kmipa_check::AuditFault;
use kmipa_jobs::Status;
use kmipa_json::{JsonList, JsonObject, told_file};
use kmipa_orders::{Found, Watch};
use kmipa_record::{Declaration, Head, RecordFault, Transcript, write_witness};
use kmipa_runs::{Answered, Lines};
use kmipa_telling::{
    FaultTold, fault_told, open_object, read_held, read_object, tell_fault_told, transcript_object,
};
use kmipa_ttlv::Input;
use std::alloc::{AllocError, Global};
use std::io::Read;

/// What is printed and what is made of a search.
#[derive(Drop)]
struct Answer {
    lines: Lines,
    made: Vec<u8>,
}

/// The bytes of the two files of a search, as far as they came, and the head of a sealed transcript, where it was searched.
#[derive(Drop)]
struct SearchHeld {
    transcript: Vec<u8>,
    declaration: Vec<u8>,
    head: Option<Head>,
}

/// What a search is asked that tells in JSON.
#[derive(Clone, Copy, PartialEq, Eq)]
pub struct JsonSearch {
    /// Of a torn transcript so many bytes are its own.
    pub torn: Option<u64>,
    pub search: SearchOptions,
}

/// `search TRANSCRIPT DECLARATION OUT --json`: appends to the lines one JSON object and a line feed, which tell what a search
/// found, where it gave up whether it has decided, and of a message that is outside why it is; and answers the status. Behind what a search of
/// a sealed transcript found they tell its head, which is answered too. A witness that was found is
/// appended to what is made, as a file; at every other status than `Done` nothing is. Where memory runs out nothing is appended to either,
/// and the status is `Failed`.
pub fn search_json<R: Read, W: Watch>(
    alloc: Global,
    transcript: &mut Input<R>,
    declaration: &mut Input<R>,
    asked: JsonSearch,
    watch: &mut W,
    out: &mut FoundOutput,
) -> Answered
    requires transcript { came_of transcript.old ≡ [] }
    requires declaration { came_of declaration.old ≡ [] }
    // What is made and printed tells what a search answers of whatever the inputs may be, or memory ran out.
    ensures prints { ((outcome : Result Judged FaultTold)
        × DecidesInputs transcript.new declaration.new (W.seconds watch.old) asked.search.budget asked.search.forced outcome
        × PrintsJsonSearch asked.torn transcript.new declaration.new outcome result.status
        (appended_bytes out.old.lines.items out.new.lines.items) (appended_bytes out.old.made.items out.new.made.items))
        ⊎ (IsSilent result.status (appended_bytes out.old.lines.items out.new.lines.items)
        × (appended_bytes out.old.made.items out.new.made.items ≡ [])) }
    // Status 0 is answered only where the bytes that came, to the ends that were seen, are accepted with the
    // witness that is made.
    ensures accepts { result.status ≡ Status.Done
        → AreAccepted (came_of transcript.new) (came_of declaration.new) (appended_bytes out.old.made.items out.new.made.items)
        × BothEnded transcript.new declaration.new }
    // With a verdict the head is answered up to which all seals of the bytes that came are right, or none of bytes without seals.
    ensures known { KnowsSeals (came_of transcript.new) result.status result.head }
    ensures appends { StartsWith out.new.lines.items out.old.lines.items }
    ensures makes { StartsWith out.new.made.items out.old.made.items }
{
    let mut held = SearchHeld {
        transcript: Vec::new(alloc),
        declaration: Vec::new(alloc),
        head: None,
    };
    let search = asked.search;
    match search_held(alloc, transcript, declaration, &mut held, search, watch) {
        Ok(outcome) => {
            let answer = told_of(alloc, asked.torn, transcript, declaration, &held, &outcome);
            Answered {
                status: append_both(answer, &mut out.lines, &mut out.made),
                head: held.head,
            }
        }
        Err(error) => Answered {
            status: append_both(Err(error), &mut out.lines, &mut out.made),
            head: None,
        },
    }
}

/// Appends what is printed to `out` and what is made to `made`; nothing to either where memory runs out.
fn append_both(answer: Result<Answer, AllocError>, out: &mut Vec<u8>, made: &mut Vec<u8>) -> Status
    ensures appended { IsOkAnd answer
        (λ a. (result ≡ a.lines.status) × (appended_bytes out.old.items out.new.items ≡ string_bytes a.lines.text)
        × (appended_bytes made.old.items made.new.items ≡ a.made.items))
        ⊎ (IsSilent result (appended_bytes out.old.items out.new.items)
        × (appended_bytes made.old.items made.new.items ≡ [])) }
    ensures appends { StartsWith out.new.items out.old.items }
    ensures makes { StartsWith made.new.items made.old.items }
{
    let Ok(answer) = answer else {
        return Status::Failed;
    };
    let kept = made.len();
    if made.extend_from_slice(answer.made.as_slice()).is_err() {
        return Status::Failed;
    }
    if out.extend_from_slice(answer.lines.text.as_bytes()).is_err() {
        made.truncate(kept);
        return Status::Failed;
    }
    answer.lines.status
}

/// What is printed and made of this outcome of a search of files whose bytes are held.
fn told_of<R>(
    alloc: Global,
    torn: Option<u64>,
    transcript: &Input<R>,
    declaration: &Input<R>,
    held: &SearchHeld,
    outcome: &Result<Judged, FaultTold>,
) -> Result<Answer, AllocError>
    requires transcript { held.now.transcript.items ≡ came_of transcript.now }
    requires declaration { held.now.declaration.items ≡ came_of declaration.now }
    requires known { KnowsJudged outcome.now (came_of transcript.now) held.now.head }
    ensures { IfOk result (λ answer. PrintsJsonSearch torn transcript.now declaration.now outcome.now answer.lines.status
        (string_bytes answer.lines.text) answer.made.items) }
{
    let made = made_of(alloc, outcome)?;
    let mut files = JsonList::new(alloc);
    files.push_object(transcript_object(alloc, torn, transcript, &held.transcript, &held.head)?)?;
    files.push_object(read_object(alloc, "declaration", declaration, &held.declaration)?)?;
    push_made(alloc, &mut files, outcome, made.as_slice())?;
    let mut told = open_object(alloc, files)?;
    let status = tell_search(alloc, &mut told, outcome)?;
    let text = told.into_line()?;
    Ok(Answer {
        lines: Lines { text, status },
        made,
    })
}

/// The file of a witness that was found, or no bytes.
fn made_of(alloc: Global, outcome: &Result<Judged, FaultTold>) -> Result<Vec<u8>, AllocError>
    ensures { IfOk result (λ made. MakesFile outcome.now made.items) }
{
    let mut made = Vec::new(alloc);
    if let Ok(judged) = outcome {
        if let Found::Yes(witness, _) = &judged.searched.found {
            if write_witness(alloc, witness, &mut made).is_err() {
                return Err(AllocError);
            }
        }
    }
    Ok(made)
}

/// Puts what is told of the file that is made of what was found behind the others.
fn push_made(
    alloc: Global,
    files: &mut JsonList,
    outcome: &Result<Judged, FaultTold>,
    made: &[u8],
) -> Result<(), AllocError>
    ensures { OnOk result (items_of files.new ≡ judged_items outcome.now made.now (items_of files.old)) }
{
    if let Ok(judged) = outcome {
        if let Found::Yes(_, _) = &judged.searched.found {
            return files.push_object(told_file(alloc, "witness", made)?);
        }
    }
    Ok(())
}

fn tell_search(
    alloc: Global,
    told: &mut JsonObject,
    outcome: &Result<Judged, FaultTold>,
) -> Result<Status, AllocError>
    ensures { IfOk result (λ status. TellsJudged outcome.now status (members_of told.old) (members_of told.new)) }
{
    match outcome {
        Ok(judged) => tell_judged(alloc, told, judged),
        Err(fault) => tell_fault_told(alloc, told, fault),
    }
}

/// Reads the two inputs, of which nothing was read, one after the other, and searches. What came of them is held.
fn search_held<R: Read, W: Watch>(
    alloc: Global,
    transcript: &mut Input<R>,
    declaration: &mut Input<R>,
    held: &mut SearchHeld,
    asked: SearchOptions,
    watch: &mut W,
) -> Result<Result<Judged, FaultTold>, AllocError>
    requires transcript { came_of transcript.old ≡ [] }
    requires declaration { came_of declaration.old ≡ [] }
    requires first { held.old.transcript.items ≡ [] }
    requires second { held.old.declaration.items ≡ [] }
    requires none { held.old.head ≡ None }
    ensures decides { IfOk result (DecidesInputs transcript.new declaration.new
        (W.seconds watch.old) asked.budget asked.forced) }
    ensures transcript { OnOk result (held.new.transcript.items ≡ came_of transcript.new) }
    ensures declaration { OnOk result (held.new.declaration.items ≡ came_of declaration.new) }
    ensures known { IfOk result (λ outcome. KnowsJudged outcome (came_of transcript.new) held.new.head) }
{
    let read: Result<Transcript, RecordFault> = read_held(alloc, transcript, &mut held.transcript)?;
    let marks = match read {
        Ok(marks) => marks,
        Err(fault) => return Ok(Err(FaultTold::bare(AuditFault::Transcript(fault)))),
    };
    let read: Result<Declaration, RecordFault> = read_held(
        alloc,
        declaration,
        &mut held.declaration,
    )?;
    let declared = match read {
        Ok(declared) => declared,
        Err(fault) => return Ok(Err(FaultTold::bare(AuditFault::Declaration(fault)))),
    };
    match judge_records(alloc, &marks, &declared, asked, watch) {
        Ok(judged) => {
            held.head = marks.head;
            Ok(Ok(judged))
        }
        Err(fault) => Ok(Err(fault_told(alloc, &marks, fault))),
    }
}
