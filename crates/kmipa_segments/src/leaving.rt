//! The check of a segment: its verdict, and at a yes the declaration with which the next segment goes on.

ghost use Rattle.std.specs.Prelude.{◌≡◌, ◌≢◌, ◌<◌, ◌⊎◌, ◌++◌, ℕ, List, [], IsTrue, IfOk, IfSome, OnOk, MatchOption, Option, Result, length, map, string_bytes};
ghost use Rattle.std.specs.Io.{StartsWith, appended_bytes};
ghost use Rattle.kmipa_ttlv.specs.Input.{came_of, is_ended, is_failed, IsFileOf};
ghost use Rattle.kmipa_record.specs.Declarations.{declaration_of};
ghost use Rattle.kmipa_record.specs.Entries.{entry_of};
ghost use Rattle.kmipa_record.specs.Transcripts.{transcript_of};
ghost use Rattle.kmipa_record.specs.Witnesses.{witness_of};
ghost use Rattle.kmipa_runs.specs.Knowing.{Known, KnowsSeals};
ghost use Rattle.kmipa_stream.specs.declared.tally.Tally.{Tally};
ghost use Rattle.kmipa_runs.specs.Lines.{PrintsVerdict, TalliesRecorded, yes_text};
ghost use Rattle.kmipa_jobs.specs.Statuses.{IsSilent};
ghost use Rattle.kmipa_segments.specs.Leaving.{ChecksSegment, IsMomentText, IsTooLongAt, LeadsAsAsked, NoneTooLongBefore, PrintsLeft, PrintsSegment, PrintsUnwritten, TellsLeft, TellsSegment, TellsChecked, entry_line, unwritable_line};

use crate::asked::{CheckOutput, SegmentAsked};
use kmipa_check::{AuditFault, AuditRecords, Checked, Left, check_segment};
use kmipa_jobs::Status;
use kmipa_record::{Declaration, Entry, RecordKind, is_too_long, write_declaration};
use kmipa_runs::{
    Answered, Lines, append, date_text, fault_lines, read_known_records, report, yes_text,
};
use kmipa_stream::tally_of_records;
use kmipa_ttlv::Input;
use std::alloc::{AllocError, Global};
use std::io::Read;

/// A segment that was checked, with the records that it is of.
#[derive(Drop)]
pub struct Segment {
    pub records: AuditRecords,
    pub checked: Checked,
}

/// `check TRANSCRIPT DECLARATION WITNESS`, from a moment on where one is given, `--not-before DATE`: appends the lines of the verdict, or the line
/// of the fault that stands in their place, and answers the status. Where the declaration that is left is asked for, `--leaves OUT`, it is at a yes
/// appended, as a file, and the lines tell of it, or, where no bytes are that declaration, why; at every other status than `Done` nothing is made.
/// Where memory runs out nothing is appended, and the status is `Failed`.
pub fn segment_run<R: Read>(
    alloc: Global,
    transcript: &mut Input<R>,
    declaration: &mut Input<R>,
    witness: &mut Input<R>,
    asked: SegmentAsked,
    out: &mut CheckOutput,
) -> Answered
    requires transcript { came_of transcript.old ≡ [] }
    requires declaration { came_of declaration.old ≡ [] }
    requires witness { came_of witness.old ≡ [] }
    // What is made and printed tells what a check answers of whatever the inputs may be, or memory ran out.
    ensures prints { (outcome : Result Segment AuditFault)
        × ((t d w : List ℕ) → IsFileOf t transcript.new → IsFileOf d declaration.new → IsFileOf w witness.new
        → ChecksSegment t d w (is_failed transcript.new) (is_failed declaration.new) (is_failed witness.new) asked.since
        outcome)
        × (PrintsSegment asked.leaves outcome result.status (appended_bytes out.old.lines.items out.new.lines.items)
        (appended_bytes out.old.left.items out.new.left.items)
        ⊎ (IsSilent result.status (appended_bytes out.old.lines.items out.new.lines.items)
        × (appended_bytes out.old.left.items out.new.left.items ≡ []))) }
    // Status 0 is answered only where the bytes that came, to the ends that were seen, are accepted from the
    // moment on; and where it is asked for, what they lead to is made.
    ensures leads { result.status ≡ Status.Done
        → LeadsAsAsked asked.leaves (came_of transcript.new) (came_of declaration.new) (came_of witness.new) asked.since
        (appended_bytes out.old.left.items out.new.left.items)
        × IsTrue (is_ended transcript.new) × IsTrue (is_ended declaration.new) × IsTrue (is_ended witness.new) }
    ensures nothing { result.status ≢ Status.Done → out.new.left.items ≡ out.old.left.items }
    ensures appends { StartsWith out.new.lines.items out.old.lines.items }
    ensures makes { StartsWith out.new.left.items out.old.left.items }
    // Behind each verdict stands what the transcript is known by.
    ensures known { KnowsSeals (came_of transcript.new) result.status result.head }
{
    match check_inputs(alloc, transcript, declaration, witness, asked.since) {
        Ok(segment) => Answered {
            status: tell_segment(alloc, &segment, asked.leaves, &mut out.lines, &mut out.left),
            head: segment.records.transcript.head,
        },
        Err(fault) => Answered {
            status: append(fault_lines(alloc, &fault), &mut out.lines),
            head: None,
        },
    }
}

/// Reads the three inputs, of which nothing was read, one after the other, and checks the segment.
fn check_inputs<R: Read>(
    alloc: Global,
    transcript: &mut Input<R>,
    declaration: &mut Input<R>,
    witness: &mut Input<R>,
    since: Option<i64>,
) -> Result<Segment, AuditFault>
    requires transcript { came_of transcript.old ≡ [] }
    requires declaration { came_of declaration.old ≡ [] }
    requires witness { came_of witness.old ≡ [] }
    ensures checks { (t d w : List ℕ) → IsFileOf t transcript.new → IsFileOf d declaration.new → IsFileOf w witness.new
        → ChecksSegment t d w (is_failed transcript.new) (is_failed declaration.new) (is_failed witness.new) since
        result }
    ensures known { IfOk result (λ segment. Known (came_of transcript.new) segment.records.transcript.head) }
    ensures ended { OnOk result (IsTrue (is_ended transcript.new) × IsTrue (is_ended declaration.new)
        × IsTrue (is_ended witness.new)) }
{
    let records = match read_known_records(alloc, transcript, declaration, witness) {
        Ok(records) => records,
        Err(fault) => return Err(fault),
    };
    match check_segment(
        alloc,
        &records.transcript,
        &records.declaration,
        &records.witness,
        since,
    ) {
        Ok(checked) => Ok(Segment { records, checked }),
        Err(fault) => Err(AuditFault::Check(fault)),
    }
}

/// Appends the lines of a segment that was checked to `out`, and the declaration that it leaves, where it is asked for, to `made`; nothing to
/// either where memory runs out.
fn tell_segment(
    alloc: Global,
    segment: &Segment,
    leaves: bool,
    out: &mut Vec<u8>,
    made: &mut Vec<u8>,
) -> Status
    ensures tells { TellsSegment leaves segment.now result (appended_bytes out.old.items out.new.items)
        (appended_bytes made.old.items made.new.items)
        ⊎ (IsSilent result (appended_bytes out.old.items out.new.items)
        × (appended_bytes made.old.items made.new.items ≡ [])) }
    ensures nothing { result ≢ Status.Done → made.new.items ≡ made.old.items }
    ensures appends { StartsWith out.new.items out.old.items }
    ensures makes { StartsWith made.new.items made.old.items }
{
    if leaves {
        tell_checked(alloc, segment, out, made)
    } else {
        tell_verdict(alloc, segment, out)
    }
}

/// The same where what is left is asked for.
fn tell_checked(alloc: Global, segment: &Segment, out: &mut Vec<u8>, made: &mut Vec<u8>) -> Status
    ensures tells { TellsChecked (transcript_of segment.now.records.transcript)
        (declaration_of segment.now.records.declaration) (witness_of segment.now.records.witness)
        segment.now.checked.verdict segment.now.checked.left
        result (appended_bytes out.old.items out.new.items) (appended_bytes made.old.items made.new.items)
        ⊎ (IsSilent result (appended_bytes out.old.items out.new.items)
        × (appended_bytes made.old.items made.new.items ≡ [])) }
    ensures nothing { result ≢ Status.Done → made.new.items ≡ made.old.items }
    ensures appends { StartsWith out.new.items out.old.items }
    ensures makes { StartsWith made.new.items made.old.items }
{
    match &segment.checked.left {
        Some(left) => match yes_lines(alloc, segment) {
            Ok(text) => tell_left(alloc, text.as_str(), left, out, made),
            Err(_) => Status::Failed,
        },
        None => tell_verdict(alloc, segment, out),
    }
}

/// The lines of a yes on a segment.
fn yes_lines(alloc: Global, segment: &Segment) -> Result<String, AllocError>
    ensures { IfOk result (λ text. (tally : Option Tally)
        × TalliesRecorded (transcript_of segment.now.records.transcript)
        (declaration_of segment.now.records.declaration) (witness_of segment.now.records.witness) tally
        × (string_bytes text ≡ yes_text tally)) }
{
    let records = &segment.records;
    let tally = tally_of_records(
        alloc,
        &records.transcript,
        &records.declaration,
        &records.witness.turns,
    )?;
    yes_text(alloc, tally)
}

/// Appends the lines of the verdict.
fn tell_verdict(alloc: Global, segment: &Segment, out: &mut Vec<u8>) -> Status
    ensures prints { PrintsVerdict (transcript_of segment.now.records.transcript)
        (declaration_of segment.now.records.declaration) (witness_of segment.now.records.witness)
        segment.now.checked.verdict
        result (appended_bytes out.old.items out.new.items)
        ⊎ IsSilent result (appended_bytes out.old.items out.new.items) }
    ensures appends { StartsWith out.new.items out.old.items }
{
    report(
        alloc,
        &segment.checked.verdict,
        &segment.records.transcript,
        &segment.records.declaration,
        &segment.records.witness,
        out,
    )
}

/// Appends the declaration that is left to `made`, and to `out` the lines of the answer and, behind them, the line that tells of it; where no
/// bytes are that declaration, the line that says so alone; nothing to either where memory runs out.
pub fn tell_left(
    alloc: Global,
    answer: &str,
    left: &Left,
    out: &mut Vec<u8>,
    made: &mut Vec<u8>,
) -> Status
    ensures tells { TellsLeft answer.now left.now result (appended_bytes out.old.items out.new.items)
        (appended_bytes made.old.items made.new.items)
        ⊎ (IsSilent result (appended_bytes out.old.items out.new.items)
        × (appended_bytes made.old.items made.new.items ≡ [])) }
    ensures nothing { result ≢ Status.Done → made.new.items ≡ made.old.items }
    ensures appends { StartsWith out.new.items out.old.items }
    ensures makes { StartsWith made.new.items made.old.items }
{
    let Ok(text) = left_lines(alloc, answer, left) else {
        return Status::Failed;
    };
    let kept = made.len();
    if let Err(fault) = write_declaration(alloc, &left.declaration, made) {
        return tell_unwritten(alloc, fault.kind, &left.declaration, out);
    }
    if out.extend_from_slice(text.as_bytes()).is_err() {
        made.truncate(kept);
        return Status::Failed;
    }
    Status::Done
}

/// The lines of an answer, and behind them the line of what is left.
pub fn left_lines(alloc: Global, answer: &str, left: &Left) -> Result<String, AllocError>
    ensures { IfOk result
        (λ text. (told : List ℕ) × PrintsLeft left.now told × (string_bytes text ≡ answer.now ++ told)) }
{
    let line = left_line(alloc, left)?;
    format!(in alloc; "{answer}{line}")
}

/// The line of what is left.
fn left_line(alloc: Global, left: &Left) -> Result<String, AllocError>
    ensures { IfOk result (λ text. PrintsLeft left.now (string_bytes text)) }
{
    let count = left.declaration.entries.len();
    let moment = moment_text(alloc, left.until)?;
    format!(in alloc; "left: {count} entries, last stamp {moment}\n")
}

/// A moment, where there is one.
fn moment_text(alloc: Global, moment: Option<i64>) -> Result<String, AllocError>
    ensures { IfOk result (λ text. IsMomentText moment (string_bytes text)) }
{
    match moment {
        Some(second) => date_text(alloc, second),
        None => String::from_str(alloc, "none"),
    }
}

/// Appends the line of a declaration that was refused for this; no line where memory ran out.
fn tell_unwritten(
    alloc: Global,
    kind: RecordKind,
    declaration: &Declaration,
    out: &mut Vec<u8>,
) -> Status
    ensures tells { ((kind ≡ RecordKind.Entry) × (result ≡ Status.Refused)
        × PrintsUnwritten (declaration_of declaration.now).entries (appended_bytes out.old.items out.new.items))
        ⊎ IsSilent result (appended_bytes out.old.items out.new.items) }
    ensures appends { StartsWith out.new.items out.old.items }
{
    match kind {
        RecordKind::Entry => append(unwritten_lines(alloc, declaration), out),
        _ => Status::Failed,
    }
}

/// The line of a declaration that no bytes are.
fn unwritten_lines(alloc: Global, declaration: &Declaration) -> Result<Lines, AllocError>
    ensures { IfOk result
        (λ lines. (lines.status ≡ Status.Refused)
        × PrintsUnwritten (declaration_of declaration.now).entries (string_bytes lines.text)) }
{
    Ok(Lines {
        text: unwritten_text(alloc, &declaration.entries)?,
        status: Status::Refused,
    })
}

/// Which of the entries is too long, or that none is.
fn unwritten_text(alloc: Global, entries: &[Entry]) -> Result<String, AllocError>
    ensures { IfOk result (λ text. PrintsUnwritten (map entry_of entries.now) (string_bytes text)) }
{
    match first_too_long(alloc, entries)? {
        Some(place) => entry_text(alloc, place + 1),
        None => unwritable_text(alloc),
    }
}

fn entry_text(alloc: Global, number: usize) -> Result<String, AllocError>
    ensures { IfOk result (λ text. string_bytes text ≡ entry_line number) }
{
    format!(in alloc; "left: entry {number} is too long to be declared\n")
}

fn unwritable_text(alloc: Global) -> Result<String, AllocError>
    ensures { IfOk result (λ text. string_bytes text ≡ unwritable_line) }
{
    String::from_str(alloc, "left: it can't be declared\n")
}

/// The place of the first of these entries that is too long for a declaration.
fn first_too_long(alloc: Global, entries: &[Entry]) -> Result<Option<usize>, AllocError>
    ensures first { IfOk result
        (λ found. MatchOption found (NoneTooLongBefore (map entry_of entries.now) (length entries.now))
        (λ place. NoneTooLongBefore (map entry_of entries.now) place × IsTooLongAt (map entry_of entries.now) place)) }
    ensures within { IfOk result (λ found. IfSome found (λ place. place < length entries.now)) }
{
    let mut place = 0;
    'entries: while place < entries.len() {
        if is_too_long(alloc, &entries[place])? {
            return Ok(Some(place));
        }
        place += 1;
    }
    Ok(None)
}
