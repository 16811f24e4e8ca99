//! The lines that tell a verdict or a fault.

ghost use Rattle.std.specs.Prelude.{◌≡◌, IfOk, string_bytes};
ghost use Rattle.kmipa_record.specs.Declarations.{declaration_of};
ghost use Rattle.kmipa_record.specs.Transcripts.{transcript_of};
ghost use Rattle.kmipa_record.specs.Witnesses.{witness_of};
ghost use Rattle.kmipa_runs.specs.Lines.{PrintsVerdict, PrintsStamped, PrintsDate, PrintsFault, no_line, record_text, record_status, check_text, check_status, side_name, tally_line, tally_text, yes_text};

use crate::dates::date_text;
use kmipa_check::{AuditFault, CheckFault, Refused, Side, Verdict, stamp_of};
use kmipa_jobs::Status;
use kmipa_record::{Declaration, RecordFault, RecordKind, Transcript, Witness};
use kmipa_stream::{Tally, tally_of_records};
use std::alloc::{AllocError, Global};

/// Whole lines, each ended by a line feed, and the status that goes with them.
#[derive(Drop)]
pub struct Lines {
    pub text: String,
    pub status: Status,
}

/// The lines of a verdict on this transcript and this witness, by this declaration.
pub fn verdict_lines(
    alloc: Global,
    verdict: &Verdict,
    transcript: &Transcript,
    declaration: &Declaration,
    witness: &Witness,
) -> Result<Lines, AllocError>
    ensures { IfOk result
        (λ lines. PrintsVerdict (transcript_of transcript.now) (declaration_of declaration.now)
        (witness_of witness.now) verdict.now lines.status (string_bytes lines.text)) }
{
    match verdict {
        Verdict::Yes => {
            let tally = tally_of_records(alloc, transcript, declaration, &witness.turns)?;
            stamped_lines(alloc, verdict, None, tally)
        }
        Verdict::No(refused) => {
            let stamp = stamp_of(alloc, transcript, witness, refused.call)?;
            stamped_lines(alloc, verdict, stamp, None)
        }
    }
}

/// The lines of a verdict; behind that of a yes what became of the items, and behind that of a no the date of this moment.
pub fn stamped_lines(
    alloc: Global,
    verdict: &Verdict,
    stamp: Option<i64>,
    tally: Option<Tally>,
) -> Result<Lines, AllocError>
    ensures { IfOk result (λ lines. PrintsStamped verdict.now stamp tally lines.status (string_bytes lines.text)) }
{
    match verdict {
        Verdict::Yes => Ok(Lines {
            text: yes_text(alloc, tally)?,
            status: Status::Done,
        }),
        Verdict::No(refused) => {
            let line = no_text(alloc, refused)?;
            let date = date_lines(alloc, stamp)?;
            Ok(Lines {
                text: format!(in alloc; "{line}{date}")?,
                status: Status::No,
            })
        }
    }
}

/// The lines of a yes.
pub fn yes_text(alloc: Global, tally: Option<Tally>) -> Result<String, AllocError>
    ensures { IfOk result (λ text. string_bytes text ≡ yes_text tally) }
{
    let told = tally_text(alloc, tally)?;
    format!(in alloc; "yes\n{told}")
}

/// The line of what became of the items, where that is told.
pub fn tally_text(alloc: Global, tally: Option<Tally>) -> Result<String, AllocError>
    ensures { IfOk result (λ text. string_bytes text ≡ tally_text tally) }
{
    match tally {
        None => Ok(String::new(alloc)),
        Some(tally) => tally_line(alloc, tally),
    }
}

fn tally_line(alloc: Global, tally: Tally) -> Result<String, AllocError>
    ensures { IfOk result (λ text. string_bytes text ≡ tally_line tally) }
{
    let items = tally.items();
    let Tally { judged, by_request } = tally;
    format!(in alloc;
        "judged: {judged} of {items} items; set aside: {by_request} by request, 0 by answer, 0 by witness, 0 by object\n"
    )
}

fn no_text(alloc: Global, refused: &Refused) -> Result<String, AllocError>
    ensures { IfOk result (λ text. string_bytes text ≡ no_line refused.now) }
{
    let Refused {
        turn,
        call,
        item,
        why,
    } = *refused;
    let number = why.number();
    let name = why.name();
    format!(in alloc; "no: turn {turn} call {call} item {item} why {number} {name}\n")
}

/// The line with the date of a moment.
fn date_lines(alloc: Global, stamp: Option<i64>) -> Result<String, AllocError>
    ensures { IfOk result (λ text. PrintsDate stamp (string_bytes text)) }
{
    let Some(stamp) = stamp else {
        return Ok(String::new(alloc));
    };
    let date = date_text(alloc, stamp)?;
    format!(in alloc; "at {date}\n")
}

/// The line of a fault, or no line where memory ran out.
pub fn fault_lines(alloc: Global, fault: &AuditFault) -> Result<Lines, AllocError>
    ensures { IfOk result (λ lines. PrintsFault fault.now lines.status (string_bytes lines.text)) }
{
    match fault {
        AuditFault::Transcript(fault) => record_lines(alloc, "transcript", fault),
        AuditFault::Declaration(fault) => record_lines(alloc, "declaration", fault),
        AuditFault::Witness(fault) => record_lines(alloc, "witness", fault),
        AuditFault::Check(fault) => check_lines(alloc, fault),
    }
}

pub fn record_lines(alloc: Global, file: &str, fault: &RecordFault) -> Result<Lines, AllocError>
    ensures status { IfOk result (λ lines. lines.status ≡ record_status fault.now.kind) }
    ensures text { IfOk result
        (λ lines. string_bytes lines.text ≡ record_text file.now fault.now.offset fault.now.kind) }
{
    let RecordFault { offset, kind } = *fault;
    let (text, status) = match kind {
        RecordKind::Device => (String::from_str(alloc, "device\n")?, Status::Failed),
        RecordKind::Memory => (String::new(alloc), Status::Failed),
        RecordKind::Ttlv(flaw) => {
            let flaw = flaw.name();
            let text = format!(in alloc; "malformed: {file} offset {offset} kind 1 Ttlv {flaw}\n")?;
            (text, Status::Refused)
        }
        _ => {
            let number = kind.number();
            let name = kind.name();
            let text = format!(in alloc;
                "malformed: {file} offset {offset} kind {number} {name}\n"
            )?;
            (text, Status::Refused)
        }
    };
    Ok(Lines { text, status })
}

fn check_lines(alloc: Global, fault: &CheckFault) -> Result<Lines, AllocError>
    ensures status { IfOk result (λ lines. lines.status ≡ check_status fault.now) }
    ensures text { IfOk result (λ lines. string_bytes lines.text ≡ check_text fault.now) }
{
    let (text, status) = match *fault {
        CheckFault::Outside(call, side, outside) => {
            let side = message_name(side);
            let item = outside.item;
            let number = outside.kind.number();
            let name = outside.kind.name();
            let text = format!(in alloc;
                "outside: call {call} {side} item {item} kind {number} {name}\n"
            )?;
            (text, Status::Refused)
        }
        CheckFault::Witness(fault) => {
            let at = fault.at;
            let number = fault.kind.number();
            let name = fault.kind.name();
            let text = format!(in alloc; "witness: at {at} kind {number} {name}\n")?;
            (text, Status::Refused)
        }
        CheckFault::Memory => (String::new(alloc), Status::Failed),
    };
    Ok(Lines { text, status })
}

/// Which of its two messages a call's fault is of.
pub fn message_name(side: Side) -> &'static str
    ensures { result.now ≡ side_name side }
{
    match side {
        Side::Client => "request",
        Side::Server => "response",
    }
}
