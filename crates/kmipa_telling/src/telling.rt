//! What a verdict or a fault tells, as members of a JSON object: the numbers of its line, each under a name.

ghost use Rattle.std.specs.Prelude.{◌≡◌, IfOk, OnOk};
ghost use Rattle.kmipa_json.specs.Told.{members_of};
ghost use Rattle.kmipa_record.specs.Declarations.{declaration_of};
ghost use Rattle.kmipa_record.specs.Transcripts.{transcript_of};
ghost use Rattle.kmipa_record.specs.Witnesses.{witness_of};
ghost use Rattle.kmipa_runs.specs.Lines.{check_status, record_status, side_name};
ghost use Rattle.kmipa_telling.specs.Telling.{TellsDate, TellsFault, TellsVerdict, aside_members, check_members, named_members, outside_members, record_members, refused_members, tally_members, told_tally, verdict_named};

use kmipa_check::{AuditFault, CheckFault, Refused, Verdict, stamp_of};
use kmipa_jobs::Status;
use kmipa_json::JsonObject;
use kmipa_msgs::Outside;
use kmipa_record::{Declaration, RecordFault, RecordKind, Transcript, Witness};
use kmipa_runs::{date_text, message_name};
use kmipa_stream::{Tally, tally_of_records};
use std::alloc::{AllocError, Global};

/// Puts what a verdict on this transcript and this witness, by this declaration, tells into an object, and answers its status.
pub fn tell_verdict(
    alloc: Global,
    told: &mut JsonObject,
    verdict: &Verdict,
    transcript: &Transcript,
    declaration: &Declaration,
    witness: &Witness,
) -> Result<Status, AllocError>
    ensures { IfOk result
        (λ status. TellsVerdict (transcript_of transcript.now) (declaration_of declaration.now)
        (witness_of witness.now) verdict.now status (members_of told.old) (members_of told.new)) }
{
    match verdict {
        Verdict::Yes => {
            let tally = tally_of_records(alloc, transcript, declaration, &witness.turns)?;
            told.put_text("verdict", "yes")?;
            tell_tally(alloc, told, tally)?;
            Ok(Status::Done)
        }
        Verdict::No(refused) => {
            tell_refused(alloc, told, refused)?;
            let stamp = stamp_of(alloc, transcript, witness, refused.call)?;
            tell_date(alloc, told, stamp)?;
            Ok(Status::No)
        }
    }
}

/// Puts what became of the items into an object, where that is told.
pub fn tell_tally(
    alloc: Global,
    told: &mut JsonObject,
    tally: Option<Tally>,
) -> Result<(), AllocError>
    ensures { OnOk result (members_of told.new ≡ told_tally tally (members_of told.old)) }
{
    match tally {
        None => Ok(()),
        Some(tally) => told.put_object("tally", tally_object(alloc, tally)?),
    }
}

fn tally_object(alloc: Global, tally: Tally) -> Result<JsonObject, AllocError>
    ensures { IfOk result (λ told. members_of told ≡ tally_members tally) }
{
    let mut told = JsonObject::new(alloc);
    told.put_count("judged", tally.judged)?;
    told.put_count("items", tally.items())?;
    told.put_object("set_aside", aside_object(alloc, tally)?)?;
    Ok(told)
}

fn aside_object(alloc: Global, tally: Tally) -> Result<JsonObject, AllocError>
    ensures { IfOk result (λ told. members_of told ≡ aside_members tally) }
{
    let mut told = JsonObject::new(alloc);
    told.put_count("request", tally.by_request)?;
    told.put_count("answer", 0)?;
    told.put_count("witness", 0)?;
    told.put_count("object", 0)?;
    Ok(told)
}

/// The turn, the call and the item of a no, and the reason.
pub fn tell_refused(
    alloc: Global,
    told: &mut JsonObject,
    refused: &Refused,
) -> Result<(), AllocError>
    ensures { OnOk result (members_of told.new ≡ refused_members refused.now (members_of told.old)) }
{
    told.put_text("verdict", "no")?;
    told.put_count("turn", refused.turn as u64)?;
    told.put_integer("call", refused.call as i64)?;
    told.put_count("item", refused.item as u64)?;
    told.put_object(
        "why",
        named(alloc, refused.why.number(), refused.why.name())?,
    )
}

/// A number with its name.
pub fn named(alloc: Global, number: u8, name: &str) -> Result<JsonObject, AllocError>
    ensures { IfOk result (λ told. members_of told ≡ named_members number name.now) }
{
    let mut told = JsonObject::new(alloc);
    told.put_count("number", number as u64)?;
    told.put_text("name", name)?;
    Ok(told)
}

/// The moment in seconds, and its date.
pub fn tell_date(alloc: Global, told: &mut JsonObject, stamp: Option<i64>) -> Result<(), AllocError>
    ensures { OnOk result (TellsDate stamp (members_of told.old) (members_of told.new)) }
{
    let Some(stamp) = stamp else {
        return Ok(());
    };
    let date = date_text(alloc, stamp)?;
    told.put_integer("stamp", stamp)?;
    told.put_text("date", date.as_str())
}

/// Puts what a fault tells into an object, and answers its status.
pub fn tell_fault(
    alloc: Global,
    told: &mut JsonObject,
    fault: &AuditFault,
) -> Result<Status, AllocError>
    ensures { IfOk result (λ status. TellsFault fault.now status (members_of told.old) (members_of told.new)) }
{
    match fault {
        AuditFault::Transcript(fault) => tell_record(alloc, told, "transcript", fault),
        AuditFault::Declaration(fault) => tell_record(alloc, told, "declaration", fault),
        AuditFault::Witness(fault) => tell_record(alloc, told, "witness", fault),
        AuditFault::Check(fault) => tell_check(alloc, told, fault),
    }
}

fn tell_record(
    alloc: Global,
    told: &mut JsonObject,
    file: &str,
    fault: &RecordFault,
) -> Result<Status, AllocError>
    ensures status { IfOk result (λ status. status ≡ record_status fault.now.kind) }
    ensures told { OnOk result (members_of told.new
        ≡ record_members file.now fault.now.offset fault.now.kind (members_of told.old)) }
{
    let RecordFault { offset, kind } = *fault;
    match kind {
        RecordKind::Device => tell_failure(told, "device"),
        RecordKind::Memory => tell_failure(told, "memory"),
        _ => {
            told.put_text("verdict", "malformed")?;
            told.put_text("file", file)?;
            told.put_count("offset", offset)?;
            told.put_object("kind", named(alloc, kind.number(), kind.name())?)?;
            if let RecordKind::Ttlv(flaw) = kind {
                told.put_text("flaw", flaw.name())?;
            }
            Ok(Status::Refused)
        }
    }
}

/// A device that failed, or memory that ran out.
fn tell_failure(told: &mut JsonObject, name: &str) -> Result<Status, AllocError>
    ensures status { IfOk result (λ status. status ≡ Status.Failed) }
    ensures told { OnOk result (members_of told.new ≡ verdict_named name.now (members_of told.old)) }
{
    told.put_text("verdict", name)?;
    Ok(Status::Failed)
}

fn tell_check(
    alloc: Global,
    told: &mut JsonObject,
    fault: &CheckFault,
) -> Result<Status, AllocError>
    ensures status { IfOk result (λ status. status ≡ check_status fault.now) }
    ensures told { OnOk result (members_of told.new ≡ check_members fault.now (members_of told.old)) }
{
    match *fault {
        CheckFault::Outside(call, side, outside) => {
            told.put_text("verdict", "outside")?;
            told.put_integer("call", call as i64)?;
            told.put_text("message", message_name(side))?;
            tell_outside(alloc, told, outside)?;
            Ok(Status::Refused)
        }
        CheckFault::Witness(fault) => {
            told.put_text("verdict", "witness")?;
            told.put_count("at", fault.at as u64)?;
            told.put_object(
                "kind",
                named(alloc, fault.kind.number(), fault.kind.name())?,
            )?;
            Ok(Status::Refused)
        }
        CheckFault::Memory => tell_failure(told, "memory"),
    }
}

fn tell_outside(alloc: Global, told: &mut JsonObject, outside: Outside) -> Result<(), AllocError>
    ensures { OnOk result (members_of told.new ≡ outside_members outside (members_of told.old)) }
{
    told.put_count("item", outside.item as u64)?;
    told.put_object(
        "kind",
        named(alloc, outside.kind.number(), outside.kind.name())?,
    )
}
