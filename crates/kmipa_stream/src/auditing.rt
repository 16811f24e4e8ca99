//! Audits of three inputs, the transcript of which is read once and not kept.

ghost use Rattle.std.specs.Prelude.{◌≡◌, ℕ, Bool, List, [], map, true, false, IsTrue, IfOk, IfErr, OnOk};
ghost use Rattle.kmipa_ttlv.specs.Input.{came_of, is_ended, is_failed, IsFileOf};
ghost use Rattle.kmipa_record.specs.Declarations.{DeclarationOf};
ghost use Rattle.kmipa_record.specs.Files.{Tells};
ghost use Rattle.kmipa_record.specs.Marks.{MarkOf};
ghost use Rattle.kmipa_record.specs.Taking.{HasTaken};
ghost use Rattle.kmipa_record.specs.declared.reach.Reach.TheVariants as reach;
ghost use Rattle.kmipa_record.specs.TranscriptReading.{HaveCome, HaveEnded, IsKnownBy, input_of, reference_of};
ghost use Rattle.kmipa_record.specs.Transcripts.{IsTranscript, IsTranscriptUpTo, TranscriptFault};
ghost use Rattle.kmipa_record.specs.Witnesses.{IsWitnessUpTo, WitnessFault, turn_of, witness_of};
ghost use Rattle.kmipa_record.specs.declared.turn.Turn as turns;
ghost use Rattle.kmipa_check.specs.Audits.{AreADeclaration, AreAccepted, AuditFails, AuditsAs};
ghost use Rattle.kmipa_check.specs.declared.verdict.Verdict.TheVariants.{Yes};
ghost use Rattle.kmipa_stream.specs.Counting.{HaveItems, HaveTally};
ghost use Rattle.kmipa_stream.specs.Opening.{Opens};
ghost use Rattle.kmipa_stream.specs.Standing.{IsJudged, Stands, stamped_alone};
ghost use Rattle.kmipa_stream.specs.Streams.{IsPassed, TellsDate, verdict_alone};

use crate::auditor::Auditor;
use crate::judged::Judged;
use crate::opening::Opening;
use crate::stamped::Stamped;
use kmipa_check::{AuditFault, CheckFault};
use kmipa_record::{Head, RecordFault, RecordedMarks, Settings, Witness, read_witness};
use kmipa_ttlv::Input;
use std::alloc::Global;
use std::io::Read;
use std::mem::forget;

/// The verdict on a transcript and a witness of which nothing was read, as `audit` gives it, behind a declaration that was read to its end, and by which
/// calls are judged where nothing is set aside: these settings and this opening are what it gave. A turn is taken as soon as its call has ended in the
/// transcript and it stands next in the witness, and the messages of the call are let go then: what is kept of the transcript is what the witness puts
/// later.
///
/// The witness is read first, the transcript to its end in any case: the first fault is still told in the order transcript, witness.
///
/// # Memory
/// Behind a verdict the ledger, what is noted of the calls, and the witness are not given back, since a process that asks for this ends
/// behind it. Whoever goes on takes `audit` of kmipa_check, which gives all back.
pub fn audit_opened<R: Read>(
    alloc: Global,
    transcript: &mut Input<R>,
    declaration: &Input<R>,
    settings: Settings,
    opening: Opening,
    witness: &mut Input<R>,
) -> Result<Judged, AuditFault>
    requires transcript { came_of transcript.old ≡ [] }
    requires witness { came_of witness.old ≡ [] }
    requires taken { HasTaken reach.Judged Opens settings (came_of declaration.now) opening }
    requires ended { IsTrue (is_ended declaration.now) }
    // Whatever follows what came, and nothing where the end was seen: what `audit` answers.
    ensures audits { (t d w : List ℕ) → IsFileOf t transcript.new → IsFileOf d declaration.now → IsFileOf w witness.new
        → AuditsAs t d w (is_failed transcript.new) (is_failed declaration.now) (is_failed witness.new)
        (verdict_alone result) }
    // So a yes is reported only of accepted bytes.
    ensures accepted { IfOk result
        (λ judged. judged.verdict ≡ Yes
        → AreAccepted (came_of transcript.new) (came_of declaration.now) (came_of witness.new)) }
    // A no comes with the Time Stamp of its call's response.
    ensures dated { IfOk result
        (λ judged. TellsDate (came_of transcript.new) (came_of witness.new) judged.verdict judged.stamp) }
    // A yes comes with the number of items that were judged.
    ensures counted { IfOk result
        (λ judged. judged.verdict ≡ Yes
        → HaveItems (came_of transcript.new) (came_of declaration.now) (came_of witness.new) judged.items) }
    // And with what became of them, where the declaration sets aside.
    ensures tallied { IfOk result
        (λ judged. judged.verdict ≡ Yes
        → HaveTally (came_of transcript.new) (came_of declaration.now) (came_of witness.new) judged.tally) }
    // Each verdict comes with the head up to which all seals are right of what came, or that bears none.
    ensures known { IfOk result
        (λ judged. (marks : List MarkOf) × IsKnownBy (came_of transcript.new) marks judged.head) }
    ensures ended { OnOk result
        (IsTrue (is_ended transcript.new) × IsTrue (is_ended witness.new)) }
{
    let witness = match read_witness(alloc, witness) {
        Ok(witness) => witness,
        Err(fault) => return Err(witness_fault(alloc, transcript, fault)),
    };
    match judge(alloc, transcript, settings, opening, witness) {
        Ok(Ok(judged)) => Ok(judged),
        Ok(Err(fault)) => Err(AuditFault::Check(fault)),
        Err(fault) => Err(AuditFault::Transcript(fault)),
    }
}

/// The first fault of the transcript, or, where it has none, this one of the witness.
fn witness_fault<R: Read>(
    alloc: Global,
    transcript: &mut Input<R>,
    fault: RecordFault,
) -> AuditFault
    requires { came_of transcript.old ≡ [] }
    ensures { (t d w : List ℕ) (failed_d failed_w : Bool) → IsFileOf t transcript.new → AreADeclaration d
        → Tells WitnessFault IsWitnessUpTo w failed_w fault
        → AuditFails t d w (is_failed transcript.new) failed_d failed_w result }
{
    match pass(alloc, transcript) {
        Ok(()) => AuditFault::Witness(fault),
        Err(first) => AuditFault::Transcript(first),
    }
}

/// Reads a transcript to its end, and keeps nothing of it.
pub fn pass<R: Read>(alloc: Global, transcript: &mut Input<R>) -> Result<(), RecordFault>
    requires { came_of transcript.old ≡ [] }
    ensures ended { OnOk result (IsPassed transcript.new) }
    ensures fault { (file : List ℕ) → IsFileOf file transcript.new
        → IfErr result (Tells TranscriptFault IsTranscriptUpTo file (is_failed transcript.new)) }
{
    let mut source = RecordedMarks::new(alloc, transcript);
    let passed = pass_marks(&mut source);
    let _ = source.into_input();
    match passed {
        Ok(()) => Ok(()),
        Err(fault) => Err(fault),
    }
}

/// Reads the marks of a transcript up to the end.
fn pass_marks<R: Read>(source: &mut RecordedMarks<'_, R>) -> Result<(), RecordFault>
    requires { HaveCome [] source.old }
    ensures ended { OnOk result (IsPassed (input_of source.new)) }
    ensures fault { (file : List ℕ) → IsFileOf file (input_of source.new)
        → IfErr result (Tells TranscriptFault IsTranscriptUpTo file (is_failed (input_of source.new))) }
    ensures same_reference { reference_of source.new ≡ reference_of source.old }
{
    'marks: while let Some(_) = source.next()? {}
    Ok(())
}

/// What the check answers of a transcript, or its first fault.
fn judge<R: Read>(
    alloc: Global,
    transcript: &mut Input<R>,
    settings: Settings,
    opening: Opening,
    witness: Witness,
) -> Result<Result<Judged, CheckFault>, RecordFault>
    requires came { came_of transcript.old ≡ [] }
    requires declared { (declared : DeclarationOf) × (declared.settings ≡ settings) × Opens opening declared }
    ensures judged { (declared : DeclarationOf) → declared.settings ≡ settings → Opens opening declared
        → IfOk result (IsJudged transcript.new declared (witness_of witness)) }
    ensures fault { (file : List ℕ) → IsFileOf file transcript.new
        → IfErr result (Tells TranscriptFault IsTranscriptUpTo file (is_failed transcript.new)) }
{
    let Ok(auditor) = Auditor::new(alloc, settings, opening, &witness.turns) else {
        return match pass(alloc, transcript) {
            Ok(()) => Ok(Err(CheckFault::Memory)),
            Err(fault) => Err(fault),
        };
    };
    let answer = judge_by(alloc, transcript, auditor);
    forget(witness);
    answer
}

/// What an auditor that took no mark so far answers of a transcript, or its first fault.
fn judge_by<R: Read>(
    alloc: Global,
    transcript: &mut Input<R>,
    mut auditor: Auditor<'_>,
) -> Result<Result<Judged, CheckFault>, RecordFault>
    requires came { came_of transcript.old ≡ [] }
    requires first { (turns : List turns.Turn) × (declared : DeclarationOf) × Stands false [] turns declared auditor }
    ensures judged { (turns : List turns.Turn) (declared : DeclarationOf) → Stands false [] turns declared auditor.entry
        → IfOk result (IsJudged transcript.new declared (map turn_of turns)) }
    ensures fault { (file : List ℕ) → IsFileOf file transcript.new
        → IfErr result (Tells TranscriptFault IsTranscriptUpTo file (is_failed transcript.new)) }
{
    let mut source = RecordedMarks::new(alloc, transcript);
    let taken = take_marks(&mut source, &mut auditor);
    let head = source.take_head();
    let _ = source.into_input();
    match taken {
        Ok(true) => {
            let stamped = auditor.judge();
            forget(auditor);
            Ok(with_head(stamped, head))
        }
        Ok(false) => Ok(Err(CheckFault::Memory)),
        Err(fault) => Err(fault),
    }
}

/// What is answered, with what the transcript is known by.
fn with_head(stamped: Result<Stamped, CheckFault>, head: Option<Head>) -> Result<Judged, CheckFault>
    ensures alone { stamped_alone result ≡ stamped }
    ensures head { IfOk result (λ judged. judged.head ≡ head) }
{
    match stamped {
        Ok(
            Stamped {
                verdict,
                stamp,
                counts,
            },
        ) => Ok(Judged {
            verdict,
            stamp,
            items: counts.items,
            tally: counts.tally,
            head,
        }),
        Err(fault) => Err(fault),
    }
}

/// Hands the marks of a transcript to an auditor, up to the end: whether memory sufficed. Where it runs out the rest is only read.
fn take_marks<R: Read>(
    source: &mut RecordedMarks<'_, R>,
    auditor: &mut Auditor<'_>,
) -> Result<bool, RecordFault>
    requires come { HaveCome [] source.old }
    requires first { (turns : List turns.Turn) × (declared : DeclarationOf)
        × Stands false [] turns declared auditor.old }
    ensures taken { (turns : List turns.Turn) (declared : DeclarationOf) → Stands false [] turns declared auditor.old
        → IfOk result (λ sufficed. (marks : List MarkOf) × IsTranscript (came_of (input_of source.new)) marks
        × IsTrue (is_ended (input_of source.new))
        × (sufficed ≡ true → Stands false marks turns declared auditor.new) × HaveEnded marks source.new) }
    ensures fault { (file : List ℕ) → IsFileOf file (input_of source.new)
        → IfErr result (Tells TranscriptFault IsTranscriptUpTo file (is_failed (input_of source.new))) }
    ensures same_reference { reference_of source.new ≡ reference_of source.old }
{
    let mut sufficed = true;
    'marks: while let Some(mark) = source.next()? {
        if sufficed {
            sufficed = auditor.take(mark).is_ok();
        }
    }
    Ok(sufficed)
}
