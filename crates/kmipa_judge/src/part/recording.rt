//! A part of a recording: some of its calls, and the turns that take them.

ghost use Rattle.std.specs.Prelude.{◌≡◌, ◌++◌, ◌<◌, IfOk, OnOk, length, map};
ghost use Rattle.kmipa_record.specs.Marks.{AreRecorded, call_of, mark_of};
ghost use Rattle.kmipa_record.specs.Transcripts.{transcript_of};
ghost use Rattle.kmipa_record.specs.Witnesses.{turn_of, witness_of};
ghost use Rattle.kmipa_findings.specs.Told.{finding_of};
ghost use Rattle.kmipa_judge.specs.Parts.{keeps, marks_kept, one_if, turns_kept, with_tried};

use super::keeping::Kept;
use kmipa_findings::{Finding, copied_turn};
use kmipa_record::{Begin, End, Mark, Transcript, Turn, Witness};
use std::alloc::{AllocError, Global};

/// The marks of the calls that are kept.
pub(crate) fn part_of(
    alloc: Global,
    transcript: &Transcript,
    kept: Kept,
) -> Result<Transcript, AllocError>
    ensures { IfOk result (λ part. transcript_of part
        ≡ marks_kept (keeps kept.entry.places.now kept.entry.turns.now) (transcript_of transcript.now)) }
{
    Ok(Transcript {
        marks: marks_kept(alloc, &transcript.marks, kept)?,
        head: None,
    })
}

fn marks_kept(alloc: Global, marks: &[Mark], kept: Kept) -> Result<Vec<Mark>, AllocError>
    ensures { IfOk result (λ part. map mark_of part.items
        ≡ marks_kept (keeps kept.entry.places.now kept.entry.turns.now) (map mark_of marks.now)) }
{
    let mut part = Vec::new(alloc);
    let mut place = 0;
    'marks: while place < marks.len() {
        keep_mark(alloc, &marks[place], kept, &mut part)?;
        place += 1;
    }
    Ok(part)
}

/// Puts a mark behind these, where its call is kept.
fn keep_mark(alloc: Global, mark: &Mark, kept: Kept, part: &mut Vec<Mark>) -> Result<(), AllocError>
    ensures { OnOk result (map mark_of part.new.items ≡ map mark_of part.old.items
        ++ one_if (mark_of mark.now) (keeps kept.entry.places.now kept.entry.turns.now (call_of (mark_of mark.now)))) }
{
    if kept.keeps(number_of(mark)) {
        part.push(copied_mark(alloc, mark)?)?;
    }
    Ok(())
}

fn number_of(mark: &Mark) -> i32
    ensures { result ≡ call_of (mark_of mark.now) }
{
    match mark {
        Mark::Begin(begin) => begin.call,
        Mark::End(end) => end.call,
    }
}

/// An equal mark.
fn copied_mark(alloc: Global, mark: &Mark) -> Result<Mark, AllocError>
    ensures { IfOk result (λ copy. mark_of copy ≡ mark_of mark.now) }
{
    match mark {
        Mark::Begin(begin) => Ok(Mark::Begin(copied_begin(alloc, begin)?)),
        Mark::End(end) => Ok(Mark::End(copied_end(alloc, end)?)),
    }
}

fn copied_begin(alloc: Global, begin: &Begin) -> Result<Begin, AllocError>
    ensures { IfOk result (λ copy. mark_of (Mark.Begin copy) ≡ mark_of (Mark.Begin begin.now)) }
{
    let client = begin.client.clone()?;
    let message = Vec::from_slice(alloc, &begin.message)?;
    Ok(Begin {
        call: begin.call,
        client,
        message,
    })
}

fn copied_end(alloc: Global, end: &End) -> Result<End, AllocError>
    ensures { IfOk result (λ copy. mark_of (Mark.End copy) ≡ mark_of (Mark.End end.now)) }
{
    let message = Vec::from_slice(alloc, &end.message)?;
    Ok(End {
        call: end.call,
        message,
    })
}

/// The turns of a witness that take the calls that are kept, with that of a finding as it was tried.
pub(crate) fn turns_of(
    alloc: Global,
    turns: &[Turn],
    finding: &Finding,
    kept: Kept,
) -> Result<Witness, AllocError>
    requires { finding.now.place < length turns.now }
    ensures { IfOk result (λ taken. witness_of taken
        ≡ turns_kept (keeps kept.entry.places.now kept.entry.turns.now) (with_tried (map turn_of turns.now) (finding_of finding.now))) }
{
    let mut taken = Vec::new(alloc);
    keep_turns(alloc, &turns[..finding.place], kept, &mut taken)?;
    keep_turn(alloc, &finding.tried, kept, &mut taken)?;
    keep_turns(alloc, &turns[finding.place + 1..], kept, &mut taken)?;
    Ok(Witness { turns: taken })
}

/// Puts turns behind these, where their calls are kept.
fn keep_turns(
    alloc: Global,
    turns: &[Turn],
    kept: Kept,
    taken: &mut Vec<Turn>,
) -> Result<(), AllocError>
    ensures { OnOk result (map turn_of taken.new.items ≡ map turn_of taken.old.items
        ++ turns_kept (keeps kept.entry.places.now kept.entry.turns.now) (map turn_of turns.now)) }
{
    let mut place = 0;
    'turns: while place < turns.len() {
        keep_turn(alloc, &turns[place], kept, taken)?;
        place += 1;
    }
    Ok(())
}

fn keep_turn(
    alloc: Global,
    turn: &Turn,
    kept: Kept,
    taken: &mut Vec<Turn>,
) -> Result<(), AllocError>
    ensures { OnOk result (map turn_of taken.new.items ≡ map turn_of taken.old.items
        ++ one_if (turn_of turn.now) (keeps kept.entry.places.now kept.entry.turns.now turn.now.call)) }
{
    if kept.keeps(turn.call) {
        taken.push(copied_turn(alloc, turn)?)?;
    }
    Ok(())
}
