//! Transcripts that are written.

ghost use Rattle.std.specs.Prelude.{◌≡◌, ◌≢◌, ◌⊎◌, ◌∷◌, List, map, All, OnOk, IfOk, IfErr};
ghost use Rattle.std.specs.Io.{StartsWith};
ghost use Rattle.std.specs.String.{string_bytes};
ghost use Rattle.kmipa_ttlv.specs.ItemTree.{tree};
ghost use Rattle.kmipa_record.specs.Marks.{MarkOf, mark_of, mark_item, AreRecorded};
ghost use Rattle.kmipa_record.specs.Transcripts.{transcript_of, transcript_header, IsPlainTranscript};
ghost use Rattle.kmipa_record.specs.Writing.{Appends, IsWrittenTranscript, Unwritten, AddsAll, Refused, AreWritable};

use crate::append::{Written, append, append_all};
use crate::calls::Calls;
use crate::fault::{RecordFault, RecordKind};
use crate::header::write_transcript_header;
use crate::tags::{BEGIN_MARK, CALL, CLIENT, END_MARK, MESSAGE};
use crate::transcript::{Begin, End, Mark, Transcript};
use kmipa_ttlv::{Item, Tag};
use std::alloc::{AllocError, Global};

/// Appends a transcript of these marks, without seals.
///
/// `Entry` at 0 where no bytes are one: marks of which `read_transcript` would tell a fault, or a mark too long for one
/// item. An `Err` changes nothing.
pub fn write_transcript(
    alloc: Global,
    transcript: &Transcript,
    out: &mut Vec<u8>,
) -> Result<(), RecordFault>
    // What is appended is a transcript of these marks, padded with zeros.
    ensures written { OnOk result
        (Appends (IsWrittenTranscript (transcript_of transcript.now)) out.old.items out.new.items) }
    // It is refused where no bytes are one, or where memory ran out.
    ensures refused { IfErr result (Unwritten (λ bytes. IsPlainTranscript bytes (transcript_of transcript.now))) }
    ensures same { IfErr result (λ _. out.new.items ≡ out.old.items) }
{
    let start = out.len();
    match put_transcript(alloc, &transcript.marks, out) {
        Ok(()) => Ok(()),
        Err(kind) => {
            out.truncate(start);
            Err(RecordFault { offset: 0, kind })
        }
    }
}

fn put_transcript(alloc: Global, marks: &[Mark], out: &mut Vec<u8>) -> Result<(), RecordKind>
    ensures put { OnOk result
        (AddsAll (transcript_header ∷ map mark_item (map mark_of marks.now)) out.old.items out.new.items
        × AreRecorded (map mark_of marks.now)) }
    ensures refused { IfErr result (Refused (AreWritable (map mark_of marks.now))) }
    ensures grows { StartsWith out.new.items out.old.items }
{
    test_marks(alloc, marks)?;
    append(&write_transcript_header(alloc)?, out)?;
    append_all(alloc, marks, out)
}

/// Tests whether these are the marks of a transcript; `Entry` where they are not.
fn test_marks(alloc: Global, marks: &[Mark]) -> Result<(), RecordKind>
    ensures recorded { OnOk result (AreRecorded (map mark_of marks.now)) }
    ensures refused { IfErr result (Refused (AreRecorded (map mark_of marks.now))) }
{
    let mut calls = Calls::new(alloc);
    for mark in marks {
        match calls.take(mark) {
            Ok(()) => {}
            Err(kind) => return Err(refusal(kind)),
        }
    }
    Ok(())
}

/// Why marks are not written of which one has this fault.
fn refusal(kind: RecordKind) -> RecordKind
    ensures { ((kind ≡ RecordKind.Memory) × (result ≡ RecordKind.Memory))
        ⊎ ((kind ≢ RecordKind.Memory) × (result ≡ RecordKind.Entry)) }
{
    match kind {
        RecordKind::Memory => RecordKind::Memory,
        _ => RecordKind::Entry,
    }
}

impl Written for Mark {
    ghost item_of = { λ mark. mark_item (mark_of mark) };

    fn item(&self, alloc: Global) -> Result<Item, AllocError> {
        match self {
            Mark::Begin(begin) => write_begin(alloc, begin),
            Mark::End(end) => write_end(alloc, end),
        }
    }
}

fn write_begin(alloc: Global, begin: &Begin) -> Result<Item, AllocError>
    ensures { IfOk result
        (λ item. tree item
        ≡ mark_item (MarkOf.begins begin.now.call (string_bytes begin.now.client) begin.now.message.items)) }
{
    let call = Item::integer(Tag { number: CALL }, begin.call);
    let client = Item::text(alloc, Tag { number: CLIENT }, &begin.client)?;
    let message = Item::bytes(alloc, Tag { number: MESSAGE }, &begin.message)?;
    let mut children = Vec::with_capacity(alloc, 3)?;
    children.push(call)?;
    children.push(client)?;
    children.push(message)?;
    Ok(Item::structure(Tag { number: BEGIN_MARK }, children))
}

fn write_end(alloc: Global, end: &End) -> Result<Item, AllocError>
    ensures { IfOk result (λ item. tree item ≡ mark_item (MarkOf.ends end.now.call end.now.message.items)) }
{
    let call = Item::integer(Tag { number: CALL }, end.call);
    let message = Item::bytes(alloc, Tag { number: MESSAGE }, &end.message)?;
    let mut children = Vec::with_capacity(alloc, 2)?;
    children.push(call)?;
    children.push(message)?;
    Ok(Item::structure(Tag { number: END_MARK }, children))
}
