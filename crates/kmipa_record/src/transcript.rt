//! Transcripts: which calls were made, and what was answered.

ghost use Rattle.std.specs.Prelude.{◌≡◌, ◌<◌, ◌≢◌, ◌⊎◌, ℕ, ℤ, List, [], ◌∷◌, ◌++◌, true, false, IsTrue, map, Option, OnOk, IfOk, IfErr, MatchOption, MatchResult};
ghost use Rattle.std.specs.String.{string_bytes};
ghost use Rattle.kmipa_ttlv.specs.Input.{came_of, taken_of, is_ended, is_failed, IsFileOf, StaysOver};
ghost use Rattle.kmipa_ttlv.specs.Tree.{Tree};
ghost use Rattle.kmipa_ttlv.specs.ViewTree.{view_tree, view_trees};
ghost use Rattle.kmipa_record.specs.Files.{Tells, TellsItem};
ghost use Rattle.kmipa_record.specs.Marks.{MarkOf, mark_of, mark_item, begin_fields, end_fields, AreRecorded};
ghost use Rattle.kmipa_record.specs.Transcripts.{transcript_of, IsTranscript, TranscriptFault, IsTranscriptUpTo};
ghost use Rattle.kmipa_record.specs.TranscriptReading.{input_of, reference_of, HaveCome, HaveEnded, IsKnownBy};

use crate::fault::{RecordFault, RecordKind};
use crate::head::Head;
use crate::record::Record;
use crate::recorded_marks::RecordedMarks;
use crate::shape::{bytes_of, children_of, integer_of, text_of};
use crate::tags::{BEGIN_MARK, CALL, CLIENT, END_MARK, MESSAGE};
use kmipa_ttlv::{Children, Input, View};
use std::alloc::{AllocError, Global};
use std::io::Read;

/// What a laboratory saw of the calls to a server: marks in the order in which it saw them.
#[derive(Drop)]
pub struct Transcript {
    pub marks: Vec<Mark>,
    /// The head of one that is sealed.
    pub head: Option<Head>,
}

/// One thing that was seen of a call.
#[derive(Drop)]
pub enum Mark {
    Begin(Begin),
    End(End),
}

/// A call began: its number, who made it, and its request message as it came.
#[derive(Drop)]
pub struct Begin {
    pub call: i32,
    pub client: String,
    pub message: Vec<u8>,
}

/// A call ended: its number, and its response message as it came.
#[derive(Drop)]
pub struct End {
    pub call: i32,
    pub message: Vec<u8>,
}

impl Record for Mark {
    ghost says = { λ item mark. item ≡ mark_item (mark_of mark) };

    ghost is_record = { λ item. (mark : MarkOf) × (item ≡ mark_item mark) };

    #[inline(always)]
    fn of(alloc: Global, item: &View) -> Result<Option<Mark>, AllocError> {
        if let Some(children) = children_of(item, BEGIN_MARK) {
            return match begin_in(alloc, children)? {
                Some(begin) => Ok(Some(Mark::Begin(begin))),
                None => Ok(None),
            };
        }
        if let Some(children) = children_of(item, END_MARK) {
            return match end_in(alloc, children)? {
                Some(end) => Ok(Some(Mark::End(end))),
                None => Ok(None),
            };
        }
        Ok(None)
    }
}

/// What the children of a begin mark say.
fn begin_in(alloc: Global, children: Children) -> Result<Option<Begin>, AllocError>
    ensures { IfOk result
        (λ o. MatchOption o
        ((call : ℤ) (client message : List ℕ) → view_trees children.entry ≢ begin_fields call client message)
        (λ begin. view_trees children.entry
        ≡ begin_fields begin.call (string_bytes begin.client) begin.message.items)) }
{
    match begin_parts(children) {
        Some((call, client, message)) => Ok(Some(Begin {
            call,
            client: String::from_str(alloc, client)?,
            message: Vec::from_slice(alloc, message)?,
        })),
        None => Ok(None),
    }
}

/// The number, the client and the message of a begin mark with these children.
fn begin_parts<'a>(children: Children<'a>) -> Option<(i32, &'a str, &'a [u8])>
    ensures { MatchOption result
        ((call : ℤ) (client message : List ℕ) → view_trees children.entry ≢ begin_fields call client message)
        (λ parts. view_trees children.entry ≡ begin_fields parts.0 parts.1.now parts.2.now) }
{
    let mut children = children;
    let call = integer_of(&children.next()?, CALL)?;
    let client = text_of(&children.next()?, CLIENT)?;
    let message = bytes_of(&children.next()?, MESSAGE)?;
    if children.next().is_some() {
        return None;
    }
    Some((call, client, message))
}

/// What the children of an end mark say.
fn end_in(alloc: Global, children: Children) -> Result<Option<End>, AllocError>
    ensures { IfOk result
        (λ o. MatchOption o ((call : ℤ) (message : List ℕ) → view_trees children.entry ≢ end_fields call message)
        (λ end. view_trees children.entry ≡ end_fields end.call end.message.items)) }
{
    match end_parts(children) {
        Some((call, message)) => Ok(Some(End {
            call,
            message: Vec::from_slice(alloc, message)?,
        })),
        None => Ok(None),
    }
}

/// The number and the message of an end mark with these children.
fn end_parts<'a>(children: Children<'a>) -> Option<(i32, &'a [u8])>
    ensures { MatchOption result ((call : ℤ) (message : List ℕ) → view_trees children.entry ≢ end_fields call message)
        (λ parts. view_trees children.entry ≡ end_fields parts.0 parts.1.now) }
{
    let mut children = children;
    let call = integer_of(&children.next()?, CALL)?;
    let message = bytes_of(&children.next()?, MESSAGE)?;
    if children.next().is_some() {
        return None;
    }
    Some((call, message))
}

/// Reads a transcript of whose bytes none was read.
///
/// `Device` and `Memory` are reported with the place of the item that was being read.
pub fn read_transcript<R: Read>(
    alloc: Global,
    input: &mut Input<R>,
) -> Result<Transcript, RecordFault>
    requires { came_of input.old ≡ [] }
    // What is read is what the bytes are that came, to the end that was seen.
    ensures found { IfOk result
        (λ transcript. IsTranscript (came_of input.new) (transcript_of transcript) × IsTrue (is_ended input.new)) }
    // Its calls begin and end as those of a transcript do; a call without an end mark is open.
    ensures recorded { IfOk result (λ transcript. AreRecorded (transcript_of transcript)) }
    // It bears no seals, or all of them are right, from its header to its head.
    ensures known { IfOk result
        (λ transcript. IsKnownBy (came_of input.new) (transcript_of transcript) transcript.head) }
    // Else the first fault is reported, whatever follows what came, and nothing where the end was seen;
    // unless a read failed or memory ran out.
    ensures fault { (file : List ℕ) → IsFileOf file input.new
        → IfErr result (Tells TranscriptFault IsTranscriptUpTo file (is_failed input.new)) }
    // These two are reported where the item begins that was being read.
    ensures place { IfErr result (TellsItem (came_of input.new)) }
    ensures sound { MatchResult result (λ _. is_failed input.new ≡ false)
        (λ f. f.kind ≢ RecordKind.Device → is_failed input.new ≡ false) }
    // Over a reader whose bytes are known what came is their front, and all where the end was seen.
    ensures over { StaysOver R.remaining input.old input.new }
{
    let mut source = RecordedMarks::new(alloc, input);
    let mut marks = Vec::new(alloc);
    let taken = take_marks(&mut source, &mut marks);
    let head = source.take_head();
    let _ = source.into_input();
    match taken {
        Ok(()) => Ok(Transcript { marks, head }),
        Err(fault) => Err(fault),
    }
}

/// Takes the marks of a transcript up to its end.
fn take_marks<R: Read>(
    source: &mut RecordedMarks<'_, R>,
    marks: &mut Vec<Mark>,
) -> Result<(), RecordFault>
    requires { HaveCome (map mark_of marks.old.items) source.old }
    ensures found { OnOk result
        (IsTranscript (came_of (input_of source.new)) (map mark_of marks.new.items)
        × IsTrue (is_ended (input_of source.new))) }
    ensures ended { OnOk result (HaveEnded (map mark_of marks.new.items) source.new) }
    ensures fault { (file : List ℕ) → IsFileOf file (input_of source.new)
        → IfErr result (Tells TranscriptFault IsTranscriptUpTo file (is_failed (input_of source.new))) }
    ensures place { IfErr result (TellsItem (came_of (input_of source.new))) }
    ensures sound { MatchResult result (λ _. is_failed (input_of source.new) ≡ false)
        (λ f. f.kind ≢ RecordKind.Device → is_failed (input_of source.new) ≡ false) }
    ensures same_reference { reference_of source.new ≡ reference_of source.old }
    ensures over { StaysOver R.remaining (input_of source.old) (input_of source.new) }
{
    'marks: while take_mark(source, marks)? {}
    Ok(())
}

/// Takes the next mark of a transcript after those before it; `false` at the end.
fn take_mark<R: Read>(
    source: &mut RecordedMarks<'_, R>,
    marks: &mut Vec<Mark>,
) -> Result<bool, RecordFault>
    requires { HaveCome (map mark_of marks.old.items) source.old }
    ensures taken { IfOk result (λ more. more ≡ true → HaveCome (map mark_of marks.new.items) source.new) }
    ensures end { IfOk result
        (λ more. more ≡ false → IsTranscript (came_of (input_of source.new)) (map mark_of marks.new.items)
        × IsTrue (is_ended (input_of source.new))) }
    ensures ended { IfOk result (λ more. more ≡ false → HaveEnded (map mark_of marks.new.items) source.new) }
    ensures fault { (file : List ℕ) → IsFileOf file (input_of source.new)
        → IfErr result (Tells TranscriptFault IsTranscriptUpTo file (is_failed (input_of source.new))) }
    ensures place { IfErr result (TellsItem (came_of (input_of source.new))) }
    ensures nearer { IfOk result
        (λ more. more ≡ true → taken_of (input_of source.old) < taken_of (input_of source.new)) }
    ensures sound { MatchResult result (λ _. is_failed (input_of source.new) ≡ false)
        (λ f. f.kind ≢ RecordKind.Device → is_failed (input_of source.new) ≡ false) }
    ensures same_reference { reference_of source.new ≡ reference_of source.old }
    ensures over { StaysOver R.remaining (input_of source.old) (input_of source.new) }
{
    let Some(mark) = source.next()? else {
        return Ok(false);
    };
    match marks.push(mark) {
        Ok(()) => Ok(true),
        Err(_) => Err(RecordFault {
            offset: source.place(),
            kind: RecordKind::Memory,
        }),
    }
}
