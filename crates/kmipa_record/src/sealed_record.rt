//! The records of a sealed transcript: marks, notes and the close, each with its moment and its seal.

ghost use Rattle.std.specs.Prelude.{◌≡◌, ◌≢◌, ◌≤◌, ℕ, ℤ, List, length, IfOk, MatchOption};
ghost use Rattle.kmipa_ttlv.specs.Tree.{Trees, structure, scalar, none, more, integer, enumeration, text, byte_string};
ghost use Rattle.kmipa_ttlv.specs.ViewTree.{view_trees};
ghost use Rattle.kmipa_record.specs.Heads.{IsRecordItem, IsNoRecordItem, SaysThis};
ghost use Rattle.kmipa_record.specs.Seals.{seal_fields};
ghost use Rattle.kmipa_record.specs.Tags.{begin_mark_tag, end_mark_tag, call_tag, client_tag, message_tag, note_tag, note_kind_tag, note_text_tag, close_tag, records_tag};

use crate::record::Record;
use crate::shape::{
    bytes_of, children_of, enumeration_of, integer_of, moment_of, seal_of, text_of,
};
use crate::tags::{
    BEGIN_MARK, CALL, CLIENT, CLOSE, END_MARK, MESSAGE, MOMENT, NOTE, NOTE_KIND, NOTE_TEXT,
    RECORDS, SEAL,
};
use crate::transcript::{Begin, End, Mark};
use kmipa_ttlv::{Children, View};
use std::alloc::{AllocError, Global};

/// A record of a sealed transcript.
#[derive(Drop)]
pub struct SealedRecord {
    pub content: Content,
    /// Microseconds since 1970-01-01T00:00:00Z, by the recorder's clock.
    pub moment: i64,
    pub seal: [u8; 32],
}

/// What a record holds beside its moment and its seal.
#[derive(Drop)]
pub enum Content {
    Mark(Mark),
    Note(Note),
    /// The close, and how many records it says to be ahead of it.
    Close(i32),
}

/// What the recorder noted.
#[derive(Drop)]
pub struct Note {
    /// 1 a connection, 2 its end, 3 a message that was not recorded, 4 resumed, 5 the operator's words.
    pub kind: u32,
    pub text: String,
}

/// What stands at the end of each record.
#[derive(Clone, Copy)]
struct Tail {
    moment: i64,
    seal: [u8; 32],
}

impl Record for SealedRecord {
    ghost says = { SaysThis };

    ghost is_record = { IsRecordItem };

    fn of(alloc: Global, item: &View) -> Result<Option<SealedRecord>, AllocError> {
        if let Some(children) = children_of(item, BEGIN_MARK) {
            return begin_in(alloc, children);
        }
        if let Some(children) = children_of(item, END_MARK) {
            return end_in(alloc, children);
        }
        if let Some(children) = children_of(item, NOTE) {
            return note_in(alloc, children);
        }
        match children_of(item, CLOSE) {
            Some(children) => Ok(close_in(children)),
            None => Ok(None),
        }
    }
}

/// The record that a begin mark with these children is.
fn begin_in(alloc: Global, children: Children) -> Result<Option<SealedRecord>, AllocError>
    ensures { IfOk result
        (λ o. MatchOption o (IsNoRecordItem (structure begin_mark_tag (view_trees children.entry)))
        (SaysThis (structure begin_mark_tag (view_trees children.entry)))) }
{
    let Some((call, client, message, tail)) = begin_parts(children) else {
        return Ok(None);
    };
    let begin = Begin {
        call,
        client: String::from_str(alloc, client)?,
        message: Vec::from_slice(alloc, message)?,
    };
    Ok(Some(sealed(Content::Mark(Mark::Begin(begin)), tail)))
}

/// The number, the client and the message of a begin mark with these children, and what stands behind them.
fn begin_parts<'a>(children: Children<'a>) -> Option<(i32, &'a str, &'a [u8], Tail)>
    ensures { MatchOption result
        ((call : ℤ) (client message : List ℕ) (moment : ℤ) (seal : List ℕ) → length seal ≡ 32
        → view_trees children.entry ≢ more (scalar call_tag (integer call)) (more (scalar client_tag (text client))
        (more (scalar message_tag (byte_string message)) (seal_fields moment seal))))
        (λ parts. (view_trees children.entry
        ≡ more (scalar call_tag (integer parts.0)) (more (scalar client_tag (text parts.1.now))
        (more (scalar message_tag (byte_string parts.2.now)) (seal_fields parts.3.moment parts.3.seal))))
        × (length parts.3.seal ≡ 32)) }
{
    let mut children = children;
    let call = integer_of(&children.next()?, CALL)?;
    let client = text_of(&children.next()?, CLIENT)?;
    let message = bytes_of(&children.next()?, MESSAGE)?;
    let tail = tail_in(children)?;
    Some((call, client, message, tail))
}

/// The record that an end mark with these children is.
fn end_in(alloc: Global, children: Children) -> Result<Option<SealedRecord>, AllocError>
    ensures { IfOk result
        (λ o. MatchOption o (IsNoRecordItem (structure end_mark_tag (view_trees children.entry)))
        (SaysThis (structure end_mark_tag (view_trees children.entry)))) }
{
    let Some((call, message, tail)) = end_parts(children) else {
        return Ok(None);
    };
    let end = End {
        call,
        message: Vec::from_slice(alloc, message)?,
    };
    Ok(Some(sealed(Content::Mark(Mark::End(end)), tail)))
}

/// The number and the message of an end mark with these children, and what stands behind them.
fn end_parts<'a>(children: Children<'a>) -> Option<(i32, &'a [u8], Tail)>
    ensures { MatchOption result
        ((call : ℤ) (message : List ℕ) (moment : ℤ) (seal : List ℕ) → length seal ≡ 32
        → view_trees children.entry ≢ more (scalar call_tag (integer call))
        (more (scalar message_tag (byte_string message)) (seal_fields moment seal)))
        (λ parts. (view_trees children.entry
        ≡ more (scalar call_tag (integer parts.0))
        (more (scalar message_tag (byte_string parts.1.now)) (seal_fields parts.2.moment parts.2.seal)))
        × (length parts.2.seal ≡ 32)) }
{
    let mut children = children;
    let call = integer_of(&children.next()?, CALL)?;
    let message = bytes_of(&children.next()?, MESSAGE)?;
    let tail = tail_in(children)?;
    Some((call, message, tail))
}

/// The record that a note with these children is.
fn note_in(alloc: Global, children: Children) -> Result<Option<SealedRecord>, AllocError>
    ensures { IfOk result
        (λ o. MatchOption o (IsNoRecordItem (structure note_tag (view_trees children.entry)))
        (SaysThis (structure note_tag (view_trees children.entry)))) }
{
    let Some((kind, text, tail)) = note_parts(children) else {
        return Ok(None);
    };
    let note = Note {
        kind,
        text: String::from_str(alloc, text)?,
    };
    Ok(Some(sealed(Content::Note(note), tail)))
}

/// The kind and the text of a note with these children, and what stands behind them.
fn note_parts<'a>(children: Children<'a>) -> Option<(u32, &'a str, Tail)>
    ensures { MatchOption result
        ((kind : ℕ) (words : List ℕ) (moment : ℤ) (seal : List ℕ) → 1 ≤ kind → kind ≤ 5 → length seal ≡ 32
        → view_trees children.entry ≢ more (scalar note_kind_tag (enumeration kind))
        (more (scalar note_text_tag (text words)) (seal_fields moment seal)))
        (λ parts. (view_trees children.entry
        ≡ more (scalar note_kind_tag (enumeration parts.0))
        (more (scalar note_text_tag (text parts.1.now)) (seal_fields parts.2.moment parts.2.seal)))
        × (1 ≤ parts.0) × (parts.0 ≤ 5) × (length parts.2.seal ≡ 32)) }
{
    let mut children = children;
    let kind = enumeration_of(&children.next()?, NOTE_KIND)?;
    let text = text_of(&children.next()?, NOTE_TEXT)?;
    let tail = tail_in(children)?;
    if kind < 1 || kind > 5 {
        return None;
    }
    Some((kind, text, tail))
}

/// The record that a close with these children is.
fn close_in(children: Children) -> Option<SealedRecord>
    ensures { MatchOption result (IsNoRecordItem (structure close_tag (view_trees children.entry)))
        (SaysThis (structure close_tag (view_trees children.entry))) }
{
    let (records, tail) = close_parts(children)?;
    Some(sealed(Content::Close(records), tail))
}

/// The number of records that a close with these children tells, and what stands behind it.
fn close_parts(children: Children) -> Option<(i32, Tail)>
    ensures { MatchOption result
        ((records moment : ℤ) (seal : List ℕ) → length seal ≡ 32
        → view_trees children.entry ≢ more (scalar records_tag (integer records)) (seal_fields moment seal))
        (λ parts. (view_trees children.entry
        ≡ more (scalar records_tag (integer parts.0)) (seal_fields parts.1.moment parts.1.seal))
        × (length parts.1.seal ≡ 32)) }
{
    let mut children = children;
    let records = integer_of(&children.next()?, RECORDS)?;
    let tail = tail_in(children)?;
    Some((records, tail))
}

/// The moment and the seal that these children are.
fn tail_in(children: Children) -> Option<Tail>
    ensures { MatchOption result
        ((moment : ℤ) (seal : List ℕ) → length seal ≡ 32 → view_trees children.entry ≢ seal_fields moment seal)
        (λ tail. (view_trees children.entry ≡ seal_fields tail.moment tail.seal) × (length tail.seal ≡ 32)) }
{
    let mut children = children;
    let moment = moment_of(&children.next()?, MOMENT)?;
    let seal = seal_of(&children.next()?, SEAL)?;
    if children.next().is_some() {
        return None;
    }
    Some(Tail { moment, seal })
}

/// The record of a content, with what stands behind it.
fn sealed(content: Content, tail: Tail) -> SealedRecord
    ensures { result ≡ record { content = content; moment = tail.moment; seal = tail.seal } }
{
    let seal = tail.seal;
    SealedRecord {
        content,
        moment: tail.moment,
        seal,
    }
}
