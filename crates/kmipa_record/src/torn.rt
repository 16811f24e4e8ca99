//! Torn recordings: a sealed transcript that has no close is given one.

ghost use Rattle.std.specs.Prelude.{◌≡◌, ◌≢◌, ◌<◌, [], None, false, IsTrue, IfOk, IfSome, MatchOption, OnSome};
ghost use Rattle.kmipa_ttlv.specs.Input.{came_of, taken_of, is_failed, StaysOver};
ghost use Rattle.kmipa_ttlv.specs.ItemTree.{tree};
ghost use Rattle.kmipa_ttlv.specs.Spelling.{Spells};
ghost use Rattle.kmipa_record.specs.Heads.{head_of};
ghost use Rattle.kmipa_record.specs.Seals.{closed, record_item};
ghost use Rattle.kmipa_record.specs.Torn.{Completes, EndsTorn, GoesOn, IsCloseBehind, IsCompleted, IsSealedUpTo, IsTornAt, end_at};

use crate::append::append;
use crate::fault::{RecordFault, RecordKind};
use crate::head::{Head, SEAL_LENGTH, seal_of};
use crate::header::TranscriptHeader;
use crate::mark_reading::head_behind;
use crate::record::{Next, read_header, read_next};
use crate::sealed_record::{Content, SealedRecord};
use crate::tags::{CLOSE, MOMENT, RECORDS, SEAL};
use kmipa_ttlv::{FaultKind, Input, Item, Tag, Value};
use std::alloc::{AllocError, Global};
use std::io::Read;

/// Where a sealed transcript is torn that has no close.
#[derive(Clone, Copy, PartialEq, Eq)]
pub struct Torn {
    /// How many bytes its header and its whole records have.
    pub length: u64,
    /// Whether part of a record stands behind them.
    pub cut: bool,
}

/// Where it is torn, and the close that is to stand there.
#[derive(Drop)]
pub struct Completion {
    pub torn: Torn,
    pub close: Vec<u8>,
}

/// What comes next of a sealed transcript that may be torn.
#[derive(Clone, Copy)]
pub enum Step {
    /// A record that may stand there.
    More,
    /// Its end, without a close.
    End(Torn),
    /// Something else.
    Other,
}

/// Completes a sealed transcript that is torn: what there is of a record behind the whole ones is left out, and a close stands in its place.
/// Any other file stays as it is.
pub fn complete(alloc: Global, file: &mut Vec<u8>) -> Result<Option<Torn>, AllocError>
    ensures { IfOk result
        (λ torn. MatchOption torn (file.new.items ≡ file.old.items) (IsCompleted file.old.items file.new.items)) }
{
    let Some(Completion { torn, close }) = completion_of(alloc, file)? else {
        return Ok(None);
    };
    file.truncate(torn.length as usize);
    file.extend_from_slice(&close)?;
    Ok(Some(torn))
}

/// What completes a file, where it is torn.
fn completion_of(alloc: Global, file: &[u8]) -> Result<Option<Completion>, AllocError>
    ensures { IfOk result (λ completion. IfSome completion (Completes file.now)) }
{
    let Some((head, torn)) = torn_end(alloc, file)? else {
        return Ok(None);
    };
    match close_behind(alloc, head)? {
        Some(close) => Ok(Some(Completion { torn, close })),
        None => Ok(None),
    }
}

/// Where a file is torn, and its head there.
fn torn_end(alloc: Global, file: &[u8]) -> Result<Option<(Head, Torn)>, AllocError>
    ensures { IfOk result (λ end. IfSome end (λ end. IsTornAt file.now end.0 end.1)) }
{
    let mut input = Input::new(file);
    let mut bytes = Vec::new(alloc);
    let Some(mut head) = head_behind_header(alloc, &mut input, &mut bytes)? else {
        return Ok(None);
    };
    match end_behind(alloc, &mut input, &mut bytes, &mut head)? {
        Some(torn) => Ok(Some((head, torn))),
        None => Ok(None),
    }
}

/// The head behind the header of a sealed transcript.
fn head_behind_header<R: Read>(
    alloc: Global,
    input: &mut Input<R>,
    bytes: &mut Vec<u8>,
) -> Result<Option<Head>, AllocError>
    requires { came_of input.old ≡ [] }
    ensures behind { IfOk result (λ head. IfSome head (λ head. IsSealedUpTo head input.new)) }
    ensures over { StaysOver R.remaining input.old input.new }
{
    let header: Result<TranscriptHeader, RecordFault> = read_header(alloc, input, bytes);
    match header {
        Ok(header) => Ok(head_behind(header, bytes)),
        Err(fault) => no_end(fault),
    }
}

/// No end, unless memory ran out.
fn no_end<T>(fault: RecordFault) -> Result<Option<T>, AllocError>
    ensures { IfOk result (λ end. end ≡ None) }
{
    match fault.kind {
        RecordKind::Memory => Err(AllocError),
        _ => Ok(None),
    }
}

/// Where a file is torn of which the records up to the head came.
fn end_behind<R: Read>(
    alloc: Global,
    input: &mut Input<R>,
    bytes: &mut Vec<u8>,
    head: &mut Head,
) -> Result<Option<Torn>, AllocError>
    requires { IsSealedUpTo head.old input.old }
    ensures torn { IfOk result (λ end. IfSome end (EndsTorn head.new input.new)) }
    ensures works { IfOk result (λ end. OnSome end (is_failed input.new ≡ false)) }
    ensures over { StaysOver R.remaining input.old input.new }
{
    'records: loop {
        match next_step(alloc, input, bytes, head)? {
            Step::End(torn) => return Ok(Some(torn)),
            Step::Other => return Ok(None),
            Step::More => {}
        }
    }
}

/// Reads the next record.
fn next_step<R: Read>(
    alloc: Global,
    input: &mut Input<R>,
    bytes: &mut Vec<u8>,
    head: &mut Head,
) -> Result<Step, AllocError>
    requires { IsSealedUpTo head.old input.old }
    ensures goes { IfOk result (GoesOn head.new input.new) }
    ensures works { IfOk result (λ step. step ≢ Step.Other → is_failed input.new ≡ false) }
    ensures nearer { IfOk result (λ step. step ≡ Step.More → taken_of input.old < taken_of input.new) }
    ensures over { StaysOver R.remaining input.old input.new }
{
    let length = input.taken();
    let next: Result<Next<SealedRecord>, RecordFault> = read_next(alloc, input, bytes);
    match next {
        Ok(Next::Record(record)) => match head.take(bytes, &record) {
            Ok(()) => Ok(Step::More),
            Err(_) => Ok(Step::Other),
        },
        Ok(Next::End) => Ok(end_of(head, Torn { length, cut: false })),
        Ok(Next::Other) => Ok(Step::Other),
        Err(fault) => {
            let cut = is_cut_short(fault.kind)?;
            if cut {
                Ok(end_of(head, Torn { length, cut: true }))
            } else {
                Ok(Step::Other)
            }
        }
    }
}

/// Whether a fault is that of an item that is cut short; it may be want of memory, too.
fn is_cut_short(kind: RecordKind) -> Result<bool, AllocError>
    ensures { IfOk result (λ cut. IsTrue cut → kind ≡ RecordKind.Ttlv FaultKind.Truncated) }
{
    match kind {
        RecordKind::Memory => Err(AllocError),
        RecordKind::Ttlv(FaultKind::Truncated) => Ok(true),
        _ => Ok(false),
    }
}

/// The torn end behind a head that is no close.
fn end_of(head: &Head, torn: Torn) -> Step
    ensures { result ≡ end_at head.now.closed torn }
{
    if head.closed {
        Step::Other
    } else {
        Step::End(torn)
    }
}

/// The close that may stand behind a head, where it can tell how many records there are.
fn close_behind(alloc: Global, head: Head) -> Result<Option<Vec<u8>>, AllocError>
    ensures { IfOk result (λ close. IfSome close (λ bytes. IsCloseBehind (head_of head) bytes.items)) }
{
    let mut head = head;
    let Ok(records) = i32::try_from(head.records) else {
        return Ok(None);
    };
    let moment = match head.moment {
        Some(moment) => moment,
        None => 0,
    };
    let unsealed = spelled_close(alloc, records, moment, &[0; 32])?;
    let (ahead, _) = unsealed.split_at(unsealed.len().saturating_sub(SEAL_LENGTH));
    let seal = seal_of(&head.seal, ahead);
    let close = spelled_close(alloc, records, moment, &seal)?;
    let record = SealedRecord {
        content: Content::Close(records),
        moment,
        seal,
    };
    match head.take(&close, &record) {
        Ok(()) => Ok(Some(close)),
        Err(_) => Ok(None),
    }
}

/// The bytes of a close. It is short, so that memory alone refuses it.
fn spelled_close(
    alloc: Global,
    records: i32,
    moment: i64,
    seal: &[u8; 32],
) -> Result<Vec<u8>, AllocError>
    ensures { IfOk result (λ bytes. Spells (record_item (closed records) moment seal.now) bytes.items) }
{
    let item = close_item(alloc, records, moment, seal)?;
    let mut bytes = Vec::new(alloc);
    match append(&item, &mut bytes) {
        Ok(()) => Ok(bytes),
        Err(_) => Err(AllocError),
    }
}

fn close_item(alloc: Global, records: i32, moment: i64, seal: &[u8; 32]) -> Result<Item, AllocError>
    ensures { IfOk result (λ item. tree item ≡ record_item (closed records) moment seal.now) }
{
    let told = Item::integer(Tag { number: RECORDS }, records);
    let at = Item {
        tag: Tag { number: MOMENT },
        value: Value::DateTimeExtended(moment),
    };
    let sealed = Item::bytes(alloc, Tag { number: SEAL }, seal.as_slice())?;
    let mut children = Vec::with_capacity(alloc, 3)?;
    children.push(told)?;
    children.push(at)?;
    children.push(sealed)?;
    Ok(Item::structure(Tag { number: CLOSE }, children))
}
