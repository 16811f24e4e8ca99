//! The explanation of a call's message that is outside.

ghost use Rattle.std.specs.Prelude.{◌≡◌, ℕ, IfErr, IfOk, List, MatchOption, map};
ghost use Rattle.std.specs.String.{string_bytes};
ghost use Rattle.kmipa_msgs.specs.Messages.{request_of};
ghost use Rattle.kmipa_record.specs.Marks.{AreRecorded, begins, ends, mark_of};
ghost use Rattle.kmipa_record.specs.Transcripts.{transcript_of};
ghost use Rattle.kmipa_check.specs.Calls.{AreRequest, IsFirstOutside, IsOutsideOn, IsResponseOutside};
ghost use Rattle.kmipa_check.specs.CallReading.{ItemRead};
ghost use Rattle.kmipa_outside.specs.Explaining.{AsksNumber, ExplainsOutside, HasNoBegin, HasNoEnd, IsBeginOf, IsEndOf, SaysSome, TellsAnswer, TellsSide};

use crate::message::{request_told, response_told};
use crate::requests::{children_of, item_at};
use crate::told::MessageTold;
use kmipa_attrs::fields::enumeration_at;
use kmipa_attrs::tags::OPERATION;
use kmipa_check::{CheckFault, Side};
use kmipa_msgs::{Outside, ReadFault, Request, read_request};
use kmipa_record::{Begin, End, Mark, Transcript};
use kmipa_ttlv::{View, decode_view};
use std::alloc::Global;

/// Why a message of a call is outside.
#[derive(Drop)]
pub struct OutsideExplanation {
    /// Which of the two messages is outside.
    pub side: Side,
    /// The client of the call, as its begin mark names it.
    pub client: String,
    /// The operation that is asked for at the item, by its number; none where the message itself is outside, or where the
    /// request's item has no such number.
    pub operation: Option<u32>,
    /// What makes the message outside there.
    pub told: MessageTold,
}

/// What `outside` means that a check of this transcript gave. Only want of memory is an error.
pub fn explain_outside(
    alloc: Global,
    transcript: &Transcript,
    number: i32,
    side: Side,
    outside: Outside,
) -> Result<OutsideExplanation, CheckFault>
    requires recorded { AreRecorded (transcript_of transcript.now) }
    requires outside { IsFirstOutside (transcript_of transcript.now) number side outside.item outside.kind }
    ensures explains { IfOk result (ExplainsOutside
        (transcript_of transcript.now) number side outside.item outside.kind) }
    ensures memory { IfErr result (λ fault. fault ≡ CheckFault.Memory) }
{
    match begin_of(&transcript.marks, number) {
        Some(begin) => explained(alloc, &transcript.marks, number, begin, side, outside),
        None => Err(CheckFault::Outside(number, side, outside)),
    }
}

/// The begin mark of the call of this number.
fn begin_of(marks: &[Mark], number: i32) -> Option<&Begin>
    ensures { MatchOption result (HasNoBegin (map mark_of marks.now) number)
        (λ b. IsBeginOf (map mark_of marks.now) number b.now) }
{
    let mut place = 0;
    'marks: while place < marks.len() {
        if let Some(begin) = begun_at(&marks[place], number) {
            return Some(begin);
        }
        place += 1;
    }
    None
}

/// The mark as the begin mark of the call of this number.
fn begun_at(mark: &Mark, number: i32) -> Option<&Begin>
    ensures { MatchOption result ((client asked : List ℕ) → mark_of mark.now ≡ begins number client asked → ⊥)
        (λ b. mark_of mark.now ≡ begins number (string_bytes b.now.client) b.now.message.items) }
{
    match mark {
        Mark::Begin(begin) if begin.call == number => Some(begin),
        _ => None,
    }
}

/// The end mark of the call of this number.
fn end_of(marks: &[Mark], number: i32) -> Option<&End>
    ensures { MatchOption result (HasNoEnd (map mark_of marks.now) number)
        (λ e. IsEndOf (map mark_of marks.now) number e.now) }
{
    let mut place = 0;
    'marks: while place < marks.len() {
        if let Some(end) = ended_at(&marks[place], number) {
            return Some(end);
        }
        place += 1;
    }
    None
}

/// The mark as the end mark of the call of this number.
fn ended_at(mark: &Mark, number: i32) -> Option<&End>
    ensures { MatchOption result ((answered : List ℕ) → mark_of mark.now ≡ ends number answered → ⊥)
        (λ e. mark_of mark.now ≡ ends number e.now.message.items) }
{
    match mark {
        Mark::End(end) if end.call == number => Some(end),
        _ => None,
    }
}

/// What is told of the call that this mark begins.
fn explained(
    alloc: Global,
    marks: &[Mark],
    number: i32,
    begin: &Begin,
    side: Side,
    outside: Outside,
) -> Result<OutsideExplanation, CheckFault>
    requires begun { IsBeginOf (map mark_of marks.now) number begin.now }
    requires outside { IsOutsideOn (map mark_of marks.now) number side begin.now.message.items outside.item
        outside.kind }
    ensures explains { IfOk result (ExplainsOutside (map mark_of marks.now) number side outside.item outside.kind) }
    ensures memory { IfErr result (λ fault. fault ≡ CheckFault.Memory) }
{
    let told = match side {
        Side::Client => request_told(alloc, &begin.message, outside.item, outside.kind)?,
        Side::Server => answer_told(alloc, marks, number, begin, outside)?,
    };
    Ok(OutsideExplanation {
        side,
        client: begin.client.clone()?,
        operation: number_asked(&begin.message, outside.item),
        told,
    })
}

/// What is told of the response of the call that this mark begins.
fn answer_told(
    alloc: Global,
    marks: &[Mark],
    number: i32,
    begin: &Begin,
    outside: Outside,
) -> Result<MessageTold, CheckFault>
    requires { IsResponseOutside (map mark_of marks.now) number begin.now.message.items outside.item outside.kind }
    ensures tells { IfOk result (TellsAnswer
        (map mark_of marks.now) number begin.now.message.items outside.item outside.kind) }
    ensures memory { IfErr result (λ fault. fault ≡ CheckFault.Memory) }
{
    let fault = CheckFault::Outside(number, Side::Server, outside);
    let Some(end) = end_of(marks, number) else {
        return Err(fault);
    };
    let request = request_in(alloc, &begin.message, fault)?;
    Ok(response_told(alloc, &end.message, &request, outside.item, outside.kind)?)
}

/// The request that bytes say, which say one; else this fault.
fn request_in<'a>(
    alloc: Global,
    bytes: &'a [u8],
    fault: CheckFault,
) -> Result<Request<'a>, CheckFault>
    requires { SaysSome bytes.now }
    ensures said { IfOk result (λ request. AreRequest bytes.now (request_of request)) }
    ensures memory { IfErr result (λ fault. fault ≡ CheckFault.Memory) }
{
    let Some(view) = whole_item(bytes) else {
        return Err(fault);
    };
    match read_request(alloc, &view) {
        Ok(request) => Ok(request),
        Err(ReadFault::Outside(_)) => Err(fault),
        Err(ReadFault::Memory) => Err(CheckFault::Memory),
    }
}

/// The item that the bytes spell, all of them; `None` where they spell none.
fn whole_item(bytes: &[u8]) -> Option<View<'_>>
    ensures { ItemRead bytes.now result }
{
    match decode_view(bytes) {
        Ok((view, taken)) if taken == bytes.len() => Some(view),
        _ => None,
    }
}

/// The number of the operation that the bytes of a request ask for at an item.
fn number_asked(bytes: &[u8], item: usize) -> Option<u32>
    ensures { AsksNumber bytes.now item result }
{
    if item == 0 {
        return None;
    }
    match decode_view(bytes) {
        Ok((view, taken)) if taken == bytes.len() => {
            let asked = item_at(children_of(&view), item - 1)?;
            enumeration_at(children_of(&asked), OPERATION).value()
        }
        _ => None,
    }
}
