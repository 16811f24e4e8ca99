//! The calls of a transcript: its marks in pairs, and their messages.

ghost use Rattle.std.specs.Prelude.{◌≡◌, ◌<◌, All, IfOk, MatchResult, length, map};
ghost use Rattle.kmipa_record.specs.Marks.{AreRecorded, mark_of};
ghost use Rattle.kmipa_record.specs.Transcripts.{transcript_of};
ghost use Rattle.kmipa_msgs.specs.Messages.{request_of};
ghost use Rattle.kmipa_check.specs.Calls.{AreCalls, AreTimed, IsRecorded, call_of};
ghost use Rattle.kmipa_check.specs.Numbers.{Indexes, end_number};
ghost use Rattle.kmipa_check.specs.CallReading.{AnswerRead, CallsFault, EndRead, ItemRead, MarkRead, RequestRead, ResponseRead, no_message};

use crate::fault::{CheckFault, Side, StepFault, WitnessKind};
use crate::numbers::FirstPlaces;
use kmipa_msgs::{Outside, OutsideKind, ReadFault, Request, Response, read_request, read_response};
use kmipa_record::{Begin, Call, End, Mark, Transcript};
use kmipa_ttlv::{View, decode_view};
use std::alloc::Global;

/// The calls of a transcript, by their begin marks; or the first message that is outside the profile, request before response.
///
/// A call whose begin mark no end mark answers is open: it has no response.
pub fn read_calls<'a>(
    alloc: Global,
    transcript: &'a Transcript,
) -> Result<Vec<Call<'a>>, CheckFault>
    ensures each { IfOk result (λ calls. All (IsRecorded (transcript_of transcript.now)) (map call_of calls.items)) }
    ensures timed { AreRecorded (transcript_of transcript.now)
        → IfOk result (λ calls. AreTimed (map call_of calls.items)) }
    ensures read { AreRecorded (transcript_of transcript.now)
        → MatchResult result (λ calls. AreCalls (transcript_of transcript.now) (map call_of calls.items))
        (CallsFault (transcript_of transcript.now)) }
{
    let ends = FirstPlaces::of(alloc, &transcript.marks)?;
    let mut calls = Vec::with_capacity(alloc, transcript.marks.len() / 2)?;
    let mut place = 0;
    'marks: while place < transcript.marks.len() {
        if let Some(call) = read_mark(alloc, &transcript.marks, &ends, place)? {
            calls.push(call)?;
        }
        place += 1;
    }
    Ok(calls)
}

/// The call that the mark at a place begins, if it begins one.
fn read_mark<'a>(
    alloc: Global,
    marks: &'a [Mark],
    ends: &FirstPlaces,
    place: usize,
) -> Result<Option<Call<'a>>, CheckFault>
    requires below { place < length marks.now }
    requires indexes { Indexes (map (λ mark. end_number (mark_of mark)) marks.now) ends.now }
    ensures { MarkRead (map mark_of marks.now) place result }
{
    let Mark::Begin(begin) = &marks[place] else {
        return Ok(None);
    };
    let request = asked_in(alloc, begin)?;
    match read_end(alloc, marks, ends, begin.call, &request)? {
        Some((end, response)) => Ok(Some(Call {
            number: begin.call,
            begin: place,
            end: Some(end),
            request,
            response: Some(response),
        })),
        None => Ok(Some(Call {
            number: begin.call,
            begin: place,
            end: None,
            request,
            response: None,
        })),
    }
}

/// The place of the end mark of the call of this number, and its response; `None` of an open call.
fn read_end<'a>(
    alloc: Global,
    marks: &'a [Mark],
    ends: &FirstPlaces,
    number: i32,
    request: &Request,
) -> Result<Option<(usize, Response<'a>)>, CheckFault>
    requires { Indexes (map (λ mark. end_number (mark_of mark)) marks.now) ends.now }
    ensures { EndRead (map mark_of marks.now) number (request_of request.now) result }
{
    let Some(place) = ends.place(number) else {
        return Ok(None);
    };
    let Mark::End(end) = &marks[place] else {
        return Ok(None);
    };
    let response = answered_in(alloc, end, request)?;
    Ok(Some((place, response)))
}

/// The request of a begin mark.
pub(crate) fn asked_in<'a>(alloc: Global, begin: &'a Begin) -> Result<Request<'a>, CheckFault>
    ensures { RequestRead begin.now.call begin.now.message.items result }
{
    request_in(alloc, begin.call, &begin.message)
}

/// The response of an end mark.
fn answered_in<'a>(
    alloc: Global,
    end: &'a End,
    request: &Request,
) -> Result<Response<'a>, CheckFault>
    ensures { ResponseRead end.now.call (request_of request.now) end.now.message.items result }
{
    response_in(alloc, end.call, &end.message, request)
}

/// The request that the message of a call's begin mark is, or why it is outside the profile.
#[inline(always)]
pub fn request_in<'a>(
    alloc: Global,
    call: i32,
    message: &'a [u8],
) -> Result<Request<'a>, CheckFault>
    ensures { RequestRead call message.now result }
{
    let Some(view) = whole_item(message) else {
        return Err(not_a_message(call, Side::Client));
    };
    match read_request(alloc, &view) {
        Ok(request) => Ok(request),
        Err(ReadFault::Outside(outside)) => Err(CheckFault::Outside(call, Side::Client, outside)),
        Err(ReadFault::Memory) => Err(CheckFault::Memory),
    }
}

/// The response that the message of a call's end mark is to its request, or why it is outside the profile.
#[inline(always)]
pub fn response_in<'a>(
    alloc: Global,
    call: i32,
    message: &'a [u8],
    request: &Request,
) -> Result<Response<'a>, CheckFault>
    ensures { ResponseRead call (request_of request.now) message.now result }
{
    let Some(view) = whole_item(message) else {
        return Err(not_a_message(call, Side::Server));
    };
    match read_response(alloc, &view, request) {
        Ok(response) => Ok(response),
        Err(ReadFault::Outside(outside)) => Err(CheckFault::Outside(call, Side::Server, outside)),
        Err(ReadFault::Memory) => Err(CheckFault::Memory),
    }
}

/// What the bytes of an answer say to a request.
pub fn answer_in<'a>(
    alloc: Global,
    answer: &'a [u8],
    request: &Request,
) -> Result<Response<'a>, StepFault>
    ensures { AnswerRead (request_of request.now) answer.now result }
{
    let Some(view) = whole_item(answer) else {
        return Err(StepFault::Unfit(WitnessKind::AnswerForm));
    };
    match read_response(alloc, &view, request) {
        Ok(response) => Ok(response),
        Err(ReadFault::Outside(_)) => Err(StepFault::Unfit(WitnessKind::AnswerForm)),
        Err(ReadFault::Memory) => Err(StepFault::Memory),
    }
}

/// The item that the bytes spell, all of them; `None` where they spell none.
fn whole_item(bytes: &[u8]) -> Option<View<'_>>
    ensures { ItemRead bytes.now result }
{
    match decode_view(bytes) {
        Ok((view, taken)) if taken == bytes.len() => Some(view),
        _ => None,
    }
}

/// The message of this call on this side is no message.
fn not_a_message(number: i32, side: Side) -> CheckFault
    ensures { result ≡ no_message number side }
{
    let outside = Outside {
        item: 0,
        kind: OutsideKind::NotAMessage,
    };
    CheckFault::Outside(number, side, outside)
}
