//! The calls of a transcript: its marks in pairs.

ghost use Rattle.std.specs.Prelude.{◌≡◌, ◌<◌, All, IfOk, length, map, option_map};
ghost use Rattle.kmipa_record.specs.Marks.{AreRecorded as AreMarks, begun, mark_of};
ghost use Rattle.kmipa_record.specs.Transcripts.{transcript_of};
ghost use Rattle.kmipa_check.specs.Numbers.{Indexes, end_number};
ghost use Rattle.kmipa_turns.specs.Recorded.{AreRecorded, IsRecorded, recorded_of};
ghost use Rattle.kmipa_turns.specs.Turning.{EndRead, MarkRead};

use crate::recorded::Recorded;
use kmipa_check::FirstPlaces;
use kmipa_record::{Mark, Transcript};
use std::alloc::{AllocError, Global};

/// The calls of a transcript, by their begin marks, as they were recorded.
///
/// A call whose begin mark no end mark answers is open: it has no response.
pub fn recorded_calls<'a>(
    alloc: Global,
    transcript: &'a Transcript,
) -> Result<Vec<Recorded<'a>>, AllocError>
    ensures recorded { AreMarks (transcript_of transcript.now)
        → IfOk result (λ calls. AreRecorded (transcript_of transcript.now) (map recorded_of calls.items)) }
    ensures each { IfOk result (λ calls. All (IsRecorded (transcript_of transcript.now)) (map recorded_of calls.items)) }
    ensures numbers { IfOk result (λ calls. map (λ call. call.number) calls.items ≡ begun (transcript_of transcript.now)) }
{
    let ends = FirstPlaces::of(alloc, &transcript.marks)?;
    let mut calls = Vec::with_capacity(alloc, transcript.marks.len() / 2)?;
    let mut place = 0;
    'marks: while place < transcript.marks.len() {
        if let Some(call) = recorded_at(&transcript.marks, &ends, place) {
            calls.push(call)?;
        }
        place += 1;
    }
    Ok(calls)
}

/// The call that the mark at a place begins, if it begins one.
fn recorded_at<'a>(marks: &'a [Mark], ends: &FirstPlaces, place: usize) -> Option<Recorded<'a>>
    requires below { place < length marks.now }
    requires indexes { Indexes (map (λ mark. end_number (mark_of mark)) marks.now) ends.now }
    ensures { MarkRead (map mark_of marks.now) place (option_map recorded_of result) }
{
    let Mark::Begin(begin) = &marks[place] else {
        return None;
    };
    let client = begin.client.as_str();
    let request = begin.message.as_slice();
    match end_of(marks, ends, begin.call) {
        Some((end, response)) => Some(Recorded {
            number: begin.call,
            client,
            begin: place,
            end: Some(end),
            request,
            response: Some(response),
        }),
        None => Some(Recorded {
            number: begin.call,
            client,
            begin: place,
            end: None,
            request,
            response: None,
        }),
    }
}

/// The place of the end mark of the call of this number, and its response; `None` of an open call.
fn end_of<'a>(marks: &'a [Mark], ends: &FirstPlaces, number: i32) -> Option<(usize, &'a [u8])>
    requires { Indexes (map (λ mark. end_number (mark_of mark)) marks.now) ends.now }
    ensures { EndRead (map mark_of marks.now) number (option_map (λ e. (e.0, e.1.now)) result) }
{
    let Some(place) = ends.place(number) else {
        return None;
    };
    let Mark::End(end) = &marks[place] else {
        return None;
    };
    let response = end.message.as_slice();
    Some((place, response))
}
