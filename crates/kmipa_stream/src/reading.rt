//! What the messages say that are held of a call.

ghost use Rattle.std.specs.Prelude.{◌≡◌, List, MatchResult, None};
ghost use Rattle.kmipa_record.specs.Marks.{MarkOf};
ghost use Rattle.kmipa_check.specs.CallReading.{MarkFault};
ghost use Rattle.kmipa_check.specs.Calls.{IsRecorded, call_of};
ghost use Rattle.kmipa_stream.specs.Seeing.{HoldsBegin, HoldsEnd, IsSeen};

use crate::seen::{Held, SeenCall};
use kmipa_check::{CheckFault, request_in, response_in};
use kmipa_record::Call;
use std::alloc::Global;

/// The call whose messages are held, or the first of its messages that is outside the profile. It is open where no response is held.
pub(crate) fn call_in<'a>(alloc: Global, seen: &'a SeenCall) -> Result<Call<'a>, CheckFault>
    ensures { (marks : List MarkOf) → IsSeen marks seen.now
        → MatchResult result
        (λ call. IsRecorded marks (call_of call) × (call.begin ≡ seen.now.begin) × (call.number ≡ seen.now.number))
        (MarkFault marks seen.now.begin) }
{
    match &seen.held {
        Held::Released => Err(CheckFault::Memory),
        Held::Open(asked) => open_call(alloc, seen, asked),
        Held::Whole(asked, answered) => whole_call(alloc, seen, asked, answered),
    }
}

/// A call that has not ended.
fn open_call<'a>(alloc: Global, seen: &'a SeenCall, asked: &'a [u8]) -> Result<Call<'a>, CheckFault>
    ensures { (marks : List MarkOf) → IsSeen marks seen.now
        → HoldsBegin marks seen.now asked.now → seen.now.end ≡ None
        → MatchResult result
        (λ call. IsRecorded marks (call_of call) × (call.begin ≡ seen.now.begin) × (call.number ≡ seen.now.number))
        (MarkFault marks seen.now.begin) }
{
    match request_in(alloc, seen.number, asked) {
        Ok(request) => Ok(Call {
            number: seen.number,
            begin: seen.begin,
            end: None,
            request,
            response: None,
        }),
        Err(fault) => Err(fault),
    }
}

/// A call that has ended.
fn whole_call<'a>(
    alloc: Global,
    seen: &'a SeenCall,
    asked: &'a [u8],
    answered: &'a [u8],
) -> Result<Call<'a>, CheckFault>
    ensures { (marks : List MarkOf) → HoldsBegin marks seen.now asked.now → HoldsEnd marks seen.now answered.now
        → MatchResult result
        (λ call. IsRecorded marks (call_of call) × (call.begin ≡ seen.now.begin) × (call.number ≡ seen.now.number))
        (MarkFault marks seen.now.begin) }
{
    let request = match request_in(alloc, seen.number, asked) {
        Ok(request) => request,
        Err(fault) => return Err(fault),
    };
    match response_in(alloc, seen.number, answered, &request) {
        Ok(response) => Ok(Call {
            number: seen.number,
            begin: seen.begin,
            end: seen.end,
            request,
            response: Some(response),
        }),
        Err(fault) => Err(fault),
    }
}
