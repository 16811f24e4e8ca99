//! The calls of a recording, with their messages read.

use kmipa_places::{Call, read_call};
use kmipa_ttlv::{View, decode_view};
use kmipa_turns::Recorded;
use std::alloc::{AllocError, Global};

/// A call as it was recorded, and what its messages say.
#[derive(Drop)]
pub(crate) struct Seen<'a> {
    pub recorded: Recorded<'a>,
    /// The items of its messages, where their bytes spell one.
    pub request: Option<View<'a>>,
    pub response: Option<View<'a>>,
    pub said: Call<'a>,
}

/// These calls, each with what its messages say.
pub(crate) fn seen_calls<'a>(
    alloc: Global,
    calls: &[Recorded<'a>],
) -> Result<Vec<Seen<'a>>, AllocError> {
    let mut seen = Vec::with_capacity(alloc, calls.len())?;
    'calls: for call in calls {
        seen.push(seen_call(alloc, *call)?)?;
    }
    Ok(seen)
}

fn seen_call<'a>(alloc: Global, call: Recorded<'a>) -> Result<Seen<'a>, AllocError> {
    let request = item_spelled(call.request);
    let response = match call.response {
        Some(response) => item_spelled(response),
        None => None,
    };
    let said = read_call(alloc, request.as_ref(), response.as_ref(), &[])?;
    Ok(Seen {
        recorded: call,
        request,
        response,
        said,
    })
}

/// The one item that bytes spell, where they spell one.
pub(crate) fn item_spelled(bytes: &[u8]) -> Option<View<'_>> {
    let Ok((item, taken)) = decode_view(bytes) else {
        return None;
    };
    if taken == bytes.len() {
        Some(item)
    } else {
        None
    }
}

impl<'a> Seen<'a> {
    /// Whether the call has ended.
    pub(crate) fn has_ended(&self) -> bool {
        self.recorded.end.is_some()
    }

    /// The place of its end mark; behind all others where it is open.
    pub(crate) fn end(&self) -> usize {
        self.recorded.end.unwrap_or(usize::MAX)
    }

    /// The Time Stamp of its response, where the call can be read.
    pub(crate) fn stamp(&self) -> Option<i64> {
        match &self.said {
            Call::Unread(_) => None,
            Call::Read(call) => Some(call.stamp),
        }
    }
}
