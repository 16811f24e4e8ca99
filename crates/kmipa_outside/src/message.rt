//! What is told of a message that is outside.

ghost use Rattle.std.specs.Prelude.{◌≤◌, IfOk, MatchResult, length, take};
ghost use Rattle.kmipa_ttlv.specs.Spelling.{Spells};
ghost use Rattle.kmipa_ttlv.specs.ViewTree.{view_tree};
ghost use Rattle.kmipa_msgs.specs.Messages.{request_of};
ghost use Rattle.kmipa_outside.specs.Messages.{IsMessage, IsNone, TellsRequest, TellsResponse};

use crate::requests::request_fields;
use crate::responses::response_fields;
use crate::told::MessageTold;
use kmipa_attrs::tags::{REQUEST_MESSAGE, RESPONSE_MESSAGE};
use kmipa_msgs::{OutsideKind, Request};
use kmipa_ttlv::{View, decode_view};
use std::alloc::{AllocError, Global};

/// What makes the bytes of a request outside at an item, for this kind; 0 is the request itself.
pub fn request_told(
    alloc: Global,
    bytes: &[u8],
    item: usize,
    kind: OutsideKind,
) -> Result<MessageTold, AllocError>
    ensures { IfOk result (TellsRequest bytes.now item kind) }
{
    match message_in(bytes, REQUEST_MESSAGE) {
        Ok(view) => Ok(MessageTold::Fields(request_fields(alloc, &view, item, kind)?)),
        Err(told) => Ok(told),
    }
}

/// What makes the bytes of the response to a request outside at an item, for this kind; 0 is the response itself.
pub fn response_told(
    alloc: Global,
    bytes: &[u8],
    request: &Request,
    item: usize,
    kind: OutsideKind,
) -> Result<MessageTold, AllocError>
    ensures { IfOk result (TellsResponse (request_of request.now) bytes.now item kind) }
{
    match message_in(bytes, RESPONSE_MESSAGE) {
        Ok(view) => Ok(MessageTold::Fields(response_fields(alloc, &view, request, item, kind)?)),
        Err(told) => Ok(told),
    }
}

/// The item with this tag that the bytes spell, all of them; else why they don't.
fn message_in<'a>(bytes: &'a [u8], tag: u32) -> Result<View<'a>, MessageTold>
    ensures { MatchResult result (IsMessage tag bytes.now) (IsNone tag bytes.now) }
{
    match decode_view(bytes) {
        Ok((view, taken)) => whole_message(bytes, tag, view, taken),
        Err(fault) => Err(MessageTold::Flaw(fault)),
    }
}

/// The item that these many bytes spell, where they are all, and where it has this tag.
fn whole_message<'a>(
    bytes: &'a [u8],
    tag: u32,
    view: View<'a>,
    taken: usize,
) -> Result<View<'a>, MessageTold>
    requires spelled { Spells (view_tree view) (take taken bytes.now) }
    requires within { taken ≤ length bytes.now }
    ensures { MatchResult result (IsMessage tag bytes.now) (IsNone tag bytes.now) }
{
    if taken < bytes.len() {
        return Err(MessageTold::Longer(taken));
    }
    if view.tag.number != tag {
        return Err(MessageTold::Tagged(view.tag.number));
    }
    Ok(view)
}
