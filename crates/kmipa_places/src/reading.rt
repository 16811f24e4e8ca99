//! Calls from their messages.

ghost use Rattle.std.specs.Prelude.{◌≡◌, IfOk, option_map, map};
ghost use Rattle.kmipa_ttlv.specs.ViewTree.{view_tree, view_trees};
ghost use Rattle.kmipa_attrs.specs.Fields.{every};
ghost use Rattle.kmipa_attrs.specs.Tags.{batch_item};
ghost use Rattle.kmipa_places.specs.Calls.{IsCall, call_of, message_of, read_of};
ghost use Rattle.kmipa_places.specs.Places.{place_of};
ghost use Rattle.kmipa_places.specs.Readings.{places_in, read_in, readable_in};

use crate::asides::is_among;
use crate::call::{Call, Readable};
use crate::opened::{open_request, open_response};
use crate::outcomes::{read_outcomes, refuses};
use crate::place::{Place, read_place};
use crate::unread::left;
use kmipa_attrs::tags::BATCH_ITEM;
use kmipa_ttlv::{Children, View};
use std::alloc::{AllocError, Global};

/// The call of this request and this response, each none where its bytes aren't exactly one item. Its witness sets aside these places, counted from 1,
/// or the whole call by 0: of a call without an end mark, that is set aside as a whole, the response is none.
///
/// Identifiers and key bytes are lent from what the views borrow.
pub fn read_call<'a>(
    alloc: Global,
    request: Option<&View<'a>>,
    response: Option<&View<'a>>,
    asides: &[i32],
) -> Result<Call<'a>, AllocError>
    ensures { IfOk result (λ call. IsCall (message_of request.entry) (message_of response.entry) asides.now (call_of call)) }
{
    match read_readable(alloc, request, response, asides)? {
        Some(call) => Ok(Call::Read(call)),
        None => Ok(Call::Unread(left(alloc, request, response)?)),
    }
}

/// The call, where it can be read.
fn read_readable<'a>(
    alloc: Global,
    request: Option<&View<'a>>,
    response: Option<&View<'a>>,
    asides: &[i32],
) -> Result<Option<Readable<'a>>, AllocError>
    ensures { IfOk result (λ call. option_map read_of call
        ≡ readable_in (message_of request.entry) (message_of response.entry) asides.now) }
{
    if is_among(asides, 0) {
        return Ok(None);
    }
    match (request, response) {
        (Some(request), Some(response)) => read_messages(alloc, request, response, asides),
        _ => Ok(None),
    }
}

/// The call of two messages that aren't set aside as a whole, where it can be read.
fn read_messages<'a>(
    alloc: Global,
    request: &View<'a>,
    response: &View<'a>,
    asides: &[i32],
) -> Result<Option<Readable<'a>>, AllocError>
    ensures { IfOk result (λ call. option_map read_of call
        ≡ read_in (view_tree request.now) (view_tree response.now) asides.now) }
{
    let Some(asked) = open_request(request) else {
        return Ok(None);
    };
    let Some(answered) = open_response(response) else {
        return Ok(None);
    };
    let Some(outcomes) = read_outcomes(alloc, answered.count, answered.children)? else {
        return Ok(None);
    };
    let read = read_places(
        alloc,
        asked.unordered,
        asides,
        asked.children,
        answered.children,
    );
    let Some(places) = read? else {
        return Ok(None);
    };
    Ok(Some(Readable {
        option: asked.option,
        ordered: asked.ordered,
        pending: asked.pending,
        stamp: answered.stamp,
        asks: asked.count,
        outcomes,
        refused: refuses(answered.children),
        places,
    }))
}

/// The places of two messages with these children; none where the status of an answer can't be read.
fn read_places<'a>(
    alloc: Global,
    unordered: bool,
    asides: &[i32],
    asked: Children<'a>,
    answered: Children<'a>,
) -> Result<Option<Vec<Place<'a>>>, AllocError>
    ensures { IfOk result (λ places. option_map (λ v. map place_of v.items) places
        ≡ places_in unordered asides.now 1 (every batch_item (view_trees asked.entry))
        (every batch_item (view_trees answered.entry))) }
{
    let mut places = Vec::new(alloc);
    let mut asks = asked;
    let mut answers = answered;
    'items: while let Some(item) = asks.next_of(BATCH_ITEM) {
        let Some(answer) = answers.next_of(BATCH_ITEM) else {
            return Ok(Some(places));
        };
        let aside = is_among(asides, places.len() + 1);
        let Some(place) = read_place(alloc, unordered, aside, &item, &answer)? else {
            return Ok(None);
        };
        places.push(place)?;
    }
    Ok(Some(places))
}
