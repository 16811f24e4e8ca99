//! What is told of a response that is outside.

ghost use Rattle.std.specs.Prelude.{◌≡◌, IfOk, map, slice_get};
ghost use Rattle.std.specs.Option.{option_map};
ghost use Rattle.kmipa_ttlv.specs.ViewTree.{view_tree};
ghost use Rattle.kmipa_msgs.specs.Messages.{ask_of, request_of};
ghost use Rattle.kmipa_outside.specs.Responses.{answer_told, response_fields};

use crate::header_demands::response_header_demands;
use crate::requests::{children_of, header_told, item_at};
use crate::shown::{own_demands, shown_demands, shown_in};
use crate::telling::{both_told, tell};
use crate::told::FieldTold;
use kmipa_attrs::fields::structure_at;
use kmipa_attrs::tags::{BATCH_ITEM, RESPONSE_HEADER, RESPONSE_PAYLOAD};
use kmipa_msgs::{Ask, OutsideKind, Request};
use kmipa_ttlv::View;
use std::alloc::{AllocError, Global};

/// The fields of the response to a request, or of an item of it, that aren't as wanted; items count from 1, and 0 is
/// the response itself.
pub(crate) fn response_fields(
    alloc: Global,
    response: &View,
    request: &Request,
    item: usize,
    kind: OutsideKind,
) -> Result<Vec<FieldTold>, AllocError>
    ensures { IfOk result (λ fields. fields.items
        ≡ response_fields (view_tree response.now) (request_of request.now) item kind) }
{
    let message = children_of(response);
    if item == 0 {
        let demands = response_header_demands(message.count_of(BATCH_ITEM));
        return header_told(alloc, RESPONSE_HEADER, kind, message, &demands);
    }
    match item_at(message, item - 1) {
        Some(view) => answer_told(alloc, ask_at(&request.items, item - 1), kind, &view),
        None => Ok(Vec::new(alloc)),
    }
}

/// What a request asks for at a place, counted from 0.
fn ask_at<'b, 'a>(asks: &'b [Ask<'a>], place: usize) -> Option<&'b Ask<'a>>
    ensures { option_map (λ a. ask_of a.now) result ≡ slice_get (map ask_of asks.now) place }
{
    asks.get(place)
}

/// What is told of an answer, beside the request's item at its place.
fn answer_told(
    alloc: Global,
    ask: Option<&Ask>,
    kind: OutsideKind,
    answer: &View,
) -> Result<Vec<FieldTold>, AllocError>
    ensures { IfOk result (λ fields. fields.items
        ≡ answer_told (option_map (λ a. ask_of a.now) ask.entry) kind (view_tree answer.now)) }
{
    let children = children_of(answer);
    let shown = shown_in(ask, children);
    let own = own_demands(alloc, shown)?;
    let done = shown_demands(alloc, shown, structure_at(children, RESPONSE_PAYLOAD))?;
    let front = tell(alloc, kind, None, children, &own)?;
    let back = tell(alloc, kind, Some(RESPONSE_PAYLOAD), children, &done)?;
    both_told(front, back)
}
