//! What is told of a request that is outside.

ghost use Rattle.std.specs.Prelude.{◌≡◌, IfOk, length, slice_get};
ghost use Rattle.std.specs.Option.{option_map};
ghost use Rattle.kmipa_ttlv.specs.Tree.{Tree};
ghost use Rattle.kmipa_ttlv.specs.ViewTree.{view_tree, view_trees};
ghost use Rattle.kmipa_attrs.specs.Fields.{as_structure, every, or_none};
ghost use Rattle.kmipa_attrs.specs.Tags.{batch_item};
ghost use Rattle.kmipa_msgs.specs.Headers.{batch};
ghost use Rattle.kmipa_msgs.specs.Requests.{lacks_order, is_without_order};
ghost use Rattle.kmipa_msgs.specs.Tables.{children};
ghost use Rattle.kmipa_outside.specs.Requests.{ask_demands, form_demands, header_demand, header_told, item_told, naming_demands, payload_demands, request_fields};

use crate::agreement_demands::agreement_demands;
use crate::demand::{Demand, Inside, Step, Wanted, wants};
use crate::header_demands::request_header_demands;
use crate::operations::{is_judged, is_on_object};
use crate::tables::{asked_demands, joined};
use crate::telling::{both_told, tell};
use crate::told::FieldTold;
use crate::types::ItemType;
use kmipa_attrs::Field;
use kmipa_attrs::fields::{as_structure, boolean_at, enumeration_at, inside};
use kmipa_attrs::tags::{
    BATCH_ITEM, BATCH_ORDER_OPTION, OPERATION, REQUEST_HEADER, REQUEST_PAYLOAD, UNIQUE_IDENTIFIER,
};
use kmipa_msgs::{Operation, OutsideKind};
use kmipa_ttlv::{Children, View};
use std::alloc::{AllocError, Global};

/// The fields of a request, or of an item of it, that aren't as wanted; items count from 1, and 0 is the request itself.
pub(crate) fn request_fields(
    alloc: Global,
    request: &View,
    item: usize,
    kind: OutsideKind,
) -> Result<Vec<FieldTold>, AllocError>
    ensures { IfOk result (λ fields. fields.items ≡ request_fields (view_tree request.now) item kind) }
{
    let message = children_of(request);
    let count = message.count_of(BATCH_ITEM);
    if item == 0 {
        let demands = request_header_demands(count);
        return header_told(alloc, REQUEST_HEADER, kind, message, &demands);
    }
    match item_at(message, item - 1) {
        Some(view) => item_told(alloc, is_without_order(message, count), kind, &view),
        None => Ok(Vec::new(alloc)),
    }
}

/// The children of an item, none where it is no structure.
pub(crate) fn children_of<'a>(view: &View<'a>) -> Children<'a>
    ensures { view_trees result ≡ children (view_tree view.now) }
{
    match as_structure(view) {
        Some(children) => children,
        None => Children::none(),
    }
}

/// The Batch Item at a place, counted from 0.
pub(crate) fn item_at<'a>(message: Children<'a>, place: usize) -> Option<View<'a>>
    ensures { option_map view_tree result ≡ slice_get (every batch_item (view_trees message.entry)) place }
{
    let mut left = message;
    let mut ahead = place;
    'children: while ahead > 0 {
        left.next_of(BATCH_ITEM)?;
        ahead -= 1;
    }
    left.next_of(BATCH_ITEM)
}

/// What is told of a header, and of its fields.
pub(crate) fn header_told(
    alloc: Global,
    tag: u32,
    kind: OutsideKind,
    message: Children,
    demands: &[Demand],
) -> Result<Vec<FieldTold>, AllocError>
    ensures { (t : Tree) → children t ≡ view_trees message.entry
        → IfOk result (λ fields. fields.items ≡ header_told tag kind t demands.now) }
{
    let header = tell(alloc, kind, None, message, &[header_demand(tag)])?;
    let fields = tell(alloc, kind, Some(tag), message, demands)?;
    both_told(header, fields)
}

/// The header of a message.
fn header_demand(tag: u32) -> Demand
    ensures { result ≡ header_demand tag }
{
    wants(
        Inside::Here,
        Step::Tag(tag),
        Wanted::Typed(ItemType::Structure),
        OutsideKind::NotAMessage,
    )
}

/// Whether the request with these children and so many items is without order.
fn is_without_order(message: Children, count: usize) -> bool
    ensures { (t : Tree) → children t ≡ view_trees message.entry → count ≡ length (batch t)
        → result ≡ is_without_order t }
{
    match boolean_at(inside(message, REQUEST_HEADER), BATCH_ORDER_OPTION) {
        Field::There(false) => count > 1,
        _ => false,
    }
}

/// What is told of an item.
fn item_told(
    alloc: Global,
    unordered: bool,
    kind: OutsideKind,
    item: &View,
) -> Result<Vec<FieldTold>, AllocError>
    ensures { IfOk result (λ fields. fields.items ≡ item_told unordered kind (view_tree item.now)) }
{
    let children = children_of(item);
    let operation = enumeration_at(children, OPERATION);
    let own = ask_demands(alloc, operation)?;
    let asked = payload_demands(
        alloc,
        unordered,
        operation,
        inside(children, REQUEST_PAYLOAD),
    )?;
    let front = tell(alloc, kind, None, children, &own)?;
    let back = tell(alloc, kind, Some(REQUEST_PAYLOAD), children, &asked)?;
    both_told(front, back)
}

/// The demands on an item itself, by its Operation.
fn ask_demands(alloc: Global, operation: Field<u32>) -> Result<Vec<Demand>, AllocError>
    ensures { IfOk result (λ demands. demands.items ≡ ask_demands operation) }
{
    match operation {
        Field::There(number) => form_demands(alloc, Operation::of(number)),
        Field::Absent | Field::Wrong => Vec::from_slice(
            alloc,
            &[wants(
                Inside::Here,
                Step::Tag(OPERATION),
                Wanted::Typed(ItemType::Enumeration),
                OutsideKind::Missing,
            )],
        ),
    }
}

/// That a Request Payload is a structure, where it is read.
fn form_demands(alloc: Global, operation: Operation) -> Result<Vec<Demand>, AllocError>
    ensures { IfOk result (λ demands. demands.items ≡ form_demands operation) }
{
    if !is_judged(operation) {
        return Ok(Vec::new(alloc));
    }
    Vec::from_slice(
        alloc,
        &[wants(
            Inside::Here,
            Step::Tag(REQUEST_PAYLOAD),
            Wanted::MaybeTyped(ItemType::Structure),
            OutsideKind::Missing,
        )],
    )
}

/// The demands on a Request Payload with these children, by the Operation of its item.
fn payload_demands(
    alloc: Global,
    unordered: bool,
    operation: Field<u32>,
    payload: Children,
) -> Result<Vec<Demand>, AllocError>
    ensures { IfOk result (λ demands. demands.items ≡ payload_demands unordered operation (view_trees payload.entry)) }
{
    match operation {
        Field::There(number) => {
            let operation = Operation::of(number);
            let asked = asked_demands(alloc, operation)?;
            let naming = naming_demands(alloc, unordered, operation)?;
            let agreeing = agreement_demands(alloc, operation, payload)?;
            let others = joined(alloc, &naming, &agreeing)?;
            joined(alloc, &asked, &others)
        }
        Field::Absent | Field::Wrong => Ok(Vec::new(alloc)),
    }
}

/// That an operation on an object names it, in a request without order.
fn naming_demands(
    alloc: Global,
    unordered: bool,
    operation: Operation,
) -> Result<Vec<Demand>, AllocError>
    ensures { IfOk result (λ demands. demands.items ≡ naming_demands unordered operation) }
{
    if !(unordered && is_on_object(operation)) {
        return Ok(Vec::new(alloc));
    }
    Vec::from_slice(
        alloc,
        &[wants(
            Inside::Here,
            Step::Tag(UNIQUE_IDENTIFIER),
            Wanted::There,
            OutsideKind::Unordered,
        )],
    )
}
