//! Request Message.

ghost use Rattle.std.specs.Prelude.{◌≡◌, ◌<◌, IfOk, length};
ghost use Rattle.kmipa_ttlv.specs.Tree.{Tree};
ghost use Rattle.kmipa_ttlv.specs.ItemTree.{tree};
ghost use Rattle.kmipa_msgs.specs.Messages.{ask_of, request_of};
ghost use Rattle.kmipa_msgs.specs.Requests.{SaysRequest};
ghost use Rattle.kmipa_msgs.specs.Writable.{IsWritable};
ghost use Rattle.kmipa_msgs.specs.Written.{stated_option, stated_order, written_ask, written_request_header, written_request};

use super::fields::Fields;
use super::header::write_version;
use super::operations::write_asked;
use crate::request::{Ask, BatchOption, Request};
use kmipa_attrs::tags::{
    BATCH_COUNT, BATCH_ERROR_CONTINUATION_OPTION, BATCH_ITEM, BATCH_ORDER_OPTION, OPERATION,
    REQUEST_HEADER, REQUEST_MESSAGE, UNIQUE_BATCH_ITEM_ID,
};
use kmipa_ttlv::Item;
use std::alloc::{AllocError, Global};

/// The Request Message that says the request, as far as any does: it has an item, no Register brings a name twice,
/// and type, algorithm and length of each Register agree. Of more items than an Integer counts none does.
/// What is read over is not written: the payloads of operations that aren't judged, the other items of a Get Attributes,
/// and what of a Locate isn't judged.
/// Stop and an order of true are left out, which means the same. Only want of memory is an error.
pub fn write_request(alloc: Global, request: &Request) -> Result<Item, AllocError>
    requires { length request.now.items.items < 0x8000_0000 }
    ensures order { IfOk result (λ item. tree item ≡ written_request (request_of request.now)) }
    ensures said { IfOk result
        (λ item. (t : Tree) → SaysRequest t (request_of request.now) → IsWritable (request_of request.now)
        → SaysRequest (tree item) (request_of request.now)) }
{
    let mut fields = Fields::new(alloc);
    fields.item(write_header(alloc, request)?)?;
    for ask in &request.items {
        fields.item(write_ask(alloc, ask)?)?;
    }
    Ok(fields.structure(REQUEST_MESSAGE))
}

/// Request Header.
fn write_header(alloc: Global, request: &Request) -> Result<Item, AllocError>
    requires { length request.now.items.items < 0x8000_0000 }
    ensures { IfOk result (λ item. tree item ≡ written_request_header (request_of request.now)) }
{
    let mut fields = Fields::new(alloc);
    fields.item(write_version(alloc)?)?;
    fields.enumeration(
        BATCH_ERROR_CONTINUATION_OPTION,
        stated_option(request.option),
    )?;
    fields.boolean(BATCH_ORDER_OPTION, stated_order(request.ordered))?;
    fields.integer(BATCH_COUNT, Some(request.items.as_slice().len() as i32))?;
    Ok(fields.structure(REQUEST_HEADER))
}

/// The number of an option; an absent one means Stop.
fn stated_option(option: BatchOption) -> Option<u32>
    ensures { result ≡ stated_option option }
{
    match option {
        BatchOption::Stop => None,
        BatchOption::Continue | BatchOption::Undo => Some(option.number()),
    }
}

/// An absent order means true.
fn stated_order(ordered: bool) -> Option<bool>
    ensures { result ≡ stated_order ordered }
{
    if ordered { None } else { Some(false) }
}

/// A Batch Item of a request.
fn write_ask(alloc: Global, ask: &Ask) -> Result<Item, AllocError>
    ensures { IfOk result (λ item. tree item ≡ written_ask (ask_of ask.now)) }
{
    let mut fields = Fields::new(alloc);
    fields.enumeration(OPERATION, Some(ask.number()))?;
    fields.bytes(UNIQUE_BATCH_ITEM_ID, ask.batch_id)?;
    fields.item(write_asked(alloc, &ask.asked)?)?;
    Ok(fields.structure(BATCH_ITEM))
}
