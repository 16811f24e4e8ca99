//! Response Message.

ghost use Rattle.std.specs.Prelude.{◌≡◌, ◌<◌, IfOk, length};
ghost use Rattle.kmipa_ttlv.specs.ItemTree.{tree};
ghost use Rattle.kmipa_ttlv.specs.Tree.{Tree};
ghost use Rattle.kmipa_msgs.specs.Messages.{answer_of, RequestOf, response_of};
ghost use Rattle.kmipa_msgs.specs.Responses.{SaysResponse};
ghost use Rattle.kmipa_msgs.specs.Writable.{IsWritableResponse};
ghost use Rattle.kmipa_msgs.specs.Written.{written_answer, written_response_header, written_response};

use super::fields::Fields;
use super::header::write_version;
use super::operations::write_payload;
use crate::response::{Answer, Response};
use kmipa_attrs::tags::{
    BATCH_COUNT, BATCH_ITEM, OPERATION, RESPONSE_HEADER, RESPONSE_MESSAGE, RESULT_REASON,
    RESULT_STATUS, TIME_STAMP, UNIQUE_BATCH_ITEM_ID,
};
use kmipa_ttlv::Item;
use std::alloc::{AllocError, Global};

/// The Response Message that says the response beside each request beside which any does: it has an item, and a
/// payload where one is to be there, of the operation asked for, and nowhere else. Of more items than an Integer counts
/// none does. No undone payload may be without children, which is read as absent. Only want of memory is an error.
pub fn write_response(alloc: Global, response: &Response) -> Result<Item, AllocError>
    requires { length response.now.items.items < 0x8000_0000 }
    ensures order { IfOk result (λ item. tree item ≡ written_response (response_of response.now)) }
    ensures said { IfOk result (λ item. (t : Tree) (request : RequestOf)
        → SaysResponse t request (response_of response.now) → IsWritableResponse (response_of response.now)
        → SaysResponse (tree item) request (response_of response.now)) }
{
    let mut fields = Fields::new(alloc);
    fields.item(write_header(alloc, response)?)?;
    for answer in &response.items {
        fields.item(write_answer(alloc, answer)?)?;
    }
    Ok(fields.structure(RESPONSE_MESSAGE))
}

/// Response Header.
fn write_header(alloc: Global, response: &Response) -> Result<Item, AllocError>
    requires { length response.now.items.items < 0x8000_0000 }
    ensures { IfOk result (λ item. tree item ≡ written_response_header (response_of response.now)) }
{
    let mut fields = Fields::new(alloc);
    fields.item(write_version(alloc)?)?;
    fields.date_time(TIME_STAMP, Some(response.stamp))?;
    fields.integer(BATCH_COUNT, Some(response.items.as_slice().len() as i32))?;
    Ok(fields.structure(RESPONSE_HEADER))
}

/// A Batch Item of a response.
fn write_answer(alloc: Global, answer: &Answer) -> Result<Item, AllocError>
    ensures { IfOk result (λ item. tree item ≡ written_answer (answer_of answer.now)) }
{
    let mut fields = Fields::new(alloc);
    fields.enumeration(OPERATION, answer.operation)?;
    fields.bytes(UNIQUE_BATCH_ITEM_ID, answer.batch_id)?;
    fields.enumeration(RESULT_STATUS, Some(answer.status.number()))?;
    fields.enumeration(RESULT_REASON, answer.reason)?;
    if let Some(payload) = &answer.payload {
        fields.item(write_payload(alloc, payload)?)?;
    }
    Ok(fields.structure(BATCH_ITEM))
}
