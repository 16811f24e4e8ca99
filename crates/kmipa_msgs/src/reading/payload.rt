//! Response Payloads.

ghost use Rattle.kmipa_ttlv.specs.ViewTree.{view_tree};
ghost use Rattle.kmipa_msgs.specs.Messages.{ask_of, payload_of};
ghost use Rattle.kmipa_msgs.specs.Payloads.{TellsPayload, payload_in};
ghost use Rattle.kmipa_msgs.specs.Yields.{Yields};

use crate::fault::ReadFault;
use crate::kind::OutsideKind;
use crate::operation::Operation;
use crate::reading::operations::read_done;
use crate::reading::unread::Unread;
use crate::request::Ask;
use crate::response::Payload;
use kmipa_attrs::fields::as_structure;
use kmipa_ttlv::View;
use std::alloc::Global;

/// What a Response Payload that stands alone answers to a request's item, else why it is outside the profile, at item 0.
///
/// Identifiers and key bytes are lent from what the view borrows.
pub fn read_payload<'a>(
    alloc: Global,
    payload: &View<'a>,
    ask: &Ask,
) -> Result<Payload<'a>, ReadFault>
    ensures { TellsPayload (view_tree payload.now) (ask_of ask.now) result }
{
    match read_payload_of(alloc, ask.operation(), payload) {
        Ok(payload) => Ok(payload),
        Err(unread) => Err(unread.at(0)),
    }
}

/// What a payload answers to an operation.
pub(super) fn read_payload_of<'a>(
    alloc: Global,
    operation: Operation,
    payload: &View<'a>,
) -> Result<Payload<'a>, Unread>
    ensures { Yields payload_of result (payload_in operation (view_tree payload.now)) }
{
    let children = as_structure(payload).ok_or(OutsideKind::Missing)?;
    read_done(alloc, operation, children)
}
