//! KMIP 2.1 messages: requests and responses, each an item that says exactly this message.
#![tactic(auto)]

mod copying;
mod fault;
mod key_block;
mod kind;
mod laws;
mod operation;
mod reading;
mod request;
mod response;
mod rules;
mod wanted;
mod writing;

pub use fault::{Outside, ReadFault};
pub use key_block::{KeyBlock, KeyFormat};
pub use kind::OutsideKind;
pub use laws::{one_payload, one_request, one_response, sayable_is_said};
pub use operation::Operation;
pub use reading::{
    Unread, is_count, item_count, lacks_order, message_parts, read_answer, read_asked_beside,
    read_item, read_payload, read_request, read_response, request_header, response_header,
};
pub use request::{
    Activate, Ask, Asked, BatchOption, Create, Destroy, Get, GetAttributes, Locate, Register,
    Request, Revoke,
};
pub use response::{
    Answer, Changed, Got, GotAttributes, Located, Payload, Registered, Response, Status,
};
pub use rules::{Cause, Row, Rules, Unjudged, Visibility};
pub use wanted::is_wanted;
pub use writing::{write_request, write_response};
