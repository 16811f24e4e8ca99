//! Messages from views. Of several reasons to be outside at one item the lowest kind is reported, in whatever order the fields are met.

mod activate;
mod answer;
mod ask;
mod attributes;
mod brought;
mod create;
mod destroy;
mod get;
mod get_attributes;
mod header;
mod identifier;
mod key_block;
mod locate;
mod object;
mod operations;
mod payload;
mod register;
mod request;
mod response;
mod revoke;
mod rows;
mod unread;

pub use answer::read_answer;
pub use ask::read_item;
pub use header::{is_count, item_count, message_parts};
pub use operations::read_asked_beside;
pub use payload::read_payload;
pub use request::{lacks_order, read_request, request_header};
pub use response::{read_response, response_header};
pub use unread::Unread;
