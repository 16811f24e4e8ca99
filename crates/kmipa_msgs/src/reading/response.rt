//! Responses.

ghost use Rattle.std.specs.Prelude.{◌≡◌};
ghost use Rattle.kmipa_ttlv.specs.ViewTree.{view_tree, view_trees};
ghost use Rattle.kmipa_msgs.specs.Messages.{request_of, response_of};
ghost use Rattle.kmipa_msgs.specs.Outside.{Gives};
ghost use Rattle.kmipa_msgs.specs.Responses.{TellsResponse, stamp_said, response_in};

use crate::fault::ReadFault;
use crate::kind::OutsideKind;
use crate::reading::answer::read_answers;
use crate::reading::header::{is_count, is_version, item_count, message_parts};
use crate::request::Request;
use crate::response::Response;
use kmipa_attrs::fields::date_at;
use kmipa_attrs::tags::{RESPONSE_HEADER, RESPONSE_MESSAGE, TIME_STAMP};
use kmipa_attrs::{both, passing};
use kmipa_ttlv::{Children, View};
use std::alloc::Global;

/// The response to a request that an item says, else where and why it is outside the profile.
///
/// Identifiers and key bytes are lent from what the view borrows.
pub fn read_response<'a>(
    alloc: Global,
    message: &View<'a>,
    request: &Request,
) -> Result<Response<'a>, ReadFault>
    ensures { TellsResponse (view_tree message.now) (request_of request.now) result }
{
    response(alloc, message, request)
}

fn response<'a>(
    alloc: Global,
    message: &View<'a>,
    request: &Request,
) -> Result<Response<'a>, ReadFault>
    ensures { Gives response_of result (response_in (view_tree message.now) (request_of request.now)) }
{
    let parts = message_parts(message, RESPONSE_MESSAGE, RESPONSE_HEADER);
    let (children, header) = parts.ok_or(OutsideKind::NotAMessage)?;
    let count = item_count(children);
    let stamp = response_header(header, count)?;
    let items = read_answers(alloc, count, children, &request.items)?;
    Ok(Response { stamp, items })
}

/// The Time Stamp of a header before so many items.
#[tactic(auto, unfolding(crate::specs::Responses::stamp_said))]
pub fn response_header(header: Children, items: usize) -> Result<i64, OutsideKind>
    ensures { result ≡ stamp_said (view_trees header.entry) items }
{
    let version = passing(is_version(header), (), OutsideKind::Version);
    let count = passing(is_count(header, items), (), OutsideKind::Count);
    let stamp = date_at(header, TIME_STAMP).needed(OutsideKind::Missing, OutsideKind::Missing);
    let (_, stamp) = both(both(version, count), stamp)?;
    Ok(stamp)
}
