//! Requests.

ghost use Rattle.std.specs.Prelude.{◌≡◌};
ghost use Rattle.kmipa_ttlv.specs.ViewTree.{view_tree, view_trees};
ghost use Rattle.kmipa_attrs.specs.Fields.{at, as_enumeration, as_boolean};
ghost use Rattle.kmipa_attrs.specs.declared.fields.Field.TheVariants.{There};
ghost use Rattle.kmipa_attrs.specs.Tags.{batch_error_continuation_option, batch_order_option};
ghost use Rattle.kmipa_msgs.specs.Messages.{request_of};
ghost use Rattle.kmipa_msgs.specs.Outside.{Gives};
ghost use Rattle.kmipa_msgs.specs.Requests.{TellsRequest, lacks_order, option_in, order_in, order_said, request_in};

use crate::fault::ReadFault;
use crate::kind::OutsideKind;
use crate::reading::ask::read_asks;
use crate::reading::header::{is_count, is_version, item_count, message_parts};
use crate::request::{BatchOption, Request};
use kmipa_attrs::fields::{boolean_at, enumeration_at};
use kmipa_attrs::tags::{
    BATCH_ERROR_CONTINUATION_OPTION, BATCH_ORDER_OPTION, REQUEST_HEADER, REQUEST_MESSAGE,
};
use kmipa_attrs::{Field, both, passing};
use kmipa_ttlv::{Children, View};
use std::alloc::Global;

/// The request that an item says, else where and why it is outside the profile.
///
/// Identifiers and key bytes are lent from what the view borrows.
pub fn read_request<'a>(alloc: Global, message: &View<'a>) -> Result<Request<'a>, ReadFault>
    ensures { TellsRequest (view_tree message.now) result }
{
    request(alloc, message)
}

fn request<'a>(alloc: Global, message: &View<'a>) -> Result<Request<'a>, ReadFault>
    ensures { Gives request_of result (request_in (view_tree message.now)) }
{
    let parts = message_parts(message, REQUEST_MESSAGE, REQUEST_HEADER);
    let (children, header) = parts.ok_or(OutsideKind::NotAMessage)?;
    let count = item_count(children);
    let (option, ordered) = request_header(header, count)?;
    let unordered = lacks_order(ordered, count);
    let items = read_asks(alloc, unordered, count, children)?;
    Ok(Request {
        option,
        ordered,
        items,
    })
}

/// What a header says before so many items: the option, and whether they are to be done in order.
#[tactic(auto, unfolding(crate::specs::Requests::order_said))]
pub fn request_header(header: Children, items: usize) -> Result<(BatchOption, bool), OutsideKind>
    ensures { result ≡ order_said (view_trees header.entry) items }
{
    let version = passing(is_version(header), (), OutsideKind::Version);
    let count = passing(is_count(header, items), (), OutsideKind::Count);
    let plain = both(version, count);
    let said = both(batch_option(header), ordered(header));
    let (_, said) = both(plain, said)?;
    Ok(said)
}

/// Stop where no option is there.
fn batch_option(header: Children) -> Result<BatchOption, OutsideKind>
    ensures { result ≡ option_in (at as_enumeration batch_error_continuation_option (view_trees header.entry)) }
{
    match enumeration_at(header, BATCH_ERROR_CONTINUATION_OPTION) {
        Field::There(number) => BatchOption::of(number).ok_or(OutsideKind::Missing),
        Field::Absent => Ok(BatchOption::Stop),
        Field::Wrong => Err(OutsideKind::Missing),
    }
}

/// True where no option is there.
fn ordered(header: Children) -> Result<bool, OutsideKind>
    ensures { result ≡ order_in (at as_boolean batch_order_option (view_trees header.entry)) }
{
    match boolean_at(header, BATCH_ORDER_OPTION) {
        Field::There(ordered) => Ok(ordered),
        Field::Absent => Ok(true),
        Field::Wrong => Err(OutsideKind::Missing),
    }
}

/// Whether there are several items in no order.
pub fn lacks_order(ordered: bool, items: usize) -> bool
    ensures { result ≡ lacks_order (There ordered) items }
{
    !ordered && items > 1
}
