//! What messages say ahead of their items.

ghost use Rattle.std.specs.Prelude.{◌≡◌};
ghost use Rattle.kmipa_ttlv.specs.ViewTree.{view_tree, view_trees};
ghost use Rattle.kmipa_attrs.specs.Fields.{first};
ghost use Rattle.kmipa_places.specs.Readings.{OpensRequest, OpensResponse};
ghost use Rattle.kmipa_places.specs.Unread.{asynchronous_indicator, is_allowing};

use kmipa_attrs::fields::first;
use kmipa_attrs::tags::{REQUEST_HEADER, REQUEST_MESSAGE, RESPONSE_HEADER, RESPONSE_MESSAGE};
use kmipa_msgs::{
    BatchOption, item_count, lacks_order, message_parts, request_header, response_header,
};
use kmipa_ttlv::{Children, View, ViewValue};

/// The tag of Asynchronous Indicator.
const ASYNCHRONOUS_INDICATOR: u32 = 0x42_0007;

/// A request, ahead of its items.
#[derive(Clone, Copy)]
pub struct Asked<'a> {
    pub option: BatchOption,
    pub ordered: bool,
    /// Whether there are several items in no order.
    pub unordered: bool,
    /// Whether an answer may still be to come.
    pub pending: bool,
    /// How many items there are.
    pub count: usize,
    /// The message's.
    pub children: Children<'a>,
}

/// A response, ahead of its items.
#[derive(Clone, Copy)]
pub struct Answered<'a> {
    pub stamp: i64,
    /// How many items there are.
    pub count: usize,
    /// The message's.
    pub children: Children<'a>,
}

/// A request ahead of its items; none where a condition holds for it itself.
pub fn open_request<'a>(request: &View<'a>) -> Option<Asked<'a>>
    ensures { OpensRequest (view_tree request.now) result }
{
    let (children, header) = message_parts(request, REQUEST_MESSAGE, REQUEST_HEADER)?;
    let count = item_count(children);
    let Ok((option, ordered)) = request_header(header, count) else {
        return None;
    };
    Some(Asked {
        option,
        ordered,
        unordered: lacks_order(ordered, count),
        pending: allows_pending(header),
        count,
        children,
    })
}

/// Whether a header allows an answer that is still to come.
pub fn allows_pending(header: Children) -> bool
    ensures { result ≡ is_allowing (first asynchronous_indicator (view_trees header.entry)) }
{
    match first(header, ASYNCHRONOUS_INDICATOR) {
        Some(indicator) => is_allowing(&indicator),
        None => false,
    }
}

/// Whether an Asynchronous Indicator is True, or one of the Enumerations that allow it.
fn is_allowing(indicator: &View) -> bool
    ensures { result ≡ is_allowing (Some (view_tree indicator.now)) }
{
    match &indicator.value {
        ViewValue::Boolean(allowed) => *allowed,
        ViewValue::Enumeration(number) => matches!(*number, 1 | 2),
        ViewValue::Structure(_)
        | ViewValue::Integer(_)
        | ViewValue::LongInteger(_)
        | ViewValue::BigInteger(_)
        | ViewValue::Text(_)
        | ViewValue::Bytes(_)
        | ViewValue::DateTime(_)
        | ViewValue::Interval(_)
        | ViewValue::DateTimeExtended(_) => false,
    }
}

/// A response ahead of its items; none where a condition holds for it itself.
pub fn open_response<'a>(response: &View<'a>) -> Option<Answered<'a>>
    ensures { OpensResponse (view_tree response.now) result }
{
    let (children, header) = message_parts(response, RESPONSE_MESSAGE, RESPONSE_HEADER)?;
    let count = item_count(children);
    let Ok(stamp) = response_header(header, count) else {
        return None;
    };
    Some(Answered {
        stamp,
        count,
        children,
    })
}
