//! Which calls can't be read.

ghost use Rattle.std.specs.Prelude.{◌≡◌, ◌↔◌, IsTrue, []};
ghost use Rattle.kmipa_ttlv.specs.ViewTree.{view_trees};
ghost use Rattle.kmipa_attrs.specs.Fields.{every};
ghost use Rattle.kmipa_attrs.specs.Tags.{batch_item};
ghost use Rattle.kmipa_places.specs.Calls.{message_of};
ghost use Rattle.kmipa_places.specs.Openings.{IsResponseUnread, Opened};
ghost use Rattle.kmipa_places.specs.Outcomes.{some_unread};
ghost use Rattle.kmipa_places.specs.Unread.{IsUnread};

use crate::opened::{open_request, open_response};
use crate::outcomes::outcome_at;
use kmipa_attrs::tags::BATCH_ITEM;
use kmipa_ttlv::{Children, View};

/// Whether a call can't be read, whatever its turn sets aside, by its request and its response, each none where its bytes aren't exactly one item.
pub fn is_unread(request: Option<&View>, response: Option<&View>) -> bool
    ensures { IsTrue result ↔ IsUnread (message_of request.entry) (message_of response.entry) [] }
{
    match order_of(request) {
        Some(_) => is_response_unread(response),
        None => true,
    }
}

/// Whether a request has several items in no order; none where it can't be read.
pub(crate) fn order_of(request: Option<&View>) -> Option<bool>
    ensures { Opened (message_of request.entry) result }
{
    match request {
        Some(request) => match open_request(request) {
            Some(asked) => Some(asked.unordered),
            None => None,
        },
        None => None,
    }
}

/// Whether a response can't be read: its header, or the status of an answer.
pub(crate) fn is_response_unread(response: Option<&View>) -> bool
    ensures { IsTrue result ↔ IsResponseUnread (message_of response.entry) }
{
    let Some(response) = response else {
        return true;
    };
    match open_response(response) {
        Some(answered) => some_unread(answered.children),
        None => true,
    }
}

/// Whether the status of some answer of a response with these children can't be read.
fn some_unread(children: Children) -> bool
    ensures { result ≡ some_unread (every batch_item (view_trees children.entry)) }
{
    let mut left = children;
    'items: while let Some(answer) = left.next_of(BATCH_ITEM) {
        if outcome_at(&answer).is_none() {
            return true;
        }
    }
    false
}
