//! How the items of a call count that can't be read.

ghost use Rattle.std.specs.Prelude.{◌≡◌, ◌<◌, ◌↔◌, IfOk, IsTrue, Option};
ghost use Rattle.kmipa_ttlv.specs.Tree.{Tree};
ghost use Rattle.kmipa_ttlv.specs.ViewTree.{view_tree, view_trees};
ghost use Rattle.kmipa_attrs.specs.Fields.{every};
ghost use Rattle.kmipa_attrs.specs.Tags.{batch_item};
ghost use Rattle.kmipa_places.specs.Calls.{message_of};
ghost use Rattle.kmipa_places.specs.Counting.{AreCounted, AreUnreadCounts, CountsBy, asks_judged, is_judged_operation, none_unread, unread_counts_of, unread_with};
ghost use Rattle.kmipa_places.specs.Openings.{IsResponseUnread, Opened, counted_by, total_unread};
ghost use Rattle.kmipa_places.specs.Readings.{way_of};

use crate::item::operation_at;
use crate::place::{By, Way, read_way};
use crate::unread::{answered, asked, or_none};
use crate::unreadable::{is_response_unread, order_of};
use kmipa_attrs::Field;
use kmipa_attrs::tags::BATCH_ITEM;
use kmipa_msgs::{Operation, item_count};
use kmipa_ttlv::{Children, View};
use std::alloc::{AllocError, Global};

/// How many items of a call that can't be read aren't judged, by the first reason of each.
#[derive(Clone, Copy, PartialEq, Eq)]
pub struct UnreadCounts {
    /// Their requests aren't judged, or ask for no operation that is.
    pub by_request: usize,
    /// Their answers aren't.
    pub by_answer: usize,
    /// The witness sets the whole call aside.
    pub by_witness: usize,
}

impl UnreadCounts {
    /// None yet.
    fn new() -> UnreadCounts
        ensures { unread_counts_of result ≡ none_unread }
    {
        UnreadCounts {
            by_request: 0,
            by_answer: 0,
            by_witness: 0,
        }
    }

    /// One more.
    fn add(self, by: By) -> UnreadCounts
        requires { total_unread (unread_counts_of self) < usize.MAX }
        ensures { unread_counts_of result ≡ unread_with by (unread_counts_of self) }
    {
        let mut counts = self;
        match by {
            By::Request => counts.by_request += 1,
            By::Answer => counts.by_answer += 1,
            By::Witness => counts.by_witness += 1,
        }
        counts
    }
}

/// How the items of a call count that can't be read, by its request and its response, each none where its bytes aren't exactly one item: each item that
/// has an answer, of the messages whose items can be told.
pub fn count_unread(
    alloc: Global,
    request: Option<&View>,
    response: Option<&View>,
) -> Result<UnreadCounts, AllocError>
    ensures { IfOk result (λ counts. AreUnreadCounts (message_of request.entry) (message_of response.entry)
        (unread_counts_of counts)) }
{
    let asks = or_none(asked(request));
    let answers = or_none(answered(response));
    let unordered = order_of(request);
    let unread = is_response_unread(response);
    count_items(alloc, unordered, unread, asks, answers)
}

/// How the items of a request with these children count, each with the answer at its place; `unordered` is of a request that can be read, and `unread`
/// says that the response can't be.
fn count_items(
    alloc: Global,
    unordered: Option<bool>,
    unread: bool,
    asked: Children,
    answered: Children,
) -> Result<UnreadCounts, AllocError>
    ensures { IfOk result (λ counts. (request response : Option Tree) → Opened request unordered
        → (IsTrue unread ↔ IsResponseUnread response) → AreCounted request response
        (every batch_item (view_trees asked.entry)) (every batch_item (view_trees answered.entry)) (unread_counts_of counts)) }
{
    let _most = item_count(asked);
    let mut counts = UnreadCounts::new();
    let mut asks = asked;
    let mut answers = answered;
    'items: while let Some(item) = asks.next_of(BATCH_ITEM) {
        let Some(answer) = answers.next_of(BATCH_ITEM) else {
            return Ok(counts);
        };
        let by = counts_by(alloc, unordered, unread, &item, &answer)?;
        counts = counts.add(by);
    }
    Ok(counts)
}

/// By what an item with its answer counts.
fn counts_by(
    alloc: Global,
    unordered: Option<bool>,
    unread: bool,
    item: &View,
    answer: &View,
) -> Result<By, AllocError>
    ensures { IfOk result (λ by. (request response : Option Tree) → Opened request unordered
        → (IsTrue unread ↔ IsResponseUnread response)
        → CountsBy request response (view_tree item.now) (view_tree answer.now) by) }
{
    let Some(unordered) = unordered else {
        return Ok(By::Request);
    };
    if !asks_judged(operation_at(item)) {
        return Ok(By::Request);
    }
    let way = read_way(alloc, unordered, true, item, answer)?;
    Ok(counted_by(unread, way))
}

/// Whether an Operation is one of those that are judged.
fn asks_judged(operation: Field<u32>) -> bool
    ensures { result ≡ asks_judged operation }
{
    match operation {
        Field::There(number) => is_judged_operation(Operation::of(number)),
        Field::Absent | Field::Wrong => false,
    }
}

/// Whether an operation is one of the eight that are judged.
pub fn is_judged_operation(operation: Operation) -> bool
    ensures { result ≡ is_judged_operation operation }
{
    match operation {
        Operation::Create
        | Operation::Register
        | Operation::Locate
        | Operation::Get
        | Operation::GetAttributes
        | Operation::Activate
        | Operation::Revoke
        | Operation::Destroy => true,
        Operation::Idle(_) | Operation::Other(_) => false,
    }
}

/// By what an item counts that would be read in this way if the witness set it aside, where the response can't be read or can be.
fn counted_by(unread: bool, way: Way) -> By
    ensures { result ≡ counted_by unread (way_of way.entry) }
{
    match way {
        Way::Passed(By::Request) => By::Request,
        _ if unread => By::Answer,
        Way::Passed(by) => by,
        Way::Judged(_, _) => By::Witness,
    }
}
