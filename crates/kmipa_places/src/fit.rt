//! Whether an answer that is made up fits its request.

ghost use Rattle.std.specs.Prelude.{◌≡◌, ◌↔◌, IfOk, IsTrue, option_map};
ghost use Rattle.kmipa_ttlv.specs.ViewTree.{view_tree, view_trees};
ghost use Rattle.kmipa_attrs.specs.Fields.{every};
ghost use Rattle.kmipa_attrs.specs.Tags.{batch_item};
ghost use Rattle.kmipa_msgs.specs.Messages.{ask_of};
ghost use Rattle.kmipa_places.specs.Calls.{message_of};
ghost use Rattle.kmipa_places.specs.Fits.{AreFit, FitsAt, IsFitAnswer};
ghost use Rattle.kmipa_places.specs.Openings.{AsksNumber, operation_in};

use crate::asking::ask_for;
use crate::item::{children_of, operation_at};
use crate::unreadable::is_unread;
use kmipa_attrs::Field;
use kmipa_attrs::tags::BATCH_ITEM;
use kmipa_msgs::{Ask, Operation, Unread, read_answer};
use kmipa_ttlv::{Children, View};
use std::alloc::{AllocError, Global};

/// Whether an answer that is made up fits its request, each none where its bytes aren't exactly one item: both can be read, and no condition holds at
/// an answer but that its operation isn't judged.
pub fn is_fit_answer(
    alloc: Global,
    request: Option<&View>,
    answer: Option<&View>,
) -> Result<bool, AllocError>
    ensures { IfOk result (λ reported. IsTrue reported ↔ IsFitAnswer (message_of request.entry) (message_of answer.entry)) }
{
    if is_unread(request, answer) {
        return Ok(false);
    }
    match (request, answer) {
        (Some(request), Some(answer)) => {
            are_fit(alloc, children_of(request), children_of(answer))
        }
        _ => Ok(false),
    }
}

/// Whether the answers of a response with these children fit the items of a request with those, each at the place of one, or behind all.
fn are_fit(alloc: Global, asked: Children, answered: Children) -> Result<bool, AllocError>
    ensures { IfOk result (λ reported. IsTrue reported ↔ AreFit (every batch_item (view_trees asked.entry))
        (every batch_item (view_trees answered.entry))) }
{
    let mut asks = asked;
    let mut left = answered;
    'items: while let Some(answer) = left.next_of(BATCH_ITEM) {
        let operation = operation_in(asks.next_of(BATCH_ITEM));
        if !fits_at(alloc, operation, &answer)? {
            return Ok(false);
        }
    }
    Ok(true)
}

/// The Operation of an item, where there is one.
fn operation_in(item: Option<View>) -> Field<u32>
    ensures { result ≡ operation_in (option_map view_tree item.entry) }
{
    match item {
        Some(item) => operation_at(&item),
        None => Field::Absent,
    }
}

/// Whether an answer fits an item with this Operation. Where that isn't judged, only what stands outside of the payload counts.
fn fits_at(alloc: Global, operation: Field<u32>, answer: &View) -> Result<bool, AllocError>
    ensures { IfOk result (λ reported. IsTrue reported ↔ FitsAt operation (view_tree answer.now)) }
{
    let ask = ask_number(alloc, operation)?;
    match read_answer(alloc, ask.as_ref(), answer) {
        Ok(_) => Ok(true),
        Err(Unread::Outside(_)) => Ok(false),
        Err(Unread::Memory) => Err(AllocError),
    }
}

/// Some item that asks for the operation of this number, where it is judged.
fn ask_number<'a>(alloc: Global, operation: Field<u32>) -> Result<Option<Ask<'a>>, AllocError>
    ensures { IfOk result (λ ask. AsksNumber operation (option_map ask_of ask)) }
{
    match operation {
        Field::There(number) => ask_for(alloc, Operation::of(number)),
        Field::Absent | Field::Wrong => Ok(None),
    }
}
