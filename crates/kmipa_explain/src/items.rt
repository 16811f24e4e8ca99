//! The items of an order, one after the other as they are taken, and which identifier each is about.

ghost use Rattle.std.specs.Prelude.{◌≡◌, ◌<◌, ◌++◌, IfOk, List, Option, OnOk, length, map, option_map, slice_get, ℕ};
ghost use Rattle.std.specs.String.{string_bytes};
ghost use Rattle.kmipa_msgs.specs.Messages.{answer_of, ask_of, maybe_lent};
ghost use Rattle.kmipa_ops.specs.After.{placeholder_after, placeholder_done};
ghost use Rattle.kmipa_batch.specs.Calls.{pairs_of};
ghost use Rattle.kmipa_check.specs.Steps.{order_of, step_of};
ghost use Rattle.kmipa_explain.specs.Items.{ItemOf, about, item_then, items_of, items_of_call, makes_object, places_taken};
ghost use Rattle.kmipa_explain.specs.Reading.{seen_item};
ghost use Rattle.kmipa_explain.specs.Meant.{text_of};

use crate::effects::{dates_set, tells_bytes};
use crate::item::Item;
use kmipa_check::Step;
use kmipa_msgs::{Answer, Ask, Status};
use kmipa_ops::{Effect, about, held_after as held_after_done, row_of};
use std::alloc::{AllocError, Global};

/// The items of these steps, one after the other as they are taken.
pub fn items_of(alloc: Global, steps: &[Step]) -> Result<Vec<Item>, AllocError>
    ensures { IfOk result (λ items. map seen_item items.items ≡ items_of (map step_of steps.now)) }
{
    let mut items = Vec::new(alloc);
    let mut at = 0;
    'steps: while at < steps.len() {
        add_items(alloc, &mut items, at + 1, &steps[at])?;
        at += 1;
    }
    Ok(items)
}

/// Adds the items of a call behind others. The ID Placeholder is empty at the call's begin.
fn add_items(
    alloc: Global,
    items: &mut Vec<Item>,
    turn: usize,
    step: &Step,
) -> Result<(), AllocError>
    ensures { OnOk result (map seen_item items.new.items
        ≡ map seen_item items.old.items ++ items_of_call turn (step_of step.now)) }
{
    let count = count_of(step);
    let mut held = None;
    let mut position = 0;
    'items: while position < count {
        held = add_item(alloc, items, turn, step, place_at(step, position), held)?;
        position += 1;
    }
    Ok(())
}

/// How many places of a call are taken.
pub fn count_of(step: &Step) -> usize
    ensures { result ≡ length (places_taken (order_of (step_of step.now)) (length (step_of step.now).request.items)) }
{
    match step.places() {
        Some(places) => places.len(),
        None => step.request().items.len(),
    }
}

/// The place, counted from 0, that is taken at a position.
pub fn place_at(step: &Step, position: usize) -> usize
    requires { position < length (places_taken (order_of (step_of step.now))
        (length (step_of step.now).request.items)) }
    ensures { slice_get (places_taken (order_of (step_of step.now)) (length (step_of step.now).request.items)) position
        ≡ Some result }
{
    match step.places() {
        Some(places) => places[position].saturating_sub(1),
        None => position,
    }
}

/// Adds the item of a call at a place, counted from 0, if one stands there, where the ID Placeholder holds this; and tells what it holds
/// then.
fn add_item(
    alloc: Global,
    items: &mut Vec<Item>,
    turn: usize,
    step: &Step,
    place: usize,
    held: Option<String>,
) -> Result<Option<String>, AllocError>
    ensures { IfOk result (λ after. (behind : Option (List ℕ) → List ItemOf)
        → map seen_item items.old.items ++ item_then turn (step_of step.now) place (text_of held)
        (slice_get (pairs_of (step_of step.now).request (step_of step.now).response) place) behind
        ≡ map seen_item items.new.items ++ behind (text_of after)) }
{
    let Some(ask) = step.request().items.get(place) else {
        return Ok(held);
    };
    let Some(answer) = step.response.response().items.get(place) else {
        return Ok(held);
    };
    let about = about_in(alloc, ask, answer, &held)?;
    let after = held_after(alloc, ask, answer, held)?;
    items.push(Item {
        turn,
        call: step.number,
        item: place + 1,
        stamp: step.moment(),
        operation: ask.number(),
        status: answer.status,
        makes: makes_object(ask),
        sets: dates_set(ask, step.moment()),
        teaches: tells_bytes(ask, answer),
        about,
    })?;
    Ok(after)
}

/// Whether an item is to make an object.
fn makes_object(ask: &Ask) -> bool
    ensures { result ≡ makes_object (ask_of ask.now).asked }
{
    match row_of(&ask.asked).effect {
        Effect::Makes(_) => true,
        _ => false,
    }
}

/// The identifier that an item is about, where the ID Placeholder holds this.
pub fn about_in(
    alloc: Global,
    ask: &Ask,
    answer: &Answer,
    held: &Option<String>,
) -> Result<Option<String>, AllocError>
    ensures { IfOk result
        (λ id. text_of id ≡ about (text_of held.now) (ask_of ask.now).asked (answer_of answer.now).payload) }
{
    copied(alloc, about(&ask.asked, named(held), &answer.payload))
}

/// What the ID Placeholder holds after an item, where it held this.
fn held_after(
    alloc: Global,
    ask: &Ask,
    answer: &Answer,
    held: Option<String>,
) -> Result<Option<String>, AllocError>
    ensures { IfOk result
        (λ after. text_of after
        ≡ placeholder_after (answer_of answer.now).status (text_of held) (ask_of ask.now).asked
        (answer_of answer.now).payload) }
{
    match answer.status {
        Status::Success => held_done(alloc, ask, answer, held),
        Status::Undone => held_done(alloc, ask, answer, held),
        Status::Failed => Ok(held),
    }
}

/// What it holds after an item that was done.
fn held_done(
    alloc: Global,
    ask: &Ask,
    answer: &Answer,
    held: Option<String>,
) -> Result<Option<String>, AllocError>
    ensures { IfOk result
        (λ after. text_of after
        ≡ placeholder_done (text_of held) (ask_of ask.now).asked (answer_of answer.now).payload) }
{
    copied(
        alloc,
        held_after_done(&ask.asked, named(&held), &answer.payload),
    )
}

/// The identifier that is held, if one is.
fn named<'h>(held: &'h Option<String>) -> Option<&'h str>
    ensures { maybe_lent result ≡ text_of held.now }
{
    match held {
        Some(id) => Some(id.as_str()),
        None => None,
    }
}

/// A text of its own.
fn copied(alloc: Global, text: Option<&str>) -> Result<Option<String>, AllocError>
    ensures { IfOk result (λ own. text_of own ≡ maybe_lent text.entry) }
{
    match text {
        Some(text) => Ok(Some(String::from_str(alloc, text)?)),
        None => Ok(None),
    }
}
