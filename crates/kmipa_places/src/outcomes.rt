//! How items were answered.

ghost use Rattle.std.specs.Prelude.{◌≡◌, IfOk, option_map};
ghost use Rattle.kmipa_ttlv.specs.ViewTree.{view_tree, view_trees};
ghost use Rattle.kmipa_attrs.specs.Fields.{every};
ghost use Rattle.kmipa_attrs.specs.Tags.{batch_item};
ghost use Rattle.kmipa_places.specs.Outcomes.{has_failed, is_absent, is_pending, outcome_at, outcome_in, outcome_of, refuses, refuses_alone};
ghost use Rattle.kmipa_places.specs.Readings.{outcomes_in};

use crate::item::{children_of, operation_at};
use kmipa_attrs::Field;
use kmipa_attrs::fields::enumeration_at;
use kmipa_attrs::tags::{BATCH_ITEM, RESULT_STATUS};
use kmipa_passed::Outcome;
use kmipa_ttlv::{Children, View};
use std::alloc::{AllocError, Global};

/// How an item of a response answers; none where its status can't be read.
pub fn outcome_at(answer: &View) -> Option<Outcome>
    ensures { result ≡ outcome_at (view_tree answer.now) }
{
    match enumeration_at(children_of(answer), RESULT_STATUS) {
        Field::There(number) => outcome_of(number),
        Field::Absent | Field::Wrong => None,
    }
}

fn outcome_of(number: u32) -> Option<Outcome>
    ensures { result ≡ outcome_of number }
{
    match number {
        0 => Some(Outcome::Done),
        1 => Some(Outcome::Failed),
        2 => Some(Outcome::Pending),
        3 => Some(Outcome::Undone),
        _ => None,
    }
}

/// How each item of a response answers, with these children; none where the status of one can't be read. There is room for `count` from the start.
pub fn read_outcomes(
    alloc: Global,
    count: usize,
    children: Children,
) -> Result<Option<Vec<Outcome>>, AllocError>
    ensures { IfOk result (λ o. option_map (λ v. v.items) o
        ≡ outcomes_in (every batch_item (view_trees children.entry))) }
{
    let mut outcomes = Vec::with_capacity(alloc, count)?;
    let mut left = children;
    'items: while let Some(child) = left.next_of(BATCH_ITEM) {
        let Some(outcome) = outcome_at(&child) else {
            return Ok(None);
        };
        outcomes.push(outcome)?;
    }
    Ok(Some(outcomes))
}

/// Whether an answer failed.
pub fn has_failed(outcome: Option<Outcome>) -> bool
    ensures { result ≡ has_failed outcome }
{
    matches!(outcome, Some(Outcome::Failed))
}

/// Whether an answer is still to come.
pub fn is_pending(outcome: Option<Outcome>) -> bool
    ensures { result ≡ is_pending outcome }
{
    matches!(outcome, Some(Outcome::Pending))
}

/// Whether a response with these children refuses the whole message: one item alone, which failed and names no operation.
pub fn refuses(children: Children) -> bool
    ensures { result ≡ refuses (every batch_item (view_trees children.entry)) }
{
    let mut left = children;
    let Some(answer) = left.next_of(BATCH_ITEM) else {
        return false;
    };
    if left.next_of(BATCH_ITEM).is_some() {
        return false;
    }
    refuses_alone(&answer)
}

fn refuses_alone(answer: &View) -> bool
    ensures { result ≡ refuses_alone (view_tree answer.now) }
{
    has_failed(outcome_at(answer)) && is_absent(operation_at(answer))
}

/// Whether a field is absent.
fn is_absent(field: Field<u32>) -> bool
    ensures { result ≡ is_absent field }
{
    match field {
        Field::Absent => true,
        Field::Wrong | Field::There(_) => false,
    }
}
