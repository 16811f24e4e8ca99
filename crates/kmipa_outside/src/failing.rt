//! What stands in place of what is wanted.

ghost use Rattle.std.specs.Prelude.{◌≡◌, None, Some, cond};
ghost use Rattle.std.specs.Option.{option_map};
ghost use Rattle.kmipa_ttlv.specs.ViewTree.{view_tree, view_trees};
ghost use Rattle.kmipa_msgs.specs.Headers.{counts};
ghost use Rattle.kmipa_outside.specs.Demands.{all_at, fails, fails_in, first_fails, is_number, is_one_of, is_value, lack, misfit, other_integer, other_number, unlike, unlike_integer};

use crate::counting::{many_at, some_at};
use crate::demand::{Demand, Numbers, Step, Wanted};
use crate::finding::{first_at, inward};
use crate::told::Stands;
use crate::types::{ItemType, item_type};
use kmipa_attrs::ObjectType;
use kmipa_msgs::{BatchOption, KeyFormat};
use kmipa_ttlv::{Children, View, ViewValue};

/// The highest number of a Result Status.
const HIGHEST_STATUS: u32 = 3;

/// The Result Status of what failed.
const FAILED: u32 = 1;

/// The Object Type of what is created.
const CREATED: u32 = 2;

/// What stands in place of what a demand wants, where it isn't so, by the children of the header, the item or the payload.
pub(crate) fn fails_in(demand: Demand, children: Children) -> Option<Stands>
    ensures { result ≡ fails_in demand (view_trees children.entry) }
{
    fails(demand.wanted, inward(children, demand.inside), demand.field)
}

/// The same of what a step finds.
fn fails(wanted: Wanted, children: Children, step: Step) -> Option<Stands>
    ensures { result ≡ fails wanted (all_at step (view_trees children.entry)) }
{
    match wanted {
        Wanted::EachTyped(_) | Wanted::EachName => some_at(wanted, children, step),
        Wanted::Once => many_at(children, step),
        _ => first_fails(wanted, first_at(children, step)),
    }
}

/// What stands in place of what is wanted of the first item.
fn first_fails(wanted: Wanted, first: Option<View>) -> Option<Stands>
    ensures { result ≡ first_fails wanted (option_map view_tree first.entry) }
{
    match first {
        Some(view) => misfit(wanted, &view),
        None => lack(wanted),
    }
}

fn lack(wanted: Wanted) -> Option<Stands>
    ensures { result ≡ lack wanted }
{
    match wanted {
        Wanted::There | Wanted::Typed(_) | Wanted::Integer(_) | Wanted::Count(_) => {
            Some(Stands::Absent)
        }
        _ => None,
    }
}

/// An item that isn't as wanted.
fn misfit(wanted: Wanted, view: &View) -> Option<Stands>
    ensures { result ≡ misfit wanted (view_tree view.now) }
{
    match wanted {
        Wanted::Typed(ty) | Wanted::MaybeTyped(ty) => unlike(ty, view),
        Wanted::Nothing => Some(Stands::Item(item_type(view))),
        Wanted::Integer(_) | Wanted::Count(_) => unlike_integer(wanted, view),
        Wanted::OneOf(_) | Wanted::Other(_) | Wanted::Same(_, _) => other_number(wanted, view),
        Wanted::SameInteger(_, _) => other_integer(wanted, view),
        _ => None,
    }
}

fn unlike(ty: ItemType, view: &View) -> Option<Stands>
    ensures { result ≡ unlike ty (view_tree view.now) }
{
    let stands = item_type(view);
    if stands.number() == ty.number() {
        return None;
    }
    Some(Stands::Item(stands))
}

fn unlike_integer(wanted: Wanted, view: &View) -> Option<Stands>
    ensures { result ≡ unlike_integer wanted (view_tree view.now) }
{
    match &view.value {
        ViewValue::Integer(value) => other_value(wanted, *value),
        _ => Some(Stands::Item(item_type(view))),
    }
}

fn other_integer(wanted: Wanted, view: &View) -> Option<Stands>
    ensures { result ≡ other_integer wanted (view_tree view.now) }
{
    match &view.value {
        ViewValue::Integer(value) => other_value(wanted, *value),
        _ => None,
    }
}

/// A value of an Integer that isn't wanted.
fn other_value(wanted: Wanted, value: i32) -> Option<Stands>
    ensures { result ≡ cond (is_value wanted value) None (Some (Stands.Integer value)) }
{
    if is_value(wanted, value) {
        return None;
    }
    Some(Stands::Integer(value))
}

fn is_value(wanted: Wanted, value: i32) -> bool
    ensures { result ≡ is_value wanted value }
{
    match wanted {
        Wanted::Integer(number) => value == number,
        Wanted::Count(items) => counts(value, items),
        Wanted::SameInteger(number, _) => value == number,
        _ => true,
    }
}

/// Whether a Batch Count is the number of items, and there are some.
fn counts(count: i32, items: usize) -> bool
    ensures { result ≡ counts count items }
{
    count > 0 && count.unsigned_abs() as usize == items
}

fn other_number(wanted: Wanted, view: &View) -> Option<Stands>
    ensures { result ≡ other_number wanted (view_tree view.now) }
{
    match &view.value {
        ViewValue::Enumeration(number) => number_not_wanted(wanted, *number),
        _ => None,
    }
}

/// A number of an Enumeration that isn't wanted.
fn number_not_wanted(wanted: Wanted, number: u32) -> Option<Stands>
    ensures { result ≡ cond (is_number wanted number) None (Some (Stands.Number number)) }
{
    if is_number(wanted, number) {
        return None;
    }
    Some(Stands::Number(number))
}

fn is_number(wanted: Wanted, number: u32) -> bool
    ensures { result ≡ is_number wanted number }
{
    match wanted {
        Wanted::OneOf(numbers) => is_one_of(numbers, number),
        Wanted::Other(other) => number != other,
        Wanted::Same(other, _) => number == other,
        _ => true,
    }
}

/// Whether a number is one of those that the profile knows.
fn is_one_of(numbers: Numbers, number: u32) -> bool
    ensures { result ≡ is_one_of numbers number }
{
    match numbers {
        Numbers::ObjectTypes => ObjectType::of(number).is_some(),
        Numbers::CreatedType => number == CREATED,
        Numbers::KeyFormats => KeyFormat::of(number).is_some(),
        Numbers::BatchOptions => BatchOption::of(number).is_some(),
        Numbers::Statuses => number <= HIGHEST_STATUS,
        Numbers::Failure => number == FAILED,
    }
}
