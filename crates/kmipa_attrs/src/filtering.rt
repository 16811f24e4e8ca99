//! Filters from items.

ghost use Rattle.std.specs.Prelude.{◌≡◌, ◌||◌, Some};
ghost use Rattle.std.specs.Option.{option_map};
ghost use Rattle.kmipa_ttlv.specs.ViewTree.{view_tree, view_trees};
ghost use Rattle.kmipa_attrs.specs.Fields.{at, value_in};
ghost use Rattle.kmipa_attrs.specs.Filters.{ReadsFilter, GivesFilter, filter_in, judged_in, types_in, first_of, types_of, is_judged, is_other, has_other, some_second, is_loosened, is_below_one, maximum_of};

use crate::fault::AttrFault;
use crate::fields::{as_structure, first};
use crate::filter::Filter;
use crate::held::Held;
use crate::names::read_names;
use crate::readings::both;
use crate::single::single;
use crate::tags::{
    ACTIVATION_DATE, COMPROMISE_DATE, CRYPTOGRAPHIC_ALGORITHM, CRYPTOGRAPHIC_LENGTH,
    CRYPTOGRAPHIC_USAGE_MASK, DEACTIVATION_DATE, DESTROY_DATE, INITIAL_DATE, NAME, OBJECT_TYPE,
    STATE,
};
use kmipa_ttlv::{Children, View};
use std::alloc::Global;

/// What a Locate's Attributes and Maximum Items ask for, and whether its payload has an item that no Locate has; without
/// Attributes nothing is asked of an object.
///
/// A judged attribute of another type than its own is WrongType, also where it is no judged filter; a filter is neither Repeated
/// nor NotForClients.
pub fn read_filter(
    alloc: Global,
    attributes: Option<&View>,
    maximum: Option<i32>,
    is_unknown: bool,
) -> Result<Filter, AttrFault>
    ensures { ReadsFilter (option_map (λ v. view_tree v.now) attributes.entry) maximum is_unknown result }
{
    match attributes {
        Some(item) => read_filter_item(alloc, item, maximum, is_unknown),
        None => read_filter_children(alloc, Children::none(), maximum, is_unknown),
    }
}

fn read_filter_item(
    alloc: Global,
    item: &View,
    maximum: Option<i32>,
    is_unknown: bool,
) -> Result<Filter, AttrFault>
    ensures { ReadsFilter (Some (view_tree item.now)) maximum is_unknown result }
{
    match as_structure(item) {
        Some(children) => read_filter_children(alloc, children, maximum, is_unknown),
        None => Err(AttrFault::WrongType),
    }
}

/// The same of the children of Attributes.
pub fn read_filter_children(
    alloc: Global,
    children: Children,
    maximum: Option<i32>,
    is_unknown: bool,
) -> Result<Filter, AttrFault>
    ensures { GivesFilter result (filter_in maximum is_unknown (view_trees children.entry)) }
{
    let names = read_names(alloc, children)?;
    let rest = both(judged(children), types(children));
    let (found, _) = rest?;
    let ((object_type, state), (algorithm, length)) = found;
    Ok(Filter {
        names,
        object_type: object_type.0,
        state: state.0,
        algorithm: algorithm.0,
        length: length.0,
        maximum: maximum_of(maximum),
        is_loose: is_loose(children, maximum, is_unknown, found),
    })
}

/// The first filter of a kind, and whether there is a second.
type First<T> = (Option<T>, bool);

/// Object Type and State, algorithm and length.
type Judged = ((First<u32>, First<u32>), (First<u32>, First<i32>));

fn judged(children: Children) -> Result<Judged, AttrFault>
    ensures { result ≡ judged_in (view_trees children.entry) }
{
    both(
        both(
            first_of::<u32>(children, OBJECT_TYPE),
            first_of::<u32>(children, STATE),
        ),
        both(
            first_of::<u32>(children, CRYPTOGRAPHIC_ALGORITHM),
            first_of::<i32>(children, CRYPTOGRAPHIC_LENGTH),
        ),
    )
}

/// Nothing of mask, Initial, Activation, Deactivation, Destroy and Compromise Date but their types.
type Types = (((), ()), (((), ()), ((), ())));

fn types(children: Children) -> Result<Types, AttrFault>
    ensures { result ≡ types_in (view_trees children.entry) }
{
    both(
        both(
            types_of::<i32>(children, CRYPTOGRAPHIC_USAGE_MASK),
            types_of::<i64>(children, INITIAL_DATE),
        ),
        both(
            both(
                types_of::<i64>(children, ACTIVATION_DATE),
                types_of::<i64>(children, DEACTIVATION_DATE),
            ),
            both(
                types_of::<i64>(children, DESTROY_DATE),
                types_of::<i64>(children, COMPROMISE_DATE),
            ),
        ),
    )
}

#[tactic(auto, unfolding(crate::specs::Filters::first_of))]
fn first_of<T: Held>(children: Children, tag: u32) -> Result<First<T>, AttrFault>
    ensures { result ≡ first_of T.how tag (view_trees children.entry) }
{
    match single::<T>(children, tag) {
        Ok(value) => Ok((value, false)),
        Err(AttrFault::Repeated) => Ok((first_value(children, tag), true)),
        Err(fault) => Err(fault),
    }
}

/// The value of the first child with the tag.
fn first_value<T: Held>(children: Children, tag: u32) -> Option<T>
    ensures { result ≡ value_in (at T.how tag (view_trees children.entry)) }
{
    match first(children, tag) {
        Some(child) => T::of(&child),
        None => None,
    }
}

/// The types alone of the children with the tag.
#[tactic(auto, unfolding(crate::specs::Filters::types_of))]
fn types_of<T: Held>(children: Children, tag: u32) -> Result<(), AttrFault>
    ensures { result ≡ types_of T.how tag (view_trees children.entry) }
{
    let _first = first_of::<T>(children, tag)?;
    Ok(())
}

/// Whether not all that is asked is judged.
fn is_loose(children: Children, maximum: Option<i32>, is_unknown: bool, found: Judged) -> bool
    ensures { result ≡ (is_loosened maximum is_unknown (view_trees children.entry) || some_second found) }
{
    is_loosened(children, maximum, is_unknown) || some_second(found)
}

/// Whether there is an unknown item, a Maximum Items below 1 or a filter of another kind.
fn is_loosened(children: Children, maximum: Option<i32>, is_unknown: bool) -> bool
    ensures { result ≡ is_loosened maximum is_unknown (view_trees children.entry) }
{
    is_unknown || is_below_one(maximum) || has_other(children)
}

/// Whether a kind that has one value has a second filter.
fn some_second(found: Judged) -> bool
    ensures { result ≡ some_second found }
{
    let ((object_type, state), (algorithm, length)) = found;
    object_type.1 || state.1 || algorithm.1 || length.1
}

/// Whether there is a filter of a kind that isn't judged.
fn has_other(children: Children) -> bool
    ensures { result ≡ has_other (view_trees children.entry) }
{
    let mut left = children;
    'children: while let Some(child) = left.next() {
        if is_other(child.tag.number) {
            return true;
        }
    }
    false
}

fn is_other(tag: u32) -> bool
    ensures { result ≡ is_other tag }
{
    !is_judged(tag)
}

fn is_judged(tag: u32) -> bool
    ensures { result ≡ is_judged tag }
{
    tag == NAME
        || tag == OBJECT_TYPE
        || tag == STATE
        || tag == CRYPTOGRAPHIC_ALGORITHM
        || tag == CRYPTOGRAPHIC_LENGTH
}

fn is_below_one(maximum: Option<i32>) -> bool
    ensures { result ≡ is_below_one maximum }
{
    maximum.is_some_and(|most| most < 1)
}

/// A Maximum Items below 1 is none.
fn maximum_of(maximum: Option<i32>) -> Option<i32>
    ensures { result ≡ maximum_of maximum }
{
    if is_below_one(maximum) { None } else { maximum }
}
