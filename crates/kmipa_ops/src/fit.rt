//! Which objects fit a Locate's filter.

ghost use Rattle.std.specs.Prelude.{◌≡◌};
ghost use Rattle.kmipa_attrs.specs.Filters.{filter_of};
ghost use Rattle.kmipa_object.specs.Inventory.{card_of};
ghost use Rattle.kmipa_ops.specs.GetAttributes.{has_stranger};
ghost use Rattle.kmipa_ops.specs.Locate.{IsFit, is_doubtful, says_no};

use crate::echo::{clash_lengths, clash_numbers, is_other_number};
use crate::names::has_stranger;
use crate::objects::is_live;
use kmipa_attrs::Filter;
use kmipa_object::{Object, State};

/// How an object fits a filter.
#[derive(Clone, Copy, PartialEq, Eq)]
pub enum Fit {
    /// It is to be listed, unless as many as the maximum are.
    Must,
    /// It may be listed.
    May,
    /// It can't be listed.
    Not,
}

/// How an object in this state fits a filter. It takes no memory.
pub fn matches(object: &Object, filter: &Filter, state: State) -> Fit
    ensures { IsFit (filter_of filter.now) state (card_of object.now) result }
{
    let lacks_name = has_stranger(object.given.names.as_slice(), filter.names.as_slice());
    fit_of(object, filter, state, lacks_name)
}

/// The same, where it is known whether the object lacks a name that is asked for.
pub(crate) fn fit_of(object: &Object, filter: &Filter, state: State, lacks_name: bool) -> Fit
    requires { lacks_name ≡ has_stranger (card_of object.now).given.names (filter_of filter.now).names }
    ensures { IsFit (filter_of filter.now) state (card_of object.now) result }
{
    if says_no(object, filter, state, lacks_name) {
        return Fit::Not;
    }
    if is_doubtful(object, filter) {
        return Fit::May;
    }
    Fit::Must
}

/// Whether a judged filter says no.
fn says_no(object: &Object, filter: &Filter, state: State, lacks_name: bool) -> bool
    requires { lacks_name ≡ has_stranger (card_of object.now).given.names (filter_of filter.now).names }
    ensures { result ≡ says_no (filter_of filter.now) state (card_of object.now) }
{
    lacks_name
        || is_other_number(filter.object_type, object.kind.number())
        || is_other_number(filter.state, state.number())
        || clash_numbers(filter.algorithm, object.given.algorithm)
        || clash_lengths(filter.length, object.given.length)
}

/// Whether an object that may be listed may be left out.
fn is_doubtful(object: &Object, filter: &Filter) -> bool
    ensures { result ≡ is_doubtful (filter_of filter.now) (card_of object.now) }
{
    !is_live(object)
        || filter.is_loose
        || filter.algorithm.is_some() && object.given.algorithm.is_none()
        || filter.length.is_some() && object.given.length.is_none()
}
