//! Attributes that have one value.

ghost use Rattle.std.specs.Prelude.{◌≡◌};
ghost use Rattle.std.specs.Option.{option_map};
ghost use Rattle.kmipa_ttlv.specs.ViewTree.{view_tree, view_trees};
ghost use Rattle.kmipa_attrs.specs.Attributes.{single_step, single, server_only, server_single};

use crate::fault::AttrFault;
use crate::held::Held;
use crate::side::Side;
use kmipa_ttlv::{Children, View};

/// The value of an attribute that is there at most once.
pub(crate) fn single<T: Held>(children: Children, tag: u32) -> Result<Option<T>, AttrFault>
    ensures { result ≡ single T.how tag (view_trees children.entry) }
{
    let mut found = Ok(None);
    let mut left = children;
    'children: while let Some(child) = left.next_of(tag) {
        found = step(found, T::of(&child));
    }
    found
}

fn step<T: Copy>(
    found: Result<Option<T>, AttrFault>,
    value: Option<T>,
) -> Result<Option<T>, AttrFault>
    ensures { result ≡ single_step found value }
{
    let Some(x) = value else {
        return Err(AttrFault::WrongType);
    };
    match found {
        Ok(None) => Ok(Some(x)),
        Ok(Some(_)) => Err(AttrFault::Repeated),
        Err(fault) => Err(fault),
    }
}

/// The value of such an attribute that no client may give; any other fault is lower than that a client gave it.
#[inline(always)]
pub(crate) fn server_single<T: Held>(
    children: Children,
    tag: u32,
    side: Side,
) -> Result<Option<T>, AttrFault>
    ensures { result ≡ server_single T.how tag side (view_trees children.entry) }
{
    let value = single::<T>(children, tag)?;
    match (side, value) {
        (Side::Server, value) => Ok(value),
        (Side::Client, None) => Ok(None),
        (Side::Client, Some(_)) => Err(AttrFault::NotForClients),
    }
}

/// Whether a child may be there.
pub(crate) fn server_only(side: Side, there: Option<View>) -> Result<(), AttrFault>
    ensures { result ≡ server_only side (option_map view_tree there.entry) }
{
    match (side, there) {
        (Side::Client, Some(_)) => Err(AttrFault::NotForClients),
        _ => Ok(()),
    }
}
