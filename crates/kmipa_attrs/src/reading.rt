//! Sets of attributes from items.

ghost use Rattle.std.specs.Prelude.{◌≡◌};
ghost use Rattle.kmipa_ttlv.specs.ViewTree.{view_tree, view_trees};
ghost use Rattle.kmipa_attrs.specs.Attributes.{GivesAttributes, ReadsSet, attr_number, description_in, stages_in, ends_in, attributes_in, is_of_life, tells_of_life};
ghost use Rattle.kmipa_attrs.specs.Readings.{both};

use crate::attr_set::AttrSet;
use crate::fault::AttrFault;
use crate::fields::{as_structure, first};
use crate::names::read_names;
use crate::readings::both;
use crate::side::Side;
use crate::single::{server_only, server_single, single};
use crate::tags::{
    ACTIVATION_DATE, COMPROMISE_DATE, CRYPTOGRAPHIC_ALGORITHM, CRYPTOGRAPHIC_LENGTH,
    CRYPTOGRAPHIC_USAGE_MASK, DEACTIVATION_DATE, DESTROY_DATE, INITIAL_DATE, OBJECT_TYPE, STATE,
    UNIQUE_IDENTIFIER,
};
use kmipa_ttlv::{Children, View};
use std::alloc::Global;

/// The set that an Attributes item says, else its lowest fault. Attributes that aren't judged are read over.
pub fn read_attrs(alloc: Global, item: &View, side: Side) -> Result<AttrSet, AttrFault>
    ensures { ReadsSet side (view_tree item.now) result }
{
    match as_structure(item) {
        Some(children) => read_children(alloc, children, side),
        None => Err(AttrFault::WrongType),
    }
}

/// The set that the children of an Attributes item say, else their lowest fault.
pub fn read_children(alloc: Global, children: Children, side: Side) -> Result<AttrSet, AttrFault>
    ensures { GivesAttributes result (attributes_in side (view_trees children.entry)) }
{
    let names = read_names(alloc, children)?;
    let rest = both(description(children), life(children, side));
    let (
        ((object_type, algorithm), (length, mask)),
        (((state, initial), (activation, deactivation)), ((destroy, compromise), ())),
    ) = rest?;
    Ok(AttrSet {
        names,
        object_type,
        algorithm,
        length,
        mask,
        state,
        initial,
        activation,
        deactivation,
        destroy,
        compromise,
    })
}

/// Object Type and algorithm, length and mask.
type Description = ((Option<u32>, Option<u32>), (Option<i32>, Option<i32>));

fn description(children: Children) -> Result<Description, AttrFault>
    ensures { result ≡ description_in (view_trees children.entry) }
{
    both(
        both(
            single::<u32>(children, OBJECT_TYPE),
            single::<u32>(children, CRYPTOGRAPHIC_ALGORITHM),
        ),
        both(
            single::<i32>(children, CRYPTOGRAPHIC_LENGTH),
            single::<i32>(children, CRYPTOGRAPHIC_USAGE_MASK),
        ),
    )
}

/// What tells of the object's life. Most descriptions tell nothing of it, which one look at the tags shows.
fn life(children: Children, side: Side) -> Result<(Stages, Ends), AttrFault>
    ensures { result ≡ both attr_number (stages_in side (view_trees children.entry))
        (ends_in side (view_trees children.entry)) }
{
    if !tells_of_life(children) {
        return Ok((((None, None), (None, None)), ((None, None), ())));
    }
    both(stages(children, side), ends(children, side))
}

fn tells_of_life(children: Children) -> bool
    ensures { result ≡ tells_of_life (view_trees children.entry) }
{
    let mut left = children;
    'children: while let Some(child) = left.next() {
        if is_of_life(child.tag.number) {
            return true;
        }
    }
    false
}

fn is_of_life(tag: u32) -> bool
    ensures { result ≡ is_of_life tag }
{
    tag == STATE
        || tag == INITIAL_DATE
        || tag == ACTIVATION_DATE
        || tag == DEACTIVATION_DATE
        || tag == DESTROY_DATE
        || tag == COMPROMISE_DATE
        || tag == UNIQUE_IDENTIFIER
}

/// State and Initial Date, Activation and Deactivation Date.
type Stages = ((Option<u32>, Option<i64>), (Option<i64>, Option<i64>));

fn stages(children: Children, side: Side) -> Result<Stages, AttrFault>
    ensures { result ≡ stages_in side (view_trees children.entry) }
{
    both(
        both(
            server_single::<u32>(children, STATE, side),
            server_single::<i64>(children, INITIAL_DATE, side),
        ),
        both(
            single::<i64>(children, ACTIVATION_DATE),
            single::<i64>(children, DEACTIVATION_DATE),
        ),
    )
}

/// Destroy and Compromise Date, beside a Unique Identifier that no client may give.
type Ends = ((Option<i64>, Option<i64>), ());

fn ends(children: Children, side: Side) -> Result<Ends, AttrFault>
    ensures { result ≡ ends_in side (view_trees children.entry) }
{
    both(
        both(
            server_single::<i64>(children, DESTROY_DATE, side),
            server_single::<i64>(children, COMPROMISE_DATE, side),
        ),
        server_only(side, first(children, UNIQUE_IDENTIFIER)),
    )
}
