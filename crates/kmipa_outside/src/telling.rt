//! The demands of a table that fail.

ghost use Rattle.std.specs.Prelude.{◌≡◌, ◌++◌, IfOk, OnOk};
ghost use Rattle.std.specs.Option.{option_to_list};
ghost use Rattle.kmipa_ttlv.specs.ViewTree.{view_trees};
ghost use Rattle.kmipa_outside.specs.Told.{fields_told, told_of, within_of};

use crate::demand::Demand;
use crate::failing::fails_in;
use crate::told::FieldTold;
use kmipa_attrs::fields::inside;
use kmipa_msgs::OutsideKind;
use kmipa_ttlv::Children;
use std::alloc::{AllocError, Global};

/// The demands of this kind that fail, by the children of the message or the item.
pub(crate) fn tell(
    alloc: Global,
    kind: OutsideKind,
    within: Option<u32>,
    children: Children,
    demands: &[Demand],
) -> Result<Vec<FieldTold>, AllocError>
    ensures { IfOk result (λ fields. fields.items ≡ fields_told kind within (view_trees children.entry) demands.now) }
{
    let mut fields = Vec::new(alloc);
    for demand in demands {
        note(&mut fields, told_of(kind, within, children, *demand))?;
    }
    Ok(fields)
}

/// What is told of a demand, where it is of this kind and fails.
fn told_of(
    kind: OutsideKind,
    within: Option<u32>,
    children: Children,
    demand: Demand,
) -> Option<FieldTold>
    ensures { result ≡ told_of kind within (view_trees children.entry) demand }
{
    if demand.kind.number() != kind.number() {
        return None;
    }
    let stands = fails_in(demand, within_of(within, children))?;
    Some(FieldTold {
        within,
        demand,
        stands,
    })
}

/// The children of the header or of the payload with a tag, or those given.
pub(crate) fn within_of<'a>(within: Option<u32>, children: Children<'a>) -> Children<'a>
    ensures { view_trees result ≡ within_of within (view_trees children.entry) }
{
    match within {
        Some(tag) => inside(children, tag),
        None => children,
    }
}

/// Notes what is told, if something is.
fn note(fields: &mut Vec<FieldTold>, field: Option<FieldTold>) -> Result<(), AllocError>
    ensures { OnOk result (fields.new.items ≡ fields.old.items ++ option_to_list field) }
{
    if let Some(field) = field {
        fields.push(field)?;
    }
    Ok(())
}

/// What is told of two tables, one behind the other.
pub(crate) fn both_told(
    front: Vec<FieldTold>,
    back: Vec<FieldTold>,
) -> Result<Vec<FieldTold>, AllocError>
    ensures { IfOk result (λ fields. fields.items ≡ front.items ++ back.items) }
{
    let mut fields = front;
    fields.extend_from_slice(&back)?;
    Ok(fields)
}
