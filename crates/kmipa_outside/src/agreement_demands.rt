//! Fields of a Request Payload that are to say the same.

ghost use Rattle.std.specs.Prelude.{◌≡◌, ◌++◌, IfOk, OnOk, option_map, option_to_list};
ghost use Rattle.kmipa_ttlv.specs.ViewTree.{view_tree, view_trees};
ghost use Rattle.kmipa_attrs.specs.ObjectTypes.{type_number};
ghost use Rattle.kmipa_msgs.specs.Objects.{shape_of};
ghost use Rattle.kmipa_outside.specs.AgreementDemands.{agreement_demands, algorithm_demand, length_demand, object_demand, object_wanted, type_demand};
ghost use Rattle.kmipa_outside.specs.Demands.{wants};

use crate::demand::{Beside, Demand, Inside, Step, Wanted, wants};
use crate::finding::{block_inside, object};
use kmipa_attrs::ObjectType;
use kmipa_attrs::fields::{enumeration_at, integer_at};
use kmipa_attrs::tags::{
    CRYPTOGRAPHIC_ALGORITHM, CRYPTOGRAPHIC_LENGTH, OBJECT_TYPE, SYMMETRIC_KEY,
};
use kmipa_msgs::{Operation, OutsideKind};
use kmipa_ttlv::{Children, View};
use std::alloc::{AllocError, Global};

/// What a Request Payload of an operation with these children says twice.
pub(crate) fn agreement_demands(
    alloc: Global,
    operation: Operation,
    payload: Children,
) -> Result<Vec<Demand>, AllocError>
    ensures { IfOk result (λ demands. demands.items ≡ agreement_demands operation (view_trees payload.entry)) }
{
    let mut demands = Vec::new(alloc);
    match operation {
        Operation::Create => add(&mut demands, type_demand(payload))?,
        Operation::Register => {
            add(&mut demands, object_demand(payload))?;
            add(&mut demands, type_demand(payload))?;
            add(&mut demands, algorithm_demand(payload))?;
            add(&mut demands, length_demand(payload))?;
        }
        _ => {}
    }
    Ok(demands)
}

/// Puts a demand behind others, where there is one.
fn add(demands: &mut Vec<Demand>, demand: Option<Demand>) -> Result<(), AllocError>
    ensures { OnOk result (demands.new.items ≡ demands.old.items ++ option_to_list demand) }
{
    if let Some(demand) = demand {
        demands.push(demand)?;
    }
    Ok(())
}

/// That the payload's Object Type is that of its object.
fn object_demand(payload: Children) -> Option<Demand>
    ensures { result ≡ object_demand (view_trees payload.entry) }
{
    let view = object(payload)?;
    Some(object_wanted(&view))
}

fn object_wanted(object: &View) -> Demand
    ensures { result ≡ object_wanted (view_tree object.now) }
{
    agreeing(
        Inside::Here,
        OBJECT_TYPE,
        Wanted::Same(shape_number(object.tag.number), Beside::Object),
    )
}

/// The number of the Object Type that the tag of an object tells.
fn shape_number(tag: u32) -> u32
    ensures { result ≡ type_number (shape_of tag) }
{
    if tag == SYMMETRIC_KEY {
        ObjectType::SymmetricKey.number()
    } else {
        ObjectType::SecretData.number()
    }
}

/// That an Object Type among the Attributes is that of the payload.
fn type_demand(payload: Children) -> Option<Demand>
    ensures { result ≡ type_demand (view_trees payload.entry) }
{
    let number = enumeration_at(payload, OBJECT_TYPE).value()?;
    Some(agreeing(
        Inside::Attributes,
        OBJECT_TYPE,
        Wanted::Same(number, Beside::Payload),
    ))
}

/// That an algorithm among the Attributes is that of the Key Block.
fn algorithm_demand(payload: Children) -> Option<Demand>
    ensures { result ≡ algorithm_demand (view_trees payload.entry) }
{
    let number = enumeration_at(block_inside(payload), CRYPTOGRAPHIC_ALGORITHM).value()?;
    Some(agreeing(
        Inside::Attributes,
        CRYPTOGRAPHIC_ALGORITHM,
        Wanted::Same(number, Beside::Block),
    ))
}

/// That a length among the Attributes is that of the Key Block.
fn length_demand(payload: Children) -> Option<Demand>
    ensures { result ≡ length_demand (view_trees payload.entry) }
{
    let length = integer_at(block_inside(payload), CRYPTOGRAPHIC_LENGTH).value()?;
    Some(agreeing(
        Inside::Attributes,
        CRYPTOGRAPHIC_LENGTH,
        Wanted::SameInteger(length, Beside::Block),
    ))
}

/// A demand of `Disagree`.
fn agreeing(inside: Inside, tag: u32, wanted: Wanted) -> Demand
    ensures { result ≡ wants inside (Step.Tag tag) wanted OutsideKind.Disagree }
{
    wants(inside, Step::Tag(tag), wanted, OutsideKind::Disagree)
}
