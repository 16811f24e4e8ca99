//! The attributes that the answer of a Get Attributes must show.

ghost use Rattle.std.specs.Prelude.{◌≡◌, ◌==◌, ℕ, IfOk};
ghost use Rattle.std.specs.List.{list_any};
ghost use Rattle.kmipa_attrs.specs.Sets.{attributes_of};
ghost use Rattle.kmipa_object.specs.Inventory.{card_of};
ghost use Rattle.kmipa_object.specs.Life.{dates_of};
ghost use Rattle.kmipa_msgs.specs.Messages.{get_attributes_of};
ghost use Rattle.kmipa_ops.specs.GetAttributes.{asks_for, lacks_asked, lacks_date, lacks_name, lacks_required, lacks_value, leaves_out};

use crate::judged::Judged;
use crate::names::finds_stranger;
use crate::objects::is_live;
use kmipa_attrs::AttrSet;
use kmipa_msgs::GetAttributes;
use kmipa_object::{Life, Object};
use std::alloc::{AllocError, Global};

/// Whether an attribute isn't shown that is required.
pub(crate) fn lacks_required(
    alloc: Global,
    asked: &GetAttributes,
    object: &Object,
    shown: &AttrSet,
) -> Result<bool, AllocError>
    ensures { IfOk result
        (λ lacks. lacks ≡ lacks_required (get_attributes_of asked.now) (card_of object.now) (attributes_of shown.now)) }
{
    if !is_live(object) || asked.has_others {
        return Ok(false);
    }
    lacks_asked(alloc, asked, object, shown)
}

fn lacks_asked(
    alloc: Global,
    asked: &GetAttributes,
    object: &Object,
    shown: &AttrSet,
) -> Result<bool, AllocError>
    ensures { IfOk result
        (λ lacks. lacks ≡ lacks_asked (get_attributes_of asked.now) (card_of object.now) (attributes_of shown.now)) }
{
    let is_unnamed = lacks_name(alloc, asked, object, shown)?;
    Ok(is_unnamed || lacks_value(asked, object, shown) || lacks_date(asked, &object.life, shown))
}

fn lacks_name(
    alloc: Global,
    asked: &GetAttributes,
    object: &Object,
    shown: &AttrSet,
) -> Result<bool, AllocError>
    ensures { IfOk result
        (λ lacks. lacks ≡ lacks_name (get_attributes_of asked.now) (card_of object.now) (attributes_of shown.now)) }
{
    if !asks_for(asked, Judged::Name) {
        return Ok(false);
    }
    finds_stranger(alloc, shown.names.as_slice(), object.given.names.as_slice())
}

fn lacks_value(asked: &GetAttributes, object: &Object, shown: &AttrSet) -> bool
    ensures { result ≡ lacks_value (get_attributes_of asked.now) (card_of object.now) (attributes_of shown.now) }
{
    let given = &object.given;
    leaves_out(asked, Judged::ObjectType, true, shown.object_type.is_some())
        || leaves_out(asked, Judged::State, true, shown.state.is_some())
        || leaves_out(
            asked,
            Judged::CryptographicAlgorithm,
            given.algorithm.is_some(),
            shown.algorithm.is_some(),
        )
        || leaves_out(
            asked,
            Judged::CryptographicLength,
            given.length.is_some(),
            shown.length.is_some(),
        )
        || leaves_out(
            asked,
            Judged::CryptographicUsageMask,
            given.mask.is_some(),
            shown.mask.is_some(),
        )
}

fn lacks_date(asked: &GetAttributes, life: &Life, shown: &AttrSet) -> bool
    ensures { result ≡ lacks_date (get_attributes_of asked.now) (dates_of life.now) (attributes_of shown.now) }
{
    leaves_out(
        asked,
        Judged::InitialDate,
        life.initial.is_some(),
        shown.initial.is_some(),
    ) || leaves_out(
        asked,
        Judged::ActivationDate,
        life.activation.is_some(),
        shown.activation.is_some(),
    ) || leaves_out(
        asked,
        Judged::DeactivationDate,
        life.deactivation.is_some(),
        shown.deactivation.is_some(),
    ) || leaves_out(
        asked,
        Judged::DestroyDate,
        life.destroy.is_some(),
        shown.destroy.is_some(),
    ) || leaves_out(
        asked,
        Judged::CompromiseDate,
        life.compromise.is_some(),
        shown.compromise.is_some(),
    )
}

/// Whether an attribute is asked for and isn't shown, though the object has it.
fn leaves_out(asked: &GetAttributes, attribute: Judged, is_own: bool, is_shown: bool) -> bool
    ensures { result ≡ leaves_out (get_attributes_of asked.now) attribute is_own is_shown }
{
    asks_for(asked, attribute) && is_own && !is_shown
}

fn asks_for(asked: &GetAttributes, attribute: Judged) -> bool
    ensures { result ≡ asks_for (get_attributes_of asked.now) attribute }
{
    !asked.is_selective || has_tag(asked.references.as_slice(), attribute.tag())
}

fn has_tag(references: &[u32], tag: u32) -> bool
    ensures { result ≡ list_any (λ (reference : ℕ). reference == tag) references.now }
{
    references.iter().any(|reference| *reference == tag)
}
