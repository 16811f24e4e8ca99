//! Of `AttributeDiffers`: the attributes that an answer shows otherwise than the object has them.

ghost use Rattle.std.specs.Prelude.{◌≡◌, ◌++◌, IfOk, filter, map, option_map};
ghost use Rattle.kmipa_attrs.specs.ObjectTypes.{type_number};
ghost use Rattle.kmipa_attrs.specs.Sets.{attributes_of};
ghost use Rattle.kmipa_msgs.specs.Messages.{answer_of, got_of, payload_of};
ghost use Rattle.kmipa_record.specs.Declarations.{declaration_of};
ghost use Rattle.kmipa_explain.specs.Holding.{object_held};
ghost use Rattle.kmipa_explain.specs.Meant.{text_of};
ghost use Rattle.kmipa_explain.specs.ValueReasons.{ShowsForeign};
ghost use Rattle.kmipa_explain.specs.Values.{AreAllDiffering, TellsDiffering, fields_shown, is_apart, is_differing, may_be_unknown, shape_shown, value_told, values_apart};

use crate::explanation::Cause;
use crate::held::{AttributesHeld, ValueHeld};
use crate::holding::object_held;
use crate::strangers::strangers;
use crate::values::{SINGLE, attributes_at, value_in, value_told};
use kmipa_attrs::{AttrSet, ObjectType};
use kmipa_msgs::{Answer, Got, Payload};
use kmipa_ops::{Judged, attributes_are_decided};
use kmipa_record::Declaration;
use std::alloc::{AllocError, Global};

/// The attributes that are shown of the object that is meant otherwise than it has them.
pub(crate) fn differing_cause(
    alloc: Global,
    held: &Declaration,
    meant: &Option<String>,
    t: i64,
    answer: &Answer,
) -> Result<Cause, AllocError>
    requires { ShowsForeign (object_held (declaration_of held.now) (text_of meant.now)) t
        (answer_of answer.now).payload }
    ensures { IfOk result (TellsDiffering (object_held (declaration_of held.now) (text_of meant.now)) t
        (answer_of answer.now).payload) }
{
    let Some(entry) = object_held(held, meant) else {
        return Ok(Cause::Object);
    };
    let Some(shown) = &answer.payload else {
        return Ok(Cause::Object);
    };
    attributes_are_decided();
    let own = attributes_at(alloc, entry, t)?;
    Ok(Cause::Differing(all_differing(alloc, shown, &own)?))
}

/// All that a payload shows otherwise than an object with these attributes has it.
fn all_differing(
    alloc: Global,
    shown: &Payload,
    own: &AttrSet,
) -> Result<AttributesHeld, AllocError>
    ensures { IfOk result (AreAllDiffering (payload_of shown.now) (attributes_of own.now)) }
{
    match shown {
        Payload::Get(got) => Ok(AttributesHeld {
            names: Vec::new(alloc),
            values: differing_in_key(alloc, got, own)?,
        }),
        Payload::GetAttributes(got) => Ok(AttributesHeld {
            names: strangers(alloc, own.names.as_slice(), got.attributes.names.as_slice())?,
            values: values_apart(alloc, &got.attributes, own)?,
        }),
        _ => Ok(AttributesHeld {
            names: Vec::new(alloc),
            values: Vec::new(alloc),
        }),
    }
}

/// What a Get shows beside the bytes otherwise than the object has it.
fn differing_in_key(alloc: Global, got: &Got, own: &AttrSet) -> Result<Vec<ValueHeld>, AllocError>
    ensures { IfOk result (λ values. values.items
        ≡ values_apart (fields_shown (got_of got.now)) (attributes_of own.now)
        ++ values_apart (shape_shown (got_of got.now)) (attributes_of own.now)) }
{
    let mut values = values_apart(alloc, &fields_shown(alloc, got), own)?;
    let shape = values_apart(alloc, &shape_shown(alloc, got), own)?;
    values.extend_from_slice(shape.as_slice())?;
    Ok(values)
}

/// The type that a Get names, and the algorithm and the length of its block.
fn fields_shown(alloc: Global, got: &Got) -> AttrSet
    ensures { attributes_of result ≡ fields_shown (got_of got.now) }
{
    let mut shown = AttrSet::new(alloc);
    shown.object_type = number_of(got.object_type);
    shown.algorithm = got.block.algorithm;
    shown.length = got.block.length;
    shown
}

/// The type of the object that a Get shows.
fn shape_shown(alloc: Global, got: &Got) -> AttrSet
    ensures { attributes_of result ≡ shape_shown (got_of got.now) }
{
    let mut shown = AttrSet::new(alloc);
    shown.object_type = Some(got.shape.number());
    shown
}

/// Object Type, by its number.
fn number_of(object_type: Option<ObjectType>) -> Option<u32>
    ensures { result ≡ option_map type_number object_type }
{
    match object_type {
        Some(object_type) => Some(object_type.number()),
        None => None,
    }
}

/// The attributes with one value each that are shown otherwise than the object has them.
fn values_apart(alloc: Global, shown: &AttrSet, own: &AttrSet) -> Result<Vec<ValueHeld>, AllocError>
    ensures { IfOk result (λ values. values.items ≡ values_apart (attributes_of shown.now) (attributes_of own.now)) }
{
    apart_among(alloc, &SINGLE, shown, own)
}

/// Those of these attributes.
fn apart_among(
    alloc: Global,
    attributes: &[Judged],
    shown: &AttrSet,
    own: &AttrSet,
) -> Result<Vec<ValueHeld>, AllocError>
    ensures { IfOk result (λ values. values.items
        ≡ map (value_told (attributes_of shown.now) (attributes_of own.now))
        (filter (is_differing (attributes_of shown.now) (attributes_of own.now)) attributes.now)) }
{
    attributes
        .iter()
        .copied()
        .filter(|attribute| is_differing(shown, own, *attribute))
        .map(|attribute| value_told(shown, own, attribute))
        .collect(alloc)
}

/// Whether an attribute is shown otherwise than the object has it.
fn is_differing(shown: &AttrSet, own: &AttrSet, attribute: Judged) -> bool
    ensures { result ≡ is_differing (attributes_of shown.now) (attributes_of own.now) attribute }
{
    is_apart(
        may_be_unknown(attribute),
        value_in(shown, attribute),
        value_in(own, attribute),
    )
}

/// Whether a value is shown that isn't the object's; where the object has none, that one may be unknown.
fn is_apart(is_unknown: bool, shown: Option<i64>, own: Option<i64>) -> bool
    ensures { result ≡ is_apart is_unknown shown own }
{
    match (shown, own) {
        (None, _) => false,
        (Some(_), None) => !is_unknown,
        (Some(value), Some(own)) => value != own,
    }
}

/// Whether an attribute isn't judged that the object doesn't have.
fn may_be_unknown(attribute: Judged) -> bool
    ensures { result ≡ may_be_unknown attribute }
{
    match attribute {
        Judged::CryptographicAlgorithm => true,
        Judged::CryptographicLength => true,
        Judged::CryptographicUsageMask => true,
        Judged::InitialDate => true,
        _ => false,
    }
}
