//! Of `AttributeMissing`: the attributes that the answer of a Get Attributes must show, and doesn't.

ghost use Rattle.std.specs.Prelude.{◌≡◌, ◌==◌, ℕ, IfOk, filter, map, option_and_then, option_map};
ghost use Rattle.std.specs.List.{list_any};
ghost use Rattle.kmipa_attrs.specs.Sets.{attributes_of, name_of};
ghost use Rattle.kmipa_msgs.specs.Messages.{answer_of, ask_of, get_attributes_of, got_attributes_of, payload_of};
ghost use Rattle.kmipa_record.specs.Declarations.{declaration_of};
ghost use Rattle.kmipa_ops.specs.GetAttributes.{asks_for, seen_attributes};
ghost use Rattle.kmipa_explain.specs.Holding.{object_held};
ghost use Rattle.kmipa_explain.specs.Meant.{text_of};
ghost use Rattle.kmipa_explain.specs.ValueReasons.{LacksRequired};
ghost use Rattle.kmipa_explain.specs.Values.{AreAllMissing, TellsMissing, attributes_asked, is_missing, missing_names, value_told};

use crate::explanation::Cause;
use crate::held::{AttributesHeld, ValueHeld};
use crate::holding::object_held;
use crate::strangers::strangers;
use crate::values::{SINGLE, attributes_at, value_in, value_told};
use kmipa_attrs::{AttrSet, Name};
use kmipa_msgs::{Answer, Ask, GetAttributes, GotAttributes, Payload};
use kmipa_ops::{Effect, Judged, attributes_are_decided, row_of};
use kmipa_record::Declaration;
use std::alloc::{AllocError, Global};

/// The attributes that are asked for, that the object that is meant has, and that aren't shown.
pub(crate) fn missing_cause(
    alloc: Global,
    held: &Declaration,
    meant: &Option<String>,
    t: i64,
    ask: &Ask,
    answer: &Answer,
) -> Result<Cause, AllocError>
    requires { LacksRequired (object_held (declaration_of held.now) (text_of meant.now)) (ask_of ask.now).asked
        (answer_of answer.now).payload }
    ensures { IfOk result (TellsMissing (object_held (declaration_of held.now) (text_of meant.now)) t
        (ask_of ask.now).asked (answer_of answer.now).payload) }
{
    let Some(entry) = object_held(held, meant) else {
        return Ok(Cause::Object);
    };
    let Some(asked) = attributes_asked(ask) else {
        return Ok(Cause::Object);
    };
    let Some(got) = attributes_got(&answer.payload) else {
        return Ok(Cause::Object);
    };
    attributes_are_decided();
    let own = attributes_at(alloc, entry, t)?;
    Ok(Cause::Missing(all_missing(alloc, asked, &got.attributes, &own)?))
}

/// What a Get Attributes asks for.
fn attributes_asked<'b>(ask: &'b Ask<'b>) -> Option<&'b GetAttributes<'b>>
    ensures { option_map (λ asked. get_attributes_of asked.now) result ≡ attributes_asked (ask_of ask.now).asked }
{
    match row_of(&ask.asked).effect {
        Effect::ShowsAttributes(asked) => Some(asked),
        _ => None,
    }
}

/// What a payload shows, if it is one of a Get Attributes.
fn attributes_got<'c, 'a>(payload: &'c Option<Payload<'a>>) -> Option<&'c GotAttributes<'a>>
    ensures { option_map (λ got. got_attributes_of got.now) result
        ≡ option_and_then seen_attributes (option_map payload_of payload.now) }
{
    match payload {
        Some(Payload::GetAttributes(got)) => Some(got),
        _ => None,
    }
}

/// All that are missing, of an object with these attributes.
fn all_missing(
    alloc: Global,
    asked: &GetAttributes,
    shown: &AttrSet,
    own: &AttrSet,
) -> Result<AttributesHeld, AllocError>
    ensures { IfOk result (AreAllMissing (get_attributes_of asked.now) (attributes_of shown.now)
        (attributes_of own.now)) }
{
    Ok(AttributesHeld {
        names: missing_names(alloc, asked, shown, own)?,
        values: missing_among(alloc, &SINGLE, asked, shown, own)?,
    })
}

/// The names that are missing.
fn missing_names(
    alloc: Global,
    asked: &GetAttributes,
    shown: &AttrSet,
    own: &AttrSet,
) -> Result<Vec<Name>, AllocError>
    ensures { IfOk result (λ names. map name_of names.items
        ≡ missing_names (get_attributes_of asked.now) (attributes_of shown.now) (attributes_of own.now)) }
{
    if !asks_for(asked, Judged::Name) {
        return Ok(Vec::new(alloc));
    }
    strangers(alloc, shown.names.as_slice(), own.names.as_slice())
}

/// Those of these attributes that are missing.
fn missing_among(
    alloc: Global,
    attributes: &[Judged],
    asked: &GetAttributes,
    shown: &AttrSet,
    own: &AttrSet,
) -> Result<Vec<ValueHeld>, AllocError>
    ensures { IfOk result (λ values. values.items
        ≡ map (value_told (attributes_of shown.now) (attributes_of own.now))
        (filter (is_missing (get_attributes_of asked.now) (attributes_of shown.now) (attributes_of own.now))
        attributes.now)) }
{
    attributes
        .iter()
        .copied()
        .filter(|attribute| is_missing(asked, shown, own, *attribute))
        .map(|attribute| value_told(shown, own, attribute))
        .collect(alloc)
}

/// Whether an attribute is asked for, the object has it, and it isn't shown.
fn is_missing(asked: &GetAttributes, shown: &AttrSet, own: &AttrSet, attribute: Judged) -> bool
    ensures { result ≡ is_missing (get_attributes_of asked.now) (attributes_of shown.now) (attributes_of own.now)
        attribute }
{
    asks_for(asked, attribute)
        && value_in(own, attribute).is_some()
        && value_in(shown, attribute).is_none()
}

/// Whether an attribute is asked for.
fn asks_for(asked: &GetAttributes, attribute: Judged) -> bool
    ensures { result ≡ asks_for (get_attributes_of asked.now) attribute }
{
    !asked.is_selective || has_tag(asked.references.as_slice(), attribute as u32)
}

fn has_tag(references: &[u32], tag: u32) -> bool
    ensures { result ≡ list_any (λ (reference : ℕ). reference == tag) references.now }
{
    references.iter().any(|reference| *reference == tag)
}
