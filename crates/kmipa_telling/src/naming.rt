//! How numbers, names and attributes are told on a line: as the standard names them.

ghost use Rattle.std.specs.Prelude.{◌≡◌, IfOk, option_map, pos, string_bytes};
ghost use Rattle.kmipa_ops.specs.GetAttributes.{judged_tag};
ghost use Rattle.kmipa_telling.specs.Naming.{attribute_name, is_moment, name_text, number_text, object_type_text, type_text, value_name};

use kmipa_attrs::{Name, tags};
use kmipa_ops::Judged;
use kmipa_runs::{name_type_name, number_name, object_type_name, quoted_text};
use kmipa_ttlv::Tag;
use std::alloc::{AllocError, Global};

/// The Name Type that goes without saying: Uninterpreted Text String.
const TEXT: u32 = 1;

/// A number, and behind it the name that it has.
pub fn number_text(alloc: Global, number: i64, name: Option<&str>) -> Result<String, AllocError>
    ensures { IfOk result (λ text. string_bytes text ≡ number_text number (option_map (λ word. word.now) name.entry)) }
{
    match name {
        Some(word) => format!(in alloc; "{number} {word}"),
        None => number.to_string(alloc),
    }
}

/// An Object Type by its number, and its name.
pub fn object_type_text(alloc: Global, number: u32) -> Result<String, AllocError>
    ensures { IfOk result (λ text. string_bytes text ≡ object_type_text number) }
{
    number_text(alloc, i64::from(number), object_type_name(number))
}

/// A name of an object between quotes, and its type, where that isn't plain text.
pub fn name_text(alloc: Global, name: &Name) -> Result<String, AllocError>
    ensures { IfOk result (λ text. string_bytes text ≡ name_text name.now) }
{
    let value = quoted_text(alloc, name.value.as_str())?;
    let kind = type_text(alloc, name.kind)?;
    format!(in alloc; "{value}{kind}")
}

fn type_text(alloc: Global, kind: u32) -> Result<String, AllocError>
    ensures { IfOk result (λ text. string_bytes text ≡ type_text kind) }
{
    if kind == TEXT {
        return Ok(String::new(alloc));
    }
    let named = number_text(alloc, i64::from(kind), name_type_name(kind))?;
    format!(in alloc; " of type {named}")
}

/// The name of an attribute.
pub fn attribute_name(attribute: Judged) -> &'static str
    ensures { result.now ≡ attribute_name attribute }
{
    tags::tag_name(attribute_tag(attribute))
}

fn attribute_tag(attribute: Judged) -> Tag
    ensures { result.number ≡ judged_tag attribute }
{
    Tag {
        number: attribute as u32,
    }
}

/// The name of a value of an attribute, where the standard names it.
pub fn value_name(attribute: Judged, value: i64) -> Option<&'static str>
    ensures { option_map (λ name. name.now) result ≡ value_name attribute value }
{
    match u32::try_from(value) {
        Ok(number) => number_name(attribute_tag(attribute), number),
        Err(_) => None,
    }
}

/// Whether the values of an attribute are moments.
pub fn is_moment(attribute: Judged) -> bool
    ensures { result ≡ is_moment attribute }
{
    match attribute {
        Judged::ActivationDate
        | Judged::CompromiseDate
        | Judged::DeactivationDate
        | Judged::DestroyDate
        | Judged::InitialDate => true,
        _ => false,
    }
}
