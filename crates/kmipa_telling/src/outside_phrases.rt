//! How a field that isn't as wanted is told.

ghost use Rattle.std.specs.Prelude.{◌≡◌, IfOk, option_map, pos, string_bytes};
ghost use Rattle.kmipa_telling.specs.Naming.{number_text};
ghost use Rattle.kmipa_telling.specs.OutsidePhrases.{beside_text, field_text, inside_text, name_at, numbers_text, stands_text, step_text, tag_text, type_text, wanted_text, within_text};

use crate::naming::number_text;
use kmipa_attrs::tag_name;
use kmipa_outside::{Beside, FieldTold, Inside, ItemType, Numbers, Stands, Step, Wanted};
use kmipa_runs::number_name;
use kmipa_ttlv::Tag;
use std::alloc::{AllocError, Global};

/// The name of a tag, or a dash.
pub fn tag_text(number: u32) -> &'static str
    ensures { result.now ≡ tag_text number }
{
    match Tag::new(number) {
        Some(tag) => tag_name(tag),
        None => "-",
    }
}

/// Where a field stands, from the message or the item inward.
pub fn field_text(alloc: Global, field: &FieldTold) -> Result<String, AllocError>
    ensures { IfOk result (λ text. string_bytes text ≡ field_text field.now) }
{
    let within = within_text(alloc, field.within)?;
    let inside = inside_text(field.demand.inside);
    let step = step_text(field.demand.field);
    format!(in alloc; "{within}{inside}{step}")
}

fn within_text(alloc: Global, within: Option<u32>) -> Result<String, AllocError>
    ensures { IfOk result (λ text. string_bytes text ≡ within_text within) }
{
    match within {
        Some(tag) => {
            let name = tag_text(tag);
            format!(in alloc; "{name}, ")
        }
        None => Ok(String::new(alloc)),
    }
}

fn inside_text(inside: Inside) -> &'static str
    ensures { result.now ≡ inside_text inside }
{
    match inside {
        Inside::Here => "",
        Inside::Version => "Protocol Version, ",
        Inside::Attributes => "Attributes, ",
        Inside::Revocation => "Revocation Reason, ",
        Inside::Block => "Symmetric Key or Secret Data, Key Block, ",
        Inside::Value => "Symmetric Key or Secret Data, Key Block, Key Value, ",
    }
}

fn step_text(step: Step) -> &'static str
    ensures { result.now ≡ step_text step }
{
    match step {
        Step::Tag(tag) => tag_text(tag),
        Step::Object => "Symmetric Key or Secret Data",
    }
}

/// An item of a type.
fn type_text(ty: ItemType) -> &'static str
    ensures { result.now ≡ type_text ty }
{
    match ty {
        ItemType::Structure => "a Structure",
        ItemType::Integer => "an Integer",
        ItemType::LongInteger => "a Long Integer",
        ItemType::BigInteger => "a Big Integer",
        ItemType::Enumeration => "an Enumeration",
        ItemType::Boolean => "a Boolean",
        ItemType::Text => "a Text String",
        ItemType::Bytes => "a Byte String",
        ItemType::DateTime => "a Date-Time",
        ItemType::Interval => "an Interval",
        ItemType::DateTimeExtended => "a Date-Time Extended",
    }
}

/// What stands in place of the field.
pub fn stands_text(alloc: Global, field: &FieldTold) -> Result<String, AllocError>
    ensures { IfOk result (λ text. string_bytes text ≡ stands_text field.now.demand.field field.now.stands) }
{
    match field.stands {
        Stands::Absent => String::from_str(alloc, "absent"),
        Stands::Item(ty) => String::from_str(alloc, type_text(ty)),
        Stands::Number(number) => named_text(alloc, field.demand.field, number),
        Stands::Integer(value) => format!(in alloc; "{value}"),
        Stands::Nth(place, ty) => {
            let item = type_text(ty);
            format!(in alloc; "{item}, number {place} of them")
        }
        Stands::Many(count) => format!(in alloc; "{count} of them"),
    }
}

/// A number of the enumeration that a field holds, with its name, where the standard names it.
fn named_text(alloc: Global, step: Step, number: u32) -> Result<String, AllocError>
    ensures { IfOk result (λ text. string_bytes text ≡ number_text (pos number) (name_at step number)) }
{
    number_text(alloc, i64::from(number), name_at(step, number))
}

fn name_at(step: Step, number: u32) -> Option<&'static str>
    ensures { option_map (λ name. name.now) result ≡ name_at step number }
{
    match step {
        Step::Tag(tag) => match Tag::new(tag) {
            Some(tag) => number_name(tag, number),
            None => None,
        },
        Step::Object => None,
    }
}

/// What is wanted of the field.
pub fn wanted_text(alloc: Global, field: &FieldTold) -> Result<String, AllocError>
    ensures { IfOk result (λ text. string_bytes text ≡ wanted_text field.now.demand.field field.now.demand.wanted) }
{
    match field.demand.wanted {
        Wanted::There => String::from_str(alloc, "an item"),
        Wanted::Typed(ty) | Wanted::MaybeTyped(ty) => String::from_str(alloc, type_text(ty)),
        Wanted::Nothing => String::from_str(alloc, "none"),
        Wanted::Integer(value) => format!(in alloc; "{value}"),
        Wanted::Count(count) => {
            format!(in alloc; "{count}, the number of Batch Items, and at least 1")
        }
        Wanted::OneOf(numbers) => String::from_str(alloc, numbers_text(numbers)),
        Wanted::Other(number) => {
            let named = named_text(alloc, field.demand.field, number)?;
            format!(in alloc; "not {named}")
        }
        Wanted::EachTyped(ty) => {
            let item = type_text(ty);
            format!(in alloc; "each {item}")
        }
        Wanted::EachName => String::from_str(alloc, "each a Structure with a Name Value"),
        Wanted::Once => String::from_str(alloc, "one at most"),
        Wanted::Same(number, beside) => {
            let named = named_text(alloc, field.demand.field, number)?;
            let place = beside_text(beside);
            format!(in alloc; "{named}{place}")
        }
        Wanted::SameInteger(value, beside) => {
            let place = beside_text(beside);
            format!(in alloc; "{value}{place}")
        }
    }
}

/// Where the same is to stand.
fn beside_text(beside: Beside) -> &'static str
    ensures { result.now ≡ beside_text beside }
{
    match beside {
        Beside::Payload => ", as the payload says",
        Beside::Object => ", as its object is",
        Beside::Block => ", as its Key Block says",
    }
}

fn numbers_text(numbers: Numbers) -> &'static str
    ensures { result.now ≡ numbers_text numbers }
{
    match numbers {
        Numbers::ObjectTypes => "2 Symmetric Key or 7 Secret Data",
        Numbers::CreatedType => "2 Symmetric Key",
        Numbers::KeyFormats => "1 Raw or 2 Opaque",
        Numbers::BatchOptions => "1 Continue, 2 Stop or 3 Undo",
        Numbers::Statuses => "0 Success, 1 Operation Failed or 3 Operation Undone",
        Numbers::Failure => "1 Operation Failed",
    }
}
