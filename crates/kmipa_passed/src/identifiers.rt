//! The identifiers that stand in a payload itself.

ghost use Rattle.std.specs.Prelude.{◌≡◌};
ghost use Rattle.kmipa_ttlv.specs.ViewTree.{view_tree, view_trees};
ghost use Rattle.kmipa_passed.specs.Identifiers.{asked_of, identifier_asked, identifier_shown, is_clear, is_unclear, meant_by, names_unclearly, shown_by, shown_of};

use crate::names::is_of_identifier;
use kmipa_attrs::fields::{as_text, first};
use kmipa_attrs::tags::UNIQUE_IDENTIFIER;
use kmipa_ttlv::{Children, View, ViewValue};

/// The Enumeration by which a request means the ID Placeholder.
const ID_PLACEHOLDER: u32 = 1;

/// The object that a request's payload asks for.
#[derive(Clone, Copy)]
pub enum Asked<'a> {
    /// The one that the ID Placeholder holds.
    Placeholder,
    /// The one of this identifier.
    Named(&'a str),
    /// One in a form that doesn't tell which.
    Unnamed,
}

/// The object that an answer's payload shows.
#[derive(Clone, Copy)]
pub enum Shown<'a> {
    /// It has no Unique Identifier.
    Nothing,
    /// It has one, this text.
    Only(&'a str),
    /// It has several, or one that is no text.
    Unclear,
}

/// The object that a request's payload asks for.
pub fn identifier_asked<'a>(payload: Children<'a>) -> Asked<'a>
    ensures { asked_of result ≡ identifier_asked (view_trees payload.entry) }
{
    match first(payload, UNIQUE_IDENTIFIER) {
        Some(identifier) => meant_by(&identifier),
        None => Asked::Placeholder,
    }
}

/// What an item means by a Unique Identifier.
fn meant_by<'a>(identifier: &View<'a>) -> Asked<'a>
    ensures { asked_of result ≡ meant_by (view_tree identifier.now) }
{
    match &identifier.value {
        ViewValue::Text(id) => Asked::Named(id),
        ViewValue::Enumeration(number) => {
            if *number == ID_PLACEHOLDER {
                Asked::Placeholder
            } else {
                Asked::Unnamed
            }
        }
        ViewValue::Structure(_)
        | ViewValue::Integer(_)
        | ViewValue::LongInteger(_)
        | ViewValue::BigInteger(_)
        | ViewValue::Boolean(_)
        | ViewValue::Bytes(_)
        | ViewValue::DateTime(_)
        | ViewValue::Interval(_)
        | ViewValue::DateTimeExtended(_) => Asked::Unnamed,
    }
}

/// The one object that an answer's payload shows.
pub fn identifier_shown<'a>(payload: Children<'a>) -> Shown<'a>
    ensures { shown_of result ≡ identifier_shown (view_trees payload.entry) }
{
    let mut left = payload;
    let Some(identifier) = left.next_of(UNIQUE_IDENTIFIER) else {
        return Shown::Nothing;
    };
    if left.next_of(UNIQUE_IDENTIFIER).is_some() {
        return Shown::Unclear;
    }
    shown_by(&identifier)
}

fn shown_by<'a>(identifier: &View<'a>) -> Shown<'a>
    ensures { shown_of result ≡ shown_by (view_tree identifier.now) }
{
    match as_text(identifier) {
        Some(id) => Shown::Only(id),
        None => Shown::Unclear,
    }
}

/// Whether a child of a payload under the tag of an identifier says which object it is in a form that doesn't tell.
pub fn names_unclearly(payload: Children) -> bool
    ensures { result ≡ names_unclearly (view_trees payload.entry) }
{
    let mut left = payload;
    'children: while let Some(child) = left.next() {
        if is_unclear(&child) {
            return true;
        }
    }
    false
}

/// Whether an item under the tag of an identifier says which object it is in a form that doesn't tell.
fn is_unclear(child: &View) -> bool
    ensures { result ≡ is_unclear (view_tree child.now) }
{
    is_of_identifier(child.tag.number) && !is_clear(child)
}

/// Whether an item says which object it is, by a text or as the ID Placeholder.
fn is_clear(identifier: &View) -> bool
    ensures { result ≡ is_clear (view_tree identifier.now) }
{
    match meant_by(identifier) {
        Asked::Placeholder | Asked::Named(_) => true,
        Asked::Unnamed => false,
    }
}
