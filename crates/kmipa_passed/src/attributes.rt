//! The attribute that an operation on one attribute is about.

ghost use Rattle.std.specs.Prelude.{◌≡◌};
ghost use Rattle.kmipa_ttlv.specs.ViewTree.{view_tree, view_trees};
ghost use Rattle.kmipa_passed.specs.Attributes.{holds_unjudged, is_of_unjudged, is_one_unjudged, is_unjudged, refers_to_unjudged};

use kmipa_attrs::fields::{as_structure, first};
use kmipa_attrs::tags::{
    ACTIVATION_DATE, ATTRIBUTE_REFERENCE, COMPROMISE_DATE, CRYPTOGRAPHIC_ALGORITHM,
    CRYPTOGRAPHIC_LENGTH, CRYPTOGRAPHIC_USAGE_MASK, DEACTIVATION_DATE, DESTROY_DATE, INITIAL_DATE,
    NAME, OBJECT_TYPE, STATE, UNIQUE_IDENTIFIER,
};
use kmipa_ttlv::{Children, View, ViewValue};

/// The tag of New Attribute.
const NEW_ATTRIBUTE: u32 = 0x42_013D;

/// Whether a payload is about one attribute, which isn't judged.
pub(crate) fn is_of_unjudged(payload: Children) -> bool
    ensures { result ≡ is_of_unjudged (view_trees payload.entry) }
{
    let reference = first(payload, ATTRIBUTE_REFERENCE);
    let new = first(payload, NEW_ATTRIBUTE);
    match (reference, new) {
        (None, None) => false,
        (Some(reference), None) => refers_to_unjudged(&reference),
        (None, Some(new)) => holds_unjudged(&new),
        (Some(reference), Some(new)) => refers_to_unjudged(&reference) && holds_unjudged(&new),
    }
}

/// Whether an Attribute Reference is to an attribute that isn't judged.
fn refers_to_unjudged(reference: &View) -> bool
    ensures { result ≡ refers_to_unjudged (view_tree reference.now) }
{
    match &reference.value {
        ViewValue::Structure(_) => true,
        ViewValue::Enumeration(tag) => is_unjudged(*tag),
        ViewValue::Integer(_)
        | ViewValue::LongInteger(_)
        | ViewValue::BigInteger(_)
        | ViewValue::Boolean(_)
        | ViewValue::Text(_)
        | ViewValue::Bytes(_)
        | ViewValue::DateTime(_)
        | ViewValue::Interval(_)
        | ViewValue::DateTimeExtended(_) => false,
    }
}

/// Whether a New Attribute has one child, which isn't judged.
fn holds_unjudged(new: &View) -> bool
    ensures { result ≡ holds_unjudged (view_tree new.now) }
{
    match as_structure(new) {
        Some(children) => is_one_unjudged(children),
        None => false,
    }
}

/// Whether there is one item, of an attribute that isn't judged.
fn is_one_unjudged(children: Children) -> bool
    ensures { result ≡ is_one_unjudged (view_trees children.entry) }
{
    let mut left = children;
    let Some(child) = left.next() else {
        return false;
    };
    if left.next().is_some() {
        return false;
    }
    is_unjudged(child.tag.number)
}

/// Whether an attribute of this tag isn't judged.
fn is_unjudged(tag: u32) -> bool
    ensures { result ≡ is_unjudged tag }
{
    match tag {
        NAME | OBJECT_TYPE | CRYPTOGRAPHIC_ALGORITHM | CRYPTOGRAPHIC_LENGTH => false,
        CRYPTOGRAPHIC_USAGE_MASK | STATE | INITIAL_DATE | ACTIVATION_DATE => false,
        DEACTIVATION_DATE | DESTROY_DATE | COMPROMISE_DATE | UNIQUE_IDENTIFIER => false,
        _ => true,
    }
}
