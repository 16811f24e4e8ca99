//! The objects that a payload names.

ghost use Rattle.std.specs.Prelude.{◌≡◌, ◌++◌, IfOk, OnOk, map};
ghost use Rattle.kmipa_ttlv.specs.Tree.{scalar};
ghost use Rattle.kmipa_ttlv.specs.Tree;
ghost use Rattle.kmipa_ttlv.specs.ViewTree.{view_tree, view_trees};
ghost use Rattle.kmipa_passed.specs.Names.{is_of_identifier, named_by, named_in};

use kmipa_attrs::tags::UNIQUE_IDENTIFIER;
use kmipa_ttlv::{Children, View, ViewValue};
use std::alloc::{AllocError, Global};

/// The tag of Private Key Unique Identifier.
const PRIVATE_KEY_IDENTIFIER: u32 = 0x42_0066;

/// The tag of Public Key Unique Identifier.
const PUBLIC_KEY_IDENTIFIER: u32 = 0x42_006F;

/// The tag of Linked Object Identifier.
const LINKED_OBJECT_IDENTIFIER: u32 = 0x42_004C;

/// Each text under the tag of an identifier in these children, however deep, in order.
pub fn texts_named<'a>(alloc: Global, payload: Children<'a>) -> Result<Vec<&'a str>, AllocError>
    ensures { IfOk result (λ names. map (λ s. s.now) names.items ≡ named_in (view_trees payload.entry)) }
{
    let mut names = Vec::new(alloc);
    push_named(payload, &mut names)?;
    Ok(names)
}

#[cycle(naming)]
fn push_named<'a>(children: Children<'a>, names: &mut Vec<&'a str>) -> Result<(), AllocError>
    ensures { OnOk result (map (λ s. s.now) names.new.items
        ≡ map (λ s. s.now) names.old.items ++ named_in (view_trees children.entry)) }
{
    let mut left = children;
    'children: while let Some(child) = left.next() {
        push_child(&child, names)?;
    }
    Ok(())
}

#[cycle(naming)]
fn push_child<'a>(child: &View<'a>, names: &mut Vec<&'a str>) -> Result<(), AllocError>
    ensures { OnOk result (map (λ s. s.now) names.new.items
        ≡ map (λ s. s.now) names.old.items ++ named_by (view_tree child.now)) }
{
    match &child.value {
        ViewValue::Structure(children) => push_named(*children, names),
        ViewValue::Text(text) => push_text(child.tag.number, text, names),
        ViewValue::Integer(_)
        | ViewValue::LongInteger(_)
        | ViewValue::BigInteger(_)
        | ViewValue::Enumeration(_)
        | ViewValue::Boolean(_)
        | ViewValue::Bytes(_)
        | ViewValue::DateTime(_)
        | ViewValue::Interval(_)
        | ViewValue::DateTimeExtended(_) => Ok(()),
    }
}

fn push_text<'a>(tag: u32, text: &'a str, names: &mut Vec<&'a str>) -> Result<(), AllocError>
    ensures { OnOk result (map (λ s. s.now) names.new.items
        ≡ map (λ s. s.now) names.old.items ++ named_by (scalar tag (Tree.text text.now))) }
{
    if is_of_identifier(tag) {
        names.push(text)?;
    }
    Ok(())
}

/// Whether it is the tag of an identifier of an object.
pub(crate) fn is_of_identifier(tag: u32) -> bool
    ensures { result ≡ is_of_identifier tag }
{
    matches!(
        tag,
        UNIQUE_IDENTIFIER
            | PRIVATE_KEY_IDENTIFIER
            | PUBLIC_KEY_IDENTIFIER
            | LINKED_OBJECT_IDENTIFIER
    )
}
