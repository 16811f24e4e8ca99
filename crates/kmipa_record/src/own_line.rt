//! Own lines: the attributes that a server itself may give an object at birth, each in a record of a declaration.

ghost use Rattle.std.specs.Prelude.{◌≡◌, ◌≢◌, ◌↔◌, IsTrue, MatchOption};
ghost use Rattle.kmipa_ttlv.specs.ViewTree.{view_tree};
ghost use Rattle.kmipa_record.specs.Declarations.{IsNewAttribute};
ghost use Rattle.kmipa_record.specs.Lines.{own_line_item};
ghost use Rattle.kmipa_record.specs.declared.own_attribute.OwnAttribute.{OwnAttribute};

use crate::own_attribute::OwnAttribute;
use crate::shape::{children_of, enumeration_of};
use crate::tags::OWN_LINE;
use kmipa_attrs::tags::ATTRIBUTE_REFERENCE;
use kmipa_ttlv::View;

/// The attribute of the own line that an item says.
pub fn own_attribute_in(item: &View) -> Option<OwnAttribute>
    ensures { MatchOption result ((a : OwnAttribute) → view_tree item.now ≢ own_line_item a)
        (λ a. view_tree item.now ≡ own_line_item a) }
{
    let mut children = children_of(item, OWN_LINE)?;
    let attribute = OwnAttribute::of(enumeration_of(&children.next()?, ATTRIBUTE_REFERENCE)?)?;
    if children.next().is_some() {
        return None;
    }
    Some(attribute)
}

/// Whether the attribute isn't among these.
pub fn is_new_attribute(attributes: &[OwnAttribute], attribute: OwnAttribute) -> bool
    ensures { IsTrue result ↔ IsNewAttribute attributes.now attribute }
{
    for other in attributes {
        if are_same(*other, attribute) {
            return false;
        }
    }
    true
}

fn are_same(a: OwnAttribute, b: OwnAttribute) -> bool
    ensures { IsTrue result ↔ (a ≡ b) }
{
    a == b
}
