//! What stands among all the items that a step finds.

ghost use Rattle.std.specs.Prelude.{◌≡◌, is_some, length};
ghost use Rattle.kmipa_ttlv.specs.ViewTree.{view_tree, view_trees};
ghost use Rattle.kmipa_attrs.specs.Fields.{every, map_field};
ghost use Rattle.kmipa_attrs.specs.Names.{name_from};
ghost use Rattle.kmipa_outside.specs.Demands.{all_at, is_name, many, passes, some_fails};

use crate::demand::{Step, Wanted};
use crate::finding::first_at;
use crate::told::Stands;
use crate::types::item_type;
use kmipa_attrs::Field;
use kmipa_attrs::fields::{as_structure, enumeration_at, text_at};
use kmipa_attrs::tags::{NAME_TYPE, NAME_VALUE};
use kmipa_ttlv::{Children, View};

/// The first of the items that isn't as each is to be.
pub(crate) fn some_at(wanted: Wanted, children: Children, step: Step) -> Option<Stands>
    ensures { result ≡ some_fails wanted 1 (all_at step (view_trees children.entry)) }
{
    match step {
        Step::Tag(tag) => some_with_tag(wanted, children, tag),
        Step::Object => {
            let view = first_at(children, step)?;
            if passes(wanted, &view) {
                return None;
            }
            Some(Stands::Nth(1, item_type(&view)))
        }
    }
}

/// The same of the items with a tag.
fn some_with_tag(wanted: Wanted, children: Children, tag: u32) -> Option<Stands>
    ensures { result ≡ some_fails wanted 1 (every tag (view_trees children.entry)) }
{
    let count = children.count_of(tag);
    let mut left = children;
    let mut place = 0;
    'children: while place < count {
        let child = left.next_of(tag)?;
        place += 1;
        if !passes(wanted, &child) {
            return Some(Stands::Nth(place, item_type(&child)));
        }
    }
    None
}

/// Whether an item is as each is to be.
fn passes(wanted: Wanted, view: &View) -> bool
    ensures { result ≡ passes wanted (view_tree view.now) }
{
    match wanted {
        Wanted::EachTyped(ty) => item_type(view).number() == ty.number(),
        Wanted::EachName => is_name(view),
        _ => true,
    }
}

/// Whether an item says a name.
fn is_name(view: &View) -> bool
    ensures { result ≡ is_name (view_tree view.now) }
{
    match as_structure(view) {
        Some(children) => says_name(
            text_at(children, NAME_VALUE),
            enumeration_at(children, NAME_TYPE),
        ),
        None => false,
    }
}

/// Whether a Name Value and a Name Type say a name.
fn says_name(value: Field<&str>, kind: Field<u32>) -> bool
    ensures { result ≡ is_some (name_from (map_field (λ s. s.now) value.entry) kind) }
{
    let Field::There(_) = value else {
        return false;
    };
    match kind {
        Field::There(_) | Field::Absent => true,
        Field::Wrong => false,
    }
}

/// How many items a step finds, where they are two or more.
pub(crate) fn many_at(children: Children, step: Step) -> Option<Stands>
    ensures { result ≡ many (length (all_at step (view_trees children.entry))) }
{
    match step {
        Step::Tag(tag) => many(children.count_of(tag)),
        Step::Object => None,
    }
}

fn many(count: usize) -> Option<Stands>
    ensures { result ≡ many count }
{
    if count > 1 {
        return Some(Stands::Many(count));
    }
    None
}
