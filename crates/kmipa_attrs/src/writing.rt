//! Items from sets of attributes.

ghost use Rattle.std.specs.Prelude.{◌≡◌, ◌<◌, ◌≤◌, IfOk, OnOk, map};
ghost use Rattle.std.specs.Option.{option_map};
ghost use Rattle.kmipa_ttlv.specs.Tree.{Tree, structure, forest};
ghost use Rattle.kmipa_ttlv.specs.ItemTree.{tree, trees};
ghost use Rattle.kmipa_ttlv.specs.Written.{size};
ghost use Rattle.kmipa_attrs.specs.Sets.{name_of, attributes_of};
ghost use Rattle.kmipa_attrs.specs.Names.{HasNoRepeats};
ghost use Rattle.kmipa_attrs.specs.Tags.{attributes_tag};
ghost use Rattle.kmipa_attrs.specs.Writing.{written_name, with_scalar, with_scalars, single_rows, written_children, short_children, SaysWhole, each_once};

use crate::attr_set::AttrSet;
use crate::held::Held;
use crate::name::Name;
use crate::tags::{
    ACTIVATION_DATE, ATTRIBUTES, COMPROMISE_DATE, CRYPTOGRAPHIC_ALGORITHM, CRYPTOGRAPHIC_LENGTH,
    CRYPTOGRAPHIC_USAGE_MASK, DEACTIVATION_DATE, DESTROY_DATE, INITIAL_DATE, NAME, NAME_TYPE,
    NAME_VALUE, OBJECT_TYPE, STATE,
};
use kmipa_ttlv::{Item, Tag};
use std::alloc::{AllocError, Global};

/// The Attributes item that says the set: names first, then each other attribute that is there.
/// A name that stands in the set twice is said once.
pub fn write_attrs(alloc: Global, set: &AttrSet) -> Result<Item, AllocError>
    ensures order { IfOk result
        (λ item. tree item ≡ structure attributes_tag (written_children (attributes_of set.now))) }
    ensures once { IfOk result (λ item. SaysWhole (tree item) (each_once (attributes_of set.now))) }
    ensures exact { IfOk result
        (λ item. HasNoRepeats (attributes_of set.now).names → SaysWhole (tree item) (attributes_of set.now)) }
{
    let mut children = write_names(alloc, set.names.as_slice(), false)?;
    put_singles(&mut children, set)?;
    Ok(Item::structure(Tag { number: ATTRIBUTES }, children))
}

/// The shortest Attributes item that says the set: as `write_attrs`, but for names of type 1, whose type is left out.
pub fn write_short_attrs(alloc: Global, set: &AttrSet) -> Result<Item, AllocError>
    ensures order { IfOk result
        (λ item. tree item ≡ structure attributes_tag (short_children (attributes_of set.now))) }
    ensures exact { IfOk result
        (λ item. HasNoRepeats (attributes_of set.now).names → SaysWhole (tree item) (attributes_of set.now)) }
    ensures shortest { IfOk result
        (λ item. (other : Tree) → SaysWhole other (attributes_of set.now) → size (tree item) ≤ size other) }
{
    let mut children = write_names(alloc, set.names.as_slice(), true)?;
    put_singles(&mut children, set)?;
    Ok(Item::structure(Tag { number: ATTRIBUTES }, children))
}

/// One more child for each attribute that has one value.
fn put_singles(children: &mut Vec<Item>, set: &AttrSet) -> Result<(), AllocError>
    ensures { OnOk result
        (trees children.new.items ≡ with_scalars (trees children.old.items) (single_rows (attributes_of set.now))) }
{
    put(children, OBJECT_TYPE, set.object_type)?;
    put(children, CRYPTOGRAPHIC_ALGORITHM, set.algorithm)?;
    put(children, CRYPTOGRAPHIC_LENGTH, set.length)?;
    put(children, CRYPTOGRAPHIC_USAGE_MASK, set.mask)?;
    put(children, STATE, set.state)?;
    put(children, INITIAL_DATE, set.initial)?;
    put(children, ACTIVATION_DATE, set.activation)?;
    put(children, DEACTIVATION_DATE, set.deactivation)?;
    put(children, DESTROY_DATE, set.destroy)?;
    put(children, COMPROMISE_DATE, set.compromise)?;
    Ok(())
}

/// One more child, where the attribute is there.
fn put<T: Held>(children: &mut Vec<Item>, tag: u32, value: Option<T>) -> Result<(), AllocError>
    requires { tag < 0x100_0000 }
    ensures { OnOk result
        (trees children.new.items ≡ with_scalar (trees children.old.items) tag (option_map T.made value)) }
{
    if let Some(value) = value {
        children.push(value.item(Tag { number: tag }))?;
    }
    Ok(())
}

fn write_names(alloc: Global, names: &[Name], short: bool) -> Result<Vec<Item>, AllocError>
    ensures { IfOk result (λ items. trees items.items ≡ forest (written_name short) (map name_of names.now)) }
{
    let mut items = Vec::new(alloc);
    for name in names {
        items.push(write_name(alloc, name, short)?)?;
    }
    Ok(items)
}

/// The name, whose type is left out where it is 1 and the name is written short.
fn write_name(alloc: Global, name: &Name, short: bool) -> Result<Item, AllocError>
    ensures { IfOk result (λ item. tree item ≡ written_name short (name_of name.now)) }
{
    let value = Item::text(alloc, Tag { number: NAME_VALUE }, &name.value)?;
    let mut parts = Vec::with_capacity(alloc, 2)?;
    parts.push(value)?;
    if !(short && name.kind == 1) {
        parts.push(Item::enumeration(Tag { number: NAME_TYPE }, name.kind))?;
    }
    Ok(Item::structure(Tag { number: NAME }, parts))
}
