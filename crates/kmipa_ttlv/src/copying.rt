//! Items from views: the same tree, with texts and bytes of its own.

ghost use Rattle.std.specs.Prelude.{◌≡◌, ℕ, IfOk};
ghost use Rattle.kmipa_ttlv.specs.ItemTree.{value_tree, tree, trees};
ghost use Rattle.kmipa_ttlv.specs.ViewTree.{view_value_tree, view_tree, view_trees};

use crate::item::{Item, Value};
use crate::view::{Children, View, ViewValue};
use std::alloc::{AllocError, Global};

/// The view's tree, with copies of its texts and bytes.
#[cycle(copying)]
pub fn copy_item(alloc: Global, view: &View) -> Result<Item, AllocError>
    ensures { IfOk result (λ i. tree i ≡ view_tree view.now) }
{
    Ok(Item {
        tag: view.tag,
        value: copy_value(alloc, &view.value)?,
    })
}

#[cycle(copying)]
fn copy_value(alloc: Global, value: &ViewValue) -> Result<Value, AllocError>
    ensures { IfOk result (λ v. (tag : ℕ) → value_tree tag v ≡ view_value_tree tag value.now) }
{
    match value {
        ViewValue::Structure(children) => Ok(Value::Structure(copy_all(alloc, *children)?)),
        ViewValue::Integer(n) => Ok(Value::Integer(*n)),
        ViewValue::LongInteger(n) => Ok(Value::LongInteger(*n)),
        ViewValue::BigInteger(bytes) => Ok(Value::BigInteger(Vec::from_slice(alloc, bytes)?)),
        ViewValue::Enumeration(n) => Ok(Value::Enumeration(*n)),
        ViewValue::Boolean(b) => Ok(Value::Boolean(*b)),
        ViewValue::Text(text) => Ok(Value::Text(String::from_str(alloc, text)?)),
        ViewValue::Bytes(bytes) => Ok(Value::Bytes(Vec::from_slice(alloc, bytes)?)),
        ViewValue::DateTime(n) => Ok(Value::DateTime(*n)),
        ViewValue::Interval(n) => Ok(Value::Interval(*n)),
        ViewValue::DateTimeExtended(n) => Ok(Value::DateTimeExtended(*n)),
    }
}

#[cycle(copying)]
fn copy_all(alloc: Global, children: Children) -> Result<Vec<Item>, AllocError>
    ensures { IfOk result (λ v. trees v.items ≡ view_trees children.entry) }
{
    let mut items = Vec::new(alloc);
    let mut left = children;
    'children: while let Some(child) = left.next() {
        items.push(copy_item(alloc, &child)?)?;
    }
    Ok(items)
}
