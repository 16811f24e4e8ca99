//! Views of items: the same tree, with texts and bytes lent.

ghost use Rattle.std.specs.Prelude.{◌≡◌, ℕ};
ghost use Rattle.kmipa_ttlv.specs.ItemTree.{value_tree, tree};
ghost use Rattle.kmipa_ttlv.specs.ViewTree.{view_value_tree, view_tree};

use crate::item::{Item, Value};
use crate::view::{Children, Source, View, ViewValue};

/// The item's tree, with its texts and bytes lent. No memory is taken.
pub fn lend(item: &Item) -> View<'_>
    ensures { view_tree result ≡ tree item.now }
{
    View {
        tag: item.tag,
        value: lend_value(&item.value),
    }
}

fn lend_value(value: &Value) -> ViewValue<'_>
    ensures { (tag : ℕ) → view_value_tree tag result ≡ value_tree tag value.now }
{
    match value {
        Value::Structure(children) => ViewValue::Structure(Children {
            source: Source::Lent(children),
        }),
        Value::Integer(n) => ViewValue::Integer(*n),
        Value::LongInteger(n) => ViewValue::LongInteger(*n),
        Value::BigInteger(bytes) => ViewValue::BigInteger(bytes),
        Value::Enumeration(n) => ViewValue::Enumeration(*n),
        Value::Boolean(b) => ViewValue::Boolean(*b),
        Value::Text(text) => ViewValue::Text(text.as_str()),
        Value::Bytes(bytes) => ViewValue::Bytes(bytes),
        Value::DateTime(n) => ViewValue::DateTime(*n),
        Value::Interval(n) => ViewValue::Interval(*n),
        Value::DateTimeExtended(n) => ViewValue::DateTimeExtended(*n),
    }
}
