//! A JSON list that is made item by item.

ghost use Rattle.std.specs.Prelude.{◌≡◌, false};
ghost use Rattle.serde_json.specs.View.{items_view};
ghost use Rattle.serde_json.specs.Written.{items_have_float};

use crate::object::JsonObject;
use serde_json::Value;
use std::alloc::{AllocError, Global};

/// A JSON list, in which numbers are whole.
#[derive(Drop)]
pub struct JsonList {
    alloc: Global,
    items: Vec<Value>,
    ghost whole: { items_have_float (items_view items.items) ≡ false },
}

impl JsonList {
    ghost use Rattle.std.specs.Prelude.{OnOk, OnErr};
    ghost use Rattle.serde_json.specs.Data.{array, no_items, object, string};
    ghost use Rattle.serde_json.specs.View.{view};
    ghost use Rattle.serde_json.specs.Written.{has_float};
    ghost use Rattle.kmipa_json.specs.Told.{integer, items_of, members_of, with_item};

    /// A list without items.
    pub fn new(alloc: Global) -> JsonList
        ensures { items_of result ≡ no_items }
    {
        JsonList {
            alloc,
            items: Vec::new(alloc),
        }
    }

    /// Puts an object behind the others.
    pub fn push_object(&mut self, inner: JsonObject) -> Result<(), AllocError>
        ensures ok { OnOk result (items_of self.new ≡ with_item (object (members_of inner)) (items_of self.old)) }
        ensures err { OnErr result (items_of self.new ≡ items_of self.old) }
    {
        self.push(inner.into_value())
    }

    /// Puts a number behind the others.
    pub fn push_integer(&mut self, number: i64) -> Result<(), AllocError>
        ensures ok { OnOk result (items_of self.new ≡ with_item (integer number) (items_of self.old)) }
        ensures err { OnErr result (items_of self.new ≡ items_of self.old) }
    {
        self.push(Value::from(number))
    }

    /// Puts a text behind the others.
    pub fn push_text(&mut self, text: &str) -> Result<(), AllocError>
        ensures ok { OnOk result (items_of self.new ≡ with_item (string text.now) (items_of self.old)) }
        ensures err { OnErr result (items_of self.new ≡ items_of self.old) }
    {
        let value = Value::try_from_str(self.alloc, text)?;
        self.push(value)
    }

    /// Puts a value behind the others.
    fn push(&mut self, value: Value) -> Result<(), AllocError>
        requires { has_float (view value) ≡ false }
        ensures ok { OnOk result (items_of self.new ≡ with_item (view value) (items_of self.old)) }
        ensures err { OnErr result (items_of self.new ≡ items_of self.old) }
    {
        serde_json::push(&mut self.items, value)
    }

    /// The list as a value.
    pub(crate) fn into_value(self) -> Value
        ensures value { view result ≡ array (items_of self) }
        ensures whole { has_float (view result) ≡ false }
    {
        Value::Array(self.items)
    }
}
