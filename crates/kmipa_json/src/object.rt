//! A JSON object that is made member by member.

ghost use Rattle.std.specs.Prelude.{◌≡◌, false};
ghost use Rattle.serde_json.specs.View.{members_view};
ghost use Rattle.serde_json.specs.Written.{members_have_float};

use crate::escapes::with_escapes;
use crate::list::JsonList;
use serde_json::{Map, Value, put};
use std::alloc::{AllocError, Global};

/// A JSON object, in which numbers are whole. Its text has the members in the order of their names.
#[derive(Drop)]
pub struct JsonObject {
    alloc: Global,
    members: Map<String, Value>,
    ghost whole: { members_have_float (members_view members.entries) ≡ false },
}

impl JsonObject {
    ghost use Rattle.std.specs.Prelude.{IfOk, OnOk, OnErr, string_bytes};
    ghost use Rattle.serde_json.specs.Data.{boolean, string, array, object, no_members, put as with_member};
    ghost use Rattle.serde_json.specs.View.{view};
    ghost use Rattle.serde_json.specs.Written.{has_float};
    ghost use Rattle.kmipa_json.specs.Told.{count, integer, items_of, line_of, members_of};

    /// An object without members.
    pub fn new(alloc: Global) -> JsonObject
        ensures { members_of result ≡ no_members }
    {
        JsonObject {
            alloc,
            members: Map::new(alloc),
        }
    }

    /// Gives the object a text under this name, in place of what it had there.
    pub fn put_text(&mut self, name: &str, text: &str) -> Result<(), AllocError>
        ensures ok { OnOk result (members_of self.new ≡ with_member name.now (string text.now) (members_of self.old)) }
        ensures err { OnErr result (members_of self.new ≡ members_of self.old) }
    {
        let value = Value::try_from_str(self.alloc, text)?;
        self.put(name, value)
    }

    /// The same with a number that is never negative.
    pub fn put_count(&mut self, name: &str, amount: u64) -> Result<(), AllocError>
        ensures ok { OnOk result (members_of self.new ≡ with_member name.now (count amount) (members_of self.old)) }
        ensures err { OnErr result (members_of self.new ≡ members_of self.old) }
    {
        self.put(name, Value::from(amount))
    }

    /// The same with a number that may be negative.
    pub fn put_integer(&mut self, name: &str, number: i64) -> Result<(), AllocError>
        ensures ok { OnOk result (members_of self.new ≡ with_member name.now (integer number) (members_of self.old)) }
        ensures err { OnErr result (members_of self.new ≡ members_of self.old) }
    {
        self.put(name, Value::from(number))
    }

    /// The same with `true` or `false`.
    pub fn put_truth(&mut self, name: &str, truth: bool) -> Result<(), AllocError>
        ensures ok { OnOk result (members_of self.new ≡ with_member name.now (boolean truth) (members_of self.old)) }
        ensures err { OnErr result (members_of self.new ≡ members_of self.old) }
    {
        self.put(name, Value::from(truth))
    }

    /// The same with an object.
    pub fn put_object(&mut self, name: &str, inner: JsonObject) -> Result<(), AllocError>
        ensures ok { OnOk result (members_of self.new
            ≡ with_member name.now (object (members_of inner)) (members_of self.old)) }
        ensures err { OnErr result (members_of self.new ≡ members_of self.old) }
    {
        self.put(name, inner.into_value())
    }

    /// The same with a list.
    pub fn put_list(&mut self, name: &str, list: JsonList) -> Result<(), AllocError>
        ensures ok { OnOk result (members_of self.new
            ≡ with_member name.now (array (items_of list)) (members_of self.old)) }
        ensures err { OnErr result (members_of self.new ≡ members_of self.old) }
    {
        self.put(name, list.into_value())
    }

    /// Gives the object a value under this name, in place of what it had there.
    fn put(&mut self, name: &str, value: Value) -> Result<(), AllocError>
        requires { has_float (view value) ≡ false }
        ensures ok { OnOk result (members_of self.new ≡ with_member name.now (view value) (members_of self.old)) }
        ensures err { OnErr result (members_of self.new ≡ members_of self.old) }
    {
        put(&mut self.members, self.alloc, name, value)
    }

    /// The object on a line of its own, with its line feed. C1 controls and characters that turn the direction of writing stand as escapes.
    pub fn into_line(self) -> Result<String, AllocError>
        ensures { IfOk result (λ text. string_bytes text ≡ line_of (object (members_of self))) }
    {
        let alloc = self.alloc;
        let text = self.into_value().to_string(alloc)?;
        let mut line = with_escapes(alloc, text.as_str())?;
        line.push_str("\n")?;
        Ok(line)
    }

    /// The object as a value.
    pub(crate) fn into_value(self) -> Value
        ensures value { view result ≡ object (members_of self) }
        ensures whole { has_float (view result) ≡ false }
    {
        Value::Object(self.members)
    }
}
