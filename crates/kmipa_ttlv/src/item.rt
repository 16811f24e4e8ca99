//! Items: a tag and a value, with texts and bytes of their own (KMIP 2.1, TTLV Encoding).

ghost use Rattle.std.specs.Prelude.{◌≡◌, IfOk};
ghost use Rattle.kmipa_ttlv.specs.ItemTree.{tree, trees};
ghost use Rattle.kmipa_ttlv.specs.Tree;

use crate::tag::Tag;
use std::alloc::{AllocError, Global};

/// One TTLV item: a tag and a value.
#[derive(Drop)]
#[cycle(item)]
pub struct Item {
    pub tag: Tag,
    pub value: Value,
}

/// The value of an item, by its kind.
#[derive(Drop)]
#[cycle(item)]
pub enum Value {
    /// The children, in order.
    Structure(Vec<Item>),
    Integer(i32),
    LongInteger(i64),
    /// The bytes of a number in two's complement, the highest first; a positive multiple of 8.
    BigInteger(Vec<u8>),
    Enumeration(u32),
    Boolean(bool),
    Text(String),
    Bytes(Vec<u8>),
    /// Seconds since 1970-01-01T00:00:00Z.
    DateTime(i64),
    /// Seconds.
    Interval(u32),
    /// Microseconds since 1970-01-01T00:00:00Z.
    DateTimeExtended(i64),
}

impl Item {
    /// A Structure with these children.
    pub fn structure(tag: Tag, children: Vec<Item>) -> Item
        ensures { tree result ≡ Tree.structure tag.number (trees children.items) }
    {
        Item {
            tag,
            value: Value::Structure(children),
        }
    }

    /// An Integer.
    pub fn integer(tag: Tag, number: i32) -> Item
        ensures { tree result ≡ Tree.scalar tag.number (Tree.integer number) }
    {
        Item {
            tag,
            value: Value::Integer(number),
        }
    }

    /// An Enumeration.
    pub fn enumeration(tag: Tag, number: u32) -> Item
        ensures { tree result ≡ Tree.scalar tag.number (Tree.enumeration number) }
    {
        Item {
            tag,
            value: Value::Enumeration(number),
        }
    }

    /// A Boolean.
    pub fn boolean(tag: Tag, truth: bool) -> Item
        ensures { tree result ≡ Tree.scalar tag.number (Tree.boolean truth) }
    {
        Item {
            tag,
            value: Value::Boolean(truth),
        }
    }

    /// A Date-Time, in seconds since 1970-01-01T00:00:00Z.
    pub fn date_time(tag: Tag, seconds: i64) -> Item
        ensures { tree result ≡ Tree.scalar tag.number (Tree.date_time seconds) }
    {
        Item {
            tag,
            value: Value::DateTime(seconds),
        }
    }

    /// A Text String with a copy of the text.
    pub fn text(alloc: Global, tag: Tag, text: &str) -> Result<Item, AllocError>
        ensures { IfOk result (λ item. tree item ≡ Tree.scalar tag.number (Tree.text text.now)) }
    {
        Ok(Item {
            tag,
            value: Value::Text(String::from_str(alloc, text)?),
        })
    }

    /// A Byte String with a copy of the bytes.
    pub fn bytes(alloc: Global, tag: Tag, bytes: &[u8]) -> Result<Item, AllocError>
        ensures { IfOk result (λ item. tree item ≡ Tree.scalar tag.number (Tree.byte_string bytes.now)) }
    {
        Ok(Item {
            tag,
            value: Value::Bytes(Vec::from_slice(alloc, bytes)?),
        })
    }
}
