//! The types of items.

ghost use Rattle.std.specs.Prelude.{◌≡◌};
ghost use Rattle.kmipa_ttlv.specs.ViewTree.{view_tree};
ghost use Rattle.kmipa_outside.specs.ItemTypes.{item_type};

use kmipa_ttlv::{View, ViewValue};

/// The type of an item (KMIP 2.1, TTLV Encoding).
#[derive(Clone, Copy, PartialEq, Eq)]
pub enum ItemType {
    Structure = 1,
    Integer = 2,
    LongInteger = 3,
    BigInteger = 4,
    Enumeration = 5,
    Boolean = 6,
    Text = 7,
    Bytes = 8,
    DateTime = 9,
    Interval = 10,
    DateTimeExtended = 11,
}

impl ItemType {
    ghost use Rattle.std.specs.Prelude.{◌≡◌};
    ghost use Rattle.kmipa_outside.specs.ItemTypes.{type_name, type_number};

    /// The number of the type.
    pub fn number(self) -> u8
        ensures { result ≡ type_number self }
    {
        self as u8
    }

    /// The name of the type, as the standard writes it.
    pub fn name(self) -> &'static str
        ensures { result.now ≡ type_name self }
    {
        match self {
            ItemType::Structure => "Structure",
            ItemType::Integer => "Integer",
            ItemType::LongInteger => "Long Integer",
            ItemType::BigInteger => "Big Integer",
            ItemType::Enumeration => "Enumeration",
            ItemType::Boolean => "Boolean",
            ItemType::Text => "Text String",
            ItemType::Bytes => "Byte String",
            ItemType::DateTime => "Date-Time",
            ItemType::Interval => "Interval",
            ItemType::DateTimeExtended => "Date-Time Extended",
        }
    }
}

/// The type of an item.
pub fn item_type(view: &View) -> ItemType
    ensures { result ≡ item_type (view_tree view.now) }
{
    match &view.value {
        ViewValue::Structure(_) => ItemType::Structure,
        ViewValue::Integer(_) => ItemType::Integer,
        ViewValue::LongInteger(_) => ItemType::LongInteger,
        ViewValue::BigInteger(_) => ItemType::BigInteger,
        ViewValue::Enumeration(_) => ItemType::Enumeration,
        ViewValue::Boolean(_) => ItemType::Boolean,
        ViewValue::Text(_) => ItemType::Text,
        ViewValue::Bytes(_) => ItemType::Bytes,
        ViewValue::DateTime(_) => ItemType::DateTime,
        ViewValue::Interval(_) => ItemType::Interval,
        ViewValue::DateTimeExtended(_) => ItemType::DateTimeExtended,
    }
}
