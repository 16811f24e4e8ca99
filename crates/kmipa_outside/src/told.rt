//! What is told of a message that is outside.

use crate::demand::Demand;
use crate::types::ItemType;
use kmipa_ttlv::TtlvFault;

/// Why a message is outside.
#[derive(Drop)]
pub enum MessageTold {
    /// Its bytes begin with no item: the first thing that is wrong.
    Flaw(TtlvFault),
    /// Its bytes are an item of this length, and more.
    Longer(usize),
    /// It is an item with this tag, and no message.
    Tagged(u32),
    /// The fields that are otherwise than the profile wants them.
    Fields(Vec<FieldTold>),
}

/// A field that is otherwise than the profile wants it.
#[derive(Clone, Copy, PartialEq, Eq)]
pub struct FieldTold {
    /// The tag of the header or the payload that it stands in; none where it stands in the message or the item itself.
    pub within: Option<u32>,
    /// What is wanted of it.
    pub demand: Demand,
    /// What stands there.
    pub stands: Stands,
}

/// What stands in place of a field.
#[derive(Clone, Copy, PartialEq, Eq)]
pub enum Stands {
    /// Nothing.
    Absent,
    /// An item of this type.
    Item(ItemType),
    /// An Enumeration of this number.
    Number(u32),
    /// An Integer of this value.
    Integer(i32),
    /// An item of this type, as the one of this place among those with the tag, counted from 1.
    Nth(usize, ItemType),
    /// So many items.
    Many(usize),
}
