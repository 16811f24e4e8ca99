//! What the profile wants of a field.

ghost use Rattle.std.specs.Prelude.{◌≡◌};
ghost use Rattle.kmipa_outside.specs.Demands.{wants};

use crate::types::ItemType;
use kmipa_msgs::OutsideKind;

/// What the profile wants of a field of a header, of an item or of a payload.
#[derive(Clone, Copy, PartialEq, Eq)]
pub struct Demand {
    /// The structure that it stands in.
    pub inside: Inside,
    pub field: Step,
    pub wanted: Wanted,
    /// The kind of outside that a message is where the field is otherwise.
    pub kind: OutsideKind,
}

/// The structure that a field stands in.
#[derive(Clone, Copy, PartialEq, Eq)]
pub enum Inside {
    /// The header, the item or the payload itself.
    Here,
    /// The Protocol Version of a header.
    Version,
    /// The Attributes of a payload.
    Attributes,
    /// The Revocation Reason of a payload.
    Revocation,
    /// The Key Block of a payload's object.
    Block,
    /// The Key Value of that Key Block.
    Value,
}

/// How a field is found.
#[derive(Clone, Copy, PartialEq, Eq)]
pub enum Step {
    /// By its tag.
    Tag(u32),
    /// The object of a payload: the first Symmetric Key or Secret Data.
    Object,
}

/// What is wanted of a field. Where nothing else is said, it is the first with its tag.
#[derive(Clone, Copy, PartialEq, Eq)]
pub enum Wanted {
    /// That it is there, of whatever type.
    There,
    /// That it is there, and of this type.
    Typed(ItemType),
    /// That it is of this type, or not there.
    MaybeTyped(ItemType),
    /// That it isn't there.
    Nothing,
    /// That it is an Integer of this value.
    Integer(i32),
    /// That it is an Integer of this value, which is how many Batch Items there are, and that there are some.
    Count(usize),
    /// That it is one of these numbers, where it is an Enumeration.
    OneOf(Numbers),
    /// That it is another number, where it is an Enumeration.
    Other(u32),
    /// That each with its tag is of this type.
    EachTyped(ItemType),
    /// That each with its tag is a name.
    EachName,
    /// That there are no two with its tag.
    Once,
    /// That it is this number, where it is an Enumeration: what stands in another place, where the same is to stand.
    Same(u32, Beside),
    /// That it is this value, where it is an Integer: the same.
    SameInteger(i32, Beside),
}

/// Where the same is to stand as in a field of a Request Payload.
#[derive(Clone, Copy, PartialEq, Eq)]
pub enum Beside {
    /// In the payload itself.
    Payload,
    /// By the tag of its object.
    Object,
    /// In the Key Block of its object.
    Block,
}

/// Numbers of an enumeration that the profile knows.
#[derive(Clone, Copy, PartialEq, Eq)]
pub enum Numbers {
    /// The types of objects.
    ObjectTypes,
    /// The one type of what is created.
    CreatedType,
    /// The forms of a key.
    KeyFormats,
    /// The Batch Error Continuation Options.
    BatchOptions,
    /// The statuses of an item, Pending among them.
    Statuses,
    /// The status of what failed, alone.
    Failure,
}

/// A demand.
pub fn wants(inside: Inside, field: Step, wanted: Wanted, kind: OutsideKind) -> Demand
    ensures { result ≡ wants inside field wanted kind }
{
    Demand {
        inside,
        field,
        wanted,
        kind,
    }
}
