//! Explanations.

use crate::held::{
    AttributesHeld, BytesHeld, EchoHeld, LeftOutHeld, LengthHeld, ListHeld, NameHeld, ReasonHeld,
    StateHeld,
};
use crate::source::Whence;
use kmipa_msgs::{BatchOption, Status};

/// What a no means.
#[derive(Drop)]
pub struct Explanation {
    /// The client of the call, as its begin mark names it.
    pub client: String,
    /// The moment at which it was to be done, in seconds since 1970.
    pub stamp: i64,
    /// The operation that is asked for at the refused item, by its number; none where the turn itself is refused, or where an answer is
    /// one too many.
    pub operation: Option<u32>,
    /// The numbers of the calls that stand behind it in the order and overlap it: neither of the two ended before the other began.
    pub overlapping: Vec<i32>,
    pub cause: Cause,
    /// Whence the object is of which the cause speaks, and what it has; none where the cause speaks of no object that was held.
    pub whence: Option<Whence>,
    /// The story of the object that the item is about; none where the item has no answer, or is about no identifier.
    pub story: Option<Story>,
}

/// What the reason of a no rests on.
#[derive(Drop)]
pub enum Cause {
    /// Of `EarlierCallLate`: the numbers of the calls that ended before this one began, and that stand behind it in the order.
    EarlierCalls(Vec<i32>),
    /// Of `StampRunsBack`: the turn before.
    StampBefore(TurnBefore),
    /// Of `BatchShape`: what the shape is judged by.
    BatchShape(Shape),
    /// Of `OperationDiffers`: the two operations.
    Operations(Operations),
    /// Of `NoSuchObject`: the identifier of which the server held no object; none where the ID Placeholder is meant and holds none.
    NoObject(Option<String>),
    /// Of `WrongState`: the object's state and its dates.
    State(StateHeld),
    /// Of `BytesDiffer`: where the bytes that are shown differ from those that are known.
    Bytes(BytesHeld),
    /// Of `IdentifierTaken`: the identifier that the answer gives to the new object, of which the server held one.
    Identifier(String),
    /// Of `NameTaken`: a name that is asked for, and who has it.
    Name(NameHeld),
    /// Of `LengthImpossible`: the bytes, and what they can't be the key of.
    Length(LengthHeld),
    /// Of `AttributeDiffers`: the attributes that are shown and that the object doesn't have so.
    Differing(AttributesHeld),
    /// Of `AttributeMissing`: the required attributes that aren't shown.
    Missing(AttributesHeld),
    /// Of `ListedWrongly`: what is wrong in the list.
    Listed(ListHeld),
    /// Of `ListedTooFew`: the objects that must be listed and aren't, in the order of their arrival.
    LeftOut(Vec<LeftOutHeld>),
    /// Of `ReasonUnfounded`: the reason, and what may be behind it.
    Reason(ReasonHeld),
    /// Of `EchoDiffers`: what was asked, and what is repeated.
    Echo(EchoHeld),
    /// Of a reason of which no more is told.
    Object,
}

/// The turn before one.
#[derive(Clone, Copy, PartialEq, Eq)]
pub struct TurnBefore {
    /// The turn, counted from 1.
    pub turn: usize,
    /// The number of its call.
    pub call: i32,
    /// The moment of its call, in seconds since 1970.
    pub stamp: i64,
}

/// What the shape of an item is judged by.
#[derive(Clone, Copy, PartialEq, Eq)]
pub struct Shape {
    pub option: BatchOption,
    /// The first item that failed, counted from 1.
    pub failed: Option<usize>,
    /// Whether the request has the item.
    pub asked: bool,
    /// The status of the item's answer; none where it has no answer.
    pub status: Option<Status>,
}

/// The operation of an item, twice, by its number.
#[derive(Clone, Copy, PartialEq, Eq)]
pub struct Operations {
    /// The one that the request asks for.
    pub asked: u32,
    /// The one that the answer names.
    pub answered: Option<u32>,
}

/// What happened to the object of an identifier up to a refused item.
#[derive(Drop)]
pub struct Story {
    pub identifier: String,
    /// Whether the declaration has an object of this identifier.
    pub declared: bool,
    /// The items that were done ahead of the refused one, and that are about the identifier.
    pub events: Vec<Event>,
    /// The first item behind the refused one that made an object of this identifier.
    pub born_later: Option<Event>,
}

/// An item that was done.
#[derive(Clone, Copy, PartialEq, Eq)]
pub struct Event {
    /// Its turn, counted from 1.
    pub turn: usize,
    /// The number of its call.
    pub call: i32,
    /// Its place in the call, counted from 1.
    pub item: usize,
    /// The moment of the call, in seconds since 1970.
    pub stamp: i64,
    /// The operation that was asked for, by its number.
    pub operation: u32,
    /// Whether it was undone afterwards, with its batch.
    pub undone: bool,
}
