//! Responses.

ghost use Rattle.std.specs.Prelude.{◌≡◌};

use crate::key_block::KeyBlock;
use kmipa_attrs::{AttrSet, ObjectType};

/// Result Status (KMIP 2.1, section 11), of what is done.
#[derive(Clone, Copy, PartialEq, Eq)]
pub enum Status {
    Success = 0,
    Failed = 1,
    Undone = 3,
}

impl Status {
    ghost use Rattle.kmipa_msgs.specs.Numbers.{status_number, status_of};

    /// The number on the wire.
    pub fn number(self) -> u32
        ensures { result ≡ status_number self }
    {
        self as u32
    }

    /// The status with this number. There is none for Pending.
    pub fn of(number: u32) -> Option<Status>
        ensures { result ≡ status_of number }
    {
        match number {
            0 => Some(Status::Success),
            1 => Some(Status::Failed),
            3 => Some(Status::Undone),
            _ => None,
        }
    }
}

/// A Response Message.
#[derive(Drop)]
pub struct Response<'a> {
    /// Time Stamp, in seconds since 1970-01-01T00:00:00Z.
    pub stamp: i64,
    /// The Batch Items, at least one.
    pub items: Vec<Answer<'a>>,
}

/// A Batch Item of a response.
#[derive(Drop)]
pub struct Answer<'a> {
    /// Operation, by its number.
    pub operation: Option<u32>,
    /// Unique Batch Item ID.
    pub batch_id: Option<&'a [u8]>,
    pub status: Status,
    /// Result Reason, by its number.
    pub reason: Option<u32>,
    /// What was done, where that is read.
    pub payload: Option<Payload<'a>>,
}

/// The payload of an operation's answer. Attributes lie in memory of their own, so that an answer without them takes little room.
#[derive(Drop)]
pub enum Payload<'a> {
    Create(Registered<'a>),
    Register(Registered<'a>),
    Locate(Located<'a>),
    Get(Got<'a>),
    GetAttributes(GotAttributes<'a>),
    /// The answer of an Activate, a Revoke or a Destroy.
    Change(Changed<'a>),
}

/// The answer of a Create or a Register.
#[derive(Clone, Copy)]
pub struct Registered<'a> {
    /// Object Type, by its number.
    pub object_type: Option<u32>,
    /// Unique Identifier of the new object.
    pub id: &'a str,
}

/// The answer of a Locate.
#[derive(Drop)]
pub struct Located<'a> {
    /// The Unique Identifiers that are listed, in their order.
    pub ids: Vec<&'a str>,
}

/// The answer of a Get. Fields lie in memory as they stand here, and so the two types take the room of one.
#[derive(Clone, Copy)]
pub struct Got<'a> {
    /// Object Type, which may be another than the object's own.
    pub object_type: Option<ObjectType>,
    /// The type of the object that is shown.
    pub shape: ObjectType,
    /// Unique Identifier.
    pub id: Option<&'a str>,
    pub block: KeyBlock<'a>,
}

/// The answer of a Get Attributes.
#[derive(Drop)]
pub struct GotAttributes<'a> {
    /// Unique Identifier.
    pub id: Option<&'a str>,
    /// The attributes that are shown, none where the answer has no Attributes.
    pub attributes: Box<AttrSet>,
}

/// The answer of an operation that changes an object: an Activate, a Revoke or a Destroy.
#[derive(Clone, Copy)]
pub struct Changed<'a> {
    /// Unique Identifier.
    pub id: Option<&'a str>,
}
