//! What a server held where an item was refused: the causes of the reasons that speak of an object.

use kmipa_attrs::{Name, ObjectType};
use kmipa_msgs::Cause as FailureCause;
use kmipa_object::{Act, Allow, State};
use kmipa_ops::Judged;

/// The object as an operation on it is judged.
#[derive(Clone, Copy, PartialEq, Eq)]
pub struct StateHeld {
    /// Its row in the table of states.
    pub act: Act,
    /// The object's state at the moment of the call.
    pub state: State,
    /// What the server's rules say of the operation in that state; of `WrongState` that they exclude it.
    pub allow: Allow,
    /// Whether the declaration has a line that says so, in place of the table.
    pub by_line: bool,
    pub dates: DatesHeld,
}

/// The dates of an object, in seconds since 1970.
#[derive(Clone, Copy, PartialEq, Eq)]
pub struct DatesHeld {
    /// Initial Date.
    pub initial: Option<i64>,
    /// Activation Date.
    pub activation: Option<i64>,
    /// Deactivation Date.
    pub deactivation: Option<i64>,
    /// Destroy Date.
    pub destroy: Option<i64>,
    /// Compromise Date.
    pub compromise: Option<i64>,
}

/// Of `BytesDiffer`: the bytes that are known of an object, and those that are shown. They are told by their lengths and the place where
/// they part.
#[derive(Clone, Copy, PartialEq, Eq)]
pub struct BytesHeld {
    /// How many bytes are known.
    pub known: usize,
    /// How many the answer shows.
    pub shown: usize,
    /// The first place, counted from 0, where they differ. Where one is a beginning of the other that is where it ends.
    pub differ_at: usize,
}

/// Of `NameTaken`: a name that is asked for, and a live object that has it.
#[derive(Drop)]
pub struct NameHeld {
    pub name: Name,
    /// The identifier of the object.
    pub bearer: String,
}

/// Of `LengthImpossible`: what these bytes, or any, can not be the key of.
#[derive(Clone, Copy, PartialEq, Eq)]
pub struct LengthHeld {
    pub object_type: ObjectType,
    /// Cryptographic Algorithm, by its number.
    pub algorithm: Option<u32>,
    /// Cryptographic Length, in bits.
    pub length: Option<i32>,
    /// How many bytes are shown or registered; none of a Create, whose bytes nobody has seen.
    pub bytes: Option<usize>,
}

/// Of `AttributeDiffers` and `AttributeMissing`: the attributes that speak against the answer.
#[derive(Drop)]
pub struct AttributesHeld {
    /// Of `AttributeDiffers` the names that are shown and that the object doesn't have; of `AttributeMissing` those that it has and that
    /// aren't shown.
    pub names: Vec<Name>,
    /// The other attributes: those that are shown otherwise than the object has them, or that are missing.
    pub values: Vec<ValueHeld>,
}

/// An attribute other than a name, as it is shown and as the object has it: a number, or seconds since 1970.
#[derive(Clone, Copy, PartialEq, Eq)]
pub struct ValueHeld {
    pub attribute: Judged,
    pub shown: Option<i64>,
    pub held: Option<i64>,
}

/// Of `ListedWrongly`: a list that holds what may not be listed, or too much.
#[derive(Drop)]
pub struct ListHeld {
    /// How many identifiers are listed.
    pub listed: usize,
    /// Maximum Items, where more are listed.
    pub maximum: Option<i32>,
    /// Each identifier that is wrong, in the order of the list.
    pub wrong: Vec<WronglyListed>,
}

/// An identifier that may not be listed.
#[derive(Drop)]
pub struct WronglyListed {
    pub identifier: String,
    pub fault: ListFault,
}

/// Why an identifier may not be listed.
#[derive(Clone, Copy, PartialEq, Eq)]
pub enum ListFault {
    /// It stands further ahead in the list, too.
    Again,
    /// The server held no object of it.
    Absent,
    /// This filter says no of its object.
    Excluded(Judged),
}

/// Of `ListedTooFew`: an object that must be listed, and isn't.
#[derive(Drop)]
pub struct LeftOutHeld {
    pub identifier: String,
    /// Initial Date: when it was made, in seconds since 1970.
    pub initial: Option<i64>,
}

/// Of `ReasonUnfounded`: a Result Reason of which no cause holds.
#[derive(Drop)]
pub struct ReasonHeld {
    /// Result Reason, by its number.
    pub reason: u32,
    /// What may be behind it by the rules of the server, row by row.
    pub causes: Vec<FailureCause>,
    /// The object that is meant, where the operation is on one, and the server held it.
    pub object: Option<StateHeld>,
}

/// Of `EchoDiffers`: what the answer repeats otherwise than it was asked.
#[derive(Drop)]
pub enum EchoHeld {
    /// Unique Batch Item ID: as it was asked, and as it is answered.
    BatchItem(Vec<u8>, Vec<u8>),
    /// Unique Identifier: the one that is meant, and the one that is answered.
    Identifier(String, String),
    /// Object Type of a new object: as it was asked for, and as it is answered, by its number.
    ObjectType(ObjectType, u32),
}
