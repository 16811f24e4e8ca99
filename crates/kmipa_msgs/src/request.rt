//! Requests.

ghost use Rattle.std.specs.Prelude.{◌≡◌};

use crate::key_block::KeyBlock;
use crate::operation::Operation;
use kmipa_attrs::{AttrSet, Filter, ObjectType};

/// Batch Error Continuation Option (KMIP 2.1, section 11): what a failed item means for the others.
#[derive(Clone, Copy, PartialEq, Eq)]
pub enum BatchOption {
    Continue = 1,
    Stop = 2,
    Undo = 3,
}

impl BatchOption {
    ghost use Rattle.kmipa_msgs.specs.Numbers.{option_number, option_of};

    /// The number on the wire.
    pub fn number(self) -> u32
        ensures { result ≡ option_number self }
    {
        self as u32
    }

    /// The option with this number, if there is one.
    pub fn of(number: u32) -> Option<BatchOption>
        ensures { result ≡ option_of number }
    {
        match number {
            1 => Some(BatchOption::Continue),
            2 => Some(BatchOption::Stop),
            3 => Some(BatchOption::Undo),
            _ => None,
        }
    }
}

/// A Request Message.
#[derive(Drop)]
pub struct Request<'a> {
    pub option: BatchOption,
    /// Whether the items are to be taken in their order: Batch Order Option.
    pub ordered: bool,
    /// The Batch Items, at least one.
    pub items: Vec<Ask<'a>>,
}

/// A Batch Item of a request.
#[derive(Drop)]
pub struct Ask<'a> {
    /// Unique Batch Item ID.
    pub batch_id: Option<&'a [u8]>,
    pub asked: Asked<'a>,
}

/// What an item asks for: the payload of an operation. Attributes and filters lie in memory of their own, so that an item without
/// them takes little room.
#[derive(Drop)]
pub enum Asked<'a> {
    Create(Create),
    Register(Register<'a>),
    Locate(Locate),
    Get(Get<'a>),
    GetAttributes(GetAttributes<'a>),
    Activate(Activate<'a>),
    Revoke(Revoke<'a>),
    Destroy(Destroy<'a>),
    /// An operation without effect, by its number.
    Idle(u32),
    /// Any other operation, by its number.
    Other(u32),
}

/// What a Create of a Symmetric Key asks for (KMIP 2.1, section 6.1).
#[derive(Drop)]
pub struct Create {
    /// The attributes of the new key, algorithm, length and usage mask among them.
    pub attributes: Box<AttrSet>,
}

/// What a Register brings (KMIP 2.1, section 6.1).
#[derive(Drop)]
pub struct Register<'a> {
    /// The type of the object, also as its attribute and as its tag say it.
    pub object_type: ObjectType,
    /// The attributes of the new object. An algorithm or a length that also stands in the key block is the same there.
    pub attributes: Box<AttrSet>,
    pub block: KeyBlock<'a>,
}

/// What a Locate asks for (KMIP 2.1, section 6.1).
#[derive(Drop)]
pub struct Locate {
    /// What an object is to be, and how many may be listed.
    pub filter: Box<Filter>,
}

/// What a Get asks for (KMIP 2.1, section 6.1).
#[derive(Clone, Copy)]
pub struct Get<'a> {
    /// Unique Identifier; where it is absent the ID Placeholder is meant.
    pub id: Option<&'a str>,
}

/// What a Get Attributes asks for (KMIP 2.1, section 6.1).
#[derive(Drop)]
pub struct GetAttributes<'a> {
    /// Unique Identifier; where it is absent the ID Placeholder is meant.
    pub id: Option<&'a str>,
    /// The tags that Attribute References name as Enumerations, in their order.
    pub references: Vec<u32>,
    /// Whether there is an Attribute Reference of any type; where there is none, all attributes are asked for.
    pub is_selective: bool,
    /// Whether there is an item that is neither the identifier nor an Attribute Reference as an Enumeration.
    pub has_others: bool,
}

/// What an Activate asks for (KMIP 2.1, section 6.1).
#[derive(Clone, Copy)]
pub struct Activate<'a> {
    /// Unique Identifier; where it is absent the ID Placeholder is meant.
    pub id: Option<&'a str>,
}

/// What a Revoke asks for (KMIP 2.1, section 6.1).
#[derive(Clone, Copy)]
pub struct Revoke<'a> {
    /// Unique Identifier; where it is absent the ID Placeholder is meant.
    pub id: Option<&'a str>,
    /// Revocation Reason Code, by its number.
    pub code: u32,
}

/// What a Destroy asks for (KMIP 2.1, section 6.1).
#[derive(Clone, Copy)]
pub struct Destroy<'a> {
    /// Unique Identifier; where it is absent the ID Placeholder is meant.
    pub id: Option<&'a str>,
}

impl<'a> Ask<'a> {
    ghost use Rattle.kmipa_msgs.specs.Operations.{operation_number};
    ghost use Rattle.kmipa_msgs.specs.Messages.{asked_of, operation_asked};

    /// The operation that is asked for.
    pub fn operation(&self) -> Operation
        ensures { result ≡ operation_asked (asked_of self.now.asked) }
    {
        match &self.asked {
            Asked::Create(_) => Operation::Create,
            Asked::Register(_) => Operation::Register,
            Asked::Locate(_) => Operation::Locate,
            Asked::Get(_) => Operation::Get,
            Asked::GetAttributes(_) => Operation::GetAttributes,
            Asked::Activate(_) => Operation::Activate,
            Asked::Revoke(_) => Operation::Revoke,
            Asked::Destroy(_) => Operation::Destroy,
            Asked::Idle(number) => Operation::Idle(*number),
            Asked::Other(number) => Operation::Other(*number),
        }
    }

    /// The number of its operation on the wire.
    pub fn number(&self) -> u32
        ensures { result ≡ operation_number (operation_asked (asked_of self.now.asked)) }
    {
        self.operation().number()
    }
}

impl<'a> Asked<'a> {
    ghost use Rattle.std.specs.Prelude.{◌≡◌};
    ghost use Rattle.kmipa_msgs.specs.Messages.{asked_of, maybe_lent};
    ghost use Rattle.kmipa_msgs.specs.Named.{id_named};

    /// The identifier that is named; none where the ID Placeholder is meant, and where the operation isn't on an object.
    pub fn id(&self) -> Option<&'a str>
        ensures { maybe_lent result ≡ id_named (asked_of self.now) }
    {
        match self {
            Asked::Get(get) => get.id,
            Asked::GetAttributes(get) => get.id,
            Asked::Activate(activate) => activate.id,
            Asked::Revoke(revoke) => revoke.id,
            Asked::Destroy(destroy) => destroy.id,
            _ => None,
        }
    }
}
