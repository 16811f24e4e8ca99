//! Operations, by what is read of them.

ghost use Rattle.std.specs.Prelude.{◌≡◌};

/// An operation (KMIP 2.1, section 11).
#[derive(Clone, Copy, PartialEq, Eq)]
pub enum Operation {
    Create,
    Register,
    Locate,
    Get,
    GetAttributes,
    Activate,
    Revoke,
    Destroy,
    /// One without effect, by its number: Query or Discover Versions. Its payloads are not read.
    Idle(u32),
    /// Any other, by its number. It may only fail, and its payloads are not read.
    Other(u32),
}

impl Operation {
    ghost use Rattle.std.specs.Prelude.{IsTrue, ◌↔◌};
    ghost use Rattle.kmipa_msgs.specs.Replies.{may_be_bare};
    ghost use Rattle.kmipa_msgs.specs.Wanted.{NeedsPayload};
    ghost use Rattle.kmipa_msgs.specs.Operations.{operation_number, operation_of, is_judged, is_on_object};

    /// The number on the wire.
    pub fn number(self) -> u32
        ensures { result ≡ operation_number self }
    {
        match self {
            Operation::Create => 1,
            Operation::Register => 3,
            Operation::Locate => 8,
            Operation::Get => 10,
            Operation::GetAttributes => 11,
            Operation::Activate => 18,
            Operation::Revoke => 19,
            Operation::Destroy => 20,
            Operation::Idle(number) | Operation::Other(number) => number,
        }
    }

    /// The operation with this number, which each number has.
    pub fn of(number: u32) -> Operation
        ensures { result ≡ operation_of number }
    {
        match number {
            1 => Operation::Create,
            3 => Operation::Register,
            8 => Operation::Locate,
            10 => Operation::Get,
            11 => Operation::GetAttributes,
            18 => Operation::Activate,
            19 => Operation::Revoke,
            20 => Operation::Destroy,
            24 | 30 => Operation::Idle(number),
            _ => Operation::Other(number),
        }
    }

    /// Whether it is on an object, which its request names, or means by the ID Placeholder.
    pub fn is_on_object(self) -> bool
        ensures { result ≡ is_on_object self }
    {
        match self {
            Operation::Get | Operation::GetAttributes => true,
            Operation::Activate | Operation::Revoke | Operation::Destroy => true,
            Operation::Create | Operation::Register | Operation::Locate => false,
            Operation::Idle(_) | Operation::Other(_) => false,
        }
    }

    /// Whether its payloads are read.
    pub(crate) fn is_judged(self) -> bool
        ensures { result ≡ is_judged self }
    {
        match self {
            Operation::Create
            | Operation::Register
            | Operation::Locate
            | Operation::Get
            | Operation::GetAttributes
            | Operation::Activate
            | Operation::Revoke
            | Operation::Destroy => true,
            Operation::Idle(_) | Operation::Other(_) => false,
        }
    }

    /// Whether its Response Payload may be absent, which is then read as empty.
    pub(crate) fn may_be_bare(self) -> bool
        ensures { result ≡ may_be_bare self }
    {
        match self {
            Operation::Locate
            | Operation::GetAttributes
            | Operation::Activate
            | Operation::Revoke
            | Operation::Destroy => true,
            Operation::Create
            | Operation::Register
            | Operation::Get
            | Operation::Idle(_)
            | Operation::Other(_) => false,
        }
    }

    /// Whether what it did can't be judged without its Response Payload.
    pub(crate) fn needs_payload(self) -> bool
        ensures { IsTrue result ↔ NeedsPayload self }
    {
        match self {
            Operation::Create | Operation::Register | Operation::Locate => true,
            Operation::Get
            | Operation::GetAttributes
            | Operation::Activate
            | Operation::Revoke
            | Operation::Destroy
            | Operation::Idle(_)
            | Operation::Other(_) => false,
        }
    }
}
