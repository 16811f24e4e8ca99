//! Why an answer is impossible.

/// Why an answer is impossible. Of several that hold at one item the lowest is told.
#[derive(Clone, Copy, PartialEq, Eq)]
pub enum Why {
    /// Some call not yet taken ended before this call began.
    EarlierCallLate = 1,
    /// The Time Stamp is less than that of the call taken before.
    StampRunsBack = 2,
    /// The answer is missing, or one too many, or has a status that the batch excludes.
    BatchShape = 3,
    /// The answer's Operation isn't the request's.
    OperationDiffers = 4,
    /// Success for an identifier that isn't in the inventory, or for an empty placeholder.
    NoSuchObject = 5,
    /// Success where the object's state excludes it.
    WrongState = 6,
    /// An object, destroyed or not, has the identifier of the new one.
    IdentifierTaken = 7,
    /// Names are unique, and a live object has one of the new object's.
    NameTaken = 8,
    /// Other bytes are known of this object.
    BytesDiffer = 9,
    /// The bytes, or the length asked for, are none that such an object can have.
    LengthImpossible = 10,
    /// An attribute that is shown isn't the object's.
    AttributeDiffers = 11,
    /// A required attribute isn't shown.
    AttributeMissing = 12,
    /// An object is listed that doesn't fit, or twice, or one too many.
    ListedWrongly = 13,
    /// An object that fits isn't listed.
    ListedTooFew = 14,
    /// None of the causes of the failure's reason holds.
    ReasonUnfounded = 15,
    /// A field that repeats one of the request, or the identifier, isn't the one expected.
    EchoDiffers = 16,
    /// A hidden object is told of, or something is done with it, where the server has to hide it.
    NotVisible = 17,
}

impl Why {
    ghost use Rattle.std.specs.Prelude.{◌≡◌};
    ghost use Rattle.kmipa_ops.specs.Whys.{why_name, why_number};

    /// The number, from 1 to 17.
    pub fn number(self) -> u8
        ensures { result ≡ why_number self }
    {
        self as u8
    }

    /// The name, as it is written here.
    pub fn name(self) -> &'static str
        ensures { result.now ≡ why_name self }
    {
        match self {
            Why::EarlierCallLate => "EarlierCallLate",
            Why::StampRunsBack => "StampRunsBack",
            Why::BatchShape => "BatchShape",
            Why::OperationDiffers => "OperationDiffers",
            Why::NoSuchObject => "NoSuchObject",
            Why::WrongState => "WrongState",
            Why::IdentifierTaken => "IdentifierTaken",
            Why::NameTaken => "NameTaken",
            Why::BytesDiffer => "BytesDiffer",
            Why::LengthImpossible => "LengthImpossible",
            Why::AttributeDiffers => "AttributeDiffers",
            Why::AttributeMissing => "AttributeMissing",
            Why::ListedWrongly => "ListedWrongly",
            Why::ListedTooFew => "ListedTooFew",
            Why::ReasonUnfounded => "ReasonUnfounded",
            Why::EchoDiffers => "EchoDiffers",
            Why::NotVisible => "NotVisible",
        }
    }
}

/// Why an item wasn't taken.
#[derive(Clone, Copy, PartialEq, Eq)]
pub enum Refusal {
    /// No inventory that the ledger stands for allows the answer.
    Impossible(Why),
    /// Memory ran out, which says nothing of the answer.
    Memory,
}
