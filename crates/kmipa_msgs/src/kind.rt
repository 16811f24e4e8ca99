//! Why a message is outside the profile.

ghost use Rattle.std.specs.Prelude.{◌≡◌};

use kmipa_attrs::Numbered;

/// What a message has that the profile leaves out. Of several at one item the lowest number is reported.
#[derive(Clone, Copy, Debug, PartialEq, Eq)]
pub enum OutsideKind {
    /// The bytes aren't one item, or the item isn't a message of this side with its header.
    NotAMessage = 1,
    /// The Protocol Version isn't there, or isn't 2.1.
    Version = 2,
    /// The Batch Count isn't there, is 0, or isn't the number of Batch Items.
    Count = 3,
    /// An operation that isn't judged.
    Operation = 4,
    /// An Object Type that isn't judged.
    ObjectType = 5,
    /// A Unique Identifier that isn't a text.
    IdentifierForm = 6,
    /// A wrapped key, or one asked for.
    Wrapped = 7,
    /// A key that isn't raw or opaque bytes.
    Format = 8,
    /// A required field that isn't there, or a field of another type or number than its own.
    Missing = 9,
    /// Attributes that aren't a set of judged attributes.
    Attribute = 10,
    /// An answer that is still to come.
    Pending = 11,
    /// Two fields of a Register that should be equal and aren't.
    Disagree = 12,
    /// Several items in no order.
    Unordered = 13,
}

impl OutsideKind {
    ghost use Rattle.kmipa_msgs.specs.Kinds.{kind_number, kind_name};

    /// The number, from 1 to 13.
    pub fn number(self) -> u8
        ensures { result ≡ kind_number self }
    {
        self as u8
    }

    /// The name, as it is written here.
    pub fn name(self) -> &'static str
        ensures { result.now ≡ kind_name self }
    {
        match self {
            OutsideKind::NotAMessage => "NotAMessage",
            OutsideKind::Version => "Version",
            OutsideKind::Count => "Count",
            OutsideKind::Operation => "Operation",
            OutsideKind::ObjectType => "ObjectType",
            OutsideKind::IdentifierForm => "IdentifierForm",
            OutsideKind::Wrapped => "Wrapped",
            OutsideKind::Format => "Format",
            OutsideKind::Missing => "Missing",
            OutsideKind::Attribute => "Attribute",
            OutsideKind::Pending => "Pending",
            OutsideKind::Disagree => "Disagree",
            OutsideKind::Unordered => "Unordered",
        }
    }
}

impl Numbered for OutsideKind {
    ghost use Rattle.kmipa_msgs.specs.Kinds.{kind_number};

    ghost number = { kind_number };

    fn number(self) -> u8 {
        self as u8
    }
}
