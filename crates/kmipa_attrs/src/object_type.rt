//! The types of objects that are judged.

/// Object Type (KMIP 2.1, section 11.33), of the two types that are judged.
#[derive(Clone, Copy, PartialEq, Eq)]
pub enum ObjectType {
    SymmetricKey = 2,
    SecretData = 7,
}

impl ObjectType {
    ghost use Rattle.std.specs.Prelude.{◌≡◌};
    ghost use Rattle.kmipa_attrs.specs.ObjectTypes.{type_number, type_of, type_name};

    /// The number on the wire.
    pub fn number(self) -> u32
        ensures { result ≡ type_number self }
    {
        self as u32
    }

    /// The type with this number, if it is one of the two.
    pub fn of(number: u32) -> Option<ObjectType>
        ensures { result ≡ type_of number }
    {
        match number {
            2 => Some(ObjectType::SymmetricKey),
            7 => Some(ObjectType::SecretData),
            _ => None,
        }
    }

    /// The name in the standard.
    pub fn name(self) -> &'static str
        ensures { result.now ≡ type_name self }
    {
        match self {
            ObjectType::SymmetricKey => "Symmetric Key",
            ObjectType::SecretData => "Secret Data",
        }
    }
}
