//! What bytes an object may have.

ghost use Rattle.std.specs.Prelude.{◌≡◌};
ghost use Rattle.kmipa_attrs.specs.Sets.{attributes_of};
ghost use Rattle.kmipa_object.specs.Inventory.{admits, given_of, possible, rule_for};

use kmipa_attrs::{AttrSet, ObjectType};

/// Cryptographic Algorithm AES (KMIP 2.1, section 11).
const AES: u32 = 3;

/// What the bytes of an object must be.
#[derive(Clone, Copy, PartialEq, Eq)]
pub enum Rule {
    /// Any bytes, also none.
    Any,
    /// This many bits, a positive multiple of 8.
    Bits(i32),
}

impl Rule {
    /// The rule of an object of this type with these attributes.
    pub fn of(kind: ObjectType, given: &AttrSet) -> Rule
        ensures { result ≡ rule_for kind (given_of (attributes_of given.now)) }
    {
        match (kind, given.algorithm, given.length) {
            (ObjectType::SymmetricKey, Some(AES), Some(bits)) => Rule::Bits(bits),
            _ => Rule::Any,
        }
    }

    /// Whether it admits these bytes.
    pub fn admits(self, bytes: &[u8]) -> bool
        ensures { result ≡ admits self bytes.now }
    {
        match self {
            Rule::Any => true,
            Rule::Bits(bits) => bits > 0 && bits as u128 == 8 * bytes.len() as u128,
        }
    }

    /// Whether it admits any bytes at all.
    pub fn is_possible(self) -> bool
        ensures { result ≡ possible self }
    {
        match self {
            Rule::Any => true,
            Rule::Bits(bits) => bits > 0 && bits % 8 == 0,
        }
    }
}
