//! The attributes that a server itself may give an object at birth.

ghost use Rattle.std.specs.Prelude.{◌≡◌};
ghost use Rattle.kmipa_record.specs.Lines.{own_tag, own_attribute_of};

use kmipa_attrs::tags::{
    ACTIVATION_DATE, CRYPTOGRAPHIC_ALGORITHM, CRYPTOGRAPHIC_LENGTH, CRYPTOGRAPHIC_USAGE_MASK,
    DEACTIVATION_DATE, NAME,
};

/// An attribute that a server itself may give an object at birth, where its declaration says so.
#[derive(Clone, Copy, PartialEq, Eq)]
pub enum OwnAttribute {
    Name,
    CryptographicAlgorithm,
    CryptographicLength,
    CryptographicUsageMask,
    ActivationDate,
    DeactivationDate,
}

impl OwnAttribute {
    /// The tag of the attribute.
    pub fn tag(self) -> u32
        ensures { result ≡ own_tag self }
    {
        match self {
            OwnAttribute::Name => NAME,
            OwnAttribute::CryptographicAlgorithm => CRYPTOGRAPHIC_ALGORITHM,
            OwnAttribute::CryptographicLength => CRYPTOGRAPHIC_LENGTH,
            OwnAttribute::CryptographicUsageMask => CRYPTOGRAPHIC_USAGE_MASK,
            OwnAttribute::ActivationDate => ACTIVATION_DATE,
            OwnAttribute::DeactivationDate => DEACTIVATION_DATE,
        }
    }

    /// The attribute with this tag, if it is one of them.
    pub fn of(tag: u32) -> Option<OwnAttribute>
        ensures { result ≡ own_attribute_of tag }
    {
        match tag {
            NAME => Some(OwnAttribute::Name),
            CRYPTOGRAPHIC_ALGORITHM => Some(OwnAttribute::CryptographicAlgorithm),
            CRYPTOGRAPHIC_LENGTH => Some(OwnAttribute::CryptographicLength),
            CRYPTOGRAPHIC_USAGE_MASK => Some(OwnAttribute::CryptographicUsageMask),
            ACTIVATION_DATE => Some(OwnAttribute::ActivationDate),
            DEACTIVATION_DATE => Some(OwnAttribute::DeactivationDate),
            _ => None,
        }
    }
}
