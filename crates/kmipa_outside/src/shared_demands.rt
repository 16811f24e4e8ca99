//! What payloads share: the Key Block of an object, and attributes (KMIP 2.1, sections 3.1 and 4).

ghost use Rattle.std.specs.Prelude.{◌≡◌};
ghost use Rattle.kmipa_outside.specs.SharedDemands.{block_demands, attribute_demands, client_demands, filter_demands};

use crate::demand::Demand;
use crate::demands::demands;
use kmipa_attrs::tags::{
    ACTIVATION_DATE, COMPROMISE_DATE, CRYPTOGRAPHIC_ALGORITHM, CRYPTOGRAPHIC_LENGTH,
    CRYPTOGRAPHIC_USAGE_MASK, DEACTIVATION_DATE, DESTROY_DATE, INITIAL_DATE, KEY_FORMAT_TYPE,
    KEY_MATERIAL, KEY_VALUE, KEY_WRAPPING_DATA, NAME, OBJECT_TYPE, STATE, UNIQUE_IDENTIFIER,
};
use kmipa_msgs::OutsideKind;

/// A Key Block.
pub(crate) fn block_demands() -> [Demand; 9]
    ensures { result ≡ block_demands }
{
    demands![
        Block KEY_WRAPPING_DATA (Nothing) Wrapped;
        Block KEY_FORMAT_TYPE (Typed Enumeration) Missing;
        Block KEY_FORMAT_TYPE (OneOf KeyFormats) Format;
        Block KEY_VALUE (There) Missing;
        Block KEY_VALUE (MaybeTyped Structure) Format;
        Value KEY_MATERIAL (There) Missing;
        Value KEY_MATERIAL (MaybeTyped Bytes) Format;
        Block CRYPTOGRAPHIC_ALGORITHM (MaybeTyped Enumeration) Missing;
        Block CRYPTOGRAPHIC_LENGTH (MaybeTyped Integer) Missing;
    ]
}

/// The attributes that have one value, and their types.
macro_rules! single_attributes {
    ($rows:ident) => {
        $rows![
            OBJECT_TYPE Enumeration,
            CRYPTOGRAPHIC_ALGORITHM Enumeration,
            CRYPTOGRAPHIC_LENGTH Integer,
            CRYPTOGRAPHIC_USAGE_MASK Integer,
            STATE Enumeration,
            INITIAL_DATE DateTime,
            ACTIVATION_DATE DateTime,
            DEACTIVATION_DATE DateTime,
            DESTROY_DATE DateTime,
            COMPROMISE_DATE DateTime,
        ]
    };
}

/// Names, and that each of these attributes has its type.
macro_rules! typed {
    ($($tag:ident $of:ident,)+) => {
        demands![
            Attributes NAME (EachName) Attribute;
            $(Attributes $tag (EachTyped $of) Attribute;)+
        ]
    };
}

/// The same, and that each is there once at most.
macro_rules! typed_once {
    ($($tag:ident $of:ident,)+) => {
        demands![
            Attributes NAME (EachName) Attribute;
            $(
                Attributes $tag (EachTyped $of) Attribute;
                Attributes $tag (Once) Attribute;
            )+
        ]
    };
}

/// Attributes, by whomever they are given.
pub(crate) fn attribute_demands() -> [Demand; 21]
    ensures { result ≡ attribute_demands }
{
    single_attributes!(typed_once)
}

/// Attributes that no client may give.
pub(crate) fn client_demands() -> [Demand; 5]
    ensures { result ≡ client_demands }
{
    demands![
        Attributes STATE (Nothing) Attribute;
        Attributes INITIAL_DATE (Nothing) Attribute;
        Attributes DESTROY_DATE (Nothing) Attribute;
        Attributes COMPROMISE_DATE (Nothing) Attribute;
        Attributes UNIQUE_IDENTIFIER (Nothing) Attribute;
    ]
}

/// The filters of a Locate: their types alone.
pub(crate) fn filter_demands() -> [Demand; 11]
    ensures { result ≡ filter_demands }
{
    single_attributes!(typed)
}
