//! What the fields of Request Payloads are to be (KMIP 2.1, section 6.1).

ghost use Rattle.std.specs.Prelude.{◌≡◌};
ghost use Rattle.kmipa_outside.specs.AskedDemands.{create_demands, register_demands, locate_demands, get_demands, revoke_demands, identifier_demands};

use crate::demand::Demand;
use crate::demands::demands;
use kmipa_attrs::tags::{
    ATTRIBUTES, CRYPTOGRAPHIC_ALGORITHM, CRYPTOGRAPHIC_LENGTH, CRYPTOGRAPHIC_USAGE_MASK,
    KEY_WRAPPING_SPECIFICATION, MAXIMUM_ITEMS, OBJECT_TYPE, REVOCATION_REASON_CODE,
    UNIQUE_IDENTIFIER,
};
use kmipa_msgs::OutsideKind;

/// A Create.
pub(crate) fn create_demands() -> [Demand; 7]
    ensures { result ≡ create_demands }
{
    demands![
        Here OBJECT_TYPE (Typed Enumeration) Missing;
        Here OBJECT_TYPE (OneOf CreatedType) ObjectType;
        Here ATTRIBUTES (MaybeTyped Structure) Missing;
        Attributes OBJECT_TYPE (OneOf ObjectTypes) ObjectType;
        Attributes CRYPTOGRAPHIC_ALGORITHM (There) Missing;
        Attributes CRYPTOGRAPHIC_LENGTH (There) Missing;
        Attributes CRYPTOGRAPHIC_USAGE_MASK (There) Missing;
    ]
}

/// A Register.
pub(crate) fn register_demands() -> [Demand; 5]
    ensures { result ≡ register_demands }
{
    demands![
        Here OBJECT_TYPE (Typed Enumeration) Missing;
        Here OBJECT_TYPE (OneOf ObjectTypes) ObjectType;
        Here ATTRIBUTES (MaybeTyped Structure) Missing;
        Attributes OBJECT_TYPE (OneOf ObjectTypes) ObjectType;
        Here Object (There) Missing;
    ]
}

/// A Locate.
pub(crate) fn locate_demands() -> [Demand; 3]
    ensures { result ≡ locate_demands }
{
    demands![
        Here MAXIMUM_ITEMS (MaybeTyped Integer) Missing;
        Here ATTRIBUTES (MaybeTyped Structure) Missing;
        Attributes OBJECT_TYPE (OneOf ObjectTypes) ObjectType;
    ]
}

/// A Get.
pub(crate) fn get_demands() -> [Demand; 2]
    ensures { result ≡ get_demands }
{
    demands![
        Here UNIQUE_IDENTIFIER (MaybeTyped Text) IdentifierForm;
        Here KEY_WRAPPING_SPECIFICATION (Nothing) Wrapped;
    ]
}

/// A Revoke.
pub(crate) fn revoke_demands() -> [Demand; 2]
    ensures { result ≡ revoke_demands }
{
    demands![
        Here UNIQUE_IDENTIFIER (MaybeTyped Text) IdentifierForm;
        Revocation REVOCATION_REASON_CODE (Typed Enumeration) Missing;
    ]
}

/// A payload that has at most an identifier.
pub(crate) fn identifier_demands() -> [Demand; 1]
    ensures { result ≡ identifier_demands }
{
    demands![
        Here UNIQUE_IDENTIFIER (MaybeTyped Text) IdentifierForm;
    ]
}
