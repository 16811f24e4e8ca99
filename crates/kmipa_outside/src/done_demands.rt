//! What the fields of answers and their Response Payloads are to be (KMIP 2.1, sections 6.1 and 9).

ghost use Rattle.std.specs.Prelude.{◌≡◌};
ghost use Rattle.kmipa_outside.specs.DoneDemands.{answer_demands, registered_demands, located_demands, got_demands, got_attributes_demands};

use crate::demand::Demand;
use crate::demands::demands;
use kmipa_attrs::tags::{
    ATTRIBUTES, OBJECT_TYPE, OPERATION, RESULT_REASON, RESULT_STATUS, UNIQUE_IDENTIFIER,
};
use kmipa_msgs::OutsideKind;

/// An item of a response.
pub(crate) fn answer_demands() -> [Demand; 5]
    ensures { result ≡ answer_demands }
{
    demands![
        Here OPERATION (MaybeTyped Enumeration) Missing;
        Here RESULT_STATUS (Typed Enumeration) Missing;
        Here RESULT_STATUS (Other 2) Pending;
        Here RESULT_STATUS (OneOf Statuses) Missing;
        Here RESULT_REASON (MaybeTyped Enumeration) Missing;
    ]
}

/// An object that was made.
pub(crate) fn registered_demands() -> [Demand; 3]
    ensures { result ≡ registered_demands }
{
    demands![
        Here OBJECT_TYPE (MaybeTyped Enumeration) Missing;
        Here UNIQUE_IDENTIFIER (There) Missing;
        Here UNIQUE_IDENTIFIER (MaybeTyped Text) IdentifierForm;
    ]
}

/// Identifiers that were found.
pub(crate) fn located_demands() -> [Demand; 1]
    ensures { result ≡ located_demands }
{
    demands![
        Here UNIQUE_IDENTIFIER (EachTyped Text) IdentifierForm;
    ]
}

/// An object that is shown.
pub(crate) fn got_demands() -> [Demand; 4]
    ensures { result ≡ got_demands }
{
    demands![
        Here OBJECT_TYPE (MaybeTyped Enumeration) Missing;
        Here OBJECT_TYPE (OneOf ObjectTypes) ObjectType;
        Here UNIQUE_IDENTIFIER (MaybeTyped Text) IdentifierForm;
        Here Object (There) Missing;
    ]
}

/// Attributes that are shown.
pub(crate) fn got_attributes_demands() -> [Demand; 3]
    ensures { result ≡ got_attributes_demands }
{
    demands![
        Here UNIQUE_IDENTIFIER (MaybeTyped Text) IdentifierForm;
        Here ATTRIBUTES (MaybeTyped Structure) Missing;
        Attributes OBJECT_TYPE (OneOf ObjectTypes) ObjectType;
    ]
}
