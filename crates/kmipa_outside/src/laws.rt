//! What the tables of demands say together.

ghost use Rattle.kmipa_outside.specs.Laws.{AgreementsAreReasons, AskedDemandsAreReasons, AskedReasonsAreDemanded, DoneDemandsAreReasons, DoneReasonsAreDemanded, RequestFieldsAreReasons, RequestReasonsHaveFields, ResponseFieldsAreReasons, ResponseReasonsHaveFields};

/// Where a demand on a Request Payload fails, the payload is outside for the demand's kind.
pub fn asked_demands_are_reasons()
    ensures { AskedDemandsAreReasons }
{}

/// Where a Request Payload is outside for a kind, a demand of this kind fails, or two fields that are to say the same don't.
pub fn asked_reasons_are_demanded()
    ensures { AskedReasonsAreDemanded }
{}

/// Where two fields of a Request Payload that are to say the same don't, and nothing else is at fault, it is outside for `Disagree`.
pub fn agreements_are_reasons()
    ensures { AgreementsAreReasons }
{}

/// Where a demand on a Response Payload fails, the payload is outside for the demand's kind.
pub fn done_demands_are_reasons()
    ensures { DoneDemandsAreReasons }
{}

/// Where a Response Payload is outside for a kind, a demand of this kind fails.
pub fn done_reasons_are_demanded()
    ensures { DoneReasonsAreDemanded }
{}

/// Where fields of a request are told at an item for a kind other than `Unordered`, the request is outside there for this kind; for
/// `Disagree` where the item has no other fault.
pub fn request_fields_are_reasons()
    ensures { RequestFieldsAreReasons }
{}

/// Where a request is outside at an item for a kind, fields are told of it.
pub fn request_reasons_have_fields()
    ensures { RequestReasonsHaveFields }
{}

/// Where fields of a response are told at an item, it is outside there for this kind.
pub fn response_fields_are_reasons()
    ensures { ResponseFieldsAreReasons }
{}

/// Where a response itself is outside, fields are told of it.
pub fn response_reasons_have_fields()
    ensures { ResponseReasonsHaveFields }
{}
