//! Laws of the definitions.

ghost use Rattle.std.specs.Prelude.{ℕ};
ghost use Rattle.kmipa_ttlv.specs.Tree.{Tree};
ghost use Rattle.kmipa_msgs.specs.Messages.{AskOf, RequestOf};
ghost use Rattle.kmipa_msgs.specs.Outside.{IsSaidOrOutside};
ghost use Rattle.kmipa_msgs.specs.Payloads.{SaysPayload, PayloadFault};
ghost use Rattle.kmipa_msgs.specs.Requests.{SaysRequest, RequestFault};
ghost use Rattle.kmipa_msgs.specs.Responses.{SaysResponse, ResponseFault};
ghost use Rattle.kmipa_msgs.specs.Sayable.{SayableIsSaid};

/// An item says exactly one request, or is outside at one item with one kind.
pub fn one_request()
    ensures { (t : Tree) → IsSaidOrOutside (SaysRequest t) (RequestFault t) }
{}

/// An item says exactly one response to a request, or is outside at one item with one kind.
pub fn one_response()
    ensures { (t : Tree) (request : RequestOf) → IsSaidOrOutside (SaysResponse t request) (ResponseFault t request) }
{}

/// An item says exactly one payload for what was asked, or is outside with one kind.
pub fn one_payload()
    ensures { (t : Tree) (ask : AskOf) → IsSaidOrOutside (SaysPayload t ask) (PayloadFault t ask) }
{}

/// Some item says a payload exactly where it is one of the operation asked for, and each of its fields can be said.
pub fn sayable_is_said()
    ensures { SayableIsSaid }
{}
