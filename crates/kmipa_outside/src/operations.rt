//! Operations, by what their payloads are.

ghost use Rattle.std.specs.Prelude.{◌≡◌};
ghost use Rattle.kmipa_msgs.specs.Operations.{is_judged};
ghost use Rattle.kmipa_msgs.specs.Replies.{may_be_bare};
ghost use Rattle.kmipa_outside.specs.Requests.{is_on_object};

use kmipa_msgs::Operation;

/// Whether the payloads of an operation are read.
pub(crate) fn is_judged(operation: Operation) -> bool
    ensures { result ≡ is_judged operation }
{
    match operation {
        Operation::Idle(_) | Operation::Other(_) => false,
        _ => true,
    }
}

/// Whether an operation is one on an object.
pub(crate) fn is_on_object(operation: Operation) -> bool
    ensures { result ≡ is_on_object operation }
{
    match operation {
        Operation::Get
        | Operation::GetAttributes
        | Operation::Activate
        | Operation::Revoke
        | Operation::Destroy => true,
        _ => false,
    }
}

/// Whether the Response Payload of an operation may be absent.
pub(crate) fn may_be_bare(operation: Operation) -> bool
    ensures { result ≡ may_be_bare operation }
{
    match operation {
        Operation::Locate
        | Operation::GetAttributes
        | Operation::Activate
        | Operation::Revoke
        | Operation::Destroy => true,
        _ => false,
    }
}
