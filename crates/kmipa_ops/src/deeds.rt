//! The list of the operations.

ghost use Rattle.std.specs.Prelude.{◌≡◌, None, option_map};
ghost use Rattle.kmipa_msgs.specs.Messages.{asked_of, maybe_lent, payload_of};
ghost use Rattle.kmipa_ops.specs.After.{placeholder_done};
ghost use Rattle.kmipa_ops.specs.Rows.{about_asked, effect_asked, subject_asked};
ghost use Rattle.kmipa_ops.specs.Subjects.{effect_of, subject_of};

use crate::change::Change;
use crate::changing::{Changing, changing_row};
use crate::deed::Deed;
use crate::idle::Unjudged;
use crate::operation_row::{Effect, OperationRow, Subject};
use kmipa_msgs::{Asked, Payload};

/// What to do with the deed that is asked for, whichever it is.
macro_rules! with_deed {
    ($asked:expr, $deed:ident, $then:expr) => {
        match $asked {
            Asked::Create($deed) => $then,
            Asked::Register($deed) => $then,
            Asked::Locate($deed) => $then,
            Asked::Get($deed) => $then,
            Asked::GetAttributes($deed) => $then,
            Asked::Activate(activate) => {
                let $deed = &Changing {
                    id: activate.id,
                    change: Change::Activate,
                };
                $then
            }
            Asked::Revoke(revoke) => {
                let $deed = &Changing {
                    id: revoke.id,
                    change: Change::Revoke(revoke.code),
                };
                $then
            }
            Asked::Destroy(destroy) => {
                let $deed = &Changing {
                    id: destroy.id,
                    change: Change::Destroy,
                };
                $then
            }
            Asked::Idle(number) => {
                let $deed = &Unjudged::Idle(*number);
                $then
            }
            Asked::Other(number) => {
                let $deed = &Unjudged::Unread(*number);
                $then
            }
        }
    };
}

pub(crate) use with_deed;

/// What the operation that is asked for is: whom it is about, and what it does.
pub fn row_of<'b>(asked: &'b Asked<'b>) -> OperationRow<'b>
    ensures subject { subject_of result.subject ≡ subject_asked (asked_of asked.now) }
    ensures effect { effect_of result.effect ≡ effect_asked (asked_of asked.now) }
{
    match asked {
        Asked::Create(create) => create.row(),
        Asked::Register(register) => register.row(),
        Asked::Locate(locate) => locate.row(),
        Asked::Get(get) => get.row(),
        Asked::GetAttributes(get) => get.row(),
        Asked::Activate(activate) => changing_row(activate.id, Change::Activate),
        Asked::Revoke(revoke) => changing_row(revoke.id, Change::Revoke(revoke.code)),
        Asked::Destroy(destroy) => changing_row(destroy.id, Change::Destroy),
        Asked::Idle(_) => OperationRow {
            subject: Subject::Nothing,
            effect: Effect::Nothing,
        },
        Asked::Other(_) => OperationRow {
            subject: Subject::Nothing,
            effect: Effect::Unread,
        },
    }
}

/// The identifier that the ID Placeholder holds after an item that was done, where it held this.
pub fn held_after<'p>(
    asked: &Asked,
    held: Option<&'p str>,
    payload: &Option<Payload<'p>>,
) -> Option<&'p str>
    ensures { maybe_lent result ≡ placeholder_done (maybe_lent held.entry) (asked_of asked.now)
        (option_map payload_of payload.now) }
{
    with_deed!(asked, deed, deed.holds(held, payload))
}

/// The identifier of the object that an item is about, where the ID Placeholder holds this: of a new object the one that is answered, of
/// another the one that is named, or else the placeholder's.
pub fn about<'p>(
    asked: &'p Asked<'p>,
    held: Option<&'p str>,
    payload: &Option<Payload<'p>>,
) -> Option<&'p str>
    ensures { maybe_lent result ≡ about_asked (maybe_lent held.entry) (asked_of asked.now)
        (option_map payload_of payload.now) }
{
    match row_of(asked).subject {
        Subject::Object(id, _, _) => id.or(held),
        Subject::Names(_) => held_after(asked, None, payload),
        Subject::Nothing => None,
    }
}
