//! Activate, Revoke and Destroy, as operations.

ghost use Rattle.std.specs.Prelude.{◌≡◌, false};
ghost use Rattle.kmipa_msgs.specs.Messages.{maybe_lent};
ghost use Rattle.kmipa_ops.specs.Changes.{act_of, asked_change};
ghost use Rattle.kmipa_ops.specs.Effects.{changes};
ghost use Rattle.kmipa_ops.specs.Row.{on_object};
ghost use Rattle.kmipa_ops.specs.Subjects.{effect_of, subject_of};

use crate::change::{Change, act_of, change_object, id_shown, is_change, why_not_changed};
use crate::deed::{Before, Deed};
use crate::operation_row::{Effect, OperationRow, Subject};
use crate::placeholder::Placeholder;
use crate::why::Why;
use kmipa_msgs::Payload;
use kmipa_store::Ledger;
use std::alloc::{AllocError, Global};

/// An operation that changes the object that is meant, and the identifier that it names.
#[derive(Clone, Copy)]
pub struct Changing<'a> {
    pub id: Option<&'a str>,
    pub change: Change,
}

impl<'a> Deed for Changing<'a> {
    ghost asked = { λ changing. asked_change (maybe_lent changing.id) changing.change };

    fn is_of(&self, payload: &Payload) -> bool {
        is_change(payload)
    }

    fn may_lack(&self) -> bool {
        true
    }

    fn is_idle(&self) -> bool {
        false
    }

    fn row(&self) -> OperationRow<'_> {
        changing_row(self.id, self.change)
    }

    fn holds<'p>(&self, held: Option<&'p str>, _payload: &Option<Payload<'p>>) -> Option<&'p str> {
        held
    }

    fn why_not_done<L: Ledger>(
        &self,
        _alloc: Global,
        ledger: &L,
        before: Before<'_>,
        payload: &Option<Payload>,
    ) -> Result<Option<Why>, AllocError> {
        let about = before.placeholder.meant(self.id);
        let shown = id_shown(payload);
        Ok(why_not_changed(
            ledger,
            before.rules,
            before.place,
            about,
            self.change,
            shown,
        ))
    }

    fn leave<L: Ledger>(
        &self,
        _alloc: Global,
        ledger: &mut L,
        _placeholder: &mut Placeholder,
        place: Option<usize>,
        _payload: &Option<Payload>,
    ) -> Result<(), AllocError> {
        change_object(ledger, place, self.change)
    }
}

/// What such an operation is.
pub(crate) fn changing_row<'b>(id: Option<&'b str>, change: Change) -> OperationRow<'b>
    ensures subject { subject_of result.subject ≡ on_object (maybe_lent id.entry) (act_of change) false }
    ensures effect { effect_of result.effect ≡ changes change }
{
    OperationRow {
        subject: Subject::Object(id, act_of(change), false),
        effect: Effect::Changes(change),
    }
}
