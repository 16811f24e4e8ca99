//! Operations without effect, and operations that are not read.

ghost use Rattle.kmipa_ops.specs.Subjects.{unjudged_of};

use crate::deed::{Before, Deed};
use crate::operation_row::{Effect, OperationRow, Subject};
use crate::placeholder::Placeholder;
use crate::why::Why;
use kmipa_msgs::Payload;
use kmipa_store::Ledger;
use std::alloc::{AllocError, Global};

/// An operation whose payloads aren't judged, by its number.
#[derive(Clone, Copy)]
pub enum Unjudged {
    /// One without effect.
    Idle(u32),
    /// One that is not read.
    Unread(u32),
}

impl Deed for Unjudged {
    ghost asked = { unjudged_of };

    fn is_of(&self, _payload: &Payload) -> bool {
        false
    }

    fn may_lack(&self) -> bool {
        match self {
            Unjudged::Idle(_) => true,
            Unjudged::Unread(_) => false,
        }
    }

    fn is_idle(&self) -> bool {
        self.may_lack()
    }

    fn row(&self) -> OperationRow<'_> {
        OperationRow {
            subject: Subject::Nothing,
            effect: match self {
                Unjudged::Idle(_) => Effect::Nothing,
                Unjudged::Unread(_) => Effect::Unread,
            },
        }
    }

    fn holds<'p>(&self, held: Option<&'p str>, _payload: &Option<Payload<'p>>) -> Option<&'p str> {
        held
    }

    fn why_not_done<L: Ledger>(
        &self,
        _alloc: Global,
        _ledger: &L,
        _before: Before<'_>,
        _payload: &Option<Payload>,
    ) -> Result<Option<Why>, AllocError> {
        Ok(None)
    }

    fn leave<L: Ledger>(
        &self,
        _alloc: Global,
        _ledger: &mut L,
        _placeholder: &mut Placeholder,
        _place: Option<usize>,
        _payload: &Option<Payload>,
    ) -> Result<(), AllocError> {
        Ok(())
    }
}
