//! What each operation says of itself.

use crate::operation_row::OperationRow;
use crate::placeholder::Placeholder;
use crate::why::Why;
use kmipa_msgs::{Payload, Rules};
use kmipa_store::Ledger;
use std::alloc::{AllocError, Global};

/// What an item is judged by beside the ledger: the rules of the server, the ID Placeholder as it stands before the item, and the place of the object that is
/// meant, where there is one.
#[derive(Clone, Copy)]
pub(crate) struct Before<'a> {
    pub rules: &'a Rules,
    pub placeholder: &'a Placeholder,
    pub place: Option<usize>,
}

/// An operation that an item asks for.
pub(crate) trait Deed {
    ghost use Rattle.std.specs.Prelude.{◌≡◌, ◌<◌, IfOk, IfSome, find, length, option_map};
    ghost use Rattle.kmipa_store.specs.Choices.{IsSound};
    ghost use Rattle.kmipa_msgs.specs.Messages.{AskedOf, maybe_lent, payload_of, rules_of};
    ghost use Rattle.kmipa_ops.specs.After.{LeavesAfter, after_done, placeholder_done};
    ghost use Rattle.kmipa_ops.specs.Blame.{IsUnopposed, done_speaks};
    ghost use Rattle.kmipa_ops.specs.Completes.{is_idle, is_of, may_lack};
    ghost use Rattle.kmipa_ops.specs.Meant.{place_about};
    ghost use Rattle.kmipa_ops.specs.Placeholders.{placeholder_of};
    ghost use Rattle.kmipa_ops.specs.Row.{row_subject};
    ghost use Rattle.kmipa_ops.specs.Rows.{asked_row, effect_asked};
    ghost use Rattle.kmipa_ops.specs.Subjects.{effect_of, subject_of};
    ghost use Rattle.kmipa_ops.specs.Whys.{whys};

    /// What is asked for.
    ghost asked: { Self → AskedOf };

    /// Whether a payload is one of its own.
    fn is_of(&self, payload: &Payload) -> bool
        ensures { result ≡ is_of (asked self.now) (payload_of payload.now) };

    /// Whether an Undone answer may leave its payload out.
    fn may_lack(&self) -> bool
        ensures { result ≡ may_lack (asked self.now) };

    /// Whether it is one without effect, whose payloads aren't read.
    fn is_idle(&self) -> bool
        ensures { result ≡ is_idle (asked self.now) };

    /// What it is to those who ask.
    fn row(&self) -> OperationRow<'_>
        ensures subject { subject_of result.subject ≡ row_subject (asked_row (asked self.now)) }
        ensures effect { effect_of result.effect ≡ effect_asked (asked self.now) };

    /// The identifier that the ID Placeholder holds after it, where it held this.
    fn holds<'p>(&self, held: Option<&'p str>, payload: &Option<Payload<'p>>) -> Option<&'p str>
        ensures { maybe_lent result ≡ placeholder_done (maybe_lent held.entry) (asked self.now)
            (option_map payload_of payload.now) };

    /// The lowest reason against it where it is done, with its payload or without one.
    fn why_not_done<L: Ledger>(
        &self,
        alloc: Global,
        ledger: &L,
        before: Before<'_>,
        payload: &Option<Payload>,
    ) -> Result<Option<Why>, AllocError>
        requires sound { IsSound (L.state ledger.now).now }
        requires place { before.place ≡ place_about (L.state ledger.now).now.objects (placeholder_of before.placeholder.now)
            (row_subject (asked_row (asked self.now))) }
        requires within { IfSome before.place (λ p. p < length (L.state ledger.now).now.objects) }
        ensures { IfOk result
            (λ why. why
            ≡ find (done_speaks (rules_of before.entry.rules.now) (L.state ledger.now).now
            (placeholder_of before.entry.placeholder.now) (L.moment ledger.now) (asked self.now) (option_map payload_of payload.now)) whys) };

    /// Leaves the ledger and the placeholder as it does where nothing speaks against it.
    fn leave<L: Ledger>(
        &self,
        alloc: Global,
        ledger: &mut L,
        placeholder: &mut Placeholder,
        place: Option<usize>,
        payload: &Option<Payload>,
    ) -> Result<(), AllocError>
        requires sound { IsSound (L.state ledger.old).now }
        requires place { place ≡ place_about (L.state ledger.old).now.objects (placeholder_of placeholder.old)
            (row_subject (asked_row (asked self.now))) }
        requires within { IfSome place (λ p. p < length (L.state ledger.old).now.objects) }
        requires unopposed { IsUnopposed (L.state ledger.old).now (placeholder_of placeholder.old)
            (L.moment ledger.old) (asked self.now) (option_map payload_of payload.now) }
        ensures { LeavesAfter (L.state ledger.old)
            (after_done (L.state ledger.old).now (placeholder_of placeholder.old) (L.moment ledger.old)
            (asked self.now) (option_map payload_of payload.now))
            (placeholder_done (placeholder_of placeholder.old) (asked self.now)
            (option_map payload_of payload.now)) result (L.state ledger.new) (placeholder_of placeholder.new) };
}
