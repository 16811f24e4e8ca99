//! What an item sets and tells: the dates of an object, and its bytes.

ghost use Rattle.std.specs.Prelude.{◌≡◌, option_map};
ghost use Rattle.kmipa_attrs.specs.Sets.{attributes_of};
ghost use Rattle.kmipa_object.specs.Life.{compromises};
ghost use Rattle.kmipa_msgs.specs.Messages.{answer_of, ask_of};
ghost use Rattle.kmipa_explain.specs.Effects.{dates_born, dates_changed, dates_revoked, dates_set, tells_bytes};
ghost use Rattle.kmipa_explain.specs.Meant.{dates_told};

use crate::held::DatesHeld;
use crate::holding::shown_bytes;
use kmipa_attrs::AttrSet;
use kmipa_msgs::{Answer, Ask};
use kmipa_ops::{Change, Effect, row_of};

/// No date.
pub(crate) const NO_DATES: DatesHeld = DatesHeld {
    initial: None,
    activation: None,
    deactivation: None,
    destroy: None,
    compromise: None,
};

/// The dates that an operation sets at a moment, where it sets any.
pub(crate) fn dates_set(ask: &Ask, t: i64) -> DatesHeld
    ensures { dates_told result ≡ dates_set t (ask_of ask.now).asked }
{
    match row_of(&ask.asked).effect {
        Effect::Makes(new) => dates_born(new.attributes, t),
        Effect::Changes(change) => dates_changed(change, t),
        _ => NO_DATES,
    }
}

/// Those of a change.
fn dates_changed(change: Change, t: i64) -> DatesHeld
    ensures { dates_told result ≡ dates_changed t change }
{
    match change {
        Change::Activate => DatesHeld {
            activation: Some(t),
            ..NO_DATES
        },
        Change::Revoke(code) => dates_revoked(code, t),
        Change::Destroy => DatesHeld {
            deactivation: Some(t),
            destroy: Some(t),
            ..NO_DATES
        },
    }
}

/// Those of a new object with these attributes.
fn dates_born(attrs: &AttrSet, t: i64) -> DatesHeld
    ensures { dates_told result ≡ dates_born t (attributes_of attrs.now) }
{
    DatesHeld {
        initial: Some(t),
        activation: attrs.activation,
        deactivation: attrs.deactivation,
        ..NO_DATES
    }
}

/// Those of a Revoke with this code.
fn dates_revoked(code: u32, t: i64) -> DatesHeld
    ensures { dates_told result ≡ dates_revoked t code }
{
    match code {
        2 | 3 => DatesHeld {
            compromise: Some(t),
            ..NO_DATES
        },
        _ => DatesHeld {
            deactivation: Some(t),
            ..NO_DATES
        },
    }
}

/// Whether an item tells an object's bytes.
pub(crate) fn tells_bytes(ask: &Ask, answer: &Answer) -> bool
    ensures { result ≡ tells_bytes (ask_of ask.now).asked (answer_of answer.now).payload }
{
    match row_of(&ask.asked).effect {
        Effect::Makes(new) => new.block.is_some(),
        Effect::ShowsBytes => shown_bytes(&answer.payload).is_some(),
        _ => false,
    }
}
