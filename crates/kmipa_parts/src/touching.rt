//! Whether a call may touch some objects, whatever it is answered.

ghost use Rattle.std.specs.Prelude.{◌≡◌, map};
ghost use Rattle.kmipa_check.specs.Deciding.{Decided};
ghost use Rattle.kmipa_msgs.specs.Messages.{ask_of, asked_of, lent, maybe_lent, request_of};
ghost use Rattle.kmipa_ops.specs.Subjects.{effect_of, subject_of};
ghost use Rattle.kmipa_parts.specs.Making.{is_listing, touches};
ghost use Rattle.kmipa_parts.specs.Parts.{MayTouch, SomeMayTouch, is_among, may_mean, may_touch};

use crate::item::is_among;
use kmipa_msgs::{Ask, Asked, Request};
use kmipa_ops::{Effect, OperationRow, Subject, row_of};

/// Whether a call may touch the objects of these identifiers, whatever it is answered: one of its items names one of them, or no identifier, or
/// makes an object, or lists.
pub fn may_touch(ids: &[&str], request: &Request) -> bool
    ensures { Decided result (MayTouch (is_among (map lent ids.now)) (request_of request.now)) }
{
    some_may_touch(ids, &request.items)
}

/// Whether one of these items may.
fn some_may_touch(ids: &[&str], asks: &[Ask]) -> bool
    ensures { Decided result (SomeMayTouch (is_among (map lent ids.now)) (map ask_of asks.now)) }
{
    'asks: for ask in asks {
        if item_may_touch(ids, &ask.asked) {
            return true;
        }
    }
    false
}

/// The same of an item.
fn item_may_touch(ids: &[&str], asked: &Asked) -> bool
    ensures { result ≡ may_touch (is_among (map lent ids.now)) (asked_of asked.now) }
{
    row_may_touch(ids, row_of(asked))
}

/// The same of an item whose operation has this row.
fn row_may_touch(ids: &[&str], row: OperationRow) -> bool
    ensures { result ≡ touches (is_among (map lent ids.now)) (subject_of row.entry.subject) (effect_of row.entry.effect) }
{
    match row.subject {
        Subject::Object(id, _, _) => may_mean(ids, id),
        Subject::Names(_) => true,
        Subject::Nothing => is_listing(row.effect),
    }
}

/// Whether what an operation does is to list objects.
fn is_listing(effect: Effect) -> bool
    ensures { result ≡ is_listing (effect_of effect.entry) }
{
    match effect {
        Effect::Lists(_) => true,
        _ => false,
    }
}

/// Whether one of these identifiers is named, or none.
fn may_mean(ids: &[&str], named: Option<&str>) -> bool
    ensures { result ≡ may_mean (is_among (map lent ids.now)) (maybe_lent named.entry) }
{
    match named {
        Some(named) => is_among(ids, named),
        None => true,
    }
}
