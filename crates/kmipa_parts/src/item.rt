//! The part of an item on some objects.

ghost use Rattle.std.specs.Prelude.{◌≡◌, ◌≢◌, ℕ, pos, List, Option, length, map, None, Some, IfOk, IfSome, bytes_eq, false, true};
ghost use Rattle.kmipa_msgs.specs.Messages.{answer_of, ask_of, asked_of, lent, locate_of, located, located_of, locates, maybe_lent};
ghost use Rattle.kmipa_ops.specs.Locate.{is_full};
ghost use Rattle.kmipa_ops.specs.Subjects.{effect_of};
ghost use Rattle.kmipa_parts.specs.Parts.{IsPart, LeavesBe, filter_own, is_among, is_change, is_own, only_own};
ghost use Rattle.kmipa_parts.specs.Making.{IsStay, adds_or_changes};

use crate::copies::{limited, written};
use crate::idle::idle;
use crate::subject::about;
use kmipa_msgs::{Answer, Ask, Asked, Locate, Located, Payload, Status};
use kmipa_ops::{Effect, row_of};
use std::alloc::{AllocError, Global};

/// The part of an item on some objects.
#[derive(Drop)]
pub struct PartItem<'a> {
    pub ask: Ask<'a>,
    pub answer: Answer<'a>,
}

/// The part of an item on the objects of these identifiers, where the ID Placeholder holds this before it. `None` where there is none: the
/// item changes something, and it isn't known what.
pub fn part_item<'a>(
    alloc: Global,
    ids: &[&str],
    held: Option<&'a str>,
    ask: &Ask<'a>,
    answer: &Answer<'a>,
) -> Result<Option<PartItem<'a>>, AllocError>
    ensures { IfOk result
        (λ part. IfSome part
        (λ item. IsPart (is_among (map lent ids.now)) (maybe_lent held.entry) (ask_of ask.now) (answer_of answer.now) (ask_of item.ask)
        (answer_of item.answer))) }
{
    if let Some(id) = own_of(ids, about(held, ask, answer)) {
        return Ok(Some(stays(alloc, id, ask, answer)?));
    }
    if let Some(item) = lists(alloc, ids, ask, answer)? {
        return Ok(Some(item));
    }
    if leaves_be(ids, held, ask, answer) {
        return Ok(Some(idle(answer.status)));
    }
    Ok(None)
}

/// Whether an item leaves the objects of these identifiers as they are: it failed, it only looks, or it is about another object.
pub fn leaves_be<'a>(
    ids: &[&str],
    held: Option<&'a str>,
    ask: &Ask<'a>,
    answer: &Answer<'a>,
) -> bool
    ensures { result ≡ true → LeavesBe (is_among (map lent ids.now)) (maybe_lent held.entry) (ask_of ask.now) (answer_of answer.now) }
{
    if answer.status == Status::Failed {
        return true;
    }
    if !is_change(&ask.asked) {
        return true;
    }
    !is_own(ids, about(held, ask, answer))
}

/// This identifier, if it is among these.
fn own_of<'a>(ids: &[&str], id: Option<&'a str>) -> Option<&'a str>
    ensures { IfSome result
        (λ own. (maybe_lent id.entry ≡ Some own.now) × (is_among (map lent ids.now) own.now ≡ true)) }
{
    match id {
        Some(id) => { if is_among(ids, id) { Some(id) } else { None } }
        None => None,
    }
}

/// Whether an identifier is there, and among these.
fn is_own(ids: &[&str], id: Option<&str>) -> bool
    ensures { result ≡ is_own (is_among (map lent ids.now)) (maybe_lent id.entry) }
{
    match id {
        Some(id) => is_among(ids, id),
        None => false,
    }
}

/// Whether an identifier is among these.
pub fn is_among(ids: &[&str], id: &str) -> bool
    ensures { result ≡ is_among (map lent ids.now) id.now }
{
    'ids: for own in ids {
        if is_same(own, id) {
            return true;
        }
    }
    false
}

/// Whether an operation adds an object or changes one.
fn is_change(asked: &Asked) -> bool
    ensures { result ≡ is_change (asked_of asked.now) }
{
    adds_or_changes(row_of(asked).effect)
}

/// Whether what an operation does adds an object or changes one.
fn adds_or_changes(effect: Effect) -> bool
    ensures { result ≡ adds_or_changes (effect_of effect.entry) }
{
    match effect {
        Effect::Makes(_) | Effect::Changes(_) => true,
        _ => false,
    }
}

/// An item about the object: the identifier is written out.
fn stays<'a>(
    alloc: Global,
    id: &'a str,
    ask: &Ask<'a>,
    answer: &Answer<'a>,
) -> Result<PartItem<'a>, AllocError>
    ensures { IfOk result (λ item. IsStay id.now (ask_of ask.now) (answer_of answer.now) (ask_of item.ask) (answer_of item.answer)) }
{
    Ok(PartItem {
        ask: Ask {
            batch_id: ask.batch_id,
            asked: written(alloc, id, &ask.asked)?,
        },
        answer: answer.copy(alloc)?,
    })
}

/// A Locate that was done, as one that lists those of these objects that it listed. `None` for another item, and where none of them is listed and
/// as many are as the maximum.
fn lists<'a>(
    alloc: Global,
    ids: &[&str],
    ask: &Ask<'a>,
    answer: &Answer<'a>,
) -> Result<Option<PartItem<'a>>, AllocError>
    ensures { (before : Option (List ℕ)) → IfOk result
        (λ part. IfSome part
        (λ item. IsPart (is_among (map lent ids.now)) before (ask_of ask.now) (answer_of answer.now) (ask_of item.ask)
        (answer_of item.answer))) }
{
    if is_failed(answer.status) {
        return Ok(None);
    }
    let Some(listing) = listing_of(answer) else {
        return Ok(None);
    };
    match &ask.asked {
        Asked::Locate(locate) => list_part(alloc, ids, ask, locate, answer, listing),
        _ => Ok(None),
    }
}

/// What an answer lists.
fn listing_of<'c, 'a>(answer: &'c Answer<'a>) -> Option<&'c Located<'a>>
    ensures { IfSome result (λ listing. (answer_of answer.now).payload ≡ Some (located (located_of listing.now))) }
{
    match &answer.payload {
        Some(Payload::Locate(listing)) => Some(listing),
        _ => None,
    }
}

/// The same of what was located.
fn list_part<'a>(
    alloc: Global,
    ids: &[&str],
    ask: &Ask<'a>,
    locate: &Locate,
    answer: &Answer<'a>,
    listing: &Located<'a>,
) -> Result<Option<PartItem<'a>>, AllocError>
    ensures { (before : Option (List ℕ)) → (ask_of ask.now).asked ≡ locates (locate_of locate.now)
        → (answer_of answer.now).payload ≡ Some (located (located_of listing.now)) → answer.now.status ≢ Status.Failed
        → IfOk result
        (λ part. IfSome part
        (λ item. IsPart (is_among (map lent ids.now)) before (ask_of ask.now) (answer_of answer.now) (ask_of item.ask)
        (answer_of item.answer))) }
{
    let own = only_own(alloc, ids, &listing.ids)?;
    let Some(part) = locate_own(alloc, locate, &listing.ids, &own)? else {
        return Ok(None);
    };
    Ok(Some(PartItem {
        ask: Ask {
            batch_id: ask.batch_id,
            asked: Asked::Locate(part),
        },
        answer: Answer {
            operation: answer.operation,
            batch_id: answer.batch_id,
            status: answer.status,
            reason: answer.reason,
            payload: Some(Payload::Locate(Located { ids: own })),
        },
    }))
}

/// Whether a status is that of an item that failed.
fn is_failed(status: Status) -> bool
    ensures { result ≡ false → status ≢ Status.Failed }
{
    match status {
        Status::Failed => true,
        Status::Success => false,
        Status::Undone => false,
    }
}

/// A Locate's part, of what it listed, and what it listed of these objects: where as many are listed as the maximum, as many as are listed of
/// these are its maximum. `None` where these are none, or too many for a number.
fn locate_own(
    alloc: Global,
    locate: &Locate,
    listed: &[&str],
    own: &[&str],
) -> Result<Option<Locate>, AllocError>
    ensures { IfOk result
        (λ part. IfSome part
        (λ l. locate_of l ≡ filter_own (locate_of locate.now) (length (map lent listed.now)) (length (map lent own.now)))) }
{
    if !is_full(maximum_of(locate), listed.len()) {
        return Ok(Some(locate.copy(alloc)?));
    }
    match maximum_for(own.len()) {
        Some(most) => Ok(Some(limited(alloc, locate, most)?)),
        None => Ok(None),
    }
}

/// How many a Locate may list.
fn maximum_of(locate: &Locate) -> Option<i32>
    ensures { result ≡ (locate_of locate.now).maximum }
{
    locate.filter.maximum
}

/// So many as a maximum, unless there are none, or too many for a number.
fn maximum_for(count: usize) -> Option<i32>
    ensures { IfSome result (λ most. most ≡ pos count) }
{
    if count == 0 {
        return None;
    }
    i32::try_from(count).ok()
}

/// Whether as many are listed as the maximum.
fn is_full(maximum: Option<i32>, count: usize) -> bool
    ensures { result ≡ is_full maximum count }
{
    match maximum {
        Some(most) => !((count as i128) < i128::from(most)),
        None => false,
    }
}

/// Of a list of identifiers, those among these, as often as they stand there.
fn only_own<'a>(alloc: Global, ids: &[&str], listed: &[&'a str]) -> Result<Vec<&'a str>, AllocError>
    ensures { IfOk result (λ own. map lent own.items ≡ only_own (is_among (map lent ids.now)) (map lent listed.now)) }
{
    let mut own = Vec::new(alloc);
    'listed: for other in listed {
        if is_among(ids, other) {
            own.push(*other)?;
        }
    }
    Ok(own)
}

/// Whether two identifiers are equal.
fn is_same(id: &str, other: &str) -> bool
    ensures { result ≡ bytes_eq id.now other.now }
{
    id == other
}
