//! One judged place of a call, where a server has to hide objects from the call's client.

ghost use Rattle.std.specs.Prelude.{◌≡◌, ◌&&◌, ◌==◌, map, not, option_map, true};
ghost use Rattle.std.specs.List.{list_any};
ghost use Rattle.kmipa_attrs.specs.Sets.{name_of};
ghost use Rattle.kmipa_store.specs.Choices.{IsSound};
ghost use Rattle.kmipa_store.specs.Ledger.{cards_of};
ghost use Rattle.kmipa_msgs.specs.Messages.{answer_of, ask_of, asked_of, lent, payload_of, rules_of};
ghost use Rattle.kmipa_ops.specs.Explains.{is_readable};
ghost use Rattle.kmipa_ops.specs.Locate.{is_listed};
ghost use Rattle.kmipa_ops.specs.Rows.{subject_asked};
ghost use Rattle.kmipa_passed.specs.Leaving.{held_of};
ghost use Rattle.kmipa_aside.specs.Becoming.{stand_in};
ghost use Rattle.kmipa_aside.specs.Cases.{is_taken_name};
ghost use Rattle.kmipa_aside.specs.Permitted.{TakenPermitted, any_told, forbids, has_to_hide, is_must, is_told, is_unseen, is_untaken, lists_hidden, lower_of, names_of, says_other, why_denied};
ghost use Rattle.kmipa_aside.specs.Places.{judged};
ghost use Rattle.kmipa_aside.specs.Sights.{sight_of};
ghost use Rattle.kmipa_aside.specs.Standing.{is_judged};

use crate::aims::aim;
use crate::cases::{case_of, is_failed, is_taken_name, says_taken};
use crate::excused::is_as_ever;
use crate::item::Item;
use crate::seen::{is_hidden, take_seen};
use crate::seen_names::any_seen_named;
use crate::sight::{Sight, hides_some, is_hidden_id};
use crate::standing::is_judged;
use kmipa_attrs::Name;
use kmipa_msgs::{Asked, Payload, Row, Rules, Visibility};
use kmipa_ops::{Refusal, Subject, Why, row_of};
use kmipa_passed::Held;
use kmipa_store::Ledger;
use std::alloc::Global;

/// Takes a judged item as `take_seen` does, but for what is impossible where a server has to hide objects: that an item about a hidden one is done, that a
/// list has one, and that a name is taken that no object in sight has. The lowest reason is told.
pub(crate) fn take_permitted<'p, L: Ledger>(
    alloc: Global,
    ledger: &mut L,
    sight: Sight<'_, 'p>,
    item: Item<'p>,
) -> Result<Held<'p>, Refusal>
    requires sound { IsSound (L.state ledger.old).now }
    requires readable { is_readable (ask_of item.ask.now) (answer_of item.answer.now) ≡ true }
    ensures { TakenPermitted (sight_of sight.entry) (L.state ledger.old) (held_of item.entry.before) item.entry.moment
        (judged (ask_of item.entry.ask.now) (answer_of item.entry.answer.now)) result (L.state ledger.new) }
{
    let Some(why) = forbids(ledger, sight, item) else {
        return take_seen(alloc, ledger, sight, item);
    };
    let Ok(mark) = ledger.mark() else {
        return Err(Refusal::Memory);
    };
    let taken = take_seen(alloc, ledger, sight, item);
    ledger.back(mark);
    match taken {
        Ok(_) => Err(Refusal::Impossible(why)),
        Err(refusal) => match refusal {
            Refusal::Impossible(other) => Err(Refusal::Impossible(lower_of(other, why))),
            Refusal::Memory => Err(Refusal::Memory),
        },
    }
}

/// The lower of two reasons.
fn lower_of(one: Why, other: Why) -> Why
    ensures { result ≡ lower_of one other }
{
    if other.number() < one.number() {
        other
    } else {
        one
    }
}

/// Why an item is impossible that would be possible where a server may hide objects.
fn forbids<L: Ledger>(ledger: &L, sight: Sight, item: Item) -> Option<Why>
    ensures { result ≡ forbids (sight_of sight.entry) (stand_in (L.state ledger.now).now) (held_of item.entry.before)
        (ask_of item.entry.ask.now) (answer_of item.entry.answer.now) }
{
    if !has_to_hide(sight) {
        return None;
    }
    why_denied(ledger, sight, item)
}

/// Whether a server has to hide some object.
fn has_to_hide(sight: Sight) -> bool
    ensures { result ≡ has_to_hide (sight_of sight.entry) }
{
    is_must(sight.rules.visibility) && hides_some(sight)
}

fn is_must(visibility: Visibility) -> bool
    ensures { result ≡ is_must visibility }
{
    match visibility {
        Visibility::MustHide => true,
        Visibility::Everyone | Visibility::MayHide => false,
    }
}

fn why_denied<L: Ledger>(ledger: &L, sight: Sight, item: Item) -> Option<Why>
    ensures { result ≡ why_denied (sight_of sight.entry) (stand_in (L.state ledger.now).now) (held_of item.entry.before)
        (ask_of item.entry.ask.now) (answer_of item.entry.answer.now) }
{
    if is_told(ledger, sight, item) {
        return Some(Why::NotVisible);
    }
    if is_untaken(ledger, sight, item) {
        return Some(Why::ReasonUnfounded);
    }
    None
}

/// Whether an item that was done is about a hidden object, or lists one.
fn is_told<L: Ledger>(ledger: &L, sight: Sight, item: Item) -> bool
    ensures { result ≡ is_told (sight_of sight.entry) (stand_in (L.state ledger.now).now) (held_of item.entry.before)
        (ask_of item.entry.ask.now) (answer_of item.entry.answer.now) }
{
    !is_failed(item.answer.status)
        && ((is_hidden(sight, aim(item.before, item.ask, item.answer))
            && is_as_ever(case_of(ledger, sight.rules, item.before, item.ask, item.answer)))
            || lists_hidden(ledger, sight, &item.ask.asked, &item.answer.payload))
}

/// Whether a Locate lists a hidden object.
fn lists_hidden<L: Ledger>(
    ledger: &L,
    sight: Sight,
    asked: &Asked,
    payload: &Option<Payload>,
) -> bool
    ensures { result ≡ lists_hidden (sight_of sight.entry).hidden (stand_in (L.state ledger.now).now) (asked_of asked.now)
        (option_map payload_of payload.now) }
{
    let Asked::Locate(_) = asked else {
        return false;
    };
    let Some(payload) = payload else {
        return false;
    };
    let Payload::Locate(located) = payload else {
        return false;
    };
    any_told(ledger, sight, located.ids.as_slice())
}

/// Whether one of these is hidden, and is judged.
fn any_told<L: Ledger>(ledger: &L, sight: Sight, ids: &[&str]) -> bool
    ensures { result ≡ any_told (sight_of sight.entry).hidden (stand_in (L.state ledger.now).now) (map lent ids.now) }
{
    for id in ids {
        if is_told_of(ledger, sight, id) {
            return true;
        }
    }
    false
}

/// Whether an object is hidden, and is judged.
fn is_told_of<L: Ledger>(ledger: &L, sight: Sight, id: &str) -> bool
    ensures { result ≡ (is_listed (sight_of sight.entry).hidden id.now
        && is_judged (stand_in (L.state ledger.now).now) id.now) }
{
    is_hidden_id(sight, id) && is_judged(ledger, id)
}

/// Whether a new object was refused for a taken name alone, and no object in sight has it.
fn is_untaken<L: Ledger>(ledger: &L, sight: Sight, item: Item) -> bool
    ensures { result ≡ is_untaken (sight_of sight.entry) (stand_in (L.state ledger.now).now) (held_of item.entry.before)
        (ask_of item.entry.ask.now) (answer_of item.entry.answer.now) }
{
    is_failed(item.answer.status)
        && says_taken(sight.rules, item.answer.reason)
        && !says_other(sight.rules, item.answer.reason)
        && is_as_ever(case_of(ledger, sight.rules, item.before, item.ask, item.answer))
        && is_unseen(ledger, sight, &item.ask.asked)
}

/// Whether a row of another cause than a taken name has this reason.
fn says_other(rules: &Rules, reason: Option<u32>) -> bool
    ensures { result ≡ says_other (rules_of rules.now).rows reason }
{
    match reason {
        Some(reason) => any_other(rules.rows.as_slice(), reason),
        None => false,
    }
}

fn any_other(rows: &[Row], reason: u32) -> bool
    ensures { result ≡ list_any (λ (row : Row). (row.reason == reason) && not (is_taken_name row.cause)) rows.now }
{
    rows.iter()
        .any(|row| row.reason == reason && !is_taken_name(row.cause))
}

/// Whether no object in sight has one of the names that a new object was to have.
fn is_unseen<L: Ledger>(ledger: &L, sight: Sight, asked: &Asked) -> bool
    ensures { result ≡ is_unseen (sight_of sight.entry).hidden (cards_of (L.state ledger.now).now.objects)
        (names_of (subject_asked (asked_of asked.now))) }
{
    match names_of(asked) {
        Some(names) => !any_seen_named(ledger, sight, names),
        None => false,
    }
}

/// The names that a new object was to have.
pub(crate) fn names_of<'b>(asked: &'b Asked<'b>) -> Option<&'b [Name]>
    ensures { option_map (λ names. map name_of names.now) result ≡ names_of (subject_asked (asked_of asked.now)) }
{
    match row_of(asked).subject {
        Subject::Names(names) => Some(names),
        Subject::Object(_, _, _) | Subject::Nothing => None,
    }
}
