//! A judged item that is judged as ever, and that lists nothing that is set aside.

ghost use Rattle.std.specs.Prelude.{◌≡◌, IfOk, map, option_map, true};
ghost use Rattle.kmipa_store.specs.Choices.{IsSound};
ghost use Rattle.kmipa_msgs.specs.Messages.{answer_of, ask_of, lent, maybe_lent, payload_of, rules_of};
ghost use Rattle.kmipa_ops.specs.Explains.{is_readable};
ghost use Rattle.kmipa_ops.specs.Locate.{only};
ghost use Rattle.kmipa_ops.specs.Placeholders.{placeholder_of};
ghost use Rattle.kmipa_passed.specs.Leaving.{held_of};
ghost use Rattle.kmipa_aside.specs.Becoming.{TakesIn, stand_in};
ghost use Rattle.kmipa_aside.specs.Ever.{held_as, held_by, held_made, id_born, id_made, is_plain, judged_by, known, taken_in};
ghost use Rattle.kmipa_aside.specs.Taking.{TakenAsEver, TakenPlain};

use crate::aims::{id_shown, or_shown};
use crate::cases::case_of;
use crate::excused::is_as_ever;
use crate::item::Item;
use crate::lists::is_touched;
use crate::reborn::has_grave;
use kmipa_msgs::{Answer, Ask, Payload, Rules, Status};
use kmipa_ops::{Placeholder, Refusal, take};
use kmipa_passed::Held;
use kmipa_store::Ledger;
use std::alloc::{AllocError, Global};

/// Takes a judged item that is judged as ever, that lists nothing that is set aside, and whose new object has no body's identifier, and answers what
/// the ID Placeholder holds behind it. None of another, and then nothing is done. The identifier of a new object isn't set aside any more. It is
/// refused as kmipa_ops refuses it, and nothing is changed then. After want of memory the ledger can be taken back to each of its marks.
pub fn take_plain<'p, L: Ledger>(
    alloc: Global,
    ledger: &mut L,
    rules: &Rules,
    item: Item<'p>,
) -> Result<Option<Held<'p>>, Refusal>
    requires sound { IsSound (L.state ledger.old).now }
    requires readable { is_readable (ask_of item.ask.now) (answer_of item.answer.now) ≡ true }
    ensures { TakenPlain (rules_of rules.now) (L.state ledger.old) (held_of item.entry.before) item.entry.moment
        (ask_of item.entry.ask.now) (answer_of item.entry.answer.now) result (L.state ledger.new) }
{
    if !is_plain(ledger, rules, item.before, item.ask, item.answer) {
        return Ok(None);
    }
    match take_as_ever(alloc, ledger, rules, item) {
        Ok(after) => Ok(Some(after)),
        Err(refusal) => Err(refusal),
    }
}

/// Takes an item that is so.
pub(crate) fn take_as_ever<'p, L: Ledger>(
    alloc: Global,
    ledger: &mut L,
    rules: &Rules,
    item: Item<'p>,
) -> Result<Held<'p>, Refusal>
    requires sound { IsSound (L.state ledger.old).now }
    requires readable { is_readable (ask_of item.ask.now) (answer_of item.answer.now) ≡ true }
    requires plain { is_plain (rules_of rules.now) (stand_in (L.state ledger.old).now) (held_of item.before)
        (ask_of item.ask.now) (answer_of item.answer.now) ≡ true }
    ensures { TakenAsEver (rules_of rules.now) (L.state ledger.old) (held_of item.entry.before) item.entry.moment
        (ask_of item.entry.ask.now) (answer_of item.entry.answer.now) result (L.state ledger.new) }
{
    let Item {
        moment,
        before,
        ask,
        answer,
    } = item;
    let Ok(mut placeholder) = judged_by(alloc, before, answer) else {
        return Err(Refusal::Memory);
    };
    match take(alloc, ledger, rules, &mut placeholder, moment, ask, answer) {
        Ok(()) => {}
        Err(refusal) => return Err(refusal),
    }
    match take_in(ledger, id_born(answer)) {
        Ok(()) => Ok(held_behind(before, answer)),
        Err(_) => Err(Refusal::Memory),
    }
}

/// Whether an item is judged as ever, lists nothing that is set aside, and makes no object that has a body's identifier.
fn is_plain<'p, L: Ledger>(
    ledger: &L,
    rules: &Rules,
    before: Held<'p>,
    ask: &'p Ask<'p>,
    answer: &'p Answer<'p>,
) -> bool
    ensures { result ≡ is_plain (rules_of rules.now) (stand_in (L.state ledger.now).now) (held_of before.entry)
        (ask_of ask.now) (answer_of answer.now) }
{
    is_as_ever(case_of(ledger, rules, before, ask, answer))
        && !is_touched(ledger, ask, answer)
        && !has_grave(ledger, ask, answer)
}

/// The identifier of the new object, where one was made.
fn id_born<'p>(answer: &'p Answer<'p>) -> Option<&'p str>
    ensures { maybe_lent result ≡ id_born answer.now.status (answer_of answer.now).payload }
{
    match answer.status {
        Status::Success | Status::Undone => id_made(&answer.payload),
        Status::Failed => None,
    }
}

fn id_made<'p>(payload: &'p Option<Payload<'p>>) -> Option<&'p str>
    ensures { maybe_lent result ≡ id_made (option_map payload_of payload.now) }
{
    match payload {
        Some(Payload::Create(created)) => Some(created.id),
        Some(Payload::Register(registered)) => Some(registered.id),
        Some(Payload::Locate(_)) | Some(Payload::Get(_)) | Some(Payload::GetAttributes(_)) => None,
        Some(Payload::Change(_)) | None => None,
    }
}

/// From now on this identifier isn't set aside.
pub(crate) fn take_in<L: Ledger>(ledger: &mut L, id: Option<&str>) -> Result<(), AllocError>
    ensures { TakesIn (maybe_lent id.entry) (L.state ledger.old) result (L.state ledger.new) }
{
    let Some(id) = id else {
        return Ok(());
    };
    if !ledger.is_aside(id) {
        return Ok(());
    }
    match ledger.take_in(id) {
        Ok(()) => Ok(()),
        Err(_) => Err(AllocError),
    }
}

/// The placeholder by which an item is judged: where nobody can tell what it held, the object that the answer shows is meant.
pub(crate) fn judged_by<'p>(
    alloc: Global,
    before: Held<'p>,
    answer: &'p Answer<'p>,
) -> Result<Placeholder, AllocError>
    ensures { IfOk result (λ p. placeholder_of p ≡ judged_by (held_of before.entry) (answer_of answer.now)) }
{
    known(alloc, or_shown(before, id_shown(answer)))
}

fn known(alloc: Global, held: Held) -> Result<Placeholder, AllocError>
    ensures { IfOk result (λ p. placeholder_of p ≡ known (held_of held.entry)) }
{
    match held {
        Held::Holds(id) => Ok(Placeholder {
            id: Some(String::from_str(alloc, id)?),
        }),
        Held::Empty | Held::Unknown => Ok(Placeholder { id: None }),
    }
}

/// What the placeholder holds behind an item.
pub(crate) fn held_behind<'p>(before: Held<'p>, answer: &'p Answer<'p>) -> Held<'p>
    ensures { held_of result ≡ held_by answer.now.status (held_of before.entry) (answer_of answer.now).payload }
{
    match answer.status {
        Status::Success | Status::Undone => held_made(before, &answer.payload),
        Status::Failed => before,
    }
}

fn held_made<'p>(before: Held<'p>, payload: &'p Option<Payload<'p>>) -> Held<'p>
    ensures { held_of result ≡ held_made (held_of before.entry) (option_map payload_of payload.now) }
{
    match payload {
        Some(Payload::Create(answered)) => Held::Holds(answered.id),
        Some(Payload::Register(answered)) => Held::Holds(answered.id),
        Some(Payload::Locate(located)) => only(located.ids.as_slice()),
        Some(Payload::Get(_)) | Some(Payload::GetAttributes(_)) | Some(Payload::Change(_)) =>
            before,
        None => before,
    }
}

/// The only one of these, where there is one alone.
fn only<'p>(ids: &[&'p str]) -> Held<'p>
    ensures { held_of result ≡ held_as (only (map lent ids.now)) }
{
    match ids {
        [id] => Held::Holds(*id),
        _ => Held::Empty,
    }
}
