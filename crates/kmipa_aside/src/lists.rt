//! A Locate whose answer lists identifiers that are set aside.

ghost use Rattle.std.specs.Prelude.{◌≡◌, ◌≤◌, ◌-◌, ◌++◌, ◌∷◌, [], IfOk, OnOk, false, map, option_map, true};
ghost use Rattle.kmipa_attrs.specs.Filters.{filter_of};
ghost use Rattle.kmipa_store.specs.Choices.{IsSound};
ghost use Rattle.kmipa_msgs.specs.Messages.{answer_of, ask_of, asked_of, lent, payload_of, rules_of};
ghost use Rattle.kmipa_ops.specs.Explains.{is_readable};
ghost use Rattle.kmipa_ops.specs.Locate.{has_repeat, is_over};
ghost use Rattle.kmipa_passed.specs.Leaving.{held_of};
ghost use Rattle.kmipa_aside.specs.Becoming.{stand_in};
ghost use Rattle.kmipa_aside.specs.Listing.{IsBeside, is_listing};
ghost use Rattle.kmipa_aside.specs.Lists.{any_aside, is_touched, judged_of, lists_aside, lowered};
ghost use Rattle.kmipa_aside.specs.Taking.{TakenListing};

use crate::beside::Beside;
use crate::cases::case_of;
use crate::excused::is_as_ever;
use crate::item::Item;
use crate::plain::{held_behind, judged_by};
use crate::standing::is_aside;
use kmipa_attrs::Filter;
use kmipa_msgs::{Answer, Ask, Asked, Locate, Located, Payload, Rules, Status};
use kmipa_ops::{Refusal, Why, is_other_number, is_over, take};
use kmipa_passed::Held;
use kmipa_store::Ledger;
use std::alloc::{AllocError, Global};
use std::collections::BTreeSet;

/// Takes a Locate that lists identifiers that are set aside, and is judged as ever, and answers what the ID Placeholder holds behind it. None of
/// another item, and then nothing is done. It is refused where something is listed twice, or where kmipa_ops refuses what is listed beside them, and
/// nothing is changed then. After want of memory the ledger can be taken back to each of its marks.
pub fn take_listing<'p, L: Ledger>(
    alloc: Global,
    ledger: &mut L,
    rules: &Rules,
    item: Item<'p>,
) -> Result<Option<Held<'p>>, Refusal>
    requires sound { IsSound (L.state ledger.old).now }
    requires readable { is_readable (ask_of item.ask.now) (answer_of item.answer.now) ≡ true }
    ensures { TakenListing (rules_of rules.now) (L.state ledger.old) (held_of item.entry.before) item.entry.moment
        (ask_of item.entry.ask.now) (answer_of item.entry.answer.now) result (L.state ledger.new) }
{
    let Item {
        moment,
        before,
        ask,
        answer,
    } = item;
    if !is_listing(ledger, rules, before, ask, answer) {
        return Ok(None);
    }
    if is_other_number(answer.operation, ask.number()) {
        return Err(Refusal::Impossible(Why::OperationDiffers));
    }
    let Ok(beside) = beside(alloc, ledger, ask, answer) else {
        return Err(Refusal::Memory);
    };
    let Some(beside) = beside else {
        return Err(Refusal::Impossible(Why::ListedWrongly));
    };
    let Ok(mut placeholder) = judged_by(alloc, before, answer) else {
        return Err(Refusal::Memory);
    };
    match take(
        alloc,
        ledger,
        rules,
        &mut placeholder,
        moment,
        &beside.ask,
        &beside.answer,
    ) {
        Ok(()) => Ok(Some(held_behind(before, answer))),
        Err(refusal) => Err(refusal),
    }
}

/// Whether an item is a Locate that is judged as ever and lists identifiers that are set aside.
fn is_listing<'p, L: Ledger>(
    ledger: &L,
    rules: &Rules,
    before: Held<'p>,
    ask: &'p Ask<'p>,
    answer: &'p Answer<'p>,
) -> bool
    ensures { result ≡ is_listing (rules_of rules.now) (stand_in (L.state ledger.now).now) (held_of before.entry)
        (ask_of ask.now) (answer_of answer.now) }
{
    is_as_ever(case_of(ledger, rules, before, ask, answer)) && is_touched(ledger, ask, answer)
}

/// What is asked and answered beside what is set aside. None where something is listed twice, or more than the maximum.
fn beside<'p, L: Ledger>(
    alloc: Global,
    ledger: &L,
    ask: &'p Ask<'p>,
    answer: &'p Answer<'p>,
) -> Result<Option<Beside<'p>>, AllocError>
    ensures { IfOk result (λ b. IsBeside (stand_in (L.state ledger.now).now) (ask_of ask.now) (answer_of answer.now) b) }
{
    let Asked::Locate(locate) = &ask.asked else {
        return Ok(None);
    };
    let Some(payload) = &answer.payload else {
        return Ok(None);
    };
    let Payload::Locate(located) = payload else {
        return Ok(None);
    };
    let listed = located.ids.as_slice();
    if has_repeat(alloc, listed)? || is_over(locate.filter.maximum, listed.len()) {
        return Ok(None);
    }
    let judged = judged_of(alloc, ledger, listed)?;
    let maximum = lowered(locate.filter.maximum, listed.len(), judged.len());
    let asked = Asked::Locate(Locate {
        filter: Box::new(alloc, with_maximum(alloc, &locate.filter, maximum)?)?,
    });
    Ok(Some(Beside {
        ask: Ask {
            batch_id: ask.batch_id,
            asked,
        },
        answer: Answer {
            operation: answer.operation,
            batch_id: answer.batch_id,
            status: answer.status,
            reason: answer.reason,
            payload: Some(Payload::Locate(Located { ids: judged })),
        },
    }))
}

/// The filter, of which so many may be listed.
pub(crate) fn with_maximum(
    alloc: Global,
    filter: &Filter,
    maximum: Option<i32>,
) -> Result<Filter, AllocError>
    ensures { IfOk result (λ f. filter_of f ≡ record (filter_of filter.now) { maximum = maximum }) }
{
    Ok(Filter {
        maximum,
        ..filter.copy(alloc)?
    })
}

/// How many may be listed beside what is set aside, where so many are listed and so many of them are judged.
fn lowered(maximum: Option<i32>, listed: usize, judged: usize) -> Option<i32>
    requires within { judged ≤ listed }
    requires fits { is_over maximum listed ≡ false }
    ensures { result ≡ lowered maximum (listed - judged) }
{
    match maximum {
        Some(most) => Some(most - (listed - judged) as i32),
        None => None,
    }
}

/// Those of these that aren't set aside.
fn judged_of<'p, L: Ledger>(
    alloc: Global,
    ledger: &L,
    ids: &[&'p str],
) -> Result<Vec<&'p str>, AllocError>
    ensures { IfOk result (λ judged. map lent judged.items ≡ judged_of (stand_in (L.state ledger.now).now) (map lent ids.now)) }
{
    let mut judged = Vec::new(alloc);
    for id in ids {
        push_judged(ledger, &mut judged, *id)?;
    }
    Ok(judged)
}

/// An identifier more, unless it is set aside.
fn push_judged<'p, L: Ledger>(
    ledger: &L,
    judged: &mut Vec<&'p str>,
    id: &'p str,
) -> Result<(), AllocError>
    ensures { OnOk result
        (map lent judged.new.items
        ≡ map lent judged.old.items ++ judged_of (stand_in (L.state ledger.now).now) (id.now ∷ [])) }
{
    if is_aside(ledger, id) {
        return Ok(());
    }
    judged.push(id)?;
    Ok(())
}

/// Whether one of these stands twice.
fn has_repeat(alloc: Global, ids: &[&str]) -> Result<bool, AllocError>
    ensures { IfOk result (λ repeats. repeats ≡ has_repeat (map lent ids.now)) }
{
    let mut behind = BTreeSet::new(alloc);
    let mut place = ids.len();
    'ids: while place > 0 {
        place -= 1;
        if !behind.insert(ids[place])? {
            return Ok(true);
        }
    }
    Ok(false)
}

/// Whether a Locate lists an identifier that is set aside.
pub(crate) fn is_touched<L: Ledger>(ledger: &L, ask: &Ask, answer: &Answer) -> bool
    ensures { result ≡ is_touched (stand_in (L.state ledger.now).now) (ask_of ask.now) (answer_of answer.now) }
{
    match answer.status {
        Status::Success | Status::Undone => lists_aside(ledger, &ask.asked, &answer.payload),
        Status::Failed => false,
    }
}

fn lists_aside<L: Ledger>(ledger: &L, asked: &Asked, payload: &Option<Payload>) -> bool
    ensures { result ≡ lists_aside (stand_in (L.state ledger.now).now) (asked_of asked.now)
        (option_map payload_of payload.now) }
{
    match (asked, payload) {
        (Asked::Locate(_), Some(Payload::Locate(located))) => {
            any_aside(ledger, located.ids.as_slice())
        }
        _ => false,
    }
}

/// Whether one of these is set aside.
fn any_aside<L: Ledger>(ledger: &L, ids: &[&str]) -> bool
    ensures { result ≡ any_aside (stand_in (L.state ledger.now).now) (map lent ids.now) }
{
    for id in ids {
        if is_aside(ledger, id) {
            return true;
        }
    }
    false
}
