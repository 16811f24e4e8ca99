//! Objects that a Locate needn't list, since a server may hide them.

ghost use Rattle.std.specs.Prelude.{◌≡◌, ◌++◌, ◌∷◌, [], IfOk, OnOk, Some, bytes_eq, map, option_map};
ghost use Rattle.kmipa_attrs.specs.Filters.{filter_of};
ghost use Rattle.kmipa_store.specs.Ledger.{cards_of};
ghost use Rattle.kmipa_msgs.specs.Messages.{answer_of, ask_of, asked_of, lent, payload_of};
ghost use Rattle.kmipa_ops.specs.Locate.{is_full, is_listed};
ghost use Rattle.kmipa_ops.specs.Objects.{card_meant};
ghost use Rattle.kmipa_aside.specs.Becoming.{stand_in};
ghost use Rattle.kmipa_aside.specs.Missed.{is_missed, missed, missed_in, missed_of, must_here};
ghost use Rattle.kmipa_aside.specs.Sights.{sight_of};

use crate::cases::is_failed;
use crate::sight::{Sight, hidden_ids};
use kmipa_attrs::Filter;
use kmipa_msgs::{Answer, Ask, Asked, Payload};
use kmipa_object::state_at;
use kmipa_ops::{Fit, lists_are_decided, matches};
use kmipa_store::Ledger;
use std::alloc::{AllocError, Global};

/// The identifiers of the hidden objects that a Locate is to list, and doesn't: none of another item, and none where judging is over.
pub(crate) fn missed<'p, L: Ledger>(
    alloc: Global,
    ledger: &L,
    sight: Sight<'_, 'p>,
    t: i64,
    ask: &'p Ask<'p>,
    answer: &'p Answer<'p>,
) -> Result<Vec<&'p str>, AllocError>
    ensures { IfOk result
        (λ ids. map lent ids.items
        ≡ missed (sight_of sight.entry) (stand_in (L.state ledger.now).now) t (ask_of ask.now) (answer_of answer.now)) }
{
    if ledger.is_over() {
        return Ok(Vec::new(alloc));
    }
    if is_failed(answer.status) {
        return Ok(Vec::new(alloc));
    }
    let ids = missed_in(alloc, ledger, sight, t, &ask.asked, &answer.payload)?;
    Ok(ids)
}

/// Those that an answer misses.
fn missed_in<'p, L: Ledger>(
    alloc: Global,
    ledger: &L,
    sight: Sight<'_, 'p>,
    t: i64,
    asked: &Asked,
    payload: &Option<Payload>,
) -> Result<Vec<&'p str>, AllocError>
    ensures { IfOk result
        (λ ids. map lent ids.items
        ≡ missed_in (sight_of sight.entry).hidden (stand_in (L.state ledger.now).now) t (asked_of asked.now)
        (option_map payload_of payload.now)) }
{
    let Asked::Locate(locate) = asked else {
        return Ok(Vec::new(alloc));
    };
    let Some(payload) = payload else {
        return Ok(Vec::new(alloc));
    };
    let Payload::Locate(located) = payload else {
        return Ok(Vec::new(alloc));
    };
    let listed = located.ids.as_slice();
    if is_full(locate.filter.maximum, listed.len()) {
        return Ok(Vec::new(alloc));
    }
    let ids = missed_hidden(alloc, ledger, sight, t, &locate.filter, listed)?;
    Ok(ids)
}

/// Whether as many are listed as the maximum.
fn is_full(maximum: Option<i32>, count: usize) -> bool
    ensures { result ≡ is_full maximum count }
{
    match maximum {
        Some(most) => !((count as i128) < i128::from(most)),
        None => false,
    }
}

/// The hidden ones that are to be listed, and aren't.
fn missed_hidden<'p, L: Ledger>(
    alloc: Global,
    ledger: &L,
    sight: Sight<'_, 'p>,
    t: i64,
    filter: &Filter,
    listed: &[&str],
) -> Result<Vec<&'p str>, AllocError>
    ensures { IfOk result
        (λ missed. map lent missed.items
        ≡ missed_of (cards_of (L.state ledger.now).now.objects) t (filter_of filter.now) (map lent listed.now)
        (sight_of sight.entry).hidden) }
{
    let hidden = hidden_ids(alloc, sight)?;
    let ids = missed_of(alloc, ledger, t, filter, listed, hidden.as_slice())?;
    Ok(ids)
}

/// Those of these that are to be listed, and aren't.
fn missed_of<'p, L: Ledger>(
    alloc: Global,
    ledger: &L,
    t: i64,
    filter: &Filter,
    listed: &[&str],
    ids: &[&'p str],
) -> Result<Vec<&'p str>, AllocError>
    ensures { IfOk result
        (λ missed. map lent missed.items
        ≡ missed_of (cards_of (L.state ledger.now).now.objects) t (filter_of filter.now) (map lent listed.now)
        (map lent ids.now)) }
{
    let mut missed = Vec::new(alloc);
    for id in ids {
        push_missed(ledger, t, filter, listed, &mut missed, *id)?;
    }
    Ok(missed)
}

/// An identifier more, where it is to be listed, and isn't.
fn push_missed<'p, L: Ledger>(
    ledger: &L,
    t: i64,
    filter: &Filter,
    listed: &[&str],
    missed: &mut Vec<&'p str>,
    id: &'p str,
) -> Result<(), AllocError>
    ensures { OnOk result
        (map lent missed.new.items
        ≡ map lent missed.old.items
        ++ missed_of (cards_of (L.state ledger.now).now.objects) t (filter_of filter.now) (map lent listed.now)
        (id.now ∷ [])) }
{
    if !is_missed(ledger, t, filter, listed, id) {
        return Ok(());
    }
    missed.push(id)?;
    Ok(())
}

/// Whether an object is to be listed, and isn't.
fn is_missed<L: Ledger>(ledger: &L, t: i64, filter: &Filter, listed: &[&str], id: &str) -> bool
    ensures { result ≡ is_missed (cards_of (L.state ledger.now).now.objects) t (filter_of filter.now)
        (map lent listed.now) id.now }
{
    must_here(ledger, t, filter, id) && !is_listed(listed, id)
}

/// Whether an object is there, and is to be listed.
fn must_here<L: Ledger>(ledger: &L, t: i64, filter: &Filter, id: &str) -> bool
    ensures { result ≡ must_here (filter_of filter.now) t
        (card_meant (cards_of (L.state ledger.now).now.objects) (Some id.now)) }
{
    let Some(place) = ledger.find(id) else {
        return false;
    };
    lists_are_decided();
    let object = ledger.at(place);
    match matches(object, filter, state_at(&object.life, t)) {
        Fit::Must => true,
        Fit::May => false,
        Fit::Not => false,
    }
}

/// Whether an identifier is one of these.
pub(crate) fn is_listed(ids: &[&str], id: &str) -> bool
    ensures { result ≡ is_listed (map lent ids.now) id.now }
{
    for other in ids {
        if is_same(other, id) {
            return true;
        }
    }
    false
}

fn is_same(one: &str, other: &str) -> bool
    ensures { result ≡ bytes_eq one.now other.now }
{
    one == other
}
