//! An order of calls that aren't plain, proposed: with what open ones do.

ghost use Rattle.std.specs.Prelude.{◌<◌, All, IfOk, IfSome, length};
ghost use Rattle.kmipa_store.specs.Choices.{IsSound};

use crate::choices::Done;
use crate::items::Items;
use crate::names::Names;
use crate::openings::add_openings;
use crate::proposing::{by_object, calls_among, mending_of};
use crate::stories::Recording;
use crate::switches::Switches;
use crate::times::all_times_of;
use kmipa_msgs::Rules;
use kmipa_record::{Call, Declaration};
use kmipa_store::Ledger;
use std::alloc::{AllocError, Global};

/// What an item of an open call does.
#[derive(Clone, Copy)]
pub struct Deed<'b> {
    /// The place of the item, from 0.
    pub item: usize,
    /// The object that it makes or changes.
    pub id: &'b str,
    /// The Time Stamp at which it does, where an answer shows it.
    pub date: Option<i64>,
}

/// A call of a proposed order.
#[derive(Drop)]
pub struct Proposed<'b> {
    /// Its place among the calls.
    pub call: usize,
    /// What it does, by its items, where it is open.
    pub deeds: Vec<Deed<'b>>,
}

/// The calls in an order that seems to explain their answers, object by object: each that has ended, and where `is_open` those open ones that
/// something shows to have been done; none where no order was found. The rules and the ledger are those of the declaration. Nothing is promised of
/// the order, but that these are places of calls.
pub fn propose_turns<'x, 'a, L: Ledger>(
    alloc: Global,
    calls: &'x [Call<'a>],
    declaration: &'x Declaration,
    rules: Rules,
    ledger: &mut L,
    is_open: bool,
) -> Result<Option<Vec<Proposed<'x>>>, AllocError>
    requires { IsSound (L.state ledger.old).now }
    ensures { IfOk result (λ turns. IfSome turns (λ ts. All (λ turn. turn.call < length calls.now) ts.items)) }
{
    let mut times = all_times_of(alloc, calls)?;
    let mut items = Items::of(alloc, calls, declaration)?;
    let mut names = Names::of(alloc, calls, &items, &rules, &mut times, is_open)?;
    if is_open {
        let wanted = names.wanted(alloc, calls, &times)?;
        add_openings(alloc, &mut items, calls, &times, &wanted)?;
    }
    let mut switches = Switches::of(alloc, calls, &items, &mut times)?;
    names.close(alloc, calls, &items, &mut times, &mut switches)?;
    let recording = Recording {
        calls,
        times,
        rules: by_object(rules),
        switches,
        is_open,
        least: least_stamp(calls),
    };
    let Some(mending) = mending_of(alloc, ledger, &recording, &mut items, &names)? else {
        return Ok(None);
    };
    let order = calls_among(alloc, &mending.graph.order, calls.len())?;
    let mut done = mending.done()?;
    date_late(calls, &order, &mut done);
    Ok(Some(turns_of(alloc, calls, &items, &order, &done)?))
}

fn least_stamp(calls: &[Call<'_>]) -> i64 {
    let mut least = i64::MAX;
    for call in calls {
        if let Some(response) = &call.response {
            least = least.min(response.stamp);
        }
    }
    least
}

/// Dates what may not come before some date: there, or at the Time Stamp of what is ahead of it, if that is greater.
fn date_late(calls: &[Call<'_>], order: &[usize], done: &mut Vec<Done>) {
    let mut stamp = i64::MIN;
    for place in order {
        if let Some(call) = calls.get(*place) {
            stamp = match &call.response {
                Some(response) => response.stamp.max(stamp),
                None => date_call(done, *place, stamp),
            };
        }
    }
}

/// The same of one open call; answers its Time Stamp.
fn date_call(done: &mut Vec<Done>, call: usize, before: i64) -> i64 {
    let from = done.partition_point(|done| done.call < call);
    let to = done.partition_point(|done| done.call <= call);
    let mut date: Option<i64> = None;
    let mut since = before;
    for deed in done.get(from..to).unwrap_or(&[]) {
        date = date.or(deed.date);
        since = since.max(deed.since.unwrap_or(before));
    }
    if let Some(date) = date {
        return date.max(before);
    }
    for place in from..to {
        if let Some(deed) = done.get_mut(place) {
            if since > before {
                deed.date = Some(since);
            }
        }
    }
    since
}

/// The turns of these calls, but for open ones that do nothing.
fn turns_of<'x, 'a>(
    alloc: Global,
    calls: &'x [Call<'a>],
    items: &Items<'x>,
    order: &[usize],
    done: &[Done],
) -> Result<Vec<Proposed<'x>>, AllocError>
    ensures { IfOk result (λ turns. All (λ turn. turn.call < length calls.now) turns.items) }
{
    let mut turns = Vec::new(alloc);
    'order: for call in order {
        if *call < calls.len() {
            let deeds = deeds_of(alloc, items, done, *call)?;
            if calls[*call].end.is_some() || !deeds.is_empty() {
                turns.push(Proposed { call: *call, deeds })?;
            }
        }
    }
    Ok(turns)
}

fn deeds_of<'x>(
    alloc: Global,
    items: &Items<'x>,
    done: &[Done],
    call: usize,
) -> Result<Vec<Deed<'x>>, AllocError> {
    let from = done.partition_point(|done| done.call < call);
    let to = done.partition_point(|done| done.call <= call);
    let mut deeds = Vec::new(alloc);
    for done in done.get(from..to).unwrap_or(&[]) {
        if let Some(known) = items.objects.get(done.object) {
            deeds.push(Deed {
                item: done.item,
                id: known.id,
                date: done.date,
            })?;
        }
    }
    Ok(deeds)
}
