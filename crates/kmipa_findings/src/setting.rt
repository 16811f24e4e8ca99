//! What is set aside where no order was found.

ghost use Rattle.std.specs.Prelude.{IfOk, OnOk};
ghost use Rattle.kmipa_store.specs.Choices.{IsSound};
ghost use Rattle.kmipa_findings.specs.Trying.{AreTakable};

use crate::basis::Basis;
use crate::calls::step_of;
use crate::copying::copied_turn;
use crate::finding::Finding;
use crate::ranking::moment_of;
use crate::road::{Refusal, Road, Stuck};
use crate::trying::{Advance, try_over};
use kmipa_check::{Grants, Refused};
use kmipa_ops::Why;
use kmipa_record::Turn;
use kmipa_store::Ledger;
use kmipa_trail::Fault;
use kmipa_turns::{Recorded, Step};
use std::alloc::{AllocError, Global};

/// What a search is given: by what is judged, what the server is granted, the calls, and the step that each makes with its bare turn.
#[derive(Clone, Copy)]
pub(crate) struct Given<'r, 'o, 'g, 'c, 'a, 's, 'b> {
    pub basis: Basis<'r, 'o>,
    pub grants: Grants<'g>,
    pub calls: &'c [Recorded<'a>],
    pub steps: &'s [Step<'b>],
}

/// The turns that stay, and what was found along them.
#[derive(Drop)]
pub(crate) struct Found {
    pub turns: Vec<Turn>,
    pub findings: Vec<Finding>,
}

/// Takes the calls again that lead to the deepest place, and then the one that is impossible there, with what is impossible set aside. Whether that could be
/// done.
pub(crate) fn set_aside<L: Ledger>(
    alloc: Global,
    ledger: &mut L,
    given: Given,
    road: &mut Road,
    found: &mut Found,
    stuck: &Stuck,
) -> Result<bool, Fault>
    requires sound { IsSound (L.state ledger.old).now }
    requires takable { AreTakable given.steps.now }
    ensures { OnOk result (IsSound (L.state ledger.new).now) }
{
    'places: for place in &stuck.path {
        if !take_again(alloc, ledger, given, road, found, *place)? {
            return Ok(false);
        }
    }
    take_aside(alloc, ledger, given, road, found, stuck.refusal)
}

/// Takes a call for good, as it was recorded.
fn take_again<L: Ledger>(
    alloc: Global,
    ledger: &mut L,
    given: Given,
    road: &mut Road,
    found: &mut Found,
    place: usize,
) -> Result<bool, Fault>
    requires sound { IsSound (L.state ledger.old).now }
    requires takable { AreTakable given.steps.now }
    ensures { OnOk result (IsSound (L.state ledger.new).now) }
{
    let Some(step) = given.steps.get(place) else {
        return Ok(false);
    };
    match try_over(alloc, ledger, given.basis, step)? {
        Advance::Taken(_) => {
            road.settle(place, moment_of(step));
            found.turns.push(Turn::bare(alloc, step.number))?;
            Ok(true)
        }
        Advance::Refused(_, _) => Ok(false),
    }
}

/// Takes a call for good, with what is impossible of it set aside: one item after the other, or all of it.
fn take_aside<L: Ledger>(
    alloc: Global,
    ledger: &mut L,
    given: Given,
    road: &mut Road,
    found: &mut Found,
    refusal: Refusal,
) -> Result<bool, Fault>
    requires sound { IsSound (L.state ledger.old).now }
    ensures { OnOk result (IsSound (L.state ledger.new).now) }
{
    let place = refusal.place;
    let Some(call) = given.calls.get(place) else {
        return Ok(false);
    };
    let impossible = Impossible {
        basis: given.basis,
        grants: given.grants,
        call,
        stamp: stamp_at(given.steps, place),
        answer: (refusal.item, refusal.why),
    };
    let turn = Turn::bare(alloc, call.number);
    let Some(settled) = take_partly(alloc, ledger, impossible, found, turn)? else {
        return Ok(false);
    };
    road.settle(place, settled.moment);
    Ok(true)
}

/// A call that is impossible by its turn: its Time Stamp where it can be read, and the item, counted from 1, with the reason.
#[derive(Clone, Copy)]
pub(crate) struct Impossible<'r, 'o, 'g, 'c, 'a> {
    pub basis: Basis<'r, 'o>,
    pub grants: Grants<'g>,
    pub call: &'c Recorded<'a>,
    pub stamp: Option<i64>,
    pub answer: (usize, Why),
}

/// A call that is taken for good: its moment, where it can be read.
#[derive(Clone, Copy)]
pub(crate) struct Settled {
    pub moment: Option<i64>,
}

/// Takes a call for good by a turn, with what is impossible set aside: one item after the other, or all of it. None where the turn doesn't fit then.
pub(crate) fn take_partly<L: Ledger>(
    alloc: Global,
    ledger: &mut L,
    impossible: Impossible,
    found: &mut Found,
    turn: Turn,
) -> Result<Option<Settled>, Fault>
    requires sound { IsSound (L.state ledger.old).now }
    ensures { OnOk result (IsSound (L.state ledger.new).now) }
{
    let Impossible {
        basis,
        grants,
        call,
        stamp,
        answer,
    } = impossible;
    let first = found.findings.len();
    let mut turn = turn;
    let (mut item, mut why) = answer;
    'asides: for _ in 0..u64::MAX {
        note(alloc, found, first, &turn, (item, why), stamp)?;
        set_more_aside(&mut turn, item, why)?;
        match try_turn(alloc, ledger, basis, &grants, call, &turn)? {
            Tried::Taken(moment) => {
                found.turns.push(turn)?;
                return Ok(Some(Settled { moment }));
            }
            Tried::Refused(other, reason) => {
                item = other;
                why = reason;
            }
            Tried::Unfit => return Ok(None),
        }
    }
    Ok(None)
}

/// The Time Stamp of the call of a step, where it is there and can be read.
fn stamp_at(steps: &[Step], place: usize) -> Option<i64> {
    match steps.get(place) {
        Some(step) => step.stamp,
        None => None,
    }
}

/// Whether the whole call is set aside for this: its shape is wrong, it answers something else, or its turn itself is impossible.
fn is_of_whole(item: usize, why: Why) -> bool {
    item == 0 || why == Why::BatchShape || why == Why::OperationDiffers
}

/// Remembers what was found. Where the whole call is set aside, and not for the first finding of its turn, that one stays alone, as that of the call.
fn note(
    alloc: Global,
    found: &mut Found,
    first: usize,
    turn: &Turn,
    answer: (usize, Why),
    stamp: Option<i64>,
) -> Result<(), AllocError> {
    let (item, why) = answer;
    if is_of_whole(item, why) && found.findings.len() > first {
        found.findings.truncate(first.saturating_add(1));
        return Ok(());
    }
    let place = found.turns.len();
    let refused = Refused {
        turn: place.saturating_add(1),
        call: turn.call,
        item,
        why,
    };
    let tried = copied_turn(alloc, turn)?;
    found.findings.push(Finding {
        place,
        tried,
        refused,
        stamp,
    })?;
    Ok(())
}

/// One item more is set aside, or the whole call.
fn set_more_aside(turn: &mut Turn, item: usize, why: Why) -> Result<(), AllocError> {
    let number = match i32::try_from(item) {
        Ok(number) if !is_of_whole(item, why) => number,
        _ => 0,
    };
    if number == 0 {
        turn.asides.clear();
    }
    turn.asides.push(number)?;
    Ok(())
}

/// What comes of a turn that is tried.
enum Tried {
    /// It is taken, at this moment; none where its call can't be read.
    Taken(Option<i64>),
    /// It is impossible at this item, for this reason.
    Refused(usize, Why),
    /// It doesn't fit its call.
    Unfit,
}

/// Tries a turn of a call over a ledger.
fn try_turn<L: Ledger>(
    alloc: Global,
    ledger: &mut L,
    basis: Basis,
    grants: &Grants,
    call: &Recorded,
    turn: &Turn,
) -> Result<Tried, Fault>
    requires sound { IsSound (L.state ledger.old).now }
    ensures { OnOk result (IsSound (L.state ledger.new).now) }
{
    let Some(step) = step_of(alloc, grants, call, turn)? else {
        return Ok(Tried::Unfit);
    };
    match try_over(alloc, ledger, basis, &step)? {
        Advance::Taken(_) => Ok(Tried::Taken(moment_of(&step))),
        Advance::Refused(item, why) => Ok(Tried::Refused(item, why)),
    }
}
