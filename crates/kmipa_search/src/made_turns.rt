//! The turn of a proposed call, made over a ledger: what it fills in, the places of its items, or its answer.

ghost use Rattle.std.specs.Prelude.{◌≡◌, IfErr, IfOk, IfSome, OnOk};
ghost use Rattle.kmipa_store.specs.Choices.{IsSound};

use crate::open_answers::{Opened, fresh_names, open_answer};
use crate::sights::Sources;
use kmipa_batch::{is_refused_message, is_unordered};
use kmipa_check::CheckFault;
use kmipa_lives::{Proposed, hidden_id};
use kmipa_msgs::{
    Answer, Ask, Asked, BatchOption, Payload, ReadFault, Response, Rules, Status, is_wanted,
    read_payload,
};
use kmipa_object::{Act, State};
use kmipa_ops::{Effect, Placeholder, Refusal, is_readable, row_of, take};
use kmipa_orders::payload_at;
use kmipa_record::{Call, Fill, Turn};
use kmipa_store::Ledger;
use kmipa_ttlv::lend;
use std::alloc::{AllocError, Global};

/// So many items of a batch without order are tried in other orders than by place.
const MOST_LOOSE: usize = 1_000;

/// What turns are made by.
#[derive(Clone, Copy)]
pub(crate) struct MadeBy<'c, 'b, 'a> {
    pub rules: &'c Rules,
    pub sources: Sources<'b, 'a>,
    /// Whether the items of a batch without order may be taken in other orders than by place.
    pub is_open: bool,
}

/// The turn of a call at a Time Stamp; none where no turn is found that is possible.
pub(crate) fn made_turn<'b, 'a, L: Ledger>(
    alloc: Global,
    ledger: &mut L,
    by: MadeBy<'_, 'b, 'a>,
    call: &'b Call<'a>,
    proposed: &Proposed<'b>,
    stamp: i64,
) -> Result<Option<Turn>, CheckFault>
    requires { IsSound (L.state ledger.old).now }
    ensures named { IfOk result (λ turn. IfSome turn (λ t. t.call ≡ call.now.number)) }
    ensures sound { OnOk result (IsSound (L.state ledger.new).now) }
    ensures memory { IfErr result (λ fault. fault ≡ CheckFault.Memory) }
{
    let mut turn = Turn::bare(alloc, call.number);
    let Some(response) = &call.response else {
        let names = fresh_names(alloc, call)?;
        let opened = Opened {
            rules: by.rules,
            call,
            deeds: &proposed.deeds,
            names: &names,
            sources: by.sources,
        };
        turn.answer = open_answer(alloc, ledger, opened, stamp)?;
        return Ok(turn.answer.is_some().then_some(turn));
    };
    let is_loose = by.is_open && is_unordered(&call.request) && !is_refused_message(response);
    if !is_loose && !waits(call, response) {
        return Ok(Some(turn));
    }
    let batch = Batch {
        rules: by.rules,
        call,
        response,
        is_loose,
    };
    match made_items(alloc, ledger, batch)? {
        Some((places, fills)) => {
            turn.places = places;
            turn.fills = fills;
            Ok(Some(turn))
        }
        None => Ok(None),
    }
}

/// Whether a call waits for a payload.
fn waits(call: &Call, response: &Response) -> bool {
    let asks = call.request.items.iter();
    asks.zip(response.items.iter())
        .any(|(ask, answer)| is_wanted(ask, answer))
}

/// A call that has ended, whose items are taken one by one.
#[derive(Clone, Copy)]
struct Batch<'c, 'a> {
    rules: &'c Rules,
    call: &'c Call<'a>,
    response: &'c Response<'a>,
    /// Its items may be taken in any order.
    is_loose: bool,
}

/// How far the items of a call are taken.
#[derive(Drop)]
struct Making {
    placeholder: Placeholder,
    /// The items that are left, from 0.
    left: Vec<usize>,
    /// Those that were taken, from 1.
    places: Vec<i32>,
    fills: Vec<Fill>,
}

/// The places of a call's items and what is filled in, so that all are possible; the ledger is left as it was.
fn made_items<L: Ledger>(
    alloc: Global,
    ledger: &mut L,
    batch: Batch<'_, '_>,
) -> Result<Option<(Vec<i32>, Vec<Fill>)>, CheckFault>
    requires { IsSound (L.state ledger.old).now }
    ensures sound { IsSound (L.state ledger.new).now }
    ensures memory { IfErr result (λ fault. fault ≡ CheckFault.Memory) }
{
    let Ok(mark) = ledger.mark() else {
        return Err(CheckFault::Memory);
    };
    let made = items_along(alloc, ledger, batch);
    ledger.back(mark);
    made
}

/// Takes the items of a call one after the other.
fn items_along<L: Ledger>(
    alloc: Global,
    ledger: &mut L,
    batch: Batch<'_, '_>,
) -> Result<Option<(Vec<i32>, Vec<Fill>)>, CheckFault>
    requires { IsSound (L.state ledger.old).now }
    ensures marks { (L.state ledger.new).marks ≡ (L.state ledger.old).marks }
    ensures memory { IfErr result (λ fault. fault ≡ CheckFault.Memory) }
{
    ledger.set_moment(batch.response.stamp);
    let mut making = batch.begun(alloc)?;
    'items: for _ in 0..batch.count() {
        if !take_any(alloc, ledger, batch, &mut making)? {
            return Ok(None);
        }
    }
    if making.is_by_place() {
        making.places.clear();
    }
    Ok(Some((making.places, making.fills)))
}

/// Takes one of the items that are left: one that leaves all as it is, or else any other.
fn take_any<L: Ledger>(
    alloc: Global,
    ledger: &mut L,
    batch: Batch<'_, '_>,
    making: &mut Making,
) -> Result<bool, CheckFault>
    requires { IsSound (L.state ledger.old).now }
    ensures marks { (L.state ledger.new).marks ≡ (L.state ledger.old).marks }
    ensures sound { OnOk result (IsSound (L.state ledger.new).now) }
    ensures memory { IfErr result (λ fault. fault ≡ CheckFault.Memory) }
{
    if batch.is_loose && take_first(alloc, ledger, batch, making, true)? {
        return Ok(true);
    }
    take_first(alloc, ledger, batch, making, false)
}

/// Takes the first of the items that are left that is possible, and that leaves all as it is where `only_idle`.
fn take_first<L: Ledger>(
    alloc: Global,
    ledger: &mut L,
    batch: Batch<'_, '_>,
    making: &mut Making,
    only_idle: bool,
) -> Result<bool, CheckFault>
    requires { IsSound (L.state ledger.old).now }
    ensures marks { (L.state ledger.new).marks ≡ (L.state ledger.old).marks }
    ensures sound { OnOk result (IsSound (L.state ledger.new).now) }
    ensures memory { IfErr result (λ fault. fault ≡ CheckFault.Memory) }
{
    'tries: for number in 0..batch.tries(making) {
        let Some(item) = making.left.get(number).copied() else {
            return Ok(false);
        };
        if only_idle && !batch.is_idle(item) {
            continue;
        }
        if take_at(alloc, ledger, batch, making, item)? {
            making.leave(alloc, item)?;
            return Ok(true);
        }
    }
    Ok(false)
}

/// Takes an item, with a guess of its payload where that is hidden.
fn take_at<L: Ledger>(
    alloc: Global,
    ledger: &mut L,
    batch: Batch<'_, '_>,
    making: &mut Making,
    item: usize,
) -> Result<bool, CheckFault>
    requires { IsSound (L.state ledger.old).now }
    ensures marks { (L.state ledger.new).marks ≡ (L.state ledger.old).marks }
    ensures sound { OnOk result (IsSound (L.state ledger.new).now) }
    ensures memory { IfErr result (λ fault. fault ≡ CheckFault.Memory) }
{
    let Some(ask) = batch.call.request.items.get(item) else {
        return Ok(false);
    };
    let Some(answer) = batch.response.items.get(item) else {
        return Ok(false);
    };
    if !is_wanted(ask, answer) {
        return take_one(alloc, ledger, batch, &mut making.placeholder, ask, answer);
    }
    let number = i32::try_from(item).unwrap_or(0).saturating_add(1);
    let id = hidden_id(batch.call, item);
    let payload = payload_at(alloc, ledger, ask, number, id)?;
    let fill = Fill {
        item: number,
        payload,
    };
    let is_taken = take_filled(alloc, ledger, batch, &mut making.placeholder, item, &fill)?;
    making.fills.push(fill)?;
    Ok(is_taken)
}

/// Takes an item with what is filled in.
fn take_filled<L: Ledger>(
    alloc: Global,
    ledger: &mut L,
    batch: Batch<'_, '_>,
    placeholder: &mut Placeholder,
    item: usize,
    fill: &Fill,
) -> Result<bool, CheckFault>
    requires { IsSound (L.state ledger.old).now }
    ensures marks { (L.state ledger.new).marks ≡ (L.state ledger.old).marks }
    ensures sound { OnOk result (IsSound (L.state ledger.new).now) }
    ensures memory { IfErr result (λ fault. fault ≡ CheckFault.Memory) }
{
    let Some(ask) = batch.call.request.items.get(item) else {
        return Ok(false);
    };
    let Some(answer) = batch.response.items.get(item) else {
        return Ok(false);
    };
    let view = lend(&fill.payload);
    let payload = match read_payload(alloc, &view, ask) {
        Ok(payload) => payload,
        Err(ReadFault::Outside(_)) => return Ok(false),
        Err(ReadFault::Memory) => return Err(CheckFault::Memory),
    };
    let full = Answer {
        operation: answer.operation,
        batch_id: answer.batch_id,
        status: answer.status,
        reason: answer.reason,
        payload: Some(payload),
    };
    take_one(alloc, ledger, batch, placeholder, ask, &full)
}

fn take_one<L: Ledger>(
    alloc: Global,
    ledger: &mut L,
    batch: Batch<'_, '_>,
    placeholder: &mut Placeholder,
    ask: &Ask<'_>,
    answer: &Answer<'_>,
) -> Result<bool, CheckFault>
    requires { IsSound (L.state ledger.old).now }
    ensures marks { (L.state ledger.new).marks ≡ (L.state ledger.old).marks }
    ensures sound { OnOk result (IsSound (L.state ledger.new).now) }
    ensures memory { IfErr result (λ fault. fault ≡ CheckFault.Memory) }
{
    if !is_readable(ask, answer) {
        return Ok(false);
    }
    let t = batch.response.stamp;
    match take(alloc, ledger, batch.rules, placeholder, t, ask, answer) {
        Ok(()) => Ok(true),
        Err(Refusal::Impossible(_)) => Ok(false),
        Err(Refusal::Memory) => Err(CheckFault::Memory),
    }
}

impl<'c, 'a> Batch<'c, 'a> {
    /// So many items have an answer.
    fn count(&self) -> usize {
        let asks = self.call.request.items.len();
        asks.min(self.response.items.len())
    }

    /// None is taken.
    fn begun(&self, alloc: Global) -> Result<Making, AllocError> {
        let mut ranked = Vec::new(alloc);
        for item in 0..self.count() {
            ranked.push((self.rank(item), item))?;
        }
        ranked.sort_unstable();
        let mut left = Vec::new(alloc);
        for (_, item) in &ranked {
            left.push(*item)?;
        }
        Ok(Making {
            placeholder: Placeholder::new(),
            left,
            places: Vec::new(alloc),
            fills: Vec::new(alloc),
        })
    }

    /// So many of the items that are left may be next. The failure that ended the batch is the last one.
    fn tries(&self, making: &Making) -> usize {
        let count = making.left.len();
        if !self.is_tried() {
            return 1;
        }
        match self.response.items.last() {
            Some(answer) if self.ends(answer) && count > 1 => count.saturating_sub(1),
            _ => count,
        }
    }

    /// Whether its items are tried in other orders than by place.
    fn is_tried(&self) -> bool {
        self.is_loose && self.count() <= MOST_LOOSE
    }

    /// When an item comes in a batch without order: what changes an object comes in the order of a life, and the failure that ended the batch last.
    fn rank(&self, item: usize) -> u8 {
        if !self.is_tried() {
            return 0;
        }
        match (
            self.call.request.items.get(item),
            self.response.items.get(item),
        ) {
            (Some(ask), Some(answer)) => {
                if answer.status == Status::Failed {
                    if self.ends(answer) { 6 } else { 0 }
                } else {
                    self.rank_done(ask)
                }
            }
            _ => 0,
        }
    }

    /// The same of an item that was done.
    fn rank_done(&self, ask: &Ask<'a>) -> u8 {
        let subject = row_of(&ask.asked).subject;
        match subject.act() {
            Some(Act::Activate) => 1,
            Some(Act::RevokeOther) => 2,
            Some(Act::RevokeCompromised) => {
                if self.shows_destroyed(subject.id()) {
                    5
                } else {
                    3
                }
            }
            Some(Act::Destroy) => 4,
            _ => 0,
        }
    }

    /// Whether an item shows an object as Destroyed, so that it was compromised behind that, if at all.
    fn shows_destroyed(&self, id: Option<&str>) -> bool {
        let asks = self.call.request.items.iter();
        asks.zip(self.response.items.iter())
            .any(|(ask, answer)| shows_destroyed(id, ask, answer))
    }

    fn ends(&self, answer: &Answer<'a>) -> bool {
        self.call.request.option != BatchOption::Continue && answer.status == Status::Failed
    }

    /// Whether an item leaves all objects as they are.
    fn is_idle(&self, item: usize) -> bool {
        match (
            self.call.request.items.get(item),
            self.response.items.get(item),
        ) {
            (Some(ask), Some(answer)) => {
                answer.status == Status::Failed || !is_effective(row_of(&ask.asked).effect)
            }
            _ => true,
        }
    }
}

/// Whether an item shows the object of this identifier as Destroyed.
fn shows_destroyed(id: Option<&str>, ask: &Ask<'_>, answer: &Answer<'_>) -> bool {
    match (&ask.asked, &answer.payload) {
        (Asked::GetAttributes(get), Some(Payload::GetAttributes(got))) => {
            get.id == id && got.attributes.state == Some(State::Destroyed.number())
        }
        _ => false,
    }
}

fn is_effective(effect: Effect<'_>) -> bool {
    match effect {
        Effect::Makes(_) => true,
        Effect::Changes(_) => true,
        _ => false,
    }
}

impl Making {
    /// An item was taken.
    fn leave(&mut self, alloc: Global, item: usize) -> Result<(), AllocError> {
        let mut left = Vec::with_capacity(alloc, self.left.len())?;
        for other in &self.left {
            if *other != item {
                left.push(*other)?;
            }
        }
        self.left = left;
        let number = i32::try_from(item).unwrap_or(0).saturating_add(1);
        self.places.push(number)?;
        Ok(())
    }

    fn is_by_place(&self) -> bool {
        let behind = self.places.iter().skip(1);
        self.places
            .iter()
            .zip(behind)
            .all(|(one, next)| *one < *next)
    }
}
