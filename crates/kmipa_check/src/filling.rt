//! Fills: the payloads that a turn puts in where its call's response leaves them out.

ghost use Rattle.std.specs.Prelude.{◌≡◌, ◌≤ℤ◌, ◌<◌, ◌+◌, ◌^◌, IsTrue, pos, Some, map, MatchResult};
ghost use Rattle.kmipa_msgs.specs.Messages.{ask_of, request_of, response_of};
ghost use Rattle.kmipa_record.specs.Witnesses.{fill_of};
ghost use Rattle.kmipa_check.specs.Fills.{AreWanted, IsFilled, IsWanted, NoneMissing, HasFillFor, IsWantedItem};
ghost use Rattle.kmipa_check.specs.Filling.{AreNumbered, FillRead, FormFault};
ghost use Rattle.kmipa_check.specs.Numbers.{Indexes};
ghost use Rattle.kmipa_check.specs.Deciding.{Decided};
ghost use Rattle.kmipa_check.specs.Steps.{NeedsFill};

use crate::fault::{StepFault, WitnessKind};
use crate::numbers::FirstPlaces;
use kmipa_msgs::{Ask, Payload, ReadFault, Request, Response, is_wanted, read_payload};
use kmipa_record::Fill;
use kmipa_ttlv::lend;
use std::alloc::Global;

/// Whether a call waits for a payload that the witness has to give.
pub fn needs_fill(request: &Request, response: &Response) -> bool
    ensures { Decided result (NeedsFill (request_of request.now) (response_of response.now)) }
{
    let mut place = 0;
    'items: while place < request.items.len() {
        if is_wanted_at(request, response, place) {
            return true;
        }
        place += 1;
    }
    false
}

/// Whether the answer at a place waits for its payload.
fn is_wanted_at(request: &Request, response: &Response, place: usize) -> bool
    ensures { Decided result (IsWanted (request_of request.now) (response_of response.now) place) }
{
    if place >= request.items.len() {
        return false;
    }
    if place >= response.items.len() {
        return false;
    }
    is_wanted(&request.items[place], &response.items[place])
}

/// Whether each fill is for a place that waits for a payload, and no two are for one item. The places are those where an item's number
/// first stands among the fills.
pub fn are_wanted(
    request: &Request,
    response: &Response,
    fills: &[Fill],
    places: &FirstPlaces,
) -> bool
    requires { Indexes (map (λ fill. Some fill.item) fills.now) places.now }
    ensures decided { Decided result
        (AreWanted (request_of request.now) (response_of response.now) (map fill_of fills.now)) }
    ensures numbered { IsTrue result → AreNumbered (map fill_of fills.now) }
{
    let mut at = 0;
    'fills: while at < fills.len() {
        let item = fills[at].item;
        if !places.is_first(item, at) {
            return false;
        }
        if !is_wanted_item(request, response, item) {
            return false;
        }
        at += 1;
    }
    true
}

/// Whether the answer of the item of this number, counted from 1, waits for its payload.
fn is_wanted_item(request: &Request, response: &Response, item: i32) -> bool
    ensures { Decided result (IsWantedItem (request_of request.now) (response_of response.now) item) }
{
    if item < 1 {
        return false;
    }
    is_wanted_at(request, response, item_place(item))
}

/// The place, counted from 0, of the item of this number.
pub(crate) fn item_place(item: i32) -> usize
    requires { pos 1 ≤ℤ item }
    ensures { item ≡ pos (result + 1) }
{
    (item - 1) as usize
}

/// Whether each place that waits for a payload has a fill.
pub fn none_missing(
    request: &Request,
    response: &Response,
    fills: &[Fill],
    places: &FirstPlaces,
) -> bool
    requires indexed { Indexes (map (λ fill. Some fill.item) fills.now) places.now }
    requires numbered { AreNumbered (map fill_of fills.now) }
    ensures { Decided result (NoneMissing (request_of request.now) (response_of response.now) (map fill_of fills.now)) }
{
    let mut place = 0;
    'items: while place < request.items.len() {
        if is_wanted_at(request, response, place) {
            if !has_fill(fills, places, place) {
                return false;
            }
        }
        place += 1;
    }
    true
}

/// Whether there is a fill for this place.
fn has_fill(fills: &[Fill], places: &FirstPlaces, place: usize) -> bool
    requires below { place < 2 ^ 63 }
    requires indexed { Indexes (map (λ fill. Some fill.item) fills.now) places.now }
    requires numbered { AreNumbered (map fill_of fills.now) }
    ensures { Decided result (HasFillFor (map fill_of fills.now) place) }
{
    match i32::try_from(place + 1) {
        Ok(item) => places.place(item).is_some(),
        Err(_) => false,
    }
}

/// The response with the fills put in.
pub fn filled<'a>(
    alloc: Global,
    request: &Request,
    response: &Response<'a>,
    fills: &'a [Fill],
) -> Result<Response<'a>, StepFault>
    requires wanted { AreWanted (request_of request.now) (response_of response.now) (map fill_of fills.now) }
    requires complete { NoneMissing (request_of request.now) (response_of response.now) (map fill_of fills.now) }
    ensures { MatchResult result
        (λ full. IsFilled (request_of request.now) (response_of response.now) (map fill_of fills.now)
        (response_of full))
        (FormFault (request_of request.now) (response_of response.now) (map fill_of fills.now)) }
{
    let mut full = response.copy(alloc)?;
    let mut at = 0;
    'fills: while at < fills.len() {
        let fill = &fills[at];
        let place = item_place(fill.item);
        let payload = read_fill(alloc, fill, &request.items[place])?;
        full.items[place].payload = Some(payload);
        at += 1;
    }
    Ok(full)
}

/// The payload of a fill, as the answer to what was asked.
fn read_fill<'a>(alloc: Global, fill: &'a Fill, ask: &Ask) -> Result<Payload<'a>, StepFault>
    ensures { FillRead (fill_of fill.now) (ask_of ask.now) result }
{
    let view = lend(&fill.payload);
    match read_payload(alloc, &view, ask) {
        Ok(payload) => Ok(payload),
        Err(ReadFault::Outside(_)) => Err(StepFault::Unfit(WitnessKind::FillForm)),
        Err(ReadFault::Memory) => Err(StepFault::Memory),
    }
}
