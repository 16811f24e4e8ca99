//! The fills that a turn gives: which isn't wanted, which is missing, and which isn't of its form.

ghost use Rattle.std.specs.Prelude.{◌≡◌, IfErr, IfOk, map};
ghost use Rattle.kmipa_msgs.specs.Messages.{ask_of, request_of, response_of};
ghost use Rattle.kmipa_record.specs.Witnesses.{fill_of};
ghost use Rattle.kmipa_check.specs.Fills.{AreWanted, FillFault, IsFor, IsWanted, NoneMissing, SomeFormless, HasFillFor};
ghost use Rattle.kmipa_check.specs.Deciding.{Decided};
ghost use Rattle.kmipa_unfit.specs.UnfitFills.{IsFormlessFill, IsMissingFill, TellsFill, items_filled};
ghost use Rattle.kmipa_unfit.specs.FillFinding.{FillSays};

use crate::explanation::{FormlessFill, MissingFill, Part, Unfit};
use crate::orders::{is_item, item_place};
use crate::parts::unwanted_part;
use kmipa_check::{CheckFault, WitnessKind};
use kmipa_msgs::{Ask, OutsideKind, ReadFault, Request, Response, is_wanted, read_payload};
use kmipa_record::Fill;
use kmipa_ttlv::lend;
use std::alloc::{AllocError, Global};

/// What is wrong with the fills that a turn gives to a call with this response.
pub fn fill_unfit(
    alloc: Global,
    request: &Request,
    response: &Response,
    fills: &[Fill],
    kind: WitnessKind,
) -> Result<Unfit, CheckFault>
    requires { FillFault (request_of request.now) (response_of response.now) (map fill_of fills.now) kind }
    ensures tells { IfOk result (TellsFill (request_of request.now) (response_of response.now)
        (map fill_of fills.now) kind) }
    ensures memory { IfErr result (λ fault. fault ≡ CheckFault.Memory) }
{
    match kind {
        WitnessKind::FillNotWanted => {
            let items = fill_items(alloc, fills)?;
            Ok(Unfit::FillUnwanted(unwanted_part(request, response, &items, Part::Fill)))
        }
        WitnessKind::FillMissing => Ok(Unfit::FillMissing(missing_fill(request, response, fills))),
        _ => Ok(Unfit::FillFormless(formless_fill(alloc, request, response, fills)?)),
    }
}

/// The items that the fills name.
fn fill_items(alloc: Global, fills: &[Fill]) -> Result<Vec<i32>, AllocError>
    ensures { IfOk result (λ items. items.items ≡ items_filled (map fill_of fills.now)) }
{
    let mut items = Vec::new(alloc);
    for fill in fills {
        items.push(fill.item)?;
    }
    Ok(items)
}

/// The first item whose payload is wanted, and that has no fill.
fn missing_fill(request: &Request, response: &Response, fills: &[Fill]) -> MissingFill
    requires { NoneMissing (request_of request.now) (response_of response.now) (map fill_of fills.now) → ⊥ }
    ensures { IsMissingFill (request_of request.now) (response_of response.now) (map fill_of fills.now) result }
{
    let mut place = 0;
    'items: while place < request.items.len() {
        if is_wanted_at(request, response, place) && !has_fill(fills, place) {
            return MissingFill {
                item: place + 1,
                operation: request.items[place].number(),
            };
        }
        place += 1;
    }
    MissingFill {
        item: 0,
        operation: 0,
    }
}

/// Whether the answer at a place waits for its payload.
fn is_wanted_at(request: &Request, response: &Response, place: usize) -> bool
    ensures { Decided result (IsWanted (request_of request.now) (response_of response.now) place) }
{
    if place >= request.items.len() {
        return false;
    }
    if place >= response.items.len() {
        return false;
    }
    is_wanted(&request.items[place], &response.items[place])
}

/// Whether one of the fills is for the item at a place, counted from 0.
fn has_fill(fills: &[Fill], place: usize) -> bool
    ensures { Decided result (HasFillFor (map fill_of fills.now) place) }
{
    let mut at = 0;
    'fills: while at < fills.len() {
        if is_for(&fills[at], place) {
            return true;
        }
        at += 1;
    }
    false
}

/// Whether a fill is for the item at a place, counted from 0.
fn is_for(fill: &Fill, place: usize) -> bool
    ensures { Decided result (IsFor (fill_of fill.now) place) }
{
    is_item(fill.item, place)
}

/// The first fill that isn't of its form.
fn formless_fill(
    alloc: Global,
    request: &Request,
    response: &Response,
    fills: &[Fill],
) -> Result<FormlessFill, AllocError>
    requires wanted { AreWanted (request_of request.now) (response_of response.now) (map fill_of fills.now) }
    requires formless { SomeFormless (request_of request.now) (response_of response.now) (map fill_of fills.now) }
    ensures { IfOk result (IsFormlessFill (request_of request.now) (response_of response.now) (map fill_of fills.now)) }
{
    let mut at = 0;
    'fills: while at < fills.len() {
        let fill = &fills[at];
        let place = item_place(fill.item);
        let ask = &request.items[place];
        if let Some(kind) = fill_kind(alloc, fill, ask)? {
            return Ok(FormlessFill {
                fill: at + 1,
                item: place + 1,
                operation: ask.number(),
                kind,
            });
        }
        at += 1;
    }
    Ok(FormlessFill {
        fill: 0,
        item: 0,
        operation: 0,
        kind: OutsideKind::Missing,
    })
}

/// Why a fill isn't of the form of the payload that answers what was asked.
fn fill_kind(alloc: Global, fill: &Fill, ask: &Ask) -> Result<Option<OutsideKind>, AllocError>
    ensures { IfOk result (FillSays (fill_of fill.now) (ask_of ask.now)) }
{
    let view = lend(&fill.payload);
    match read_payload(alloc, &view, ask) {
        Ok(payload) => {
            drop(payload);
            Ok(None)
        }
        Err(ReadFault::Outside(outside)) => Ok(Some(outside.kind)),
        Err(ReadFault::Memory) => Err(AllocError),
    }
}
