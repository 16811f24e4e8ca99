//! The part of a call on some objects.

ghost use Rattle.std.specs.Prelude.{◌≡◌, ◌++◌, ◌≤◌, List, None, IfOk, IfSome, length, map, take, true};
ghost use Rattle.kmipa_msgs.specs.Messages.{AskOf, answer_of, ask_of, lent, request_of, response_of};
ghost use Rattle.kmipa_parts.specs.Parts.{AllLeaveBe, ArePartItems, is_among};

use crate::idle::idle_ask;
use crate::item::{PartItem, leaves_be, part_item};
use crate::subject::held_after;
use kmipa_msgs::{Answer, Ask, Request, Response};
use std::alloc::{AllocError, Global};

/// What a call does to some objects, as a call.
#[derive(Drop)]
pub struct Part<'a> {
    pub request: Request<'a>,
    pub response: Response<'a>,
}

/// The items of a part.
#[derive(Drop)]
struct PartItems<'a> {
    asks: Vec<Ask<'a>>,
    answers: Vec<Answer<'a>>,
}

/// The part of a call by place on the objects of these identifiers; `None` where none is known: it has more answers than items, or changes
/// something, and it isn't known what.
pub fn part_of<'a>(
    alloc: Global,
    ids: &[&str],
    request: &Request<'a>,
    response: &Response<'a>,
) -> Result<Option<Part<'a>>, AllocError>
    ensures items { IfOk result
        (λ part. IfSome part
        (λ own. ArePartItems (is_among (map lent ids.now)) None (request_of request.now).items (response_of response.now).items
        (request_of own.request).items (response_of own.response).items)) }
    ensures stamp { IfOk result (λ part. IfSome part (λ own. own.response.stamp ≡ response.now.stamp)) }
    ensures option { IfOk result (λ part. IfSome part (λ own. own.request.option ≡ request.now.option)) }
{
    let Some(items) = part_items(alloc, ids, &request.items, &response.items)? else {
        return Ok(None);
    };
    let PartItems { asks, answers } = items;
    Ok(Some(Part {
        request: Request {
            option: request.option,
            ordered: true,
            items: with_idle(asks, request.items.len())?,
        },
        response: Response {
            stamp: response.stamp,
            items: answers,
        },
    }))
}

/// Whether a call by place leaves the objects of these identifiers as they are: each of its items that are answered does.
pub fn leave_be(ids: &[&str], request: &Request, response: &Response) -> bool
    ensures { result ≡ true → AllLeaveBe (is_among (map lent ids.now)) None (request_of request.now).items (response_of response.now).items }
{
    let mut held = None;
    let mut place = 0;
    'items: while place < response.items.len() {
        if place >= request.items.len() {
            return true;
        }
        let ask = &request.items[place];
        let answer = &response.items[place];
        if !leaves_be(ids, held, ask, answer) {
            return false;
        }
        held = held_after(held, ask, answer);
        place += 1;
    }
    true
}

/// The parts of the items that are answered; `None` where one has none, or there are more answers.
fn part_items<'a>(
    alloc: Global,
    ids: &[&str],
    asks: &[Ask<'a>],
    answers: &[Answer<'a>],
) -> Result<Option<PartItems<'a>>, AllocError>
    ensures { IfOk result
        (λ part. IfSome part
        (λ own. (length answers.now ≤ length asks.now)
        × ArePartItems (is_among (map lent ids.now)) None (take (length answers.now) (map ask_of asks.now)) (map answer_of answers.now)
        (map ask_of own.asks.items) (map answer_of own.answers.items))) }
{
    let mut parts = Vec::with_capacity(alloc, asks.len())?;
    let mut shown = Vec::with_capacity(alloc, answers.len())?;
    let mut held = None;
    let mut place = 0;
    'items: while place < answers.len() {
        if place >= asks.len() {
            return Ok(None);
        }
        let ask = &asks[place];
        let answer = &answers[place];
        let Some(item) = part_item(alloc, ids, held, ask, answer)? else {
            return Ok(None);
        };
        let PartItem {
            ask: part,
            answer: seen,
        } = item;
        parts.push(part)?;
        shown.push(seen)?;
        held = held_after(held, ask, answer);
        place += 1;
    }
    Ok(Some(PartItems {
        asks: parts,
        answers: shown,
    }))
}

/// The asks, and so many without effect behind them that they are this many.
fn with_idle<'a>(asks: Vec<Ask<'a>>, count: usize) -> Result<Vec<Ask<'a>>, AllocError>
    ensures { length asks.entry.items ≤ count
        → IfOk result
        (λ all. (rest : List AskOf) × (map ask_of all.items ≡ map ask_of asks.entry.items ++ rest)
        × (length all.items ≡ count)) }
{
    let mut all = asks;
    'more: while all.len() < count {
        all.push(idle_ask())?;
    }
    Ok(all)
}
