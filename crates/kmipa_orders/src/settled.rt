//! Calls that leave the same objects in whatever order they are taken.

ghost use Rattle.std.specs.Prelude.{◌≡◌, ◌<◌, IfOk, length, map, true};
ghost use Rattle.kmipa_object.specs.declared.life.SecretNo.{SecretNo};
ghost use Rattle.kmipa_object.specs.declared.life.Material.TheVariants.{Secret};
ghost use Rattle.kmipa_store.specs.Ledger.{cards_of};
ghost use Rattle.kmipa_store.specs.Choices.{IsSound};
ghost use Rattle.kmipa_msgs.specs.Messages.{asked_of, maybe_lent, request_of, response_of};
ghost use Rattle.kmipa_orders.specs.Candidates.{candidate_step};
ghost use Rattle.kmipa_orders.specs.Settled.{AreApart, AreSteadyFrom, AreTold, IsFront, IsSteadyAt, IsTold, Marks, MarksPlace, changed_id, is_steady_item, reads_only, target};

use crate::candidate::Candidate;
use kmipa_msgs::{Asked, Request, Response, Status};
use kmipa_object::{Material, Object};
use kmipa_ops::{Effect, row_of};
use kmipa_store::Ledger;
use std::alloc::{AllocError, Global};

/// How many objects are there at first, where ends are compared with the ledger; none, where the calls taken say how all objects stand.
pub fn front_of<L: Ledger>(
    alloc: Global,
    ledger: &L,
    calls: &[Candidate],
) -> Result<Option<usize>, AllocError>
    requires { IsSound (L.state ledger.now).now }
    ensures { IfOk result (IsFront (map candidate_step calls.now) (L.state ledger.now).now) }
{
    if are_told(ledger) {
        if are_apart(alloc, ledger, calls)? {
            return Ok(None);
        }
    }
    Ok(Some(ledger.len()))
}

/// Whether the bytes of each object are known, or gone.
fn are_told<L: Ledger>(ledger: &L) -> bool
    requires { IsSound (L.state ledger.now).now }
    ensures { result ≡ true → AreTold (L.state ledger.now).now }
{
    let mut place = ledger.len();
    'objects: while place > 0 {
        place -= 1;
        let object = ledger.at(place);
        if !is_told(ledger, object) {
            return false;
        }
    }
    true
}

/// The same of one object.
fn is_told<L: Ledger>(ledger: &L, object: &Object) -> bool
    requires { (secret : SecretNo) → object.now.life.material ≡ Secret secret
        → secret.number < length (L.state ledger.now).now.secrets }
    ensures { result ≡ true → IsTold (L.state ledger.now).now.secrets object.now.life.material }
{
    match object.life.material {
        Material::Gone => true,
        Material::Secret(secret) => match ledger.secret(secret) {
            Some(_bytes) => true,
            None => false,
        },
    }
}

/// Whether no two of these calls change the same object, and none adds one.
fn are_apart<L: Ledger>(alloc: Global, ledger: &L, calls: &[Candidate]) -> Result<bool, AllocError>
    ensures { IfOk result (λ apart. apart ≡ true → AreApart (map candidate_step calls.now)) }
{
    let mut marks = Vec::from_elem(alloc, false, ledger.len())?;
    let mut count = 0;
    'calls: while count < calls.len() {
        if !is_apart(ledger, &calls[count], &mut marks) {
            return Ok(false);
        }
        count += 1;
    }
    Ok(true)
}

/// Whether a call changes nothing, or one object alone, whose place has no mark; it has one then.
fn is_apart<L: Ledger>(ledger: &L, call: &Candidate, marks: &mut Vec<bool>) -> bool
    ensures { Marks (cards_of (L.state ledger.now).now.objects) (candidate_step call.now) marks.old.items result
        marks.new.items }
{
    match target_of(call) {
        Some(id) => match ledger.find(id) {
            Some(place) => mark_new(marks, place),
            None => false,
        },
        None => is_steady(call.request, call.response),
    }
}

/// Marks a place, if there is one without a mark.
fn mark_new(marks: &mut Vec<bool>, place: usize) -> bool
    ensures { MarksPlace place marks.old.items result marks.new.items }
{
    if place >= marks.len() {
        return false;
    }
    if marks[place] {
        return false;
    }
    marks[place] = true;
    true
}

/// The identifier of the object that a call changes, where it has one item, which changes that object and was done.
fn target_of<'b, 'a>(call: &Candidate<'b, 'a>) -> Option<&'b str>
    ensures { maybe_lent result ≡ target (candidate_step call.now) }
{
    if call.request.items.len() != 1 {
        return None;
    }
    if call.response.items.len() != 1 {
        return None;
    }
    match call.response.items[0].status {
        Status::Success => changed_id(&call.request.items[0].asked),
        Status::Failed | Status::Undone => None,
    }
}

/// The identifier that a change names.
fn changed_id<'b>(asked: &'b Asked<'b>) -> Option<&'b str>
    ensures { maybe_lent result ≡ changed_id (asked_of asked.now) }
{
    let row = row_of(asked);
    match row.effect {
        Effect::Changes(_) => row.subject.id(),
        _ => None,
    }
}

/// Whether each item of a call failed, or changes nothing.
fn is_steady(request: &Request, response: &Response) -> bool
    ensures { result ≡ true → AreSteadyFrom (request_of request.now) (response_of response.now) 0 }
{
    let mut place = request.items.len();
    'items: while place > 0 {
        place -= 1;
        if !is_steady_at(request, response, place) {
            return false;
        }
    }
    true
}

/// The same of one item.
fn is_steady_at(request: &Request, response: &Response, place: usize) -> bool
    ensures { result ≡ true → IsSteadyAt (request_of request.now) (response_of response.now) place }
{
    if place >= request.items.len() {
        return false;
    }
    if place >= response.items.len() {
        return false;
    }
    is_steady_item(&request.items[place].asked, response.items[place].status)
}

fn is_steady_item(asked: &Asked, status: Status) -> bool
    ensures { result ≡ is_steady_item (asked_of asked.now) status }
{
    match status {
        Status::Failed => true,
        Status::Success | Status::Undone => reads_only(asked),
    }
}

fn reads_only(asked: &Asked) -> bool
    ensures { result ≡ reads_only (asked_of asked.now) }
{
    match row_of(asked).effect {
        Effect::Lists(_) => true,
        Effect::ShowsBytes => true,
        Effect::ShowsAttributes(_) => true,
        Effect::Nothing => true,
        _ => false,
    }
}
