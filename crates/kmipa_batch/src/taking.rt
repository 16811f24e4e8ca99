//! One call, taken over any ledger.

ghost use Rattle.std.specs.Prelude.{◌≡◌, ◌<◌, ◌≤◌, All, IfSome, if◌then◌else◌, length};
ghost use Rattle.kmipa_store.specs.Ledger.{kept, undone};
ghost use Rattle.kmipa_store.specs.Choices.{IsSound};
ghost use Rattle.kmipa_msgs.specs.Messages.{maybe_lent, request_of, response_of, rules_of};
ghost use Rattle.kmipa_batch.specs.Fits.{FailedAt, undoes};
ghost use Rattle.kmipa_batch.specs.Orders.{order_given};
ghost use Rattle.kmipa_batch.specs.Calls.{MayTake, RefusesMessage, pairs_of};
ghost use Rattle.kmipa_batch.specs.Readable.{AreReadable, IsReadableCall};
ghost use Rattle.kmipa_batch.specs.Refusals.{CallTakenAlong};
ghost use Rattle.kmipa_batch.specs.Running.{LowestUnshaped, Ran, TakesCount};

use crate::along::{Exchange, take_along};
use crate::order::is_unordered;
use crate::refusal::CallRefusal;
use crate::shape::{first_failed, is_refused_message, is_shaped_at, is_undone};
use kmipa_msgs::{BatchOption, Request, Response, Rules};
use kmipa_ops::Why;
use kmipa_store::{Ledger, Mark};
use std::alloc::Global;

/// Takes one call: its items at the Time Stamp of its response, and then what the Batch Error Continuation Option leaves of them. The items
/// are taken by place, or else in the order of `places`, which are counted from 1. Where some inventory that the ledger stands for allows
/// the whole response, the ledger then stands for what the call leaves, and knows what the answers reported; else the first item at which none
/// does is reported with the lowest reason, and nothing is changed. In an ordered call the shape of a place is judged just before its item; in
/// a call without order all shapes are judged first. A message that is refused as a whole changes nothing. After want of memory the ledger
/// is as before.
///
/// The messages aren't outside the profile, and each wanted payload has been put in: `IsReadableCall`. Places are given only where the
/// items may be done in their order: `MayTake`.
pub fn take_call<L: Ledger>(
    alloc: Global,
    ledger: &mut L,
    rules: &Rules,
    request: &Request,
    response: &Response,
    places: Option<&[usize]>,
) -> Result<(), CallRefusal>
    requires sound { IsSound (L.state ledger.old).now }
    requires readable { IsReadableCall (request_of request.now) (response_of response.now) }
    requires from_one { IfSome (maybe_lent places) (λ ps. All (λ p. 1 ≤ p) ps) }
    requires order { MayTake (request_of request.now) (response_of response.now) (order_given (maybe_lent places)) }
    ensures { CallTakenAlong (rules_of rules.now) (L.state ledger.old) (request_of request.now)
        (response_of response.now) (order_given (maybe_lent places.entry)) result (L.state ledger.new) }
{
    if is_refused_message(response) {
        return Ok(());
    }
    let Ok(mark) = ledger.mark() else {
        return Err(CallRefusal::Memory);
    };
    let failed = first_failed(&response.items);
    let call = Exchange {
        rules,
        request,
        response,
    };
    match take_items(alloc, ledger, call, places, failed) {
        Ok(()) => {
            end(ledger, mark, request.option, failed);
            Ok(())
        }
        Err(refusal) => {
            ledger.back(mark);
            Err(refusal)
        }
    }
}

/// Spends the mark of a call whose items were taken.
fn end<L: Ledger>(ledger: &mut L, mark: Mark, option: BatchOption, failed: Option<usize>)
    requires { mark.depth ≡ length (L.state ledger.old).marks }
    ensures { L.state ledger.new
        ≡ (if undoes option failed then undone (L.state ledger.old) else kept (L.state ledger.old)) }
{
    if is_undone(option, failed) {
        ledger.undo(mark);
    } else {
        ledger.keep(mark);
    }
}

/// Takes the items of a call. Where a place hasn't its shape, the lowest such place is reported: in an ordered call after the items before
/// it, if those are possible, and in a call without order before all items.
fn take_items<L: Ledger>(
    alloc: Global,
    ledger: &mut L,
    call: Exchange<'_>,
    places: Option<&[usize]>,
    failed: Option<usize>,
) -> Result<(), CallRefusal>
    requires sound { IsSound (L.state ledger.old).now }
    requires readable { AreReadable (pairs_of (request_of call.request.now) (response_of call.response.now)) }
    requires unrefused { RefusesMessage (response_of call.response.now) → ⊥ }
    requires failed_at { FailedAt (response_of call.response.now).items failed }
    requires from_one { IfSome (maybe_lent places) (λ ps. All (λ p. 1 ≤ p) ps) }
    requires order { MayTake (request_of call.request.now) (response_of call.response.now)
        (order_given (maybe_lent places)) }
    ensures { Ran (rules_of call.entry.rules.now) (L.state ledger.old) (request_of call.entry.request.now)
        (response_of call.entry.response.now)
        (order_given (maybe_lent places.entry)) result (L.state ledger.new) }
{
    let Some(unshaped) = first_unshaped(call.request, call.response, failed) else {
        let count = taken_count(call.request, call.response, places);
        return take_along(alloc, ledger, call, places, count);
    };
    let refusal = CallRefusal::Impossible(unshaped + 1, Why::BatchShape);
    let shapes_first = is_unordered(call.request);
    if shapes_first {
        return Err(refusal);
    }
    take_along(alloc, ledger, call, None, unshaped)?;
    Err(refusal)
}

/// How many places are taken: those that are given, or else all.
fn taken_count(request: &Request, response: &Response, places: Option<&[usize]>) -> usize
    ensures { TakesCount (request_of request.now) (maybe_lent places.entry) result }
{
    match places {
        Some(places) => places.len(),
        None => place_count(request, response),
    }
}

/// The lowest place, from 0, that hasn't its shape.
fn first_unshaped(request: &Request, response: &Response, failed: Option<usize>) -> Option<usize>
    requires { FailedAt (response_of response.now).items failed }
    ensures lowest { LowestUnshaped (request_of request.now) (response_of response.now) result }
    ensures last { IfSome result (λ place. place < usize.MAX) }
{
    for place in 0..place_count(request, response) {
        if !is_shaped_at(request, response, failed, place) {
            return Some(place);
        }
    }
    None
}

/// How many places there are: as many as there are items, or answers, if those are more.
fn place_count(request: &Request, response: &Response) -> usize
    ensures asks { length request.now.items.items ≤ result }
    ensures answers { length response.now.items.items ≤ result }
{
    usize::max(request.items.len(), response.items.len())
}
