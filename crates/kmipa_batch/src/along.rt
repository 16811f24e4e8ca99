//! The items of a call, taken along any order of its places.

ghost use Rattle.std.specs.Prelude.{◌≡◌, ◌<◌, ◌≤◌, ◌+◌, All, IfSome, Some, length, slice_get};
ghost use Rattle.kmipa_store.specs.Choices.{IsSound};
ghost use Rattle.kmipa_msgs.specs.Messages.{maybe_lent, request_of, response_of, rules_of};
ghost use Rattle.kmipa_ops.specs.Placeholders.{placeholder_of};
ghost use Rattle.kmipa_batch.specs.Calls.{pairs_of};
ghost use Rattle.kmipa_batch.specs.Orders.{order_given};
ghost use Rattle.kmipa_batch.specs.Readable.{AreReadable};
ghost use Rattle.kmipa_batch.specs.Running.{AlongTaken, PairTaken, places_of, refused_at};

use crate::refusal::CallRefusal;
use kmipa_msgs::{Request, Response, Rules};
use kmipa_ops::{Placeholder, Refusal, take};
use kmipa_store::Ledger;
use std::alloc::Global;

/// The messages of a call, and the rules of the server that they are judged by.
#[derive(Clone, Copy)]
pub(crate) struct Exchange<'a> {
    pub rules: &'a Rules,
    pub request: &'a Request<'a>,
    pub response: &'a Response<'a>,
}

/// Takes the items of a call in the order of these places, counted from 1, or else the first `count` by place. The ID Placeholder is empty
/// at the start.
#[inline(always)]
pub(crate) fn take_along<L: Ledger>(
    alloc: Global,
    ledger: &mut L,
    call: Exchange<'_>,
    places: Option<&[usize]>,
    count: usize,
) -> Result<(), CallRefusal>
    requires sound { IsSound (L.state ledger.old).now }
    requires readable { AreReadable (pairs_of (request_of call.request.now) (response_of call.response.now)) }
    requires counted { length (places_of (order_given (maybe_lent places)) count) ≡ count }
    requires from_one { IfSome (maybe_lent places) (λ ps. All (λ p. 1 ≤ p) ps) }
    ensures { AlongTaken (rules_of call.entry.rules.now) call.entry.response.now.stamp (L.state ledger.old)
        (pairs_of (request_of call.entry.request.now) (response_of call.entry.response.now))
        (places_of (order_given (maybe_lent places.entry)) count) result (L.state ledger.new) }
{
    let mut placeholder = Placeholder::new();
    for position in 0..count {
        let place = place_at(places, position);
        if let Err(refusal) = take_pair(alloc, ledger, call, &mut placeholder, place) {
            return Err(reported_at(place, refusal));
        }
    }
    Ok(())
}

/// The place, from 0, that stands at a position of the order.
fn place_at(places: Option<&[usize]>, position: usize) -> usize
    requires last { position < usize.MAX }
    requires within { IfSome (maybe_lent places) (λ ps. position < length ps) }
    requires from_one { IfSome (maybe_lent places) (λ ps. All (λ p. 1 ≤ p) ps) }
    ensures there { slice_get (places_of (order_given (maybe_lent places.entry)) (position + 1)) position
        ≡ Some result }
    ensures last { result < usize.MAX }
{
    match places {
        None => position,
        Some(places) => places[position] - 1,
    }
}

/// Takes the pair of a place, where both an item and its answer stand there.
fn take_pair<L: Ledger>(
    alloc: Global,
    ledger: &mut L,
    call: Exchange<'_>,
    placeholder: &mut Placeholder,
    place: usize,
) -> Result<(), Refusal>
    requires sound { IsSound (L.state ledger.old).now }
    requires readable { AreReadable (pairs_of (request_of call.request.now) (response_of call.response.now)) }
    ensures { PairTaken (rules_of call.entry.rules.now) (L.state ledger.old) (placeholder_of placeholder.old)
        call.entry.response.now.stamp
        (slice_get (pairs_of (request_of call.entry.request.now) (response_of call.entry.response.now)) place) result (L.state ledger.new)
        (placeholder_of placeholder.new) }
{
    let Some(ask) = call.request.items.get(place) else {
        return Ok(());
    };
    let Some(answer) = call.response.items.get(place) else {
        return Ok(());
    };
    let t = response_stamp(call.response);
    take(alloc, ledger, call.rules, placeholder, t, ask, answer)
}

fn response_stamp(response: &Response) -> i64
    ensures { result ≡ response.now.stamp }
{
    response.stamp
}

/// A refusal of the item at a place, which is reported from 1.
fn reported_at(place: usize, refusal: Refusal) -> CallRefusal
    requires { place < usize.MAX }
    ensures { result ≡ refused_at place refusal }
{
    match refusal {
        Refusal::Impossible(why) => CallRefusal::Impossible(place + 1, why),
        Refusal::Memory => CallRefusal::Memory,
    }
}
