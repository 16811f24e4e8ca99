//! The places of a call, taken along any order of them.

ghost use Rattle.std.specs.Prelude.{◌≡◌, ◌<◌, ◌≤◌, ◌+◌, All, IfSome, Some, true, length, map, slice_get};
ghost use Rattle.std.specs.List.{list_all};
ghost use Rattle.kmipa_store.specs.Choices.{IsSound};
ghost use Rattle.kmipa_msgs.specs.Messages.{maybe_lent, rules_of};
ghost use Rattle.kmipa_passed.specs.Leaving.{held_of};
ghost use Rattle.kmipa_batch.specs.Orders.{order_given};
ghost use Rattle.kmipa_batch.specs.Running.{places_of, refused_at};
ghost use Rattle.kmipa_aside.specs.Becoming.{stand_in};
ghost use Rattle.kmipa_aside.specs.Sights.{sight_of};
ghost use Rattle.kmipa_places.specs.Places.{place_of};
ghost use Rattle.kmipa_bundle.specs.Counts.{counted_there, counts_of, total};
ghost use Rattle.kmipa_bundle.specs.Refusals.{is_readable_at};
ghost use Rattle.kmipa_bundle.specs.Running.{AlongTaken, GoesThere, TakenThere};

use crate::counts::Counts;
use crate::place::take_place;
use crate::progress::Progress;
use crate::ruling::ruling_of;
use kmipa_aside::Sight;
use kmipa_batch::CallRefusal;
use kmipa_msgs::Rules;
use kmipa_ops::Refusal;
use kmipa_passed::Held;
use kmipa_places::Readable;
use kmipa_store::Ledger;
use std::alloc::Global;

/// Takes the places of a call in this order, counted from 1, or else the first `count` by place, and counts them. The ID Placeholder is empty
/// at the start.
pub(crate) fn take_along<'p, L: Ledger>(
    alloc: Global,
    ledger: &mut L,
    sight: Sight<'_, 'p>,
    call: &'p Readable<'p>,
    places: Option<&[usize]>,
    count: usize,
) -> Result<Counts, CallRefusal>
    requires sound { IsSound (L.state ledger.old).now }
    requires readable { list_all is_readable_at (map place_of call.now.places.items) ≡ true }
    requires counted { length (places_of (order_given (maybe_lent places)) count) ≡ count }
    requires from_one { IfSome (maybe_lent places) (λ ps. All (λ p. 1 ≤ p) ps) }
    ensures { AlongTaken (sight_of sight.entry) call.now.stamp (L.state ledger.old) (map place_of call.now.places.items)
        (places_of (order_given (maybe_lent places.entry)) count) result (L.state ledger.new) }
{
    let mut progress = Progress {
        held: Held::Empty,
        counts: Counts::new(),
    };
    for position in 0..count {
        let place = place_at(places, position);
        match go_there(alloc, ledger, sight, call, progress, place) {
            Ok(after) => progress = after,
            Err(refusal) => return Err(reported_at(place, refusal)),
        }
    }
    Ok(progress.counts)
}

/// The place, from 0, that stands at a position of the order.
fn place_at(places: Option<&[usize]>, position: usize) -> usize
    requires last { position < usize.MAX }
    requires within { IfSome (maybe_lent places) (λ ps. position < length ps) }
    requires from_one { IfSome (maybe_lent places) (λ ps. All (λ p. 1 ≤ p) ps) }
    ensures there { slice_get (places_of (order_given (maybe_lent places.entry)) (position + 1)) position
        ≡ Some result }
    ensures last { result < usize.MAX }
{
    match places {
        None => position,
        Some(places) => places[position] - 1,
    }
}

/// Takes a place, where there is one, and counts it.
fn go_there<'p, L: Ledger>(
    alloc: Global,
    ledger: &mut L,
    sight: Sight<'_, 'p>,
    call: &'p Readable<'p>,
    before: Progress<'p>,
    place: usize,
) -> Result<Progress<'p>, Refusal>
    requires sound { IsSound (L.state ledger.old).now }
    requires readable { list_all is_readable_at (map place_of call.now.places.items) ≡ true }
    requires few { total (counts_of before.counts) < usize.MAX }
    ensures { GoesThere (sight_of sight.entry) (L.state ledger.old) before.entry call.now.stamp
        (slice_get (map place_of call.now.places.items) place) result (L.state ledger.new) }
{
    let counts = count_there(ledger, sight.rules, call, before, place);
    match take_there(alloc, ledger, sight, call, before.held, place) {
        Ok(held) => Ok(Progress { held, counts }),
        Err(refusal) => Err(refusal),
    }
}

/// Counts a place, where there is one, as it stands.
pub(crate) fn count_there<'p, L: Ledger>(
    ledger: &L,
    rules: &Rules,
    call: &'p Readable<'p>,
    before: Progress<'p>,
    place: usize,
) -> Counts
    requires few { total (counts_of before.counts) < usize.MAX }
    ensures { counts_of result ≡ counted_there (rules_of rules.now) (stand_in (L.state ledger.now).now)
        (held_of before.entry.held) (slice_get (map place_of call.now.places.items) place)
        (counts_of before.entry.counts) }
{
    match call.places.get(place) {
        Some(there) => {
            let ruling = ruling_of(ledger, rules, before.held, there);
            before.counts.add(ruling)
        }
        None => before.counts,
    }
}

/// Takes a place, where there is one, and answers what the ID Placeholder holds behind it.
fn take_there<'p, L: Ledger>(
    alloc: Global,
    ledger: &mut L,
    sight: Sight<'_, 'p>,
    call: &'p Readable<'p>,
    before: Held<'p>,
    place: usize,
) -> Result<Held<'p>, Refusal>
    requires sound { IsSound (L.state ledger.old).now }
    requires readable { list_all is_readable_at (map place_of call.now.places.items) ≡ true }
    ensures { TakenThere (sight_of sight.entry) (L.state ledger.old) (held_of before.entry) call.now.stamp
        (slice_get (map place_of call.now.places.items) place) result (L.state ledger.new) }
{
    let Some(there) = call.places.get(place) else {
        return Ok(before);
    };
    let t = stamp_of(call);
    take_place(alloc, ledger, sight, t, before, there)
}

fn stamp_of(call: &Readable) -> i64
    ensures { result ≡ call.now.stamp }
{
    call.stamp
}

/// A refusal of the place, which is reported from 1.
fn reported_at(place: usize, refusal: Refusal) -> CallRefusal
    requires { place < usize.MAX }
    ensures { result ≡ refused_at place refusal }
{
    match refusal {
        Refusal::Impossible(why) => CallRefusal::Impossible(place + 1, why),
        Refusal::Memory => CallRefusal::Memory,
    }
}
