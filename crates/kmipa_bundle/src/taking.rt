//! One call, taken over any ledger.

ghost use Rattle.std.specs.Prelude.{◌≡◌, ◌<◌, ◌≤◌, All, IfSome, true, false, if◌then◌else◌, length, map};
ghost use Rattle.std.specs.List.{list_all};
ghost use Rattle.kmipa_store.specs.Ledger.{kept, undone};
ghost use Rattle.kmipa_store.specs.Choices.{IsSound};
ghost use Rattle.kmipa_msgs.specs.Messages.{maybe_lent, rules_of};
ghost use Rattle.kmipa_batch.specs.Fits.{FailedAt, undoes};
ghost use Rattle.kmipa_batch.specs.Orders.{order_given};
ghost use Rattle.kmipa_aside.specs.Becoming.{stand_in};
ghost use Rattle.kmipa_places.specs.Calls.{read_of};
ghost use Rattle.kmipa_places.specs.Places.{place_of};
ghost use Rattle.kmipa_bundle.specs.Bundles.{IsWhole, MayTake, call_seen};
ghost use Rattle.kmipa_bundle.specs.Counts.{CallCounted, counts_first, counts_of};
ghost use Rattle.kmipa_bundle.specs.Refusals.{CallTaken, is_readable_at, is_readable_call};
ghost use Rattle.kmipa_bundle.specs.Running.{Ran, TakesCount};
ghost use Rattle.kmipa_bundle.specs.Shapes.{answers_as};

use crate::along::{count_there, take_along};
use crate::counts::Counts;
use crate::order::is_unordered;
use crate::progress::Progress;
use crate::shape::{first_failed, first_unshaped};
use kmipa_aside::Sight;
use kmipa_batch::{CallRefusal, is_undone};
use kmipa_msgs::{BatchOption, Rules};
use kmipa_ops::Why;
use kmipa_passed::Held;
use kmipa_places::Readable;
use kmipa_store::{Ledger, Mark};
use std::alloc::Global;

/// Takes one call that can be read: its places at the Time Stamp of its response, and then what the Batch Error Continuation Option leaves of them.
/// They are taken by place, or else in the order of `places`, which are counted from 1. Where some world that the ledger stands for allows the
/// whole response, the ledger then stands for what the call leaves, and knows what the answers told; else the first item at which none does is
/// reported with the lowest reason, and nothing is changed. In an ordered call the shape of a place is judged just before its item; in a call
/// without order all shapes are judged first. A message that is refused as a whole changes nothing. After want of memory the ledger is as before.
/// It is told how many places are judged. What a server may hide from the client of the call is told by `sight`.
///
/// Each item that has an answer has its place, as `read_call` reads it: `IsWhole`. Each wanted payload has been put in: `is_readable_call`.
/// Places are given only where the items may be done in their order: `MayTake`.
pub fn take_call<'p, L: Ledger>(
    alloc: Global,
    ledger: &mut L,
    sight: Sight<'_, 'p>,
    call: &'p Readable<'p>,
    places: Option<&[usize]>,
) -> Result<Counts, CallRefusal>
    requires sound { IsSound (L.state ledger.old).now }
    requires whole { IsWhole (read_of call.now) }
    requires readable { is_readable_call (read_of call.now) ≡ true }
    requires from_one { IfSome (maybe_lent places) (λ ps. All (λ p. 1 ≤ p) ps) }
    requires order { MayTake (read_of call.now) (order_given (maybe_lent places)) }
    ensures taken { CallTaken (rules_of sight.entry.rules.now) (L.state ledger.old) (call_seen sight.entry call.now)
        (order_given (maybe_lent places.entry)) result (L.state ledger.new) }
    ensures counted { CallCounted (rules_of sight.entry.rules.now) (L.state ledger.old) (call_seen sight.entry call.now)
        (order_given (maybe_lent places.entry)) result (L.state ledger.new) }
{
    if call.refused {
        return Ok(count_first(ledger, sight.rules, call));
    }
    let Ok(mark) = ledger.mark() else {
        return Err(CallRefusal::Memory);
    };
    let failed = first_failed(call.outcomes.as_slice());
    match take_places(alloc, ledger, sight, call, places, failed) {
        Ok(counts) => {
            end(ledger, mark, call.option, failed);
            Ok(counts)
        }
        Err(refusal) => {
            ledger.back(mark);
            Err(refusal)
        }
    }
}

/// Counts the first place of a call, where there is one, as it stands.
fn count_first<'p, L: Ledger>(ledger: &L, rules: &Rules, call: &'p Readable<'p>) -> Counts
    ensures { counts_of result ≡ counts_first (rules_of rules.now) (stand_in (L.state ledger.now).now)
        (map place_of call.now.places.items) }
{
    let start = Progress {
        held: Held::Empty,
        counts: Counts::new(),
    };
    count_there(ledger, rules, call, start, 0)
}

/// Spends the mark of a call whose places were taken.
fn end<L: Ledger>(ledger: &mut L, mark: Mark, option: BatchOption, failed: Option<usize>)
    requires { mark.depth ≡ length (L.state ledger.old).marks }
    ensures { L.state ledger.new
        ≡ (if undoes option failed then undone (L.state ledger.old) else kept (L.state ledger.old)) }
{
    if is_undone(option, failed) {
        ledger.undo(mark);
    } else {
        ledger.keep(mark);
    }
}

/// Takes the places of a call. Where one hasn't its shape, the lowest such place is reported: in an ordered call after the places before it, if
/// those are possible, and in a call without order before all.
fn take_places<'p, L: Ledger>(
    alloc: Global,
    ledger: &mut L,
    sight: Sight<'_, 'p>,
    call: &'p Readable<'p>,
    places: Option<&[usize]>,
    failed: Option<usize>,
) -> Result<Counts, CallRefusal>
    requires sound { IsSound (L.state ledger.old).now }
    requires whole { IsWhole (read_of call.now) }
    requires readable { list_all is_readable_at (map place_of call.now.places.items) ≡ true }
    requires unrefused { call.now.refused ≡ false }
    requires failed_at { FailedAt (answers_as call.now.outcomes.items) failed }
    requires from_one { IfSome (maybe_lent places) (λ ps. All (λ p. 1 ≤ p) ps) }
    requires order { MayTake (read_of call.now) (order_given (maybe_lent places)) }
    ensures { Ran (rules_of sight.entry.rules.now) (L.state ledger.old) (call_seen sight.entry call.now) (order_given (maybe_lent places.entry)) result
        (L.state ledger.new) }
{
    let Some(unshaped) = first_unshaped(call, failed) else {
        let count = taken_count(call, places);
        return take_along(alloc, ledger, sight, call, places, count);
    };
    let refusal = CallRefusal::Impossible(unshaped + 1, Why::BatchShape);
    let shapes_first = is_unordered(call);
    if shapes_first {
        return Err(refusal);
    }
    take_along(alloc, ledger, sight, call, None, unshaped)?;
    Err(refusal)
}

/// How many places are taken: those that are given, or else all.
fn taken_count(call: &Readable, places: Option<&[usize]>) -> usize
    ensures { TakesCount (read_of call.now) (maybe_lent places.entry) result }
{
    match places {
        Some(places) => places.len(),
        None => call.places.len(),
    }
}
