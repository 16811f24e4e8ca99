//! An order of what was searched, with the other calls put back into it.

use super::ahead::{Ahead, Span};
use super::lots::Lot;
use super::reading::Seen;
use super::recording::Reduction;
use super::stamps::{Stamps, greater};
use kmipa_record::Turn;
use std::alloc::{AllocError, Global};

/// A call that was left out, and where it is put back: behind so many turns, and among those of the same place by Time Stamp and by end.
#[derive(Clone, Copy, PartialEq, Eq, PartialOrd, Ord)]
struct Back {
    behind: usize,
    stamp: Option<i64>,
    end: usize,
    call: i32,
}

/// These turns of the calls that were searched, as turns of the whole calls, with those of the calls that were left out: each stands behind every call that
/// ended before it began, has a lower Time Stamp, or has the same one and ended first.
pub(crate) fn merged(
    alloc: Global,
    reduction: Reduction,
    stamps: &Stamps,
    turns: Vec<Turn>,
) -> Result<Vec<Turn>, AllocError> {
    let ahead = Ahead::of(alloc, &spans_of(alloc, reduction, &turns)?)?;
    let backs = backs_of(alloc, reduction, stamps, &ahead)?;
    let mut all = Vec::with_capacity(alloc, backs.len().saturating_add(turns.len()))?;
    let mut next = 0;
    let mut count = 0usize;
    'turns: for turn in turns {
        next = push_backs(alloc, &mut all, &backs, next, count)?;
        all.push(whole_turn(alloc, reduction, turn))?;
        count = count.saturating_add(1);
    }
    let _last = push_backs(alloc, &mut all, &backs, next, usize::MAX)?;
    Ok(all)
}

/// Where the calls of these turns stand.
fn spans_of(alloc: Global, reduction: Reduction, turns: &[Turn]) -> Result<Vec<Span>, AllocError> {
    let mut spans = Vec::with_capacity(alloc, turns.len())?;
    'turns: for turn in turns {
        spans.push(span_of_turn(reduction, turn))?;
    }
    Ok(spans)
}

fn span_of_turn(reduction: Reduction, turn: &Turn) -> Span {
    let place = reduction.places.place(turn.call).unwrap_or(usize::MAX);
    match reduction.calls.get(place) {
        Some(call) => Span {
            begin: call.recorded.begin,
            end: call.end(),
            stamp: call.stamp(),
        },
        None => Span {
            begin: 0,
            end: usize::MAX,
            stamp: None,
        },
    }
}

/// The calls that were left out, in the order in which they are put back.
fn backs_of(
    alloc: Global,
    reduction: Reduction,
    stamps: &Stamps,
    ahead: &Ahead,
) -> Result<Vec<Back>, AllocError> {
    let mut backs = Vec::new(alloc);
    'calls: for (call, lot) in reduction.calls.iter().zip(reduction.lots.iter()) {
        if is_left_out(call, lot) {
            backs.push(back_of(stamps, ahead, call))?;
        }
    }
    backs.sort_unstable();
    Ok(backs)
}

fn is_left_out(call: &Seen, lot: &Lot) -> bool {
    match lot {
        Lot::Nothing => call.has_ended(),
        Lot::Whole | Lot::Parts(_) => false,
    }
}

/// Where a call is put back. Its Time Stamp counts as that of a call which ended before it, where it is lower.
fn back_of(stamps: &Stamps, ahead: &Ahead, call: &Seen) -> Back {
    let begin = call.recorded.begin;
    let stamp = greater(call.stamp(), stamps.ahead(begin));
    let end = call.end();
    Back {
        behind: ahead.count(Span { begin, end, stamp }),
        stamp,
        end,
        call: call.recorded.number,
    }
}

/// Puts back the calls from this one on that stand behind so many turns. The next one of the others.
fn push_backs(
    alloc: Global,
    turns: &mut Vec<Turn>,
    backs: &[Back],
    from: usize,
    count: usize,
) -> Result<usize, AllocError> {
    let mut next = from;
    'backs: for back in backs.iter().skip(from) {
        if back.behind > count {
            break;
        }
        turns.push(Turn::bare(alloc, back.call))?;
        next = next.saturating_add(1);
    }
    Ok(next)
}

/// The turn of a whole call. What the turn says of some of its items may not fit all of them, so it is left out.
fn whole_turn(alloc: Global, reduction: Reduction, turn: Turn) -> Turn {
    let place = reduction.places.place(turn.call).unwrap_or(usize::MAX);
    match reduction.lots.get(place) {
        Some(Lot::Parts(_)) => Turn::bare(alloc, turn.call),
        _ => turn,
    }
}
