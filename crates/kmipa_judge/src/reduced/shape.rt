//! Whether a call has as many answers as its batch has, of the statuses that it has.

use super::items::Part;
use kmipa_msgs::BatchOption;
use kmipa_passed::Outcome;
use kmipa_places::Readable;

/// Whether the answers of a call have the shape of its batch, as far as that can be told by their statuses.
pub(crate) fn is_shaped(call: &Readable) -> bool {
    match first_failed(call) {
        Some(failed) => is_shaped_behind(call, failed),
        None => call.outcomes.len() == call.asks && !has_undone(call, call.asks),
    }
}

/// The same where the answer at this place is the first that failed.
fn is_shaped_behind(call: &Readable, failed: usize) -> bool {
    let count = call.outcomes.len();
    match call.option {
        BatchOption::Continue => count == call.asks && !has_undone(call, count),
        BatchOption::Stop => count == failed.saturating_add(1) && !has_undone(call, count),
        BatchOption::Undo => count == failed.saturating_add(1) && !has_done(call, failed),
    }
}

/// Whether items were undone, and none of these failed, for which they were.
pub(crate) fn lacks_failure(call: &Readable, parts: &[Part]) -> bool {
    let Some(failed) = first_failed(call) else {
        return false;
    };
    if !has_undone(call, failed) {
        return false;
    }
    'parts: for part in parts {
        if part.place == failed {
            return false;
        }
    }
    true
}

fn first_failed(call: &Readable) -> Option<usize> {
    'outcomes: for (place, outcome) in call.outcomes.iter().enumerate() {
        if *outcome == Outcome::Failed {
            return Some(place);
        }
    }
    None
}

/// Whether one of the first so many answers was undone.
fn has_undone(call: &Readable, count: usize) -> bool {
    has(call, count, Outcome::Undone)
}

/// Whether one of them was done.
fn has_done(call: &Readable, count: usize) -> bool {
    has(call, count, Outcome::Done)
}

fn has(call: &Readable, count: usize, wanted: Outcome) -> bool {
    'outcomes: for (place, outcome) in call.outcomes.iter().enumerate() {
        if place < count && *outcome == wanted {
            return true;
        }
    }
    false
}
