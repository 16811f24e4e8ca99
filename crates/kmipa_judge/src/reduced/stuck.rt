//! Where a search got stuck.

use super::about::suspect_of;
use super::recording::Reduction;
use super::suspects::Suspect;
use kmipa_check::Refused;
use kmipa_orders::Reached;

/// What is suspected where a search got stuck here: of the items that are impossible next, that of the call that ended first.
pub(crate) fn suspect_at(reduction: Reduction, place: &Reached) -> Option<Suspect> {
    let mut first = None;
    'next: for next in &place.next {
        if let Some(refused) = next.refused {
            first = sooner(first, (end_of(reduction, next.call), refused));
        }
    }
    let (_, refused) = first?;
    Some(suspect_of(reduction, refused))
}

/// The one of two refused calls that ended first.
fn sooner(one: Option<(usize, Refused)>, other: (usize, Refused)) -> Option<(usize, Refused)> {
    match one {
        Some(first) if first.0 <= other.0 => Some(first),
        _ => Some(other),
    }
}

/// The place of the end mark of the call of this number.
fn end_of(reduction: Reduction, call: i32) -> usize {
    let place = reduction.places.place(call).unwrap_or(usize::MAX);
    match reduction.calls.get(place) {
        Some(call) => call.end(),
        None => usize::MAX,
    }
}
