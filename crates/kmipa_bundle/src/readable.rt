//! Whether a call has its places, and what there is to judge.

ghost use Rattle.std.specs.Prelude.{◌≡◌, ◌↔◌, ◌<◌, ◌≤◌, ℕ, IsTrue, length};
ghost use Rattle.std.specs.List.{list_all};
ghost use Rattle.kmipa_places.specs.Calls.{read_of};
ghost use Rattle.kmipa_places.specs.Places.{place_of};
ghost use Rattle.kmipa_bundle.specs.Bundles.{IsWhole};
ghost use Rattle.kmipa_bundle.specs.Refusals.{is_readable_at, is_readable_call};

use kmipa_ops::is_readable;
use kmipa_places::{Place, Readable};

/// Whether each item that has an answer has its place, as in each call that was read. `take_call` wants it.
pub fn is_whole_call(call: &Readable) -> bool
    ensures { IsTrue result ↔ IsWhole (read_of call.now) }
{
    answered_count(call) <= call.places.len()
}

/// How many places have an item and an answer: the first ones.
fn answered_count(call: &Readable) -> usize
    ensures asks { result ≤ call.now.asks }
    ensures answers { result ≤ length call.now.outcomes.items }
    ensures all { (k : ℕ) → k < call.now.asks → k < length call.now.outcomes.items → k < result }
{
    usize::min(call.asks, call.outcomes.len())
}

/// Whether each answer of a judged place has what there is to judge, unless the message is refused as a whole: then there is nothing to judge.
/// `take_call` wants it.
pub fn is_readable_call(call: &Readable) -> bool
    ensures { result ≡ is_readable_call (read_of call.now) }
{
    call.refused || are_readable(call.places.as_slice())
}

fn are_readable(places: &[Place]) -> bool
    ensures { result ≡ list_all (λ (place : Place). is_readable_at (place_of place)) places.now }
{
    places.iter().all(|place| is_readable_at(place))
}

fn is_readable_at(place: &Place) -> bool
    ensures { result ≡ is_readable_at (place_of place.now) }
{
    match place {
        Place::Judged(ask, answer) => is_readable(ask, answer),
        Place::Passed(_, _) => true,
    }
}
