//! What a turn sets aside.

ghost use Rattle.std.specs.Prelude.{◌≡◌, ◌<◌, ◌≤◌, ◌≤ℤ◌, ◌+◌, ◌↔◌, IsTrue, pos, [], ◌∷◌, length, map};
ghost use Rattle.kmipa_check.specs.Deciding.{Decided};
ghost use Rattle.kmipa_places.specs.Calls.{CallOf};
ghost use Rattle.kmipa_places.specs.Places.{place_of};
ghost use Rattle.kmipa_places.specs.Unread.{is_among, is_place};
ghost use Rattle.kmipa_turns.specs.Steps.{MaySetAside, excepted_at, excepted_by, excepted_in, place_count};
ghost use Rattle.kmipa_turns.specs.Turning.{ArePlaces, IsPlaceBelow, StandsBefore};

use kmipa_msgs::Operation;
use kmipa_places::{By, Place, is_judged_operation};

/// Whether the call as a whole is among what a turn sets aside.
pub fn sets_aside(asides: &[i32]) -> bool
    ensures { result ≡ is_among asides.now 0 }
{
    for aside in asides {
        if is_whole_call(*aside) {
            return true;
        }
    }
    false
}

/// Whether a number means the call as a whole.
fn is_whole_call(aside: i32) -> bool
    ensures { result ≡ is_place aside 0 }
{
    aside >= 0 && aside.unsigned_abs() as usize == 0
}

/// Whether a turn may set these aside of a call with so many answered places: the whole call, by 0 alone, or answered places, counted from 1, each once.
pub fn may_set_aside(count: usize, asides: &[i32]) -> bool
    ensures { (call : CallOf) → place_count call ≡ count → Decided result (MaySetAside call asides.now) }
{
    if is_whole(asides) {
        return true;
    }
    are_places(count, asides)
}

/// Whether it is the whole call.
fn is_whole(asides: &[i32]) -> bool
    ensures { IsTrue result ↔ (asides.now ≡ pos 0 ∷ []) }
{
    asides.len() == 1 && asides[0] == 0
}

/// Whether they are some of the first so many places, counted from 1, each once.
fn are_places(count: usize, asides: &[i32]) -> bool
    ensures { Decided result (ArePlaces count asides.now) }
{
    let mut at = 0;
    'asides: while at < asides.len() {
        if !is_place_below(count, asides[at]) {
            return false;
        }
        if stands_before(asides, at) {
            return false;
        }
        at += 1;
    }
    true
}

/// Whether the number is that of one of the first so many places, counted from 1.
fn is_place_below(count: usize, aside: i32) -> bool
    ensures { Decided result (IsPlaceBelow count aside) }
{
    if aside < 1 {
        return false;
    }
    place_of(aside) < count
}

/// The place, counted from 0, of this number.
fn place_of(aside: i32) -> usize
    requires { pos 1 ≤ℤ aside }
    ensures { aside ≡ pos (result + 1) }
{
    (aside - 1) as usize
}

/// Whether what stands here stands at an earlier place too.
fn stands_before(asides: &[i32], at: usize) -> bool
    requires { at < length asides.now }
    ensures { Decided result (StandsBefore asides.now at) }
{
    let mut earlier = 0;
    'earlier: while earlier < at {
        if asides[earlier] == asides[at] {
            return true;
        }
        earlier += 1;
    }
    false
}

/// How many places are aside by the witness alone.
pub fn excepted_in(places: &[Place]) -> usize
    ensures { result ≡ excepted_in (map place_of places.now) }
{
    let mut count = 0;
    let mut at = 0;
    'places: while at < places.len() {
        count += excepted_at(&places[at]);
        at += 1;
    }
    count
}

/// Whether a place is, as a number.
fn excepted_at(place: &Place) -> usize
    ensures is { result ≡ excepted_at (place_of place.now) }
    ensures one { result ≤ 1 }
{
    match place {
        Place::Judged(_, _) => 0,
        Place::Passed(by, passed) => {
            if is_judged_operation(Operation::of(passed.asks)) {
                excepted_by(*by)
            } else {
                0
            }
        }
    }
}

fn excepted_by(by: By) -> usize
    ensures is { result ≡ excepted_by by }
    ensures one { result ≤ 1 }
{
    match by {
        By::Request | By::Answer => 0,
        By::Witness => 1,
    }
}
