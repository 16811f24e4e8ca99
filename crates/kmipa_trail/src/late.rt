//! The first step of an order that comes too late.

ghost use Rattle.std.specs.Prelude.{◌≡◌, map};
ghost use Rattle.kmipa_check.specs.Late.{is_at, is_below, least_of, lesser, next_late};
ghost use Rattle.kmipa_trail.specs.Late.{FirstLate};
ghost use Rattle.kmipa_turns.specs.Steps.{step_of};

use kmipa_turns::Step;

/// The place of the first step that stands before one whose call ended before its own began. One pass from the end: after each place
/// the least end is known.
pub(crate) fn first_late(steps: &[Step]) -> Option<usize>
    ensures { FirstLate (map step_of steps.now) result }
{
    let mut late = None;
    let mut least = None;
    let mut place = steps.len();
    'steps: while place > 0 {
        place -= 1;
        let step = &steps[place];
        late = later_found(late, is_below(least, step.begin), place);
        least = least_of(least, step.end);
    }
    late
}

/// Whether some end, if there is one, stands before a begin.
fn is_below(end: Option<usize>, begin: usize) -> bool
    ensures { result ≡ is_below end begin }
{
    match end {
        Some(end) => end < begin,
        None => false,
    }
}

/// The first late place, where this one is late or not.
fn later_found(late: Option<usize>, here: bool, place: usize) -> Option<usize>
    ensures { result ≡ next_late late here place }
{
    if here { Some(place) } else { late }
}

/// The least end, where there may be no end here.
fn least_of(least: Option<usize>, end: Option<usize>) -> Option<usize>
    ensures { result ≡ least_of least end }
{
    match end {
        Some(end) => Some(lesser(least, end)),
        None => least,
    }
}

/// The lesser of an end and the least so far.
fn lesser(least: Option<usize>, end: usize) -> usize
    ensures { result ≡ lesser least end }
{
    match least {
        Some(least) => { if least < end { least } else { end } }
        None => end,
    }
}

/// Whether the first late place is this one.
pub(crate) fn is_at(late: Option<usize>, turn: usize) -> bool
    ensures { result ≡ is_at late turn }
{
    match late {
        Some(late) => late == turn,
        None => false,
    }
}
