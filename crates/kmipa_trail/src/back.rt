//! Moments that run back.

ghost use Rattle.std.specs.Prelude.{◌≡◌, int_lt};
ghost use Rattle.kmipa_turns.specs.Steps.{step_of, moment_of};
ghost use Rattle.kmipa_trail.specs.Back.{is_back, later};

use kmipa_turns::{Step, Taken};

/// The moment at which a call is taken; none of one that can't be read.
pub(crate) fn moment_of(step: &Step) -> Option<i64>
    ensures { result ≡ moment_of (step_of step.now) }
{
    match &step.taken {
        Taken::Leaves(_, _) => None,
        Taken::Takes(call, _) => Some(call.stamp),
    }
}

/// Whether a moment, where there is one, is less than the last one before it.
pub(crate) fn is_back(last: Option<i64>, moment: Option<i64>) -> bool
    ensures { result ≡ is_back last moment }
{
    match (last, moment) {
        (Some(last), Some(moment)) => is_less(moment, last),
        _ => false,
    }
}

fn is_less(moment: i64, last: i64) -> bool
    ensures { result ≡ int_lt moment last }
{
    moment < last
}

/// The last moment, behind one that doesn't run back, or behind none.
pub(crate) fn later(last: Option<i64>, moment: Option<i64>) -> Option<i64>
    ensures { result ≡ later last moment }
{
    match moment {
        Some(moment) => Some(moment),
        None => last,
    }
}
