//! The moment at which a call is taken.

ghost use Rattle.std.specs.Prelude.{MatchOption};
ghost use Rattle.kmipa_check.specs.Deciding.{Decided};
ghost use Rattle.kmipa_check.specs.Grants.{grants_of};
ghost use Rattle.kmipa_check.specs.Moments.{IsMoment, IsNear, IsUntimely};

use crate::grants::Grants;

/// The moment at which a turn has a call taken whose response has this Time Stamp: the one that it gives, or the stamp. `None` where the
/// one that it gives isn't near the stamp.
pub fn moment_given(grants: &Grants, stamp: i64, given: Option<i64>) -> Option<i64>
    ensures { MatchOption result (IsUntimely (grants_of grants.now) stamp given)
        (IsMoment (grants_of grants.now) stamp given) }
{
    let Some(moment) = given else {
        return Some(stamp);
    };
    if is_near(grants.tolerance, stamp, moment) {
        Some(moment)
    } else {
        None
    }
}

/// Whether two times are at most so many seconds apart.
fn is_near(tolerance: i32, stamp: i64, moment: i64) -> bool
    ensures { Decided result (IsNear tolerance stamp moment) }
{
    let tolerance = tolerance as i128;
    let stamp = stamp as i128;
    let moment = moment as i128;
    if moment > stamp + tolerance {
        return false;
    }
    if stamp > moment + tolerance {
        return false;
    }
    true
}
