//! Laws of the definitions.

ghost use Rattle.kmipa_orders.specs.ByObject.{RefutedByObject, RunsByObject};
ghost use Rattle.kmipa_orders.specs.Hopeless.{HopelessExplainsNothing};
ghost use Rattle.kmipa_orders.specs.Laws.{EnoughDecides, ForcedIsLight, IdleFirst, NextIsTested, EqualIsEqual};

use crate::laws_of_check::check_laws;
use kmipa_check::one_list_of_calls;

/// Where the declaration grants nothing, and the budget is enough for every try, or in a forced transcript for each call once, a search says
/// yes exactly where the transcript is explained.
pub fn enough_decides()
    ensures { EnoughDecides }
{
    one_list_of_calls();
}

/// The weight of forced calls is at most their number.
pub fn forced_is_light()
    ensures { ForcedIsLight }
{}

/// The test by which tries are counted is true of exactly the steps that may be next.
pub fn next_is_tested()
    ensures { NextIsTested }
{}

/// A call without effect that may be next and is possible comes first in some run that goes on from here, if there is
/// any.
pub fn idle_first()
    ensures { IdleFirst }
{}

/// The same calls taken in two orders, over ledgers with the same objects as they stand, in whatever order these arrived: where the one
/// begins no run, nor does the other.
pub fn equal_is_equal()
    ensures { EqualIsEqual }
{}

/// Where calls have a run, their parts on an object have one, from what is declared of it.
pub fn runs_by_object()
    ensures { RunsByObject }
{}

/// Where the parts of all calls on one object have no run, no call that isn't plain may touch it, and the declaration grants nothing, no order
/// explains the transcript.
pub fn refuted_by_object()
    ensures { RefutedByObject }
{
    check_laws();
}

/// Where the answer of one call is impossible over every inventory, no order explains the transcript, whatever the declaration grants.
pub fn hopeless_explains_nothing()
    ensures { HopelessExplainsNothing }
{
    check_laws();
}
