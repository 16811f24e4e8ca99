//! The laws of a check that a search stands on.

ghost use Rattle.kmipa_orders.specs.LawsOfCheck.{LawsOfCheck};

use kmipa_check::{
    accepted_is_yes, calls_are_timed, known_is_accepted, one_list_of_calls,
    plain_call_has_one_step, plain_call_is_taken_bare, refused_is_never, step_is_readable,
    taken_is_known,
};

/// The laws of a check that a search stands on, together. It does nothing when it runs.
pub fn check_laws()
    ensures { LawsOfCheck }
{
    plain_call_has_one_step();
    plain_call_is_taken_bare();
    one_list_of_calls();
    calls_are_timed();
    taken_is_known();
    refused_is_never();
    step_is_readable();
    known_is_accepted();
    accepted_is_yes();
}
