//! Laws of plain calls.

ghost use Rattle.kmipa_check.specs.Plain.{PlainCallHasOneStep, PlainCallIsTakenBare};

/// A plain call makes one step, whatever the turn: it is taken with its recorded response.
pub fn plain_call_has_one_step()
    ensures { PlainCallHasOneStep }
{}

/// A turn that gives nothing takes a plain call.
pub fn plain_call_is_taken_bare()
    ensures { PlainCallIsTakenBare }
{}
