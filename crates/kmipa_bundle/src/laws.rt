//! What the definitions say together: of any list of deeds, and of each call that was read.

ghost use Rattle.kmipa_bundle.specs.Composing.{DeedsCompose, RefusalsAreExact};
ghost use Rattle.kmipa_bundle.specs.Whole.{ReadCallsAreWhole};

/// A ledger that was led along some deeds, and then along others, was led along both together.
pub fn deeds_compose()
    ensures { DeedsCompose }
{}

/// Where a ledger was led along some deeds, and no choice allows the next, those are possible, and with the next they are not.
pub fn refusals_are_exact()
    ensures { RefusalsAreExact }
{}

/// Each item of a call that was read, and that has an answer, has its place.
pub fn read_calls_are_whole()
    ensures { ReadCallsAreWhole }
{}
