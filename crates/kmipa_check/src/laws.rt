//! Laws of the definitions.

ghost use Rattle.kmipa_check.specs.Audits.{AcceptedAuditIsYes};
ghost use Rattle.kmipa_check.specs.Laws.{AcceptedIsExplained, CallsAreTimed, FilledIsCompleted, KnownIsAccepted, OneAnswer, OneListOfCalls, OneOrder, PlacedOneByOne, RefusedIsNever, StepIsReadable, TakenIsKnown};
ghost use Rattle.kmipa_check.specs.Left.{LedgerIsLeft};
ghost use Rattle.kmipa_check.specs.Segments.{AcceptedBehindIsAccepted, AcceptedTogetherIsAccepted, JoinedHaveBegun, RecordedHaveBegun, SegmentsJoin};
ghost use Rattle.kmipa_check.specs.Since.{AcceptedSinceIsYes};
ghost use Rattle.kmipa_check.specs.Verdicts.{AcceptedIsYes};

/// Where a witness is accepted, a check can answer nothing but yes, unless memory runs out.
pub fn accepted_is_yes()
    ensures { AcceptedIsYes }
{}

/// Where a witness is accepted since a moment, a check that goes on from it can answer nothing but yes, unless memory runs out.
pub fn accepted_since_is_yes()
    ensures { AcceptedSinceIsYes }
{}

/// Where the bytes of three inputs are accepted, and none of them fails, an audit can answer nothing but yes, unless memory runs out.
pub fn accepted_audit_is_yes()
    ensures { AcceptedAuditIsYes }
{}

/// A transcript has one list of calls.
pub fn one_list_of_calls()
    ensures { OneListOfCalls }
{}

/// A witness gives one order of the calls.
pub fn one_order()
    ensures { OneOrder }
{}

/// What a check may answer is one answer, unless memory runs out.
pub fn one_answer()
    ensures { OneAnswer }
{}

/// The calls of a transcript begin one after the other, and each ends after its begin.
pub fn calls_are_timed()
    ensures { CallsAreTimed }
{}

/// Steps are placed exactly where each may be taken next, when those before it were taken.
pub fn placed_one_by_one()
    ensures { PlacedOneByOne }
{}

/// What is known stays known after a call that is taken.
pub fn taken_is_known()
    ensures { TakenIsKnown }
{}

/// No run begins with steps whose last one is refused.
pub fn refused_is_never()
    ensures { RefusedIsNever }
{}

/// Where fills are put in, whatever completes the filled response completes the one without them.
pub fn filled_is_completed()
    ensures { FilledIsCompleted }
{}

/// A step of a recorded call can be judged.
pub fn step_is_readable()
    ensures { StepIsReadable }
{}

/// Steps that take each call once, are placed and known to their end are an accepted witness.
pub fn known_is_accepted()
    ensures { KnownIsAccepted }
{}

/// A transcript with an accepted witness is explained.
pub fn accepted_is_explained()
    ensures { AcceptedIsExplained }
{}

/// The declaration of a ledger that knows what steps leave describes exactly the inventories in which they can end.
pub fn ledger_is_left()
    ensures { LedgerIsLeft }
{}

/// Each call of a transcript that has ended has begun.
pub fn recorded_have_begun()
    ensures { RecordedHaveBegun }
{}

/// So it has in segments one after the other.
pub fn joined_have_begun()
    ensures { JoinedHaveBegun }
{}

/// Segments of one recording join.
pub fn segments_join()
    ensures { SegmentsJoin }
{}

/// A segment that is accepted from what the one before it leaves is accepted with it.
pub fn accepted_behind_is_accepted()
    ensures { AcceptedBehindIsAccepted }
{}

/// What is accepted together is accepted segment by segment.
pub fn accepted_together_is_accepted()
    ensures { AcceptedTogetherIsAccepted }
{}
