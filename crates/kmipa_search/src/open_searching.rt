//! The search for a witness that also takes calls without an end mark.

ghost use Rattle.std.specs.Prelude.{◌≡◌, All, IfErr, map};
ghost use Rattle.kmipa_record.specs.Declarations.{AreDeclared, declaration_of};
ghost use Rattle.kmipa_record.specs.Marks.{AreRecorded};
ghost use Rattle.kmipa_record.specs.Transcripts.{transcript_of};
ghost use Rattle.kmipa_check.specs.Calls.{AreCalls, IsRecorded, call_of};
ghost use Rattle.kmipa_orders.specs.Candidates.{AreNotPlain};
ghost use Rattle.kmipa_orders.specs.Guessing.{AreAllRecorded};
ghost use Rattle.kmipa_orders.specs.Found.{SearchesIn};

use crate::by_moments::{kept_steps, or_at_moments};
use crate::by_turns::search_by_turns;
use crate::searching::{search_plain, try_witness};
use kmipa_check::{CheckFault, open_ledger, read_calls, rules_of_declaration};
use kmipa_orders::{
    EARLY, Found, Tables, Unwatched, Watch, candidates, check_laws, find_turns, or_refuted,
};
use kmipa_record::{Call, Declaration, Transcript, Witness};
use std::alloc::Global;

/// The same as `search_watched`, but of a transcript that isn't plain more is tried: calls without an end mark are taken, or left out, and the
/// items of a batch without order are taken in other orders than by place.
///
/// # Order of tries
/// At each place of the order the ended calls that may be next come first, those without effect ahead of the others, and each by its end mark;
/// and where one without effect is possible, nothing else is tried there. A batch without order is tried by place, and then in each other
/// order that its shape allows.
///
/// An open call is taken only where its request has one item that adds or changes an object, at its success, and where no call that remains ended before it
/// began. It is tried where no ended call is possible, at the least Time Stamp of those that remain: first a Create or Register, as an
/// object that a call names which may be next, and that nothing declares or answers; then the calls that change such an object, or one that a
/// Locate leaves out; and, unless an open call was taken just before, the others. And where an answer shows a date that it can have left,
/// it is tried at that date, ahead of all that is answered later.
///
/// Where the first 1,000 steps find nothing, and the budget is more, the lives of the objects propose turns: an open call is a part of the lives
/// of the objects that it names, or that answers show and nothing else brings, where they ask for it. What is needed of a batch is done, and what
/// its option wants done with it; the others of its items fail. The items of a batch without order are taken as they are possible, those
/// without effect first. Where a check accepts these turns, they are found with those steps and one more for each.
pub fn search_open<W: Watch>(
    alloc: Global,
    transcript: &Transcript,
    declaration: &Declaration,
    budget: u64,
    watch: &mut W,
) -> Result<Found, CheckFault>
    requires { AreDeclared (declaration_of declaration.now) }
    ensures { AreRecorded (transcript_of transcript.now)
        → SearchesIn (W.seconds watch.old) (transcript_of transcript.now) (declaration_of declaration.now) budget result }
{
    let calls = read_calls(alloc, transcript)?;
    search_open_calls(alloc, transcript, declaration, &calls, budget, watch)
}

/// The same of calls that were read of the transcript before, and that stay the caller's.
pub fn search_open_calls<W: Watch>(
    alloc: Global,
    transcript: &Transcript,
    declaration: &Declaration,
    calls: &[Call],
    budget: u64,
    watch: &mut W,
) -> Result<Found, CheckFault>
    requires declared { AreDeclared (declaration_of declaration.now) }
    requires each { All (IsRecorded (transcript_of transcript.now)) (map call_of calls.now) }
    ensures { AreRecorded (transcript_of transcript.now)
        → AreCalls (transcript_of transcript.now) (map call_of calls.now)
        → SearchesIn (W.seconds watch.old) (transcript_of transcript.now) (declaration_of declaration.now) budget result }
{
    let kept = kept_steps(declaration, calls, budget);
    let answered = search_stamped(alloc, transcript, declaration, calls, kept, watch);
    or_at_moments(alloc, transcript, declaration, calls, budget, answered)
}

/// The same where each call is taken at its Time Stamp.
fn search_stamped<W: Watch>(
    alloc: Global,
    transcript: &Transcript,
    declaration: &Declaration,
    calls: &[Call],
    budget: u64,
    watch: &mut W,
) -> Result<Found, CheckFault>
    requires declared { AreDeclared (declaration_of declaration.now) }
    requires each { All (IsRecorded (transcript_of transcript.now)) (map call_of calls.now) }
    ensures { AreRecorded (transcript_of transcript.now)
        → AreCalls (transcript_of transcript.now) (map call_of calls.now)
        → SearchesIn (W.seconds watch.old) (transcript_of transcript.now) (declaration_of declaration.now) budget result }
{
    check_laws();
    match candidates(alloc, calls)? {
        Some(own) => search_plain(alloc, calls, declaration, &own, budget, watch),
        None => {
            let answered = search_unplain(alloc, transcript, declaration, calls, budget, watch);
            or_refuted(alloc, calls, declaration, answered)
        }
    }
}

/// Looks for a witness of calls of which some aren't plain: where the first steps of a search find none, the lives of the objects propose turns
/// before it begins again.
fn search_unplain<W: Watch>(
    alloc: Global,
    transcript: &Transcript,
    declaration: &Declaration,
    calls: &[Call],
    budget: u64,
    watch: &mut W,
) -> Result<Found, CheckFault>
    requires declared { AreDeclared (declaration_of declaration.now) }
    requires each { All (IsRecorded (transcript_of transcript.now)) (map call_of calls.now) }
    ensures { AreRecorded (transcript_of transcript.now)
        → AreCalls (transcript_of transcript.now) (map call_of calls.now)
        → AreNotPlain (map call_of calls.now)
        → SearchesIn (W.seconds watch.old) (transcript_of transcript.now) (declaration_of declaration.now) budget result }
{
    if budget > EARLY && !ends_early(alloc, declaration, calls)? {
        if let Some(found) = search_by_turns(alloc, transcript, declaration, calls, true, budget)? {
            return Ok(found);
        }
    }
    search_other(alloc, transcript, declaration, calls, budget, watch)
}

/// Whether the first steps of a search find turns.
fn ends_early(alloc: Global, declaration: &Declaration, calls: &[Call]) -> Result<bool, CheckFault>
    requires declared { AreDeclared (declaration_of declaration.now) }
    requires recorded { AreAllRecorded calls.now }
    ensures { IfErr result (λ fault. fault ≡ CheckFault.Memory) }
{
    let rules = rules_of_declaration(alloc, declaration)?;
    let mut ledger = open_ledger(alloc, declaration)?;
    let tables = Tables::of(alloc, calls, declaration)?;
    match find_turns(
        alloc,
        &mut ledger,
        &rules,
        &tables,
        EARLY,
        &mut Unwatched {},
    ) {
        Ok(guessed) => Ok(guessed.turns.is_some()),
        Err(_) => Err(CheckFault::Memory),
    }
}

/// Looks for a witness of calls of which some aren't plain.
fn search_other<W: Watch>(
    alloc: Global,
    transcript: &Transcript,
    declaration: &Declaration,
    calls: &[Call],
    budget: u64,
    watch: &mut W,
) -> Result<Found, CheckFault>
    requires declared { AreDeclared (declaration_of declaration.now) }
    requires each { All (IsRecorded (transcript_of transcript.now)) (map call_of calls.now) }
    ensures { AreRecorded (transcript_of transcript.now)
        → AreCalls (transcript_of transcript.now) (map call_of calls.now)
        → AreNotPlain (map call_of calls.now)
        → SearchesIn (W.seconds watch.old) (transcript_of transcript.now) (declaration_of declaration.now) budget result }
{
    check_laws();
    let rules = rules_of_declaration(alloc, declaration)?;
    let mut ledger = open_ledger(alloc, declaration)?;
    let tables = Tables::of(alloc, calls, declaration)?;
    let Ok(guessed) = find_turns(alloc, &mut ledger, &rules, &tables, budget, watch) else {
        return Err(CheckFault::Memory);
    };
    let steps = guessed.steps;
    if let Some(after) = guessed.over {
        return Ok(Found::OutOfTime(steps, after));
    }
    let turns = guessed.turns;
    match turns {
        Some(turns) => try_witness(alloc, transcript, declaration, Witness { turns }, steps),
        None => Ok(Found::GaveUp(steps)),
    }
}
