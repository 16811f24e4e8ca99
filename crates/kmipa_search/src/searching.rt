//! The search for a witness.

ghost use Rattle.std.specs.Prelude.{◌≡◌, ◌<◌, ◌⊎◌, All, IfErr, IfOk, IfSome, Err, List, Ok, length, map, true, ℕ};
ghost use Rattle.kmipa_record.specs.Declarations.{AreDeclared, DeclarationOf, declaration_of};
ghost use Rattle.kmipa_record.specs.Marks.{AreRecorded, MarkOf};
ghost use Rattle.kmipa_record.specs.Transcripts.{transcript_of};
ghost use Rattle.kmipa_record.specs.Witnesses.{IsWitness, witness_of};
ghost use Rattle.kmipa_check.specs.Calls.{AreCalls, CallOf, IsRecorded, call_of};
ghost use Rattle.kmipa_check.specs.Runs.{IsAccepted};
ghost use Rattle.kmipa_orders.specs.Candidates.{AreNotPlain, candidate_step};
ghost use Rattle.kmipa_orders.specs.Guessing.{AreRecordedCalls};
ghost use Rattle.kmipa_orders.specs.Plain.{ArePlain};
ghost use Rattle.kmipa_orders.specs.Progress.{AllReadable};
ghost use Rattle.kmipa_orders.specs.Found.{Finds, Searches, SearchesIn};
ghost use Rattle.kmipa_orders.specs.Confirming.{Confirms, IsTried, turns_at};

use crate::accepted::{accepted_order, witness_at};
use crate::by_lives::search_by_lives;
use crate::by_moments::{kept_steps, or_at_moments};
use crate::by_turns::search_by_turns;
use kmipa_check::{
    CheckFault, Verdict, check, check_calls, open_ledger, read_calls, rules_of_declaration,
};
use kmipa_orders::{
    Candidate, EARLY, Found, Unwatched, Watch, all_plain, candidates, check_laws, every_candidate,
    find_order, forthright_order, guess_order, or_refuted, search_by_object, search_hopeless,
};
use kmipa_record::{Call, Declaration, RecordKind, Transcript, Witness, write_witness};
use std::alloc::Global;

/// Looks for a witness that a check accepts, trying at most `budget` calls.
///
/// # Order of tries
/// A call is tried only where its stamp is least among the calls not yet taken and none of these ended before it. Such calls are tried in
/// the order of their begin marks, depth first. Of plain calls that is so for the first 1,000 steps; from then on, in the places that are
/// open and in those to come, those without effect are tried first, and each by its end mark; where more than 64 may be next, they go on
/// in the order of their begin marks. And coming back from a call without effect, the search goes back at once, and so it does where the
/// same calls were taken before and left the same objects, and led to nothing. Calls without an end mark are left out. Where a call waits for
/// payloads or has no order, each payload has one guess, and nothing is remembered.
///
/// Where all calls are plain and the budget is enough for them, the order in which they are tried if each is possible is made first, without a
/// ledger, and checked: mostly it is the one that is found, and the calls are taken once. Where it isn't, and the first 1,000 steps don't end the
/// search, the lives of the objects propose an order: where a check accepts it, it is found with those steps and one more for each call.
/// Where it doesn't, the objects are searched one by one: where one has no order of its own, it refutes the calls. Where none does, each call is
/// looked at by itself: where its answer is impossible over every inventory, no order explains it. Both are so where a search of calls gives up
/// that aren't all plain; of these each call is looked at by itself where the first 1,000 steps find nothing, too. Where the declaration has a tolerance no object is searched; and where no witness is found at the Time
/// Stamps, two orders are tried at other moments, one step for each call that is taken.
/// Where some call waits for payloads, is open or has no order, and the first 1,000 steps find nothing, the lives propose turns as well: each
/// payload as the objects stand at its own place, and with the identifier that a later answer of its batch shows.
pub fn search(
    alloc: Global,
    transcript: &Transcript,
    declaration: &Declaration,
    budget: u64,
) -> Result<Found, CheckFault>
    requires { AreDeclared (declaration_of declaration.now) }
    ensures { AreRecorded (transcript_of transcript.now)
        → Searches (transcript_of transcript.now) (declaration_of declaration.now) budget result }
{
    search_watched(alloc, transcript, declaration, budget, &mut Unwatched {})
}

/// The same as `search`, reported to a watcher step by step.
pub fn search_watched<W: Watch>(
    alloc: Global,
    transcript: &Transcript,
    declaration: &Declaration,
    budget: u64,
    watch: &mut W,
) -> Result<Found, CheckFault>
    requires { AreDeclared (declaration_of declaration.now) }
    ensures { AreRecorded (transcript_of transcript.now)
        → SearchesIn (W.seconds watch.old) (transcript_of transcript.now) (declaration_of declaration.now) budget result }
{
    let calls = read_calls(alloc, transcript)?;
    search_calls(alloc, transcript, declaration, &calls, budget, watch)
}

/// The same of calls that were read of the transcript before, and that stay the caller's.
pub fn search_calls<W: Watch>(
    alloc: Global,
    transcript: &Transcript,
    declaration: &Declaration,
    calls: &[Call],
    budget: u64,
    watch: &mut W,
) -> Result<Found, CheckFault>
    requires declared { AreDeclared (declaration_of declaration.now) }
    requires each { All (IsRecorded (transcript_of transcript.now)) (map call_of calls.now) }
    ensures { AreRecorded (transcript_of transcript.now)
        → AreCalls (transcript_of transcript.now) (map call_of calls.now)
        → SearchesIn (W.seconds watch.old) (transcript_of transcript.now) (declaration_of declaration.now) budget result }
{
    let kept = kept_steps(declaration, calls, budget);
    let answered = search_stamped(alloc, transcript, declaration, calls, kept, watch);
    or_at_moments(alloc, transcript, declaration, calls, budget, answered)
}

/// The same where each call is taken at its Time Stamp.
fn search_stamped<W: Watch>(
    alloc: Global,
    transcript: &Transcript,
    declaration: &Declaration,
    calls: &[Call],
    budget: u64,
    watch: &mut W,
) -> Result<Found, CheckFault>
    requires declared { AreDeclared (declaration_of declaration.now) }
    requires each { All (IsRecorded (transcript_of transcript.now)) (map call_of calls.now) }
    ensures { AreRecorded (transcript_of transcript.now)
        → AreCalls (transcript_of transcript.now) (map call_of calls.now)
        → SearchesIn (W.seconds watch.old) (transcript_of transcript.now) (declaration_of declaration.now) budget result }
{
    check_laws();
    match candidates(alloc, calls)? {
        Some(own) => search_plain(alloc, calls, declaration, &own, budget, watch),
        None => {
            let answered = search_waiting(alloc, transcript, declaration, calls, budget, watch);
            or_refuted(alloc, calls, declaration, answered)
        }
    }
}

/// Looks for a witness of calls that are plain, each as a search takes it.
pub fn search_plain<W: Watch>(
    alloc: Global,
    calls: &[Call],
    declaration: &Declaration,
    own: &[Candidate],
    budget: u64,
    watch: &mut W,
) -> Result<Found, CheckFault>
    requires declared { AreDeclared (declaration_of declaration.now) }
    requires each { (marks : List MarkOf) × All (IsRecorded marks) (map call_of calls.now) }
    requires readable { AllReadable (map candidate_step own.now) }
    ensures { (marks : List MarkOf) → AreRecorded marks → AreCalls marks (map call_of calls.now)
        → ArePlain (map call_of calls.now) (map candidate_step own.now)
        → SearchesIn (W.seconds watch.old) marks (declaration_of declaration.now) budget result }
{
    if let Some(found) = search_forthright(alloc, calls, declaration, own, budget)? {
        return Ok(found);
    }
    match search_late(alloc, calls, declaration, own, budget)? {
        Some(found) => {
            let _ended = ends_early(alloc, declaration, own, watch)?;
            Ok(found)
        }
        None => search_step_by_step(alloc, calls, declaration, own, budget, watch),
    }
}

/// What is found where the first steps of a search come to no end, and it has more: by the lives of the objects, by one object, or by one call.
fn search_late(
    alloc: Global,
    calls: &[Call],
    declaration: &Declaration,
    own: &[Candidate],
    budget: u64,
) -> Result<Option<Found>, CheckFault>
    requires declared { AreDeclared (declaration_of declaration.now) }
    requires each { (marks : List MarkOf) × All (IsRecorded marks) (map call_of calls.now) }
    requires readable { AllReadable (map candidate_step own.now) }
    ensures finds { (marks : List MarkOf) → AreRecorded marks → AreCalls marks (map call_of calls.now)
        → ArePlain (map call_of calls.now) (map candidate_step own.now)
        → IfOk result (λ found. IfSome found (Finds marks (declaration_of declaration.now) budget)) }
    ensures memory { IfErr result (λ fault. fault ≡ CheckFault.Memory) }
{
    if budget <= EARLY || ends_early(alloc, declaration, own, &mut Unwatched {})? {
        return Ok(None);
    }
    match search_objects(alloc, calls, declaration, own, budget)? {
        Some(found) => Ok(Some(found)),
        None => search_hopeless(alloc, calls, budget),
    }
}

/// What is found by the lives of the objects, or of one object.
fn search_objects(
    alloc: Global,
    calls: &[Call],
    declaration: &Declaration,
    own: &[Candidate],
    budget: u64,
) -> Result<Option<Found>, CheckFault>
    requires declared { AreDeclared (declaration_of declaration.now) }
    requires each { (marks : List MarkOf) × All (IsRecorded marks) (map call_of calls.now) }
    requires readable { AllReadable (map candidate_step own.now) }
    ensures finds { (marks : List MarkOf) → AreRecorded marks → AreCalls marks (map call_of calls.now)
        → ArePlain (map call_of calls.now) (map candidate_step own.now)
        → IfOk result (λ found. IfSome found (Finds marks (declaration_of declaration.now) budget)) }
    ensures memory { IfErr result (λ fault. fault ≡ CheckFault.Memory) }
{
    match search_by_lives(alloc, calls, declaration, own, budget)? {
        Some(found) => Ok(Some(found)),
        None => search_by_object(alloc, calls, declaration, budget),
    }
}

/// Whether a search ends within its first steps, which are reported to a watcher.
fn ends_early<W: Watch>(
    alloc: Global,
    declaration: &Declaration,
    own: &[Candidate],
    watch: &mut W,
) -> Result<bool, CheckFault>
    requires declared { AreDeclared (declaration_of declaration.now) }
    requires readable { AllReadable (map candidate_step own.now) }
    ensures { IfErr result (λ fault. fault ≡ CheckFault.Memory) }
{
    let rules = rules_of_declaration(alloc, declaration)?;
    let mut ledger = open_ledger(alloc, declaration)?;
    match find_order(alloc, &mut ledger, &rules, own, EARLY, watch) {
        Ok(outcome) => Ok(outcome.order.is_some() || outcome.steps < EARLY),
        Err(_) => Err(CheckFault::Memory),
    }
}

/// What is found where each call that is tried is possible: so many steps as calls, and a check accepts the order in which they are taken.
/// `None` where it doesn't, or the budget is less.
fn search_forthright(
    alloc: Global,
    calls: &[Call],
    declaration: &Declaration,
    own: &[Candidate],
    budget: u64,
) -> Result<Option<Found>, CheckFault>
    requires declared { AreDeclared (declaration_of declaration.now) }
    requires each { (marks : List MarkOf) × All (IsRecorded marks) (map call_of calls.now) }
    ensures finds { (marks : List MarkOf) → AreRecorded marks → AreCalls marks (map call_of calls.now)
        → ArePlain (map call_of calls.now) (map candidate_step own.now)
        → IfOk result (λ found. IfSome found (Finds marks (declaration_of declaration.now) budget)) }
    ensures memory { IfErr result (λ fault. fault ≡ CheckFault.Memory) }
{
    let steps = own.len() as u64;
    if steps > budget {
        return Ok(None);
    }
    let order = forthright_order(alloc, own)?;
    if order.len() != own.len() {
        return Ok(None);
    }
    accepted_order(alloc, calls, declaration, own, &order, steps)
}

/// The same, step by step: each call that is tried is taken over a ledger, and given back where it leads to nothing.
fn search_step_by_step<W: Watch>(
    alloc: Global,
    calls: &[Call],
    declaration: &Declaration,
    own: &[Candidate],
    budget: u64,
    watch: &mut W,
) -> Result<Found, CheckFault>
    requires declared { AreDeclared (declaration_of declaration.now) }
    requires each { (marks : List MarkOf) × All (IsRecorded marks) (map call_of calls.now) }
    requires readable { AllReadable (map candidate_step own.now) }
    ensures { (marks : List MarkOf) → AreRecorded marks → AreCalls marks (map call_of calls.now)
        → ArePlain (map call_of calls.now) (map candidate_step own.now)
        → SearchesIn (W.seconds watch.old) marks (declaration_of declaration.now) budget result }
{
    check_laws();
    let rules = rules_of_declaration(alloc, declaration)?;
    let mut ledger = open_ledger(alloc, declaration)?;
    let Ok(outcome) = find_order(alloc, &mut ledger, &rules, own, budget, watch) else {
        return Err(CheckFault::Memory);
    };
    let steps = outcome.steps;
    if let Some(after) = outcome.over {
        return Ok(Found::OutOfTime(steps, after));
    }
    let order = outcome.order;
    match order {
        Some(order) => {
            let witness = witness_at(alloc, own, &order)?;
            confirm(alloc, calls, declaration, witness, steps)
        }
        None => Ok(Found::GaveUp(steps)),
    }
}

/// Looks for a witness of calls of which some aren't plain.
fn search_waiting<W: Watch>(
    alloc: Global,
    transcript: &Transcript,
    declaration: &Declaration,
    calls: &[Call],
    budget: u64,
    watch: &mut W,
) -> Result<Found, CheckFault>
    requires declared { AreDeclared (declaration_of declaration.now) }
    requires each { All (IsRecorded (transcript_of transcript.now)) (map call_of calls.now) }
    ensures { AreRecorded (transcript_of transcript.now)
        → AreCalls (transcript_of transcript.now) (map call_of calls.now) → AreNotPlain (map call_of calls.now)
        → SearchesIn (W.seconds watch.old) (transcript_of transcript.now) (declaration_of declaration.now) budget result }
{
    match search_waiting_late(alloc, transcript, declaration, calls, budget)? {
        Some(found) => {
            let _steps = waiting_steps(alloc, declaration, calls, watch)?;
            Ok(found)
        }
        None => search_left_out(alloc, transcript, declaration, calls, budget, watch),
    }
}

/// What is found where the first steps of such a search find no order, and it has more: by one call, or by turns that the lives propose.
fn search_waiting_late(
    alloc: Global,
    transcript: &Transcript,
    declaration: &Declaration,
    calls: &[Call],
    budget: u64,
) -> Result<Option<Found>, CheckFault>
    requires declared { AreDeclared (declaration_of declaration.now) }
    requires each { All (IsRecorded (transcript_of transcript.now)) (map call_of calls.now) }
    ensures finds { AreRecorded (transcript_of transcript.now)
        → AreCalls (transcript_of transcript.now) (map call_of calls.now)
        → IfOk result (λ found. IfSome found (Finds (transcript_of transcript.now) (declaration_of declaration.now) budget)) }
    ensures memory { IfErr result (λ fault. fault ≡ CheckFault.Memory) }
{
    if budget <= EARLY {
        return Ok(None);
    }
    let Some(steps) = waiting_steps(alloc, declaration, calls, &mut Unwatched {})? else {
        return Ok(None);
    };
    match hopeless_after(alloc, calls, steps, budget)? {
        Some(found) => Ok(Some(found)),
        None => search_by_turns(alloc, transcript, declaration, calls, false, budget),
    }
}

/// That the answer of one call is impossible over every inventory, where the first steps were all made.
fn hopeless_after(
    alloc: Global,
    calls: &[Call],
    steps: u64,
    budget: u64,
) -> Result<Option<Found>, CheckFault>
    ensures finds { (marks : List MarkOf) (declared : DeclarationOf) → AreRecorded marks
        → AreCalls marks (map call_of calls.now)
        → IfOk result (λ found. IfSome found (Finds marks declared budget)) }
    ensures memory { IfErr result (λ fault. fault ≡ CheckFault.Memory) }
{
    if steps < EARLY {
        return Ok(None);
    }
    search_hopeless(alloc, calls, budget)
}

/// How many the first steps of such a search are; none where they find an order. They are reported to a watcher.
fn waiting_steps<W: Watch>(
    alloc: Global,
    declaration: &Declaration,
    calls: &[Call],
    watch: &mut W,
) -> Result<Option<u64>, CheckFault>
    requires declared { AreDeclared (declaration_of declaration.now) }
    requires each { (marks : List MarkOf) × All (IsRecorded marks) (map call_of calls.now) }
    ensures { IfErr result (λ fault. fault ≡ CheckFault.Memory) }
{
    let own = every_candidate(alloc, calls)?;
    let rules = rules_of_declaration(alloc, declaration)?;
    let mut ledger = open_ledger(alloc, declaration)?;
    match guess_order(alloc, &mut ledger, &rules, &own, EARLY, watch) {
        Ok(guessed) => Ok(if guessed.turns.is_some() {
            None
        } else {
            Some(guessed.steps)
        }),
        Err(_) => Err(CheckFault::Memory),
    }
}

/// The same where open calls are left out, and each payload has one guess.
fn search_left_out<W: Watch>(
    alloc: Global,
    transcript: &Transcript,
    declaration: &Declaration,
    calls: &[Call],
    budget: u64,
    watch: &mut W,
) -> Result<Found, CheckFault>
    requires declared { AreDeclared (declaration_of declaration.now) }
    requires each { All (IsRecorded (transcript_of transcript.now)) (map call_of calls.now) }
    ensures { AreRecorded (transcript_of transcript.now)
        → AreCalls (transcript_of transcript.now) (map call_of calls.now) → AreNotPlain (map call_of calls.now)
        → SearchesIn (W.seconds watch.old) (transcript_of transcript.now) (declaration_of declaration.now) budget result }
{
    let own = every_candidate(alloc, calls)?;
    match all_plain(alloc, &own)? {
        Some(ended) => search_ended(alloc, transcript, declaration, &ended, budget, watch),
        None => search_guessing(alloc, transcript, declaration, &own, budget, watch),
    }
}

/// The same where all calls that have ended are plain, which are these: they are taken as those of a plain transcript, and the others are left
/// out.
fn search_ended<W: Watch>(
    alloc: Global,
    transcript: &Transcript,
    declaration: &Declaration,
    ended: &[Candidate],
    budget: u64,
    watch: &mut W,
) -> Result<Found, CheckFault>
    requires declared { AreDeclared (declaration_of declaration.now) }
    requires readable { AllReadable (map candidate_step ended.now) }
    ensures { (calls : List CallOf) → AreRecorded (transcript_of transcript.now)
        → AreCalls (transcript_of transcript.now) calls → AreNotPlain calls
        → SearchesIn (W.seconds watch.old) (transcript_of transcript.now) (declaration_of declaration.now) budget result }
{
    check_laws();
    let rules = rules_of_declaration(alloc, declaration)?;
    let mut ledger = open_ledger(alloc, declaration)?;
    let Ok(tried) = find_order(alloc, &mut ledger, &rules, ended, budget, watch) else {
        return Err(CheckFault::Memory);
    };
    let steps = tried.steps;
    if let Some(after) = tried.over {
        return Ok(Found::OutOfTime(steps, after));
    }
    let order = tried.order;
    match order {
        Some(order) => {
            let witness = witness_at(alloc, ended, &order)?;
            try_witness(alloc, transcript, declaration, witness, steps)
        }
        None => Ok(Found::GaveUp(steps)),
    }
}

/// The same where one that has ended isn't plain: each payload that it waits for has one guess.
fn search_guessing<W: Watch>(
    alloc: Global,
    transcript: &Transcript,
    declaration: &Declaration,
    own: &[Candidate],
    budget: u64,
    watch: &mut W,
) -> Result<Found, CheckFault>
    requires declared { AreDeclared (declaration_of declaration.now) }
    requires recorded { AreRecordedCalls own.now }
    ensures { (calls : List CallOf) → AreRecorded (transcript_of transcript.now)
        → AreCalls (transcript_of transcript.now) calls → AreNotPlain calls
        → SearchesIn (W.seconds watch.old) (transcript_of transcript.now) (declaration_of declaration.now) budget result }
{
    check_laws();
    let rules = rules_of_declaration(alloc, declaration)?;
    let mut ledger = open_ledger(alloc, declaration)?;
    let Ok(guessed) = guess_order(alloc, &mut ledger, &rules, own, budget, watch) else {
        return Err(CheckFault::Memory);
    };
    let steps = guessed.steps;
    if let Some(after) = guessed.over {
        return Ok(Found::OutOfTime(steps, after));
    }
    let turns = guessed.turns;
    match turns {
        Some(turns) => try_witness(alloc, transcript, declaration, Witness { turns }, steps),
        None => Ok(Found::GaveUp(steps)),
    }
}

/// Hands a witness out if it is accepted and can be written.
pub fn try_witness(
    alloc: Global,
    transcript: &Transcript,
    declaration: &Declaration,
    witness: Witness,
    steps: u64,
) -> Result<Found, CheckFault>
    requires { AreDeclared (declaration_of declaration.now) }
    ensures { AreRecorded (transcript_of transcript.now)
        → IsTried (transcript_of transcript.now) (declaration_of declaration.now) witness steps result }
{
    match check(alloc, transcript, declaration, &witness) {
        Ok(Verdict::Yes) => {
            if is_written(alloc, &witness)? {
                Ok(Found::Yes(witness, steps))
            } else {
                Ok(Found::GaveUp(steps))
            }
        }
        Ok(Verdict::No(_)) => Ok(Found::GaveUp(steps)),
        Err(fault) => unconfirmed(fault, steps),
    }
}

/// Whether some bytes are a file of the witness.
fn is_written(alloc: Global, witness: &Witness) -> Result<bool, CheckFault>
    ensures ok { result ≡ Ok true → (bytes : List ℕ) × IsWitness bytes (witness_of witness.now) }
    ensures err { IfErr result (λ fault. fault ≡ CheckFault.Memory) }
{
    let mut bytes = Vec::new(alloc);
    match write_witness(alloc, witness, &mut bytes) {
        Ok(()) => Ok(true),
        Err(fault) => {
            if fault.kind == RecordKind::Memory {
                Err(CheckFault::Memory)
            } else {
                Ok(false)
            }
        }
    }
}

/// Hands a witness out that is accepted.
fn confirm(
    alloc: Global,
    calls: &[Call],
    declaration: &Declaration,
    witness: Witness,
    steps: u64,
) -> Result<Found, CheckFault>
    requires declared { AreDeclared (declaration_of declaration.now) }
    requires each { (marks : List MarkOf) × All (IsRecorded marks) (map call_of calls.now) }
    ensures { (marks : List MarkOf) → AreRecorded marks → AreCalls marks (map call_of calls.now)
        → IsAccepted marks (declaration_of declaration.now) (witness_of witness) → Confirms witness steps result }
{
    check_laws();
    match check_calls(alloc, calls, declaration, &witness) {
        Ok(Verdict::Yes) => Ok(Found::Yes(witness, steps)),
        Ok(Verdict::No(_)) => Ok(Found::GaveUp(steps)),
        Err(fault) => unconfirmed(fault, steps),
    }
}

/// A witness of which the check tells no verdict.
fn unconfirmed(fault: CheckFault, steps: u64) -> Result<Found, CheckFault>
    ensures memory { fault ≡ CheckFault.Memory → result ≡ Err CheckFault.Memory }
    ensures other { (fault ≡ CheckFault.Memory) ⊎ (result ≡ Ok (Found.GaveUp steps)) }
{
    match fault {
        CheckFault::Memory => Err(fault),
        _ => Ok(Found::GaveUp(steps)),
    }
}
