//! How far calls can be taken along a hint, and what speaks against each that may be next behind them.

ghost use Rattle.std.specs.Prelude.{◌≡◌, ◌<◌, ◌+◌, ℕ, List, [], IfErr, IfOk, IfSome, Ok, length, map};
ghost use Rattle.kmipa_store.specs.Choices.{IsSound};
ghost use Rattle.kmipa_msgs.specs.Messages.{rules_of};
ghost use Rattle.kmipa_record.specs.Declarations.{AreDeclared, DeclarationOf, declaration_of};
ghost use Rattle.kmipa_record.specs.Marks.{AreRecorded};
ghost use Rattle.kmipa_record.specs.Transcripts.{transcript_of};
ghost use Rattle.kmipa_batch.specs.Readable.{IsReadableCall};
ghost use Rattle.kmipa_check.specs.Runs.{rules_declared};
ghost use Rattle.kmipa_check.specs.Verdicts.{AreKnown};
ghost use Rattle.kmipa_orders.specs.Candidates.{candidate_step};
ghost use Rattle.kmipa_orders.specs.Next.{IsNext};
ghost use Rattle.kmipa_orders.specs.Progress.{AllReadable, AreBegun};
ghost use Rattle.kmipa_orders.specs.Taken.{so_far};
ghost use Rattle.kmipa_orders.specs.Reached.{HaveSteps, IsReached, Reaches, TellsAllNext};
ghost use Rattle.kmipa_orders.specs.Reaching.{AreTaken, CallJudged};
ghost use Rattle.kmipa_orders.specs.Remaining.{AreRemaining};

use crate::candidate::Candidate;
use crate::laws_of_check::check_laws;
use crate::order::try_call;
use crate::plain::candidates;
use crate::remaining::Remaining;
use crate::stuck::{NextCall, Reached};
use kmipa_batch::{CallRefusal, take_call};
use kmipa_check::{CheckFault, Refused, open_ledger, read_calls, rules_of_declaration};
use kmipa_msgs::Rules;
use kmipa_record::{Declaration, Transcript};
use kmipa_store::Ledger;
use std::alloc::Global;

/// How far the calls of these numbers can be taken one after the other, each as a next one, and what is told of each call that may be next
/// behind them: why it is impossible there, or that it is possible. Where all calls of the transcript are plain, only want of memory is an error;
/// of others nothing is claimed.
pub fn reached(
    alloc: Global,
    transcript: &Transcript,
    declaration: &Declaration,
    order: &[i32],
) -> Result<Reached, CheckFault>
    requires { AreDeclared (declaration_of declaration.now) }
    ensures { AreRecorded (transcript_of transcript.now) → HaveSteps (transcript_of transcript.now)
        → Reaches (transcript_of transcript.now) (declaration_of declaration.now) result }
{
    check_laws();
    let calls = read_calls(alloc, transcript)?;
    let Some(own) = candidates(alloc, &calls)? else {
        return Ok(Reached {
            taken: Vec::new(alloc),
            next: Vec::new(alloc),
        });
    };
    let rules = rules_of_declaration(alloc, declaration)?;
    let mut ledger = open_ledger(alloc, declaration)?;
    reach(alloc, &mut ledger, &rules, &own, order)
}

/// The same of calls that are plain, each as a search takes it, over a ledger that the declaration opened.
fn reach<L: Ledger>(
    alloc: Global,
    ledger: &mut L,
    rules: &Rules,
    calls: &[Candidate],
    order: &[i32],
) -> Result<Reached, CheckFault>
    requires sound { IsSound (L.state ledger.old).now }
    requires readable { AllReadable (map candidate_step calls.now) }
    ensures tells { (declared : DeclarationOf) → rules_of rules.now ≡ rules_declared declared
        → AreBegun (map candidate_step calls.now) → AreKnown declared [] (L.state ledger.old).now
        → IfOk result (IsReached declared (map candidate_step calls.now)) }
    ensures memory { IfErr result (λ fault. fault ≡ CheckFault.Memory) }
{
    let mut remaining = Remaining::new(alloc, calls)?;
    let taken = take_along(alloc, ledger, rules, calls, order, &mut remaining)?;
    let next = judge_next(alloc, ledger, rules, calls, &remaining, taken.len() + 1)?;
    Ok(Reached { taken, next })
}

/// Takes the calls of these numbers, each as a next one, until one can't be taken so. Answers the numbers of those that were.
fn take_along<L: Ledger>(
    alloc: Global,
    ledger: &mut L,
    rules: &Rules,
    calls: &[Candidate],
    order: &[i32],
    remaining: &mut Remaining,
) -> Result<Vec<i32>, CheckFault>
    requires sound { IsSound (L.state ledger.old).now }
    requires readable { AllReadable (map candidate_step calls.now) }
    ensures taken { (declared : DeclarationOf) → rules_of rules.now ≡ rules_declared declared
        → AreBegun (map candidate_step calls.now) → AreKnown declared [] (L.state ledger.old).now
        → AreRemaining (map candidate_step calls.now) [] remaining.old
        → IfOk result (λ numbers. AreTaken declared (map candidate_step calls.now) remaining.new
        (L.state ledger.new).now numbers.items) }
    ensures sound { IfOk result (λ numbers. IsSound (L.state ledger.new).now) }
    ensures memory { IfErr result (λ fault. fault ≡ CheckFault.Memory) }
{
    let mut taken = Vec::new(alloc);
    'order: for number in order {
        let Some(place) = next_of_number(remaining, calls, *number) else {
            return Ok(taken);
        };
        let call = &calls[place];
        if try_call(alloc, ledger, rules, call)?.is_none() {
            return Ok(taken);
        }
        remaining.take(calls, place);
        taken.push(call.number)?;
    }
    Ok(taken)
}

/// The call of this number, where it may be next.
fn next_of_number(remaining: &Remaining, calls: &[Candidate], number: i32) -> Option<usize>
    ensures next { (taken : List ℕ) → AreBegun (map candidate_step calls.now)
        → AreRemaining (map candidate_step calls.now) taken remaining.now
        → IfSome result (IsNext (map candidate_step calls.now) taken) }
    ensures within { IfSome result (λ place. place < length calls.now) }
{
    let mut from = 0;
    'calls: while from < calls.len() {
        let Some(place) = remaining.next(calls, from) else {
            return None;
        };
        if place < from {
            return None;
        }
        if calls[place].number == number {
            return Some(place);
        }
        from = place + 1;
    }
    None
}

/// What is told of each call that may be next, as a check tells it at this turn. The ledger is as before.
fn judge_next<L: Ledger>(
    alloc: Global,
    ledger: &mut L,
    rules: &Rules,
    calls: &[Candidate],
    remaining: &Remaining,
    turn: usize,
) -> Result<Vec<NextCall>, CheckFault>
    requires sound { IsSound (L.state ledger.old).now }
    requires readable { AllReadable (map candidate_step calls.now) }
    ensures told { (declared : DeclarationOf) (taken : List ℕ) → rules_of rules.now ≡ rules_declared declared
        → AreBegun (map candidate_step calls.now) → AreRemaining (map candidate_step calls.now) taken remaining.now
        → AreKnown declared (so_far (map candidate_step calls.now) taken) (L.state ledger.old).now
        → turn ≡ length taken + 1
        → IfOk result (λ next. TellsAllNext declared (map candidate_step calls.now) taken next.items) }
    ensures memory { IfErr result (λ fault. fault ≡ CheckFault.Memory) }
{
    let mut told = Vec::new(alloc);
    let mut from = 0;
    'calls: while from < calls.len() {
        let Some(place) = remaining.next(calls, from) else {
            return Ok(told);
        };
        if place < from {
            return Ok(told);
        }
        told.push(judge(alloc, ledger, rules, &calls[place], turn)?)?;
        from = place + 1;
    }
    Ok(told)
}

/// What is told of a call that may be next, as a check tells it at this turn. The ledger is as before.
fn judge<L: Ledger>(
    alloc: Global,
    ledger: &mut L,
    rules: &Rules,
    call: &Candidate,
    turn: usize,
) -> Result<NextCall, CheckFault>
    requires sound { IsSound (L.state ledger.old).now }
    requires readable { IsReadableCall (candidate_step call.now).request (candidate_step call.now).response }
    ensures { CallJudged (rules_of rules.now) (L.state ledger.old) (candidate_step call.now) turn result
        (L.state ledger.new) }
{
    let Ok(mark) = ledger.mark() else {
        return Err(CheckFault::Memory);
    };
    let taken = take_call(alloc, ledger, rules, call.request, call.response, None);
    ledger.back(mark);
    match taken {
        Ok(()) => Ok(NextCall {
            call: call.number,
            refused: None,
        }),
        Err(CallRefusal::Impossible(item, why)) => Ok(NextCall {
            call: call.number,
            refused: Some(Refused {
                turn,
                call: call.number,
                item,
                why,
            }),
        }),
        Err(CallRefusal::Memory) => Err(CheckFault::Memory),
    }
}
