//! `search --explain`: a search that says what its giving up means, and why a message is outside.

ghost use Rattle.std.specs.Prelude.{◌≡◌, ◌≢◌, ◌⊎◌, ℕ, List, [], IsTrue, IfOk, OnOk, Result, Ok, Err, flat_map, string_bytes};
ghost use Rattle.std.specs.Io.{StartsWith, appended_bytes};
ghost use Rattle.kmipa_ttlv.specs.Input.{came_of, is_ended, is_failed, IsFileOf};
ghost use Rattle.kmipa_check.specs.Audits.{AreAccepted};
ghost use Rattle.kmipa_runs.specs.Knowing.{Known, KnowsSeals};
ghost use Rattle.kmipa_searches.specs.Searches.{found_status};
ghost use Rattle.kmipa_jobs.specs.Statuses.{IsSilent};
ghost use Rattle.kmipa_searches.specs.Deciding.{DecidesFiles};
ghost use Rattle.kmipa_searches.specs.GivingUp.{PrintsGivingUp, decision_line, decision_text, judged_text, objects_text, objects_word, quoted_behind};

use crate::deepest::reached_text;
use crate::judged::{Decision, Judged, judge_records};
use crate::options::SearchOptions;
use crate::searched::FoundOutput;
use crate::searching::{searched_lines, tell_witness};
use kmipa_check::AuditFault;
use kmipa_jobs::Status;
use kmipa_orders::{Found, Watch};
use kmipa_record::{Head, read_declaration, read_transcript};
use kmipa_runs::{Answered, Lines, append, quoted_text};
use kmipa_telling::{FaultTold, calls_text, fault_told, fault_told_lines};
use kmipa_ttlv::Input;
use std::alloc::{AllocError, Global};
use std::io::Read;

/// `search TRANSCRIPT DECLARATION OUT --explain`: looks for a witness as it is asked for. Appends to the lines those of what was found, or of the
/// fault that stands in their place, and behind those of a giving up one more, which tells whether the search has decided, and if not, why; and
/// where the calls are plain, those of the deepest place that it reached. Behind the line of a message that is outside it appends those of why it
/// is. A witness that was found is appended to what is made, as a file. It answers the status, and the head of a sealed transcript.
pub fn explain_search_run<R: Read, W: Watch>(
    alloc: Global,
    transcript: &mut Input<R>,
    declaration: &mut Input<R>,
    asked: SearchOptions,
    watch: &mut W,
    out: &mut FoundOutput,
) -> Answered
    requires transcript { came_of transcript.old ≡ [] }
    requires declaration { came_of declaration.old ≡ [] }
    // What is made and printed tells what a search answers of whatever the inputs may be, with what its
    // giving up or its fault means, or memory ran out.
    ensures prints { (outcome : Result Judged FaultTold)
        × ((t d : List ℕ) → IsFileOf t transcript.new → IsFileOf d declaration.new
        → DecidesFiles t d (is_failed transcript.new) (is_failed declaration.new)
        (W.seconds watch.old) asked.budget asked.forced outcome)
        × (PrintsGivingUp outcome result.status (appended_bytes out.old.lines.items out.new.lines.items)
        (appended_bytes out.old.made.items out.new.made.items)
        ⊎ (IsSilent result.status (appended_bytes out.old.lines.items out.new.lines.items)
        × (appended_bytes out.old.made.items out.new.made.items ≡ []))) }
    // Status 0 is answered only where the bytes that came, to the ends that were seen, are accepted with the
    // witness that is made.
    ensures accepts { result.status ≡ Status.Done
        → AreAccepted (came_of transcript.new) (came_of declaration.new) (appended_bytes out.old.made.items out.new.made.items)
        × IsTrue (is_ended transcript.new) × IsTrue (is_ended declaration.new) }
    ensures nothing { result.status ≢ Status.Done → out.new.made.items ≡ out.old.made.items }
    // With a verdict the head is answered up to which all seals of the bytes that came are right, or none of bytes without seals.
    ensures known { KnowsSeals (came_of transcript.new) result.status result.head }
    ensures appends { StartsWith out.new.lines.items out.old.lines.items }
    ensures makes { StartsWith out.new.made.items out.old.made.items }
{
    let mut head = None;
    match judge_inputs(alloc, transcript, declaration, asked, watch, &mut head) {
        Ok(judged) => Answered {
            status: tell_judged(alloc, &judged, &mut out.lines, &mut out.made),
            head,
        },
        Err(told) => Answered {
            status: append(fault_told_lines(alloc, &told), &mut out.lines),
            head: None,
        },
    }
}

/// Reads the two inputs, of which nothing was read, one after the other, and searches; at a giving up with what it says. The head of
/// a transcript that was searched is kept, if it is sealed.
fn judge_inputs<R: Read, W: Watch>(
    alloc: Global,
    transcript: &mut Input<R>,
    declaration: &mut Input<R>,
    asked: SearchOptions,
    watch: &mut W,
    head: &mut Option<Head>,
) -> Result<Judged, FaultTold>
    requires transcript { came_of transcript.old ≡ [] }
    requires declaration { came_of declaration.old ≡ [] }
    ensures decides { (t d : List ℕ) → IsFileOf t transcript.new → IsFileOf d declaration.new
        → DecidesFiles t d (is_failed transcript.new) (is_failed declaration.new)
        (W.seconds watch.old) asked.budget asked.forced result }
    ensures known { IfOk result (λ judged. Known (came_of transcript.new) head.new) }
    ensures ended { OnOk result (IsTrue (is_ended transcript.new) × IsTrue (is_ended declaration.new)) }
{
    let transcript = match read_transcript(alloc, transcript) {
        Ok(transcript) => transcript,
        Err(fault) => return Err(FaultTold::bare(AuditFault::Transcript(fault))),
    };
    let declaration = match read_declaration(alloc, declaration) {
        Ok(declaration) => declaration,
        Err(fault) => return Err(FaultTold::bare(AuditFault::Declaration(fault))),
    };
    match judge_records(alloc, &transcript, &declaration, asked, watch) {
        Ok(judged) => {
            *head = transcript.head;
            Ok(judged)
        }
        Err(fault) => Err(fault_told(alloc, &transcript, fault)),
    }
}

/// Appends the lines of what was found to `out`, with what giving up says, and a witness that was found to `made`; nothing to either where
/// memory runs out.
fn tell_judged(alloc: Global, judged: &Judged, out: &mut Vec<u8>, made: &mut Vec<u8>) -> Status
    ensures tells { PrintsGivingUp (Ok judged.now) result (appended_bytes out.old.items out.new.items)
        (appended_bytes made.old.items made.new.items)
        ⊎ (IsSilent result (appended_bytes out.old.items out.new.items)
        × (appended_bytes made.old.items made.new.items ≡ [])) }
    ensures nothing { result ≢ Status.Done → made.new.items ≡ made.old.items }
    ensures appends { StartsWith out.new.items out.old.items }
    ensures makes { StartsWith made.new.items made.old.items }
{
    let Ok(lines) = judged_lines(alloc, judged) else {
        return Status::Failed;
    };
    match &judged.searched.found {
        Found::Yes(witness, _) => tell_witness(alloc, witness, &lines, out, made),
        Found::GaveUp(_) => append(Ok(lines), out),
        Found::Refuted(_, _) => append(Ok(lines), out),
        Found::Impossible(_, _) => append(Ok(lines), out),
        Found::OutOfTime(_, _) => append(Ok(lines), out),
    }
}

/// The lines of what a search found, and behind them what its giving up says, and the deepest place.
fn judged_lines(alloc: Global, judged: &Judged) -> Result<Lines, AllocError>
    ensures { IfOk result (λ lines. (lines.status ≡ found_status judged.now.searched.found)
        × (string_bytes lines.text ≡ judged_text judged.now)) }
{
    let Lines {
        text: front,
        status,
    } = searched_lines(alloc, &judged.searched)?;
    let decision = decision_text(alloc, &judged.decision)?;
    let deepest = reached_text(alloc, &judged.reached)?;
    let text = format!(in alloc; "{front}{decision}{deepest}")?;
    Ok(Lines { text, status })
}

/// The line of what giving up says, where there is one.
fn decision_text(alloc: Global, decision: &Option<Decision>) -> Result<String, AllocError>
    ensures { IfOk result (λ text. string_bytes text ≡ decision_text decision.now) }
{
    match decision {
        Some(decision) => decision_line(alloc, decision),
        None => Ok(String::new(alloc)),
    }
}

fn decision_line(alloc: Global, decision: &Decision) -> Result<String, AllocError>
    ensures { IfOk result (λ text. string_bytes text ≡ decision_line decision.now) }
{
    match decision {
        Decision::Decided => {
            String::from_str(alloc, "decided: no order explains every answer\n")
        }
        Decision::Impossible => {
            String::from_str(alloc, "decided: no order explains every answer\n")
        }
        Decision::Objects(objects) => {
            let named = objects_text(alloc, objects)?;
            format!(in alloc; "decided: no order explains the answers about {named}\n")
        }
        Decision::UsedUp(steps) => {
            format!(in alloc; "not decided: the budget of {steps} steps is used up\n")
        }
        Decision::NotPlain(numbers) => {
            let calls = calls_text(alloc, numbers)?;
            format!(in alloc; "not decided: these are not plain: {calls}\n")
        }
        Decision::OutOfTime(seconds) => {
            format!(in alloc; "not decided: {seconds} seconds are over\n")
        }
        Decision::Tolerant(seconds) => {
            format!(in alloc;
                "not decided: moments within {seconds} seconds of their stamps were not all tried\n"
            )
        }
        Decision::Births => String::from_str(
            alloc,
            "not decided: what the server itself may give at birth was not all tried\n",
        ),
    }
}

/// Objects by their identifiers, in quotes.
fn objects_text(alloc: Global, objects: &[String]) -> Result<String, AllocError>
    ensures { IfOk result (λ text. string_bytes text ≡ objects_text objects.now) }
{
    let word = objects_word(objects.len());
    let named = quoted_texts(alloc, objects)?;
    format!(in alloc; "{word}{named}")
}

/// The word for so many objects.
fn objects_word(count: usize) -> &'static str
    ensures { result.now ≡ objects_word count }
{
    if count > 1 { "objects" } else { "object" }
}

/// Texts in quotes, each behind a blank.
fn quoted_texts(alloc: Global, texts: &[String]) -> Result<String, AllocError>
    ensures { IfOk result (λ text. string_bytes text ≡ flat_map quoted_behind texts.now) }
{
    let mut line = String::new(alloc);
    'texts: for text in texts {
        let quoted = quoted_text(alloc, text.as_str())?;
        let one = format!(in alloc; " {quoted}")?;
        line.push_str(one.as_str())?;
    }
    Ok(line)
}
