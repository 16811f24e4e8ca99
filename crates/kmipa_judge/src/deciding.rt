//! Whether searches decide that no order of the calls explains every answer.

ghost use Rattle.std.specs.Prelude.{◌≡◌, ℕ, List, IfOk, IfSome, IsTrue, true};
ghost use Rattle.kmipa_record.specs.Declarations.{AreDeclared, DeclarationOf, declaration_of, nothing_declared};
ghost use Rattle.kmipa_record.specs.Marks.{AreRecorded, MarkOf};
ghost use Rattle.kmipa_record.specs.Transcripts.{transcript_of};
ghost use Rattle.kmipa_findings.specs.Outcomes.{Judges};
ghost use Rattle.kmipa_judge.specs.Unexplained.{ComesTo, HasNoOrder, seen_by_all};

use crate::clients::are_of_one;
use crate::paced::Paced;
use kmipa_findings::{
    Judged, Order, Outcome, Sought, is_refuted, is_refuted_by, judge_order, seek,
};
use kmipa_msgs::Visibility;
use kmipa_orders::Watch;
use kmipa_record::{Declaration, Settings, Transcript};
use kmipa_trail::Fault;
use std::alloc::Global;

/// So many calls are tried at most, and one for each mark, where it is asked whether no order explains every answer.
const SOME: u64 = 64_000;

/// An outcome; or, where something was found, what a search beside what is set aside says more: an order that explains every answer, or that none does. It
/// tries no more calls than the budget has.
pub(crate) fn decided_beside<W: Watch + Drop>(
    alloc: Global,
    transcript: &Transcript,
    declaration: &Declaration,
    outcome: Outcome,
    budget: u64,
    paced: &mut Paced<W>,
) -> Result<Outcome, Fault>
    requires { AreDeclared (declaration_of declaration.now) }
    ensures { (seconds : ℕ) → AreRecorded (transcript_of transcript.now)
        → Judges seconds (transcript_of transcript.now) (declaration_of declaration.now) outcome → IfOk result
        (ComesTo seconds (transcript_of transcript.now) (declaration_of declaration.now)) }
{
    if !is_suspected(&outcome) {
        return Ok(outcome);
    }
    let some = SOME.saturating_add(transcript.marks.len() as u64);
    let tries = budget.min(some);
    let sought = seek(alloc, transcript, declaration, tries, paced)?;
    if is_refuted_by(alloc, transcript, declaration, &sought, tries)? {
        return Ok(convicted(outcome));
    }
    if let Some(found) = found_along(alloc, transcript, declaration, sought)? {
        return Ok(found);
    }
    if is_refuted_of_one(alloc, transcript, declaration, tries, paced)? {
        return Ok(convicted(outcome));
    }
    Ok(outcome)
}

/// What the order comes to that was found.
fn found_along(
    alloc: Global,
    transcript: &Transcript,
    declaration: &Declaration,
    sought: Sought,
) -> Result<Option<Outcome>, Fault>
    requires { AreDeclared (declaration_of declaration.now) }
    ensures { AreRecorded (transcript_of transcript.now) → IfOk result (λ found. IfSome found (λ outcome. (seconds : ℕ)
        → Judges seconds (transcript_of transcript.now) (declaration_of declaration.now) outcome)) }
{
    match sought {
        Sought::Found(order) => {
            let Order { witness, steps, .. } = order;
            judge_order(alloc, transcript, declaration, witness, steps)
        }
        Sought::GaveUp(_steps) => Ok(None),
        Sought::OutOfTime(_steps, _after) => Ok(None),
    }
}

/// Whether no order explains every answer where a server may hide objects, but clients of one identity made all calls, and nothing is declared, so that none is
/// hidden.
fn is_refuted_of_one<W: Watch + Drop>(
    alloc: Global,
    transcript: &Transcript,
    declaration: &Declaration,
    budget: u64,
    paced: &mut Paced<W>,
) -> Result<bool, Fault>
    ensures { AreRecorded (transcript_of transcript.now) → IfOk result (λ refuted. refuted ≡ true
        → HasNoOrder (transcript_of transcript.now) (declaration_of declaration.now)) }
{
    if declaration.settings.visibility == Visibility::Everyone {
        return Ok(false);
    }
    if !declares_nothing(declaration) {
        return Ok(false);
    }
    if !are_of_one(&transcript.marks) {
        return Ok(false);
    }
    let seen = seen_by_all(alloc, declaration.settings);
    is_refuted(alloc, transcript, &seen, budget, paced)
}

/// Whether nothing is declared beside settings.
fn declares_nothing(declaration: &Declaration) -> bool
    ensures { IsTrue result → declaration_of declaration.now ≡ nothing_declared declaration.now.settings }
{
    if !declaration.rows.is_empty() {
        return false;
    }
    if !declaration.allow_lines.is_empty() {
        return false;
    }
    if !declaration.own_attributes.is_empty() {
        return false;
    }
    if !declaration.entries.is_empty() {
        return false;
    }
    declaration.asides.is_empty()
}

/// The declaration of nothing beside these settings, where each client sees every object.
fn seen_by_all(alloc: Global, settings: Settings) -> Declaration
    ensures is { declaration_of result ≡ nothing_declared (seen_by_all settings) }
    ensures may { AreDeclared (declaration_of result) }
{
    Declaration {
        settings: Settings {
            unique_names: settings.unique_names,
            unjudged: settings.unjudged,
            tolerance: settings.tolerance,
            visibility: Visibility::Everyone,
        },
        rows: Vec::new(alloc),
        allow_lines: Vec::new(alloc),
        own_attributes: Vec::new(alloc),
        entries: Vec::new(alloc),
        asides: Vec::new(alloc),
    }
}

/// Whether something was found, and it isn't decided.
fn is_suspected(outcome: &Outcome) -> bool {
    match outcome {
        Outcome::Judged(judged) => !judged.is_decided && !judged.findings.is_empty(),
        Outcome::Undecided(_) => false,
    }
}

/// An outcome, told as decided where its findings are confirmed: no order explains every answer.
pub(crate) fn convicted(outcome: Outcome) -> Outcome
    ensures { (seconds : ℕ) (marks : List MarkOf) (declared : DeclarationOf) → Judges seconds marks declared outcome
        → HasNoOrder marks declared → ComesTo seconds marks declared result }
{
    match outcome {
        Outcome::Judged(judged) => Outcome::Judged(Judged {
            is_decided: true,
            ..judged
        }),
        Outcome::Undecided(undecided) => Outcome::Undecided(undecided),
    }
}
