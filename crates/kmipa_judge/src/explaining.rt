//! Rules of a server by which every answer is explained.

ghost use Rattle.std.specs.Prelude.{◌≡◌, All, IfOk, IsTrue, List, OnOk, true};
ghost use Rattle.std.specs.List.{list_all};
ghost use Rattle.kmipa_record.specs.Declarations.{AreDeclared, DeclarationOf, declaration_of};
ghost use Rattle.kmipa_record.specs.Marks.{AreRecorded, MarkOf};
ghost use Rattle.kmipa_record.specs.Transcripts.{transcript_of};
ghost use Rattle.kmipa_record.specs.Witnesses.{turn_of};
ghost use Rattle.kmipa_findings.specs.Outcomes.{Judges};
ghost use Rattle.kmipa_judge.specs.Rules.{AreExplaining, IsExplainedBy, IsExplainedWith, are_tried, are_tried_for, sets_none};

use crate::clues::is_about_all;
use crate::judging::Records;
use crate::opinion::{findings_of, steps_of};
use crate::reduced::find_at_once;
use crate::rule::{RULES, Rule, assuming, assuming_all};
use kmipa_findings::{Finding, Outcome};
use kmipa_orders::Watch;
use kmipa_record::{Declaration, OwnAttribute, Settings, Transcript, Turn};
use kmipa_trail::Fault;
use std::alloc::Global;

/// So many calls are tried at most with one rule.
const FEW: u64 = 64_000;

/// So many tries are made at most: one with all rules, and one with each.
const TRIES: u64 = 8;

/// A recording, the settings by which it was judged, what was found in it, and how many calls may be tried with one rule.
#[derive(Clone, Copy)]
struct Trial<'t> {
    transcript: &'t Transcript,
    settings: Settings,
    findings: &'t [Finding],
    share: u64,
}

/// The rules by each of which every answer is explained, where nothing else is assumed of the server. Some are looked for only where nothing is declared and
/// something was found.
pub(crate) fn rules_explaining<W: Watch + Drop>(
    alloc: Global,
    records: &Records,
    outcome: &Outcome,
    budget: u64,
    watch: &W,
) -> Result<Vec<Rule>, Fault>
    ensures { AreRecorded (transcript_of records.now.transcript) → IfOk result (λ rules.
        AreExplaining records.now.assumed (transcript_of records.now.transcript) (declaration_of records.now.declaration)
        outcome.now rules.items) }
{
    if !are_tried(records.assumed, outcome) {
        return Ok(Vec::new(alloc));
    }
    let trial = Trial {
        transcript: &records.transcript,
        settings: records.declaration.settings,
        findings: findings_of(outcome),
        share: FEW.min(budget.saturating_sub(steps_of(outcome)) / TRIES),
    };
    rules_of(alloc, trial, watch)
}

/// Whether rules are tried: nothing is declared, and something was found.
fn are_tried(assumed: bool, outcome: &Outcome) -> bool
    ensures { result ≡ are_tried assumed outcome.now }
{
    match outcome {
        Outcome::Judged(judged) => are_tried_for(assumed, judged.findings.len()),
        Outcome::Undecided(_) => false,
    }
}

fn are_tried_for(assumed: bool, findings: usize) -> bool
    ensures { result ≡ are_tried_for assumed findings }
{
    if findings == 0 { false } else { assumed }
}

/// The rules by each of which every answer is explained.
fn rules_of<W: Watch + Drop>(alloc: Global, trial: Trial, watch: &W) -> Result<Vec<Rule>, Fault>
    ensures { AreRecorded (transcript_of trial.entry.transcript.now) → IfOk result (λ rules.
        All (IsExplainedWith (transcript_of trial.entry.transcript.now) trial.entry.settings) rules.items) }
{
    if may_explain(alloc, trial, watch)? {
        rules_among(alloc, trial, &RULES, watch)
    } else {
        Ok(Vec::new(alloc))
    }
}

/// Those of these rules by each of which every answer is explained.
fn rules_among<W: Watch + Drop>(
    alloc: Global,
    trial: Trial,
    rules: &[Rule],
    watch: &W,
) -> Result<Vec<Rule>, Fault>
    ensures { AreRecorded (transcript_of trial.entry.transcript.now) → IfOk result (λ explaining.
        All (IsExplainedWith (transcript_of trial.entry.transcript.now) trial.entry.settings) explaining.items) }
{
    let mut explaining = Vec::new(alloc);
    'rules: for rule in rules {
        take_rule(alloc, trial, *rule, &mut explaining, watch)?;
    }
    Ok(explaining)
}

/// Takes a rule to these, where every answer is explained by it.
fn take_rule<W: Watch + Drop>(
    alloc: Global,
    trial: Trial,
    rule: Rule,
    explaining: &mut Vec<Rule>,
    watch: &W,
) -> Result<(), Fault>
    ensures { AreRecorded (transcript_of trial.entry.transcript.now) → OnOk result
        (All (IsExplainedWith (transcript_of trial.entry.transcript.now) trial.entry.settings) explaining.old.items
        → All (IsExplainedWith (transcript_of trial.entry.transcript.now) trial.entry.settings) explaining.new.items) }
{
    let is_explained = is_explained_with(alloc, trial, rule, watch)?;
    if !is_explained {
        return Ok(());
    }
    explaining.push(rule)?;
    Ok(())
}

/// Whether one of the rules may explain every answer. Where several can have to do with what was found, all of them together have to.
fn may_explain<W: Watch + Drop>(alloc: Global, trial: Trial, watch: &W) -> Result<bool, Fault> {
    if !is_about_all(Rule::Own(OwnAttribute::Name), trial.findings) {
        return Ok(is_about_all(Rule::Tolerance, trial.findings));
    }
    let declaration = assuming_all(alloc, trial.settings)?;
    is_explained_by(alloc, trial, &declaration, watch)
}

/// Whether every answer is explained by a rule, where it can have to do with what was found.
fn is_explained_with<W: Watch + Drop>(
    alloc: Global,
    trial: Trial,
    rule: Rule,
    watch: &W,
) -> Result<bool, Fault>
    ensures { AreRecorded (transcript_of trial.entry.transcript.now) → IfOk result (λ explained. explained ≡ true
        → IsExplainedWith (transcript_of trial.entry.transcript.now) trial.entry.settings rule) }
{
    if !is_about_all(rule, trial.findings) {
        return Ok(false);
    }
    let declaration = assuming(alloc, trial.settings, rule)?;
    is_explained_by(alloc, trial, &declaration, watch)
}

/// Whether every answer is explained by a declaration, along an order that is found in the time that is left.
fn is_explained_by<W: Watch + Drop>(
    alloc: Global,
    trial: Trial,
    declaration: &Declaration,
    watch: &W,
) -> Result<bool, Fault>
    requires { AreDeclared (declaration_of declaration.now) }
    ensures { AreRecorded (transcript_of trial.entry.transcript.now) → IfOk result (λ explained. explained ≡ true
        → IsExplainedBy (transcript_of trial.entry.transcript.now) (declaration_of declaration.now)) }
{
    if watch.over().is_some() {
        return Ok(false);
    }
    match find_at_once(alloc, trial.transcript, declaration, trial.share, watch)? {
        Some(outcome) => Ok(is_whole(&outcome)),
        None => Ok(false),
    }
}

/// Whether an outcome has a witness that sets nothing aside.
fn is_whole(outcome: &Outcome) -> bool
    ensures { (marks : List MarkOf) (declared : DeclarationOf) → Judges 0 marks declared outcome.now → IsTrue result
        → IsExplainedBy marks declared }
{
    match outcome {
        Outcome::Judged(judged) => set_nothing_aside(judged.witness.turns.as_slice()),
        Outcome::Undecided(_) => false,
    }
}

/// Whether turns set nothing aside.
fn set_nothing_aside(turns: &[Turn]) -> bool
    ensures { result ≡ list_all (λ (turn : Turn). sets_none (turn_of turn)) turns.now }
{
    turns.iter().all(|turn| sets_none(turn))
}

fn sets_none(turn: &Turn) -> bool
    ensures { result ≡ sets_none (turn_of turn.now) }
{
    turn.asides.len() == 0
}
