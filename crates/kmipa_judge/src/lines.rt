//! The lines of what judging comes to.

ghost use Rattle.std.specs.Prelude.{◌≡◌, ℕ, IfOk, map, string_bytes};
ghost use Rattle.kmipa_record.specs.Declarations.{AreDeclared, declaration_of};
ghost use Rattle.kmipa_record.specs.Marks.{AreRecorded};
ghost use Rattle.kmipa_record.specs.Transcripts.{transcript_of};
ghost use Rattle.kmipa_findings.specs.Told.{finding_of};
ghost use Rattle.kmipa_judge.specs.Parts.{IsMeaning};
ghost use Rattle.kmipa_judge.specs.Lines.{PrintsFinding, PrintsFindings, PrintsMeaning, PrintsOutcome, assumed_line, finding_line, first_line, last_lines, over_line, refused_part};

use crate::indenting::indented;
use crate::opinion::{Opinion, findings_of, opinion_of, opinion_status, steps_of};
use crate::part::{Meanings, meaning_of};
use crate::rule::Rule;
use crate::rule_lines::explained_lines;
use kmipa_beside::{judged_line, stamp_line};
use kmipa_check::Refused;
use kmipa_findings::{Finding, Outcome};
use kmipa_runs::Lines;
use kmipa_telling::explanation_lines;
use std::alloc::{AllocError, Global};

/// The lines of an outcome, with what its findings mean, and by which rules every answer is explained.
pub(crate) fn outcome_lines(
    alloc: Global,
    meanings: Meanings,
    rules: &[Rule],
) -> Result<Lines, AllocError>
    requires recorded { AreRecorded (transcript_of meanings.records.now.transcript) }
    requires declared { AreDeclared (declaration_of meanings.records.now.declaration) }
    ensures { IfOk result (λ lines. PrintsOutcome (IsMeaning (transcript_of meanings.entry.records.now.transcript)
        (declaration_of meanings.entry.records.now.declaration) meanings.entry.outcome.now)
        meanings.entry.records.now.assumed meanings.entry.outcome.now rules.now lines.status (string_bytes lines.text)) }
{
    let outcome = meanings.outcome;
    let findings = findings_of(outcome);
    let opinion = opinion_of(outcome);
    let first = first_line(alloc, opinion, findings.len(), steps_of(outcome))?;
    let second = assumed_line(meanings.records.assumed);
    let found = finding_lines(alloc, meanings, findings)?;
    let explained = explained_lines(alloc, rules)?;
    let last = last_lines(alloc, outcome)?;
    Ok(Lines {
        text: format!(in alloc; "{first}{second}{found}{explained}{last}")?,
        status: opinion_status(opinion),
    })
}

/// The line of an opinion, with how many findings there are, and how many calls were tried.
fn first_line(
    alloc: Global,
    opinion: Opinion,
    findings: usize,
    steps: u64,
) -> Result<String, AllocError>
    ensures { IfOk result (λ text. string_bytes text ≡ first_line opinion findings steps) }
{
    match opinion {
        Opinion::Explained => String::from_str(alloc, "explained\n"),
        Opinion::NothingJudged => String::from_str(alloc, "nothing judged\n"),
        Opinion::Convicted => format!(in alloc; "convicted: {findings} findings\n"),
        Opinion::Suspected => format!(in alloc; "suspected: {findings} findings\n"),
        Opinion::Undecided => format!(in alloc; "undecided: {findings} findings, {steps} steps\n"),
    }
}

/// The line that says so where nothing is declared.
fn assumed_line(assumed: bool) -> &'static str
    ensures { result.now ≡ assumed_line assumed }
{
    if assumed {
        "assumed: nothing is declared\n"
    } else {
        ""
    }
}

/// The lines of findings, the first of which is number 1.
fn finding_lines<'a>(
    alloc: Global,
    meanings: Meanings<'_, 'a>,
    findings: &'a [Finding],
) -> Result<String, AllocError>
    requires recorded { AreRecorded (transcript_of meanings.records.now.transcript) }
    requires declared { AreDeclared (declaration_of meanings.records.now.declaration) }
    ensures { IfOk result (λ text. PrintsFindings (IsMeaning (transcript_of meanings.entry.records.now.transcript)
        (declaration_of meanings.entry.records.now.declaration) meanings.entry.outcome.now)
        1 (map finding_of findings.now) (string_bytes text)) }
{
    let mut text = String::new(alloc);
    let mut count = 0;
    'findings: while count < findings.len() {
        let lines = lines_of_finding(alloc, meanings, count + 1, &findings[count])?;
        text.push_str(lines.as_str())?;
        count += 1;
    }
    Ok(text)
}

/// The lines of the finding with this number.
fn lines_of_finding<'a>(
    alloc: Global,
    meanings: Meanings<'_, 'a>,
    number: usize,
    finding: &'a Finding,
) -> Result<String, AllocError>
    requires recorded { AreRecorded (transcript_of meanings.records.now.transcript) }
    requires declared { AreDeclared (declaration_of meanings.records.now.declaration) }
    ensures { IfOk result (λ text. PrintsFinding (IsMeaning (transcript_of meanings.entry.records.now.transcript)
        (declaration_of meanings.entry.records.now.declaration) meanings.entry.outcome.now)
        number (finding_of finding.now) (string_bytes text)) }
{
    let first = finding_line(alloc, number, &finding.refused)?;
    let second = stamp_line(alloc, finding.stamp)?;
    let more = meaning_lines(alloc, meanings, number, finding)?;
    format!(in alloc; "{first}{second}{more}")
}

/// The lines of what the finding with this number means.
fn meaning_lines<'a>(
    alloc: Global,
    meanings: Meanings<'_, 'a>,
    number: usize,
    finding: &'a Finding,
) -> Result<String, AllocError>
    requires recorded { AreRecorded (transcript_of meanings.records.now.transcript) }
    requires declared { AreDeclared (declaration_of meanings.records.now.declaration) }
    ensures { IfOk result (λ text. PrintsMeaning (IsMeaning (transcript_of meanings.entry.records.now.transcript)
        (declaration_of meanings.entry.records.now.declaration) meanings.entry.outcome.now)
        (finding_of finding.now) (string_bytes text)) }
{
    let meaning = meaning_of(alloc, meanings, number, finding)?;
    let text = explanation_lines(alloc, &meaning)?;
    indented(alloc, text.as_str())
}

fn finding_line(alloc: Global, count: usize, refused: &Refused) -> Result<String, AllocError>
    ensures { IfOk result (λ text. string_bytes text ≡ finding_line count refused.now) }
{
    let rest = refused_part(alloc, refused)?;
    format!(in alloc; "finding {count}{rest}")
}

/// How the line of a finding ends.
fn refused_part(alloc: Global, refused: &Refused) -> Result<String, AllocError>
    ensures { IfOk result (λ text. string_bytes text ≡ refused_part refused.now) }
{
    let Refused {
        turn,
        call,
        item,
        why,
    } = *refused;
    let number = why.number();
    let name = why.name();
    format!(in alloc; ": turn {turn} call {call} item {item} why {number} {name}\n")
}

/// What stands behind the findings.
fn last_lines(alloc: Global, outcome: &Outcome) -> Result<String, AllocError>
    ensures { IfOk result (λ text. string_bytes text ≡ last_lines outcome.now) }
{
    match outcome {
        Outcome::Judged(judged) => judged_line(alloc, &judged.tally),
        Outcome::Undecided(undecided) => over_line(alloc, undecided.over),
    }
}

/// The line that so many seconds are over, where they are.
fn over_line(alloc: Global, over: Option<u64>) -> Result<String, AllocError>
    ensures { IfOk result (λ text. string_bytes text ≡ over_line over) }
{
    match over {
        Some(seconds) => format!(in alloc; "not decided: {seconds} seconds are over\n"),
        None => Ok(String::new(alloc)),
    }
}
