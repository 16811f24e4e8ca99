//! The judging of records.

ghost use Rattle.std.specs.Prelude.{◌≡◌, ◌⊎◌, ℕ, Bool, IfOk, List, OnOk, option_map, string_bytes};
ghost use Rattle.kmipa_json.specs.Told.{members_of};
ghost use Rattle.kmipa_record.specs.Declarations.{AreDeclared, DeclarationOf, declaration_of};
ghost use Rattle.kmipa_record.specs.Marks.{AreRecorded, MarkOf};
ghost use Rattle.kmipa_record.specs.Transcripts.{transcript_of};
ghost use Rattle.kmipa_record.specs.Witnesses.{witness_of};
ghost use Rattle.kmipa_record.specs.Writing.{IsWrittenDeclarationWithin, IsWrittenWitness};
ghost use Rattle.kmipa_record.specs.declared.reach.Reach.TheVariants.{Aside};
ghost use Rattle.kmipa_findings.specs.Outcomes.{Judges};
ghost use Rattle.kmipa_jobs.specs.Statuses.{IsSilent};
ghost use Rattle.kmipa_judge.specs.Object.{TellsAlong, TellsBehind, TellsWhole};
ghost use Rattle.kmipa_judge.specs.Declaring.{is_presumed};
ghost use Rattle.kmipa_judge.specs.Opinions.{Counts, IsFair};
ghost use Rattle.kmipa_judge.specs.Runs.{JudgesRecords, Makes, MakesNothing, Prints, PrintsWhole};
ghost use Rattle.kmipa_judge.specs.Unexplained.{ComesTo};
ghost use Rattle.kmipa_judge.specs.Unjudged.{PrintsAlong, PrintsUnjudged};

use crate::clients::counts_for;
use crate::deciding::{convicted, decided_beside};
use crate::declaring::is_presumed;
use crate::explaining::rules_explaining;
use crate::found_object::{tally_object, tell_found, tell_steps};
use crate::lines::outcome_lines;
use crate::opinion::findings_of;
use crate::paced::Paced;
use crate::part::{Advice, Meanings};
use crate::reduced::find_reduced;
use crate::rule::Rule;
use crate::rule_object::tell_rules;
use crate::run::JudgeRun;
use crate::searched::{Looked, look_as_ever};
use crate::unjudged_lines::unjudged_lines;
use crate::unjudged_object::tell_unjudged;
use kmipa_findings::{Judged, Outcome, judge};
use kmipa_jobs::Status;
use kmipa_json::JsonObject;
use kmipa_orders::Watch;
use kmipa_record::{
    Declaration, Head, Reach, RecordFault, Transcript, Witness, write_declaration_within,
    write_witness,
};
use kmipa_runs::Lines;
use kmipa_trail::Fault;
use kmipa_unjudged::unjudged_of;
use std::alloc::Global;

/// So many calls are tried at most beside what is set aside, where findings along an order are told already.
const FEW: u64 = 64_000;

/// A transcript, and the declaration by which it is judged; whether it is one that assumes nothing, since none is given.
#[derive(Drop)]
pub(crate) struct Records {
    pub transcript: Transcript,
    pub declaration: Declaration,
    pub assumed: bool,
}

/// What an outcome is told with: the object that is opened, where one is asked for; and the head of a sealed transcript.
#[derive(Drop)]
struct Telling {
    opened: Option<JsonObject>,
    head: Option<Head>,
}

/// Judges a transcript by a declaration, and tells it in lines, or in the object that is opened. Where memory runs out nothing is said and made.
pub(crate) fn judge_records<W: Watch + Drop>(
    alloc: Global,
    records: Records,
    opened: Option<JsonObject>,
    budget: u64,
    watch: W,
) -> JudgeRun
    requires recorded { AreRecorded (transcript_of records.transcript) }
    requires declared { AreDeclared (declaration_of records.declaration) }
    ensures told { AreRecorded (transcript_of records.transcript)
        → JudgesRecords (W.seconds watch) (option_map members_of opened) records.assumed (transcript_of records.transcript)
        (declaration_of records.declaration) result.status result.lines.items result.witness.items
        result.declaration.items }
    ensures head { result.head ≡ records.transcript.head }
{
    let mut records = records;
    let head = records.transcript.head.take();
    let mut paced = Paced { watch };
    match find_fairly(alloc, &records, budget, &mut paced) {
        Ok(outcome) => {
            let telling = Telling { opened, head };
            tell_with_rules(alloc, &records, &outcome, telling, budget, &paced.watch)
        }
        Err(_) => silent(alloc, head),
    }
}

/// Tells an outcome, and by which rules every answer is explained.
fn tell_with_rules<W: Watch + Drop>(
    alloc: Global,
    records: &Records,
    outcome: &Outcome,
    telling: Telling,
    budget: u64,
    watch: &W,
) -> JudgeRun
    requires recorded { AreRecorded (transcript_of records.now.transcript) }
    requires declared { AreDeclared (declaration_of records.now.declaration) }
    ensures told { (seconds : ℕ) → AreRecorded (transcript_of records.now.transcript)
        → ComesTo seconds (transcript_of records.now.transcript) (declaration_of records.now.declaration) outcome.now
        → IsFair (is_presumed records.now.assumed (declaration_of records.now.declaration).settings.visibility)
        (transcript_of records.now.transcript) outcome.now
        → JudgesRecords seconds (option_map members_of telling.opened) records.now.assumed
        (transcript_of records.now.transcript) (declaration_of records.now.declaration) result.status result.lines.items
        result.witness.items result.declaration.items }
    ensures head { result.head ≡ telling.head }
{
    match rules_explaining(alloc, records, outcome, budget, watch) {
        Ok(rules) => tell_outcome(alloc, records, outcome, &rules, telling),
        Err(_) => silent(alloc, telling.head),
    }
}

/// What is found in a transcript. Where it is only presumed that each client sees every object, and several clients made the calls, nobody is convicted.
fn find_fairly<W: Watch + Drop>(
    alloc: Global,
    records: &Records,
    budget: u64,
    paced: &mut Paced<W>,
) -> Result<Outcome, Fault>
    requires { AreDeclared (declaration_of records.now.declaration) }
    ensures told { AreRecorded (transcript_of records.now.transcript) → IfOk result
        (ComesTo (W.seconds paced.old.watch) (transcript_of records.now.transcript) (declaration_of records.now.declaration)) }
    ensures fair { AreRecorded (transcript_of records.now.transcript) → IfOk result
        (IsFair (is_presumed records.now.assumed (declaration_of records.now.declaration).settings.visibility)
        (transcript_of records.now.transcript)) }
{
    let visibility = records.declaration.settings.visibility;
    let presumed = is_presumed(records.assumed, visibility);
    let counts = counts_for(presumed, &records.transcript.marks);
    let outcome = find(
        alloc,
        &records.transcript,
        &records.declaration,
        budget,
        paced,
    )?;
    Ok(fair(outcome, counts))
}

/// An outcome as it is, where it counts that no order explains every answer; else the same, but that it convicts nobody.
fn fair(outcome: Outcome, counts: bool) -> Outcome
    ensures judges { (seconds : ℕ) (marks : List MarkOf) (declared : DeclarationOf)
        → ComesTo seconds marks declared outcome → ComesTo seconds marks declared result }
    ensures fair { (presumed : Bool) (marks : List MarkOf) → Counts presumed marks counts → IsFair presumed marks result }
{
    if counts {
        return outcome;
    }
    match outcome {
        Outcome::Judged(judged) => Outcome::Judged(Judged {
            is_decided: false,
            ..judged
        }),
        Outcome::Undecided(undecided) => Outcome::Undecided(undecided),
    }
}

/// What is found in a transcript: an order that a search of all calls finds, where a check accepts it; or else what judging comes to. It is told as decided
/// where a search decides so, of all calls or beside what is set aside.
fn find<W: Watch + Drop>(
    alloc: Global,
    transcript: &Transcript,
    declaration: &Declaration,
    budget: u64,
    paced: &mut Paced<W>,
) -> Result<Outcome, Fault>
    requires { AreDeclared (declaration_of declaration.now) }
    ensures told { AreRecorded (transcript_of transcript.now) → IfOk result
        (ComesTo (W.seconds paced.old.watch) (transcript_of transcript.now) (declaration_of declaration.now)) }
{
    match look_as_ever(alloc, transcript, declaration, budget, &paced.watch)? {
        Looked::Found(outcome) => Ok(outcome),
        Looked::Refuted => {
            let outcome = find_beside(alloc, transcript, declaration, budget, paced)?;
            Ok(convicted(outcome))
        }
        Looked::Undecided => {
            let outcome = find_beside(alloc, transcript, declaration, budget, paced)?;
            decided_beside(alloc, transcript, declaration, outcome, budget, paced)
        }
    }
}

/// The same where no search of all calls finds an order: the findings along an order of those that aren't set aside, or those of a search beside what is,
/// where these are fewer.
fn find_beside<W: Watch + Drop>(
    alloc: Global,
    transcript: &Transcript,
    declaration: &Declaration,
    budget: u64,
    paced: &mut Paced<W>,
) -> Result<Outcome, Fault>
    requires { AreDeclared (declaration_of declaration.now) }
    ensures told { AreRecorded (transcript_of transcript.now) → IfOk result
        (Judges (W.seconds paced.old.watch) (transcript_of transcript.now) (declaration_of declaration.now)) }
{
    let Some(along) = find_reduced(alloc, transcript, declaration, budget, &paced.watch)? else {
        return judge(alloc, transcript, declaration, budget, paced);
    };
    if findings_of(&along).len() <= 1 {
        return Ok(along);
    }
    let beside = judge(alloc, transcript, declaration, budget.min(FEW), paced)?;
    if is_better(&beside, &along) {
        Ok(beside)
    } else {
        Ok(along)
    }
}

/// Whether one outcome is decided, or has fewer findings than another.
fn is_better(one: &Outcome, other: &Outcome) -> bool {
    match (one, other) {
        (Outcome::Judged(one), Outcome::Judged(other)) => {
            if one.is_decided == other.is_decided {
                one.findings.len() < other.findings.len()
            } else {
                one.is_decided
            }
        }
        (Outcome::Judged(_), Outcome::Undecided(_)) => true,
        (Outcome::Undecided(_), _) => false,
    }
}

/// Tells an outcome and these rules, and makes what is made of it.
fn tell_outcome(
    alloc: Global,
    records: &Records,
    outcome: &Outcome,
    rules: &[Rule],
    telling: Telling,
) -> JudgeRun
    requires recorded { AreRecorded (transcript_of records.now.transcript) }
    requires declared { AreDeclared (declaration_of records.now.declaration) }
    ensures told { AreRecorded (transcript_of records.now.transcript)
        → (Prints (option_map members_of telling.opened) records.now.assumed (transcript_of records.now.transcript)
        (declaration_of records.now.declaration) outcome.now rules.now result.status result.lines.items
        × Makes (declaration_of records.now.declaration) outcome.now result.witness.items result.declaration.items)
        ⊎ (IsSilent result.status result.lines.items × MakesNothing result.witness.items result.declaration.items) }
    ensures head { result.head ≡ telling.head }
{
    let Telling { opened, head } = telling;
    let Ok(lines) = all_told(alloc, records, opened, outcome, rules) else {
        return silent(alloc, head);
    };
    let Ok(made) = make_files(alloc, outcome, &records.declaration) else {
        return silent(alloc, head);
    };
    JudgeRun {
        status: lines.status,
        lines: lines.text.into_bytes(),
        head,
        witness: made.witness,
        declaration: made.declaration,
    }
}

/// All that is told of an outcome: lines, or the object that is opened with what it gets besides.
fn all_told(
    alloc: Global,
    records: &Records,
    opened: Option<JsonObject>,
    outcome: &Outcome,
    rules: &[Rule],
) -> Result<Lines, Fault>
    requires recorded { AreRecorded (transcript_of records.now.transcript) }
    requires declared { AreDeclared (declaration_of records.now.declaration) }
    ensures { AreRecorded (transcript_of records.now.transcript) → IfOk result (λ lines.
        Prints (option_map members_of opened) records.now.assumed (transcript_of records.now.transcript)
        (declaration_of records.now.declaration) outcome.now rules.now lines.status (string_bytes lines.text)) }
{
    let advice = advice_on(alloc, records, outcome)?;
    let meanings = Meanings {
        records,
        outcome,
        advice: &advice,
    };
    match opened {
        None => all_lines(alloc, meanings, rules),
        Some(told) => whole_object(alloc, told, meanings, rules),
    }
}

/// What is known of the calls of a recording, where something was found in it.
fn advice_on<'a>(
    alloc: Global,
    records: &'a Records,
    outcome: &'a Outcome,
) -> Result<Option<Advice<'a>>, Fault> {
    match outcome {
        Outcome::Judged(judged) if !judged.findings.is_empty() => Ok(Advice::of(
            alloc,
            &records.transcript,
            &records.declaration,
            &judged.witness.turns,
        )?),
        _ => Ok(None),
    }
}

/// The line of an object that gets besides what it has all that is told of an outcome.
fn whole_object(
    alloc: Global,
    told: JsonObject,
    meanings: Meanings,
    rules: &[Rule],
) -> Result<Lines, Fault>
    requires recorded { AreRecorded (transcript_of meanings.records.now.transcript) }
    requires declared { AreDeclared (declaration_of meanings.records.now.declaration) }
    ensures { AreRecorded (transcript_of meanings.entry.records.now.transcript) → IfOk result (λ lines.
        TellsWhole (members_of told) meanings.entry.records.now.assumed
        (transcript_of meanings.entry.records.now.transcript) (declaration_of meanings.entry.records.now.declaration)
        meanings.entry.outcome.now rules.now lines.status (string_bytes lines.text)) }
{
    let mut told = told;
    let status = tell_found(alloc, &mut told, meanings)?;
    tell_behind(alloc, &mut told, meanings.records, meanings.outcome)?;
    tell_rules(alloc, &mut told, rules)?;
    let text = told.into_line()?;
    Ok(Lines { text, status })
}

/// What stands behind the findings: how many items are judged, and what isn't; or how many calls were tried.
fn tell_behind(
    alloc: Global,
    told: &mut JsonObject,
    records: &Records,
    outcome: &Outcome,
) -> Result<(), Fault>
    requires { AreDeclared (declaration_of records.now.declaration) }
    ensures { AreRecorded (transcript_of records.now.transcript) → OnOk result
        (TellsBehind (transcript_of records.now.transcript) (declaration_of records.now.declaration) outcome.now
        (members_of told.old) (members_of told.new)) }
{
    match outcome {
        Outcome::Judged(judged) => {
            told.put_object("tally", tally_object(alloc, &judged.tally)?)?;
            tell_along(alloc, told, records, &judged.witness)
        }
        Outcome::Undecided(undecided) => {
            tell_steps(told, undecided.steps, undecided.over)?;
            Ok(())
        }
    }
}

/// What isn't judged along a witness.
pub(crate) fn tell_along(
    alloc: Global,
    told: &mut JsonObject,
    records: &Records,
    witness: &Witness,
) -> Result<(), Fault>
    requires { AreDeclared (declaration_of records.now.declaration) }
    ensures { AreRecorded (transcript_of records.now.transcript) → OnOk result
        (TellsAlong (transcript_of records.now.transcript) (declaration_of records.now.declaration)
        (witness_of witness.now) (members_of told.old) (members_of told.new)) }
{
    let unjudged = unjudged_of(alloc, &records.transcript, &records.declaration, witness)?;
    tell_unjudged(alloc, told, &unjudged)?;
    Ok(())
}

/// All lines of an outcome and of these rules: behind its own those of what isn't judged.
fn all_lines(alloc: Global, meanings: Meanings, rules: &[Rule]) -> Result<Lines, Fault>
    requires recorded { AreRecorded (transcript_of meanings.records.now.transcript) }
    requires declared { AreDeclared (declaration_of meanings.records.now.declaration) }
    ensures { AreRecorded (transcript_of meanings.entry.records.now.transcript) → IfOk result (λ lines.
        PrintsWhole meanings.entry.records.now.assumed (transcript_of meanings.entry.records.now.transcript)
        (declaration_of meanings.entry.records.now.declaration) meanings.entry.outcome.now rules.now lines.status
        (string_bytes lines.text)) }
{
    let first = outcome_lines(alloc, meanings, rules)?;
    let behind = lines_behind(alloc, meanings.records, meanings.outcome)?;
    let mut text = first.text;
    text.push_str(behind.as_str())?;
    Ok(Lines {
        text,
        status: first.status,
    })
}

/// The lines of what isn't judged along the witness of an outcome.
fn lines_behind(alloc: Global, records: &Records, outcome: &Outcome) -> Result<String, Fault>
    requires { AreDeclared (declaration_of records.now.declaration) }
    ensures { AreRecorded (transcript_of records.now.transcript) → IfOk result (λ text.
        PrintsUnjudged (transcript_of records.now.transcript) (declaration_of records.now.declaration) outcome.now
        (string_bytes text)) }
{
    match outcome {
        Outcome::Judged(judged) => lines_along(alloc, records, &judged.witness),
        Outcome::Undecided(_) => Ok(String::new(alloc)),
    }
}

/// The lines of what isn't judged along a witness.
pub(crate) fn lines_along(
    alloc: Global,
    records: &Records,
    witness: &Witness,
) -> Result<String, Fault>
    requires { AreDeclared (declaration_of records.now.declaration) }
    ensures { AreRecorded (transcript_of records.now.transcript) → IfOk result (λ text.
        PrintsAlong (transcript_of records.now.transcript) (declaration_of records.now.declaration)
        (witness_of witness.now) (string_bytes text)) }
{
    let unjudged = unjudged_of(alloc, &records.transcript, &records.declaration, witness)?;
    Ok(unjudged_lines(alloc, &unjudged)?)
}

/// The bytes of the files that are made.
#[derive(Drop)]
struct Made {
    witness: Vec<u8>,
    declaration: Vec<u8>,
}

/// Makes what is made of an outcome.
fn make_files(
    alloc: Global,
    outcome: &Outcome,
    declaration: &Declaration,
) -> Result<Made, RecordFault>
    ensures { IfOk result
        (λ made. Makes (declaration_of declaration.now) outcome.now made.witness.items made.declaration.items) }
{
    match outcome {
        Outcome::Judged(judged) => Ok(Made {
            witness: witness_bytes(alloc, &judged.witness)?,
            declaration: declaration_bytes(alloc, declaration)?,
        }),
        Outcome::Undecided(_) => Ok(Made {
            witness: Vec::new(alloc),
            declaration: Vec::new(alloc),
        }),
    }
}

/// A file of a witness.
fn witness_bytes(alloc: Global, witness: &Witness) -> Result<Vec<u8>, RecordFault>
    ensures { IfOk result (λ bytes. IsWrittenWitness (witness_of witness.now) bytes.items) }
{
    let mut bytes = Vec::new(alloc);
    write_witness(alloc, witness, &mut bytes)?;
    Ok(bytes)
}

/// A file of a declaration.
fn declaration_bytes(alloc: Global, declaration: &Declaration) -> Result<Vec<u8>, RecordFault>
    ensures { IfOk result (λ bytes. IsWrittenDeclarationWithin Aside (declaration_of declaration.now) bytes.items) }
{
    let mut bytes = Vec::new(alloc);
    write_declaration_within(alloc, declaration, Reach::Aside, &mut bytes)?;
    Ok(bytes)
}

/// Nothing is said and made, since memory ran out.
pub(crate) fn silent(alloc: Global, head: Option<Head>) -> JudgeRun
    ensures silent { IsSilent result.status result.lines.items }
    ensures nothing { MakesNothing result.witness.items result.declaration.items }
    ensures head { result.head ≡ head }
{
    JudgeRun {
        status: Status::Failed,
        lines: Vec::new(alloc),
        head,
        witness: Vec::new(alloc),
        declaration: Vec::new(alloc),
    }
}
