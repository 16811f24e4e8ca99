//! What judging found, as members of a JSON object.

ghost use Rattle.std.specs.Prelude.{◌≡◌, ◌+◌, IfOk, OnOk, map};
ghost use Rattle.kmipa_bundle.specs.Counts.{total};
ghost use Rattle.kmipa_record.specs.Declarations.{AreDeclared, declaration_of};
ghost use Rattle.kmipa_record.specs.Marks.{AreRecorded};
ghost use Rattle.kmipa_record.specs.Transcripts.{transcript_of};
ghost use Rattle.kmipa_findings.specs.Told.{finding_of};
ghost use Rattle.kmipa_json.specs.Told.{items_of, members_of};
ghost use Rattle.kmipa_judge.specs.Object.{TellsFinding, TellsFound, aside_members, assumed_told, opinion_name, refused_members, steps_told, tally_members};
ghost use Rattle.kmipa_judge.specs.Parts.{IsMeaning};
ghost use Rattle.kmipa_telling.specs.Lists.{AreObjects};
ghost use Rattle.kmipa_telling.specs.Telling.{TellsDate};
ghost use Rattle.kmipa_trail.specs.Told.{tally_of};

use crate::opinion::{Opinion, findings_of, opinion_of, opinion_status};
use crate::part::{Meanings, meaning_of};
use kmipa_check::Refused;
use kmipa_findings::Finding;
use kmipa_jobs::Status;
use kmipa_json::{JsonList, JsonObject};
use kmipa_runs::date_text;
use kmipa_telling::{named, tell_meaning};
use kmipa_trail::Tally;
use std::alloc::{AllocError, Global};

/// Puts what is said of an outcome in a word, whether nothing is declared, and all findings with what they mean into an object, and answers the status.
pub(crate) fn tell_found(
    alloc: Global,
    told: &mut JsonObject,
    meanings: Meanings,
) -> Result<Status, AllocError>
    requires recorded { AreRecorded (transcript_of meanings.records.now.transcript) }
    requires declared { AreDeclared (declaration_of meanings.records.now.declaration) }
    ensures { IfOk result (λ status. TellsFound (IsMeaning (transcript_of meanings.entry.records.now.transcript)
        (declaration_of meanings.entry.records.now.declaration) meanings.entry.outcome.now)
        meanings.entry.records.now.assumed meanings.entry.outcome.now status (members_of told.old) (members_of told.new)) }
{
    let opinion = opinion_of(meanings.outcome);
    told.put_text("verdict", opinion_name(opinion))?;
    tell_assumed(told, meanings.records.assumed)?;
    let findings = finding_list(alloc, meanings, findings_of(meanings.outcome))?;
    told.put_list("findings", findings)?;
    Ok(opinion_status(opinion))
}

/// What stands for the first line.
fn opinion_name(opinion: Opinion) -> &'static str
    ensures { result.now ≡ opinion_name opinion }
{
    match opinion {
        Opinion::Explained => "explained",
        Opinion::NothingJudged => "nothing judged",
        Opinion::Convicted => "convicted",
        Opinion::Suspected => "suspected",
        Opinion::Undecided => "undecided",
    }
}

/// That nothing is declared, where it is so.
fn tell_assumed(told: &mut JsonObject, assumed: bool) -> Result<(), AllocError>
    ensures { OnOk result (members_of told.new ≡ assumed_told assumed (members_of told.old)) }
{
    if assumed {
        told.put_truth("assumed", true)
    } else {
        Ok(())
    }
}

/// All findings.
fn finding_list<'a>(
    alloc: Global,
    meanings: Meanings<'_, 'a>,
    findings: &'a [Finding],
) -> Result<JsonList, AllocError>
    requires recorded { AreRecorded (transcript_of meanings.records.now.transcript) }
    requires declared { AreDeclared (declaration_of meanings.records.now.declaration) }
    ensures { IfOk result (λ list. AreObjects (TellsFinding (IsMeaning (transcript_of meanings.entry.records.now.transcript)
        (declaration_of meanings.entry.records.now.declaration) meanings.entry.outcome.now))
        (map finding_of findings.now) (items_of list)) }
{
    let mut list = JsonList::new(alloc);
    let mut count = 0;
    'findings: while count < findings.len() {
        let one = finding_object(alloc, meanings, count + 1, &findings[count])?;
        list.push_object(one)?;
        count += 1;
    }
    Ok(list)
}

/// The finding with this number.
fn finding_object<'a>(
    alloc: Global,
    meanings: Meanings<'_, 'a>,
    number: usize,
    finding: &'a Finding,
) -> Result<JsonObject, AllocError>
    requires recorded { AreRecorded (transcript_of meanings.records.now.transcript) }
    requires declared { AreDeclared (declaration_of meanings.records.now.declaration) }
    ensures { IfOk result (λ told. TellsFinding (IsMeaning (transcript_of meanings.entry.records.now.transcript)
        (declaration_of meanings.entry.records.now.declaration) meanings.entry.outcome.now)
        (finding_of finding.now) (members_of told)) }
{
    let mut told = refused_object(alloc, &finding.refused)?;
    tell_date(alloc, &mut told, finding.stamp)?;
    let meaning = meaning_of(alloc, meanings, number, finding)?;
    tell_meaning(alloc, &mut told, &meaning)?;
    Ok(told)
}

/// The turn, the call and the item of a finding, and the reason.
fn refused_object(alloc: Global, refused: &Refused) -> Result<JsonObject, AllocError>
    ensures { IfOk result (λ told. members_of told ≡ refused_members refused.now) }
{
    let mut told = JsonObject::new(alloc);
    told.put_count("turn", refused.turn as u64)?;
    told.put_integer("call", refused.call as i64)?;
    told.put_count("item", refused.item as u64)?;
    told.put_object(
        "why",
        named(alloc, refused.why.number(), refused.why.name())?,
    )?;
    Ok(told)
}

/// The moment in seconds, and its date.
fn tell_date(alloc: Global, told: &mut JsonObject, stamp: Option<i64>) -> Result<(), AllocError>
    ensures { OnOk result (TellsDate stamp (members_of told.old) (members_of told.new)) }
{
    let Some(stamp) = stamp else {
        return Ok(());
    };
    let date = date_text(alloc, stamp)?;
    told.put_integer("stamp", stamp)?;
    told.put_text("date", date.as_str())
}

/// How many items are judged, and by what the others aren't; `Err` of more than any memory holds.
pub(crate) fn tally_object(alloc: Global, tally: &Tally) -> Result<JsonObject, AllocError>
    ensures { IfOk result (λ told. members_of told ≡ tally_members (tally_of tally.now).counts) }
{
    let mut told = JsonObject::new(alloc);
    told.put_count("judged", told_count(tally.judged)?)?;
    told.put_count("items", told_count(item_count(tally)?)?)?;
    told.put_object("set_aside", aside_object(alloc, tally)?)?;
    Ok(told)
}

/// By what items aren't judged.
fn aside_object(alloc: Global, tally: &Tally) -> Result<JsonObject, AllocError>
    ensures { IfOk result (λ told. members_of told ≡ aside_members (tally_of tally.now).counts) }
{
    let mut told = JsonObject::new(alloc);
    told.put_count("request", told_count(tally.by_request)?)?;
    told.put_count("answer", told_count(tally.by_answer)?)?;
    told.put_count("witness", told_count(tally.by_witness)?)?;
    told.put_count("object", told_count(tally.by_object)?)?;
    Ok(told)
}

/// How many items there are.
fn item_count(tally: &Tally) -> Result<u128, AllocError>
    ensures { IfOk result (λ count. count ≡ total (tally_of tally.now).counts) }
{
    let count = sum(tally.by_request, tally.by_answer)?;
    let count = sum(count, tally.by_witness)?;
    let count = sum(count, tally.by_object)?;
    let count = sum(count, tally.judged)?;
    Ok(count)
}

fn sum(a: u128, b: u128) -> Result<u128, AllocError>
    ensures { IfOk result (λ both. both ≡ a + b) }
{
    match a.checked_add(b) {
        Some(both) => Ok(both),
        None => Err(AllocError),
    }
}

/// A count as a number that an object can have.
pub(crate) fn told_count(count: u128) -> Result<u64, AllocError>
    ensures { IfOk result (λ told. told ≡ count) }
{
    if count <= u64::MAX as u128 {
        Ok(count as u64)
    } else {
        Err(AllocError)
    }
}

/// How many calls were tried, and the seconds that are over, where they are.
pub(crate) fn tell_steps(
    told: &mut JsonObject,
    steps: u64,
    over: Option<u64>,
) -> Result<(), AllocError>
    ensures { OnOk result (members_of told.new ≡ steps_told steps over (members_of told.old)) }
{
    told.put_count("steps", steps)?;
    match over {
        Some(seconds) => told.put_count("seconds", seconds),
        None => Ok(()),
    }
}
