//! The lines of a verdict where some of what was recorded isn't judged.

ghost use Rattle.std.specs.Prelude.{◌≡◌, ◌+◌, IfOk, string_bytes};
ghost use Rattle.kmipa_beside.specs.Lines.{PrintsInSight, PrintsStamp, PrintsVerdict, aside_part, counts_line, first_line, judged_line, yes_status};
ghost use Rattle.kmipa_bundle.specs.Counts.{total};
ghost use Rattle.kmipa_runs.specs.Lines.{no_line};
ghost use Rattle.kmipa_trail.specs.Told.{tally_of};

use kmipa_check::Refused;
use kmipa_jobs::Status;
use kmipa_runs::{Lines, date_text};
use kmipa_trail::{Tally, Verdict};
use std::alloc::{AllocError, Global};

/// The lines of a verdict, and the status that goes with them.
pub fn verdict_lines(alloc: Global, verdict: &Verdict) -> Result<Lines, AllocError>
    ensures { IfOk result (λ lines. PrintsVerdict verdict.now lines.status (string_bytes lines.text)) }
{
    match verdict {
        Verdict::Yes(tally) => {
            let first = first_line(alloc, tally.excepted)?;
            let second = judged_line(alloc, tally)?;
            Ok(Lines {
                text: format!(in alloc; "{first}{second}")?,
                status: yes_status(tally),
            })
        }
        Verdict::No(refused, stamp) => {
            let first = no_line(alloc, refused)?;
            let second = stamp_line(alloc, *stamp)?;
            Ok(Lines {
                text: format!(in alloc; "{first}{second}")?,
                status: Status::No,
            })
        }
    }
}

/// The same where what isn't judged ends the audit: without the line of how many items were judged.
pub fn sighted_lines(alloc: Global, verdict: &Verdict) -> Result<Lines, AllocError>
    ensures { IfOk result (λ lines. PrintsInSight verdict.now lines.status (string_bytes lines.text)) }
{
    match verdict {
        Verdict::Yes(_) => Ok(Lines {
            text: String::from_str(alloc, "yes\n")?,
            status: Status::Done,
        }),
        Verdict::No(_, _) => verdict_lines(alloc, verdict),
    }
}

fn yes_status(tally: &Tally) -> Status
    ensures { result ≡ yes_status (tally_of tally.now) }
{
    if tally.excepted == 0 {
        Status::Done
    } else {
        Status::No
    }
}

/// The line of a yes, but for what the witness alone sets aside.
fn first_line(alloc: Global, excepted: u128) -> Result<String, AllocError>
    ensures { IfOk result (λ text. string_bytes text ≡ first_line excepted) }
{
    if excepted == 0 {
        String::from_str(alloc, "yes\n")
    } else {
        format!(in alloc; "yes but for {excepted} items\n")
    }
}

/// The line of how many items were judged, and by what the others weren't.
pub fn judged_line(alloc: Global, tally: &Tally) -> Result<String, AllocError>
    ensures { IfOk result (λ text. string_bytes text ≡ judged_line (tally_of tally.now).counts) }
{
    let items = item_count(tally)?;
    counts_line(alloc, tally, items)
}

/// The same, of so many items.
fn counts_line(alloc: Global, tally: &Tally, items: u128) -> Result<String, AllocError>
    ensures { IfOk result (λ text. string_bytes text ≡ counts_line (tally_of tally.now).counts items) }
{
    let judged = tally.judged;
    let aside = aside_part(alloc, tally)?;
    format!(in alloc; "judged: {judged} of {items}{aside}")
}

/// The end of that line: by what items weren't judged.
fn aside_part(alloc: Global, tally: &Tally) -> Result<String, AllocError>
    ensures { IfOk result (λ text. string_bytes text ≡ aside_part (tally_of tally.now).counts) }
{
    let Tally {
        by_request,
        by_answer,
        by_witness,
        by_object,
        ..
    } = *tally;
    format!(in alloc;
        " items; set aside: {by_request} by request, {by_answer} by answer, {by_witness} by witness, {by_object} by object\n"
    )
}

/// How many items there are; `Err` of more than any memory holds.
fn item_count(tally: &Tally) -> Result<u128, AllocError>
    ensures { IfOk result (λ count. count ≡ total (tally_of tally.now).counts) }
{
    let count = sum(tally.by_request, tally.by_answer)?;
    let count = sum(count, tally.by_witness)?;
    let count = sum(count, tally.by_object)?;
    let count = sum(count, tally.judged)?;
    Ok(count)
}

fn sum(a: u128, b: u128) -> Result<u128, AllocError>
    ensures { IfOk result (λ both. both ≡ a + b) }
{
    match a.checked_add(b) {
        Some(both) => Ok(both),
        None => Err(AllocError),
    }
}

fn no_line(alloc: Global, refused: &Refused) -> Result<String, AllocError>
    ensures { IfOk result (λ text. string_bytes text ≡ no_line refused.now) }
{
    let Refused {
        turn,
        call,
        item,
        why,
    } = *refused;
    let number = why.number();
    let name = why.name();
    format!(in alloc; "no: turn {turn} call {call} item {item} why {number} {name}\n")
}

/// The line of the Time Stamp of a refused call's response, or of one that has none.
pub fn stamp_line(alloc: Global, stamp: Option<i64>) -> Result<String, AllocError>
    ensures { IfOk result (λ text. PrintsStamp stamp (string_bytes text)) }
{
    let Some(stamp) = stamp else {
        return String::from_str(alloc, "at none\n");
    };
    let date = date_text(alloc, stamp)?;
    format!(in alloc; "at {date}\n")
}
