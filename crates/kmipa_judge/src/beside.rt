//! What a search finds beside what is set aside, and its lines.

ghost use Rattle.std.specs.Prelude.{◌≡◌, IfOk, string_bytes};
ghost use Rattle.kmipa_trail.specs.Told.{tally_of};
ghost use Rattle.kmipa_judge.specs.Searches.{IsNoMore, MakesOrder, beside_text, counts_text, gave_up_text, order_text, sought_status, sought_text, yes_text};
ghost use Rattle.kmipa_jobs.specs.declared.status.Status.{Status};

use kmipa_beside::judged_line;
use kmipa_findings::{Order, Sought};
use kmipa_jobs::Status;
use kmipa_msgs::Unjudged;
use kmipa_record::{RecordKind, write_witness};
use kmipa_runs::Lines;
use kmipa_searches::forced_line;
use kmipa_trail::Tally;
use std::alloc::{AllocError, Global};

/// What a search beside what is set aside comes to, and whether the transcript is forced, where that was asked for.
#[derive(Drop)]
pub struct Beside {
    pub forced: Option<bool>,
    pub sought: Sought,
}

/// The bytes of the witness of an order that was found. Of one that no file is of it is told that so many tries were all that the search had.
pub(crate) fn order_made(
    alloc: Global,
    sought: Sought,
    budget: u64,
) -> Result<(Sought, Vec<u8>), AllocError>
    ensures makes { IfOk result (λ made. MakesOrder made.0 made.1.items) }
    ensures same { IfOk result (λ made. IsNoMore budget sought made.0) }
{
    let mut made = Vec::new(alloc);
    let Sought::Found(order) = &sought else {
        return Ok((sought, made));
    };
    match write_witness(alloc, &order.witness, &mut made) {
        Ok(()) => Ok((sought, made)),
        Err(fault) if fault.kind == RecordKind::Memory => Err(AllocError),
        Err(_) => Ok((Sought::GaveUp(budget), made)),
    }
}

/// The lines of what was found: whether the transcript is forced, where that was asked for; what was found; and where what isn't judged is set aside how many
/// items are judged.
pub(crate) fn beside_lines(
    alloc: Global,
    unjudged: Unjudged,
    beside: &Beside,
) -> Result<Lines, AllocError>
    ensures { IfOk result (λ lines. (lines.status ≡ sought_status beside.now.sought)
        × (string_bytes lines.text ≡ beside_text unjudged beside.now)) }
{
    let first = forced_line(beside.forced);
    let Lines { text, status } = sought_lines(alloc, unjudged, &beside.sought)?;
    Ok(Lines {
        text: format!(in alloc; "{first}{text}")?,
        status,
    })
}

/// The lines of what was found alone.
fn sought_lines(alloc: Global, unjudged: Unjudged, sought: &Sought) -> Result<Lines, AllocError>
    ensures { IfOk result (λ lines. (lines.status ≡ sought_status sought.now)
        × (string_bytes lines.text ≡ sought_text unjudged sought.now)) }
{
    match sought {
        Sought::Found(order) => found_lines(alloc, unjudged, order),
        Sought::GaveUp(steps) => gave_up_lines(alloc, *steps),
        Sought::OutOfTime(steps, _) => gave_up_lines(alloc, *steps),
    }
}

/// The lines of an order that was found.
fn found_lines(alloc: Global, unjudged: Unjudged, order: &Order) -> Result<Lines, AllocError>
    ensures { IfOk result (λ lines. (lines.status ≡ Status.Done)
        × (string_bytes lines.text ≡ order_text unjudged order.now)) }
{
    let first = yes_line(alloc, order.steps)?;
    let second = counts_line(alloc, unjudged, &order.tally)?;
    Ok(Lines {
        text: format!(in alloc; "{first}{second}")?,
        status: Status::Done,
    })
}

fn yes_line(alloc: Global, steps: u64) -> Result<String, AllocError>
    ensures { IfOk result (λ text. string_bytes text ≡ yes_text steps) }
{
    format!(in alloc; "yes: {steps} steps\n")
}

fn gave_up_lines(alloc: Global, steps: u64) -> Result<Lines, AllocError>
    ensures { IfOk result (λ lines. (lines.status ≡ Status.GaveUp) × (string_bytes lines.text ≡ gave_up_text steps)) }
{
    Ok(Lines {
        text: format!(in alloc; "gave up: {steps} steps\n")?,
        status: Status::GaveUp,
    })
}

/// How many items are judged, and by what the others aren't, where what isn't judged is set aside.
fn counts_line(alloc: Global, unjudged: Unjudged, tally: &Tally) -> Result<String, AllocError>
    ensures { IfOk result (λ text. string_bytes text ≡ counts_text unjudged (tally_of tally.now)) }
{
    match unjudged {
        Unjudged::Refused => Ok(String::new(alloc)),
        Unjudged::SetAside | Unjudged::Unknown => judged_line(alloc, tally),
    }
}
