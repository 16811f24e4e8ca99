//! The lines of a list that holds what may not be listed, or leaves out what must be.

ghost use Rattle.std.specs.Prelude.{◌≡◌, IfOk, flat_map, string_bytes};
ghost use Rattle.kmipa_telling.specs.Lists.{AreLines};
ghost use Rattle.kmipa_telling.specs.ListingCauses.{PrintsLeftOut, PrintsLeftOuts, fault_text, listed_lines, maximum_line, wrong_line, wrong_lines};

use crate::naming::attribute_name;
use crate::phrases::{MOST, more_line};
use crate::state_causes::moment_line;
use kmipa_explain::{LeftOutHeld, ListFault, ListHeld, WronglyListed};
use kmipa_runs::quoted_text;
use std::alloc::{AllocError, Global};

/// The lines of a list that holds what may not be listed, or too much.
pub fn listed_lines(alloc: Global, held: &ListHeld) -> Result<String, AllocError>
    ensures { IfOk result (λ text. string_bytes text ≡ listed_lines held.now) }
{
    let listed = held.listed;
    let maximum = maximum_line(alloc, held.maximum)?;
    let wrong = wrong_lines(alloc, &held.wrong)?;
    format!(in alloc; "identifiers listed: {listed}\n{maximum}{wrong}")
}

/// The line of the maximum, where more are listed.
fn maximum_line(alloc: Global, maximum: Option<i32>) -> Result<String, AllocError>
    ensures { IfOk result (λ text. string_bytes text ≡ maximum_line maximum) }
{
    match maximum {
        Some(most) => format!(in alloc; "maximum items: {most}\n"),
        None => Ok(String::new(alloc)),
    }
}

/// The lines of the first twenty of these identifiers, and how many more there are.
fn wrong_lines(alloc: Global, wrong: &[WronglyListed]) -> Result<String, AllocError>
    ensures { IfOk result (λ text. string_bytes text ≡ wrong_lines wrong.now) }
{
    let told = some_wrong(alloc, &wrong[..MOST.min(wrong.len())])?;
    let more = more_line(alloc, "wrong", wrong.len())?;
    format!(in alloc; "{told}{more}")
}

fn some_wrong(alloc: Global, wrong: &[WronglyListed]) -> Result<String, AllocError>
    ensures { IfOk result (λ text. string_bytes text ≡ flat_map wrong_line wrong.now) }
{
    let mut text = String::new(alloc);
    'wrong: for held in wrong {
        let one = wrong_line(alloc, held)?;
        text.push_str(one.as_str())?;
    }
    Ok(text)
}

/// The line of an identifier that may not be listed.
fn wrong_line(alloc: Global, held: &WronglyListed) -> Result<String, AllocError>
    ensures { IfOk result (λ text. string_bytes text ≡ wrong_line held.now) }
{
    let identifier = quoted_text(alloc, held.identifier.as_str())?;
    let fault = fault_text(alloc, held.fault)?;
    format!(in alloc; "wrong: {identifier}, {fault}\n")
}

fn fault_text(alloc: Global, fault: ListFault) -> Result<String, AllocError>
    ensures { IfOk result (λ text. string_bytes text ≡ fault_text fault) }
{
    match fault {
        ListFault::Again => String::from_str(alloc, "listed before"),
        ListFault::Absent => String::from_str(alloc, "no object"),
        ListFault::Excluded(filter) => {
            let name = attribute_name(filter);
            format!(in alloc; "excluded by {name}")
        }
    }
}

/// The lines of how many objects must be listed and aren't, and of the first twenty of them.
pub fn left_out_lines(alloc: Global, left: &[LeftOutHeld]) -> Result<String, AllocError>
    ensures { IfOk result (λ text. PrintsLeftOuts left.now (string_bytes text)) }
{
    let count = left.len();
    let told = some_left_out(alloc, &left[..MOST.min(left.len())])?;
    let more = more_line(alloc, "left out", left.len())?;
    format!(in alloc; "objects left out: {count}\n{told}{more}")
}

fn some_left_out(alloc: Global, left: &[LeftOutHeld]) -> Result<String, AllocError>
    ensures { IfOk result (λ text. AreLines PrintsLeftOut left.now (string_bytes text)) }
{
    let mut text = String::new(alloc);
    'left: for held in left {
        let one = left_out_line(alloc, held)?;
        text.push_str(one.as_str())?;
    }
    Ok(text)
}

/// The line of an object that must be listed, and isn't.
fn left_out_line(alloc: Global, held: &LeftOutHeld) -> Result<String, AllocError>
    ensures { IfOk result (λ text. PrintsLeftOut held.now (string_bytes text)) }
{
    let identifier = quoted_text(alloc, held.identifier.as_str())?;
    let initial = moment_line(alloc, "initial date", held.initial)?;
    format!(in alloc; "left out: {identifier}, {initial}")
}
