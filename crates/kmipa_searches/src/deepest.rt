//! The lines of the deepest place of a search that gave up.

ghost use Rattle.std.specs.Prelude.{◌≡◌, IfOk, flat_map, string_bytes};
ghost use Rattle.kmipa_searches.specs.Deepest.{against_text, next_line, next_lines, reached_text, taken_lines};

use kmipa_check::Refused;
use kmipa_orders::{NextCall, Reached};
use kmipa_telling::{MOST, calls_text, more_line};
use std::alloc::{AllocError, Global};

/// The lines of the deepest place, where it is told.
pub fn reached_text(alloc: Global, reached: &Option<Reached>) -> Result<String, AllocError>
    ensures { IfOk result (λ text. string_bytes text ≡ reached_text reached.now) }
{
    let Some(reached) = reached else {
        return Ok(String::new(alloc));
    };
    let taken = taken_lines(alloc, &reached.taken)?;
    let next = next_lines(alloc, &reached.next)?;
    format!(in alloc; "{taken}{next}")
}

/// The lines of the calls that were taken, of many those that were taken last.
fn taken_lines(alloc: Global, numbers: &[i32]) -> Result<String, AllocError>
    ensures { IfOk result (λ text. string_bytes text ≡ taken_lines numbers.now) }
{
    let count = numbers.len();
    let more = more_line(alloc, "taken", count)?;
    let calls = calls_text(alloc, &numbers[count.saturating_sub(MOST)..])?;
    format!(in alloc; "deepest: {count} calls taken\n{more}taken: {calls}\n")
}

/// The lines of the first twenty calls that may be next, and how many more there are.
fn next_lines(alloc: Global, next: &[NextCall]) -> Result<String, AllocError>
    ensures { IfOk result (λ text. string_bytes text ≡ next_lines next.now) }
{
    if next.is_empty() {
        return String::from_str(alloc, "next: none\n");
    }
    let told = some_next(alloc, &next[..MOST.min(next.len())])?;
    let more = more_line(alloc, "next", next.len())?;
    format!(in alloc; "{told}{more}")
}

fn some_next(alloc: Global, next: &[NextCall]) -> Result<String, AllocError>
    ensures { IfOk result (λ text. string_bytes text ≡ flat_map next_line next.now) }
{
    let mut text = String::new(alloc);
    'next: for call in next {
        let one = next_line(alloc, call)?;
        text.push_str(one.as_str())?;
    }
    Ok(text)
}

/// The line of a call that may be next.
fn next_line(alloc: Global, next: &NextCall) -> Result<String, AllocError>
    ensures { IfOk result (λ text. string_bytes text ≡ next_line next.now) }
{
    let call = next.call;
    let against = against_text(alloc, next.refused)?;
    format!(in alloc; "next: call {call}{against}\n")
}

/// The item that is impossible, and the reason; or that the call is possible.
fn against_text(alloc: Global, refused: Option<Refused>) -> Result<String, AllocError>
    ensures { IfOk result (λ text. string_bytes text ≡ against_text refused) }
{
    let Some(refused) = refused else {
        return String::from_str(alloc, " possible");
    };
    let item = refused.item;
    let number = refused.why.number();
    let name = refused.why.name();
    format!(in alloc; " item {item} why {number} {name}")
}
