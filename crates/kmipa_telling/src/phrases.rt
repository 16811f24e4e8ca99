//! How operations and calls are named on a line.

ghost use Rattle.std.specs.Prelude.{◌≡◌, IfOk, flat_map, string_bytes};
ghost use Rattle.kmipa_telling.specs.Phrases.{calls_text, more_line, more_text, named_text, numbered, operation_text};

use kmipa_runs::operation_name;
use std::alloc::{AllocError, Global};

/// How many of a sort are told at most.
pub const MOST: usize = 20;

/// The name of an operation, or its number where it has none.
pub fn operation_text(alloc: Global, number: u32) -> Result<String, AllocError>
    ensures { IfOk result (λ text. string_bytes text ≡ operation_text number) }
{
    match operation_name(number) {
        Some(name) => String::from_str(alloc, name),
        None => format!(in alloc; "operation {number}"),
    }
}

/// The same of one that may be missing.
pub fn named_text(alloc: Global, operation: Option<u32>) -> Result<String, AllocError>
    ensures { IfOk result (λ text. string_bytes text ≡ named_text operation) }
{
    match operation {
        Some(number) => operation_text(alloc, number),
        None => String::from_str(alloc, "none"),
    }
}

/// The calls by their numbers, at most twenty, and how many more there are.
pub fn calls_text(alloc: Global, numbers: &[i32]) -> Result<String, AllocError>
    ensures { IfOk result (λ text. string_bytes text ≡ calls_text numbers.now) }
{
    if numbers.is_empty() {
        return String::from_str(alloc, "none");
    }
    let named = numbers_text(alloc, &numbers[..MOST.min(numbers.len())])?;
    let more = more_text(alloc, numbers.len())?;
    format!(in alloc; "calls{named}{more}")
}

/// That there are more calls than are named.
pub fn more_text(alloc: Global, count: usize) -> Result<String, AllocError>
    ensures { IfOk result (λ text. string_bytes text ≡ more_text count) }
{
    if count <= MOST {
        return Ok(String::new(alloc));
    }
    let more = count - MOST;
    format!(in alloc; " and {more} more")
}

/// Numbers, each behind a blank.
pub fn numbers_text(alloc: Global, numbers: &[i32]) -> Result<String, AllocError>
    ensures { IfOk result (λ text. string_bytes text ≡ flat_map numbered numbers.now) }
{
    let mut text = String::new(alloc);
    'numbers: for number in numbers {
        let one = format!(in alloc; " {number}")?;
        text.push_str(one.as_str())?;
    }
    Ok(text)
}

/// The line that tells how many of a sort are not told, behind a word.
pub fn more_line(alloc: Global, word: &str, count: usize) -> Result<String, AllocError>
    ensures { IfOk result (λ text. string_bytes text ≡ more_line word.now count) }
{
    if count <= MOST {
        return Ok(String::new(alloc));
    }
    let more = count - MOST;
    format!(in alloc; "{word}: {more} more\n")
}
