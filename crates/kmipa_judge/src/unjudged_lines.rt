//! The lines of what isn't judged.

ghost use Rattle.std.specs.Prelude.{◌≡◌, IfOk, flat_map, map, string_bytes, take};
ghost use Rattle.kmipa_unjudged.specs.Told.{named_of};
ghost use Rattle.kmipa_judge.specs.Unjudged.{aside_line, aside_lines, more_line, operation_part, operation_text, passed_line, passed_lines, unjudged_lines};

use kmipa_runs::{operation_name, quoted_text};
use kmipa_unjudged::{Named, Rank, Unjudged};
use std::alloc::{AllocError, Global};

/// How many of a sort are told at most.
const MOST: usize = 20;

/// The lines of what isn't judged.
pub(crate) fn unjudged_lines(alloc: Global, unjudged: &Unjudged) -> Result<String, AllocError>
    ensures { IfOk result (λ text. string_bytes text
        ≡ unjudged_lines unjudged.now.passed.items (map named_of unjudged.now.aside.items)) }
{
    let passed = passed_lines(alloc, unjudged.passed.as_slice())?;
    let aside = aside_lines(alloc, unjudged.aside.as_slice())?;
    format!(in alloc; "{passed}{aside}")
}

/// The lines of the operations that were passed.
fn passed_lines(alloc: Global, ranks: &[Rank]) -> Result<String, AllocError>
    ensures { IfOk result (λ text. string_bytes text ≡ passed_lines ranks.now) }
{
    let told = each_passed(alloc, first_most(ranks))?;
    let more = more_line(alloc, ranks.len())?;
    format!(in alloc; "{told}{more}")
}

/// A line for each of these operations.
fn each_passed(alloc: Global, ranks: &[Rank]) -> Result<String, AllocError>
    ensures { IfOk result (λ text. string_bytes text ≡ flat_map passed_line ranks.now) }
{
    let mut text = String::new(alloc);
    'ranks: for rank in ranks {
        let one = passed_line(alloc, *rank)?;
        text.push_str(one.as_str())?;
    }
    Ok(text)
}

fn passed_line(alloc: Global, rank: Rank) -> Result<String, AllocError>
    ensures { IfOk result (λ text. string_bytes text ≡ passed_line rank) }
{
    let name = operation_text(alloc, rank.operation)?;
    let count = rank.count;
    format!(in alloc; "passed: {name} {count} items\n")
}

/// The lines of the identifiers that are set aside.
fn aside_lines(alloc: Global, told: &[Named]) -> Result<String, AllocError>
    ensures { IfOk result (λ text. string_bytes text ≡ aside_lines (map named_of told.now)) }
{
    let first = each_aside(alloc, first_most(told))?;
    let more = more_line(alloc, told.len())?;
    format!(in alloc; "{first}{more}")
}

/// A line for each of these identifiers.
fn each_aside(alloc: Global, told: &[Named]) -> Result<String, AllocError>
    ensures { IfOk result (λ text. string_bytes text ≡ flat_map aside_line (map named_of told.now)) }
{
    let mut text = String::new(alloc);
    'told: for named in told {
        let one = aside_line(alloc, named)?;
        text.push_str(one.as_str())?;
    }
    Ok(text)
}

fn aside_line(alloc: Global, named: &Named) -> Result<String, AllocError>
    ensures { IfOk result (λ text. string_bytes text ≡ aside_line (named_of named.now)) }
{
    let id = quoted_text(alloc, named.id)?;
    let call = named.origin.call;
    let item = named.origin.item;
    let operation = operation_part(alloc, named.origin.operation)?;
    format!(in alloc; "aside: {id} since call {call} item {item}{operation}\n")
}

/// The operation of an item, where it is told.
fn operation_part(alloc: Global, operation: Option<u32>) -> Result<String, AllocError>
    ensures { IfOk result (λ text. string_bytes text ≡ operation_part operation) }
{
    let Some(number) = operation else {
        return Ok(String::new(alloc));
    };
    let name = operation_text(alloc, number)?;
    format!(in alloc; " {name}")
}

/// The name of an operation, or its number in hexadecimal digits.
pub(crate) fn operation_text(alloc: Global, number: u32) -> Result<String, AllocError>
    ensures { IfOk result (λ text. string_bytes text ≡ operation_text number) }
{
    match operation_name(number) {
        Some(name) => String::from_str(alloc, name),
        None => hex::encode_upper(alloc, &number.to_be_bytes()),
    }
}

/// The first ones, as many as are told at most.
fn first_most<T>(items: &[T]) -> &[T]
    ensures { result.now ≡ take 20 items.now }
{
    &items[..MOST.min(items.len())]
}

/// The line that there are more than are told.
fn more_line(alloc: Global, count: usize) -> Result<String, AllocError>
    ensures { IfOk result (λ text. string_bytes text ≡ more_line count) }
{
    if count <= MOST {
        return Ok(String::new(alloc));
    }
    let more = count - MOST;
    format!(in alloc; ".. {more} more\n")
}
