//! The lines of an explanation.

ghost use Rattle.std.specs.Prelude.{◌≡◌, IfOk, string_bytes};
ghost use Rattle.kmipa_telling.specs.Explained.{PrintsExplanation, PrintsStoryOf, call_lines, operation_line};

use crate::causes::cause_lines;
use crate::phrases::{calls_text, operation_text};
use crate::sources::cause_source_line;
use crate::stories::story_text;
use kmipa_explain::{Explanation, Story};
use kmipa_runs::quoted_text;
use std::alloc::{AllocError, Global};

/// The lines of an explanation.
pub fn explanation_text(alloc: Global, explanation: &Explanation) -> Result<String, AllocError>
    ensures { IfOk result (λ text. PrintsExplanation explanation.now (string_bytes text)) }
{
    let call = call_lines(alloc, explanation)?;
    let cause = cause_lines(alloc, &explanation.cause, explanation.whence)?;
    let since = cause_source_line(alloc, &explanation.cause, explanation.whence)?;
    let story = story_lines(alloc, &explanation.story)?;
    format!(in alloc; "{call}{cause}{since}{story}")
}

/// The lines of the call: its client, its operation, and the calls that overlap it.
fn call_lines(alloc: Global, explanation: &Explanation) -> Result<String, AllocError>
    ensures { IfOk result (λ text. string_bytes text ≡ call_lines explanation.now) }
{
    let client = quoted_text(alloc, explanation.client.as_str())?;
    let operation = operation_line(alloc, explanation.operation)?;
    let overlapping = calls_text(alloc, &explanation.overlapping)?;
    format!(in alloc; "client: {client}\n{operation}overlapping, and later: {overlapping}\n")
}

/// The line of the operation that is asked for, where there is one.
pub fn operation_line(alloc: Global, operation: Option<u32>) -> Result<String, AllocError>
    ensures { IfOk result (λ text. string_bytes text ≡ operation_line operation) }
{
    let Some(number) = operation else {
        return Ok(String::new(alloc));
    };
    let name = operation_text(alloc, number)?;
    format!(in alloc; "operation: {name}\n")
}

/// The lines of a story, where there is one.
fn story_lines(alloc: Global, story: &Option<Story>) -> Result<String, AllocError>
    ensures { IfOk result (λ text. PrintsStoryOf story.now (string_bytes text)) }
{
    match story {
        Some(story) => story_text(alloc, story),
        None => Ok(String::new(alloc)),
    }
}
