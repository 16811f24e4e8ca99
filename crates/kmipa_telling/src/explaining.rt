//! The lines of a check, with what its no means.

ghost use Rattle.std.specs.Prelude.{IfOk, Result, string_bytes};
ghost use Rattle.kmipa_telling.specs.Explaining.{PrintsExplained, PrintsMore};

use crate::explained::Explained;
use crate::explanation::explanation_text;
use kmipa_explain::Explanation;
use kmipa_runs::{Lines, verdict_lines};
use std::alloc::{AllocError, Global};

/// The lines of a verdict, and behind them those of what it means.
pub fn explained_lines(alloc: Global, explained: &Explained) -> Result<Lines, AllocError>
    ensures { IfOk result (λ lines. PrintsExplained (Result.Ok explained.now) lines.status (string_bytes lines.text)) }
{
    let Lines {
        text: front,
        status,
    } = verdict_lines(
        alloc,
        &explained.verdict,
        &explained.records.transcript,
        &explained.records.declaration,
        &explained.records.witness,
    )?;
    let more = explanation_lines(alloc, &explained.explanation)?;
    let text = format!(in alloc; "{front}{more}")?;
    Ok(Lines { text, status })
}

/// The lines of an explanation, where there is one.
pub fn explanation_lines(
    alloc: Global,
    explanation: &Option<Explanation>,
) -> Result<String, AllocError>
    ensures { IfOk result (λ text. PrintsMore explanation.now (string_bytes text)) }
{
    match explanation {
        Some(explanation) => explanation_text(alloc, explanation),
        None => Ok(String::new(alloc)),
    }
}
