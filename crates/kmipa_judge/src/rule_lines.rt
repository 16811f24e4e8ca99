//! The lines of rules that explain every answer.

ghost use Rattle.std.specs.Prelude.{◌≡◌, IfOk, flat_map, string_bytes};
ghost use Rattle.kmipa_judge.specs.Rules.{explained_line};

use crate::rule::{Rule, rule_text};
use std::alloc::{AllocError, Global};

/// A line for each of these rules.
pub(crate) fn explained_lines(alloc: Global, rules: &[Rule]) -> Result<String, AllocError>
    ensures { IfOk result (λ text. string_bytes text ≡ flat_map explained_line rules.now) }
{
    let mut text = String::new(alloc);
    'rules: for rule in rules {
        let one = explained_line(alloc, *rule)?;
        text.push_str(one.as_str())?;
    }
    Ok(text)
}

fn explained_line(alloc: Global, rule: Rule) -> Result<String, AllocError>
    ensures { IfOk result (λ text. string_bytes text ≡ explained_line rule) }
{
    let words = rule_text(alloc, rule)?;
    format!(in alloc; "explained with: {words}\n")
}
