//! What `ReasonUnfounded` rests on: a Result Reason, what may be behind it, and the object that is meant.

ghost use Rattle.std.specs.Prelude.{◌≡◌, ◌==◌, ◌++◌, IfOk, OnOk, map, ℕ};
ghost use Rattle.kmipa_object.specs.Allowances.{allows, is_line_of};
ghost use Rattle.kmipa_object.specs.Life.{state};
ghost use Rattle.kmipa_msgs.specs.Messages.{answer_of, ask_of, row_of, rules_of};
ghost use Rattle.kmipa_record.specs.Declarations.{declaration_of};
ghost use Rattle.kmipa_explain.specs.Kept.{one_if};
ghost use Rattle.kmipa_check.specs.Runs.{rules_declared};
ghost use Rattle.kmipa_explain.specs.Meant.{dates_told, has_line, text_of};
ghost use Rattle.kmipa_explain.specs.Unfounded.{FailsFor, TellsObject, TellsReason, causes_of};

use crate::explanation::Cause;
use crate::held::{DatesHeld, ReasonHeld, StateHeld};
use crate::holding::{act_asked, dates_in, life_with, object_held};
use kmipa_check::rules_of_declaration;
use kmipa_msgs::{Answer, Ask, Cause as FailureCause, Row, Rules};
use kmipa_object::{Act, AllowLine, State, allows, state_at};
use kmipa_record::Declaration;
use std::alloc::{AllocError, Global};

/// The reason of a failed answer, what the server's rules say may be behind it, and the object that is meant.
pub fn reason_cause(
    alloc: Global,
    held: &Declaration,
    meant: &Option<String>,
    t: i64,
    ask: &Ask,
    answer: &Answer,
) -> Result<Cause, AllocError>
    requires { (reason : ℕ) × FailsFor (answer_of answer.now) reason }
    ensures { IfOk result (TellsReason (declaration_of held.now) (text_of meant.now) t (ask_of ask.now).asked
        (answer_of answer.now)) }
{
    let Some(reason) = answer.reason else {
        return Ok(Cause::Object);
    };
    let rules = rules_of_declaration(alloc, held)?;
    Ok(Cause::Reason(ReasonHeld {
        reason,
        causes: causes_of(alloc, &rules.rows, reason)?,
        object: object_judged(held, &rules, meant, t, ask),
    }))
}

/// The causes of the rows that have a reason, in the order of the rows.
fn causes_of(alloc: Global, rows: &[Row], reason: u32) -> Result<Vec<FailureCause>, AllocError>
    ensures { IfOk result (λ causes. causes.items ≡ causes_of (map row_of rows.now) reason) }
{
    let mut causes = Vec::new(alloc);
    let mut place = 0;
    'rows: while place < rows.len() {
        note(&mut causes, &rows[place], reason)?;
        place += 1;
    }
    Ok(causes)
}

/// Notes the cause of a row, where the row has this reason.
fn note(causes: &mut Vec<FailureCause>, row: &Row, reason: u32) -> Result<(), AllocError>
    ensures { OnOk result (causes.new.items ≡ causes.old.items ++ one_if (row_of row.now).cause
        ((row_of row.now).reason == reason)) }
{
    if row.reason == reason {
        causes.push(row.cause)?;
    }
    Ok(())
}

/// The object that is meant, as an operation on it is judged; none where the operation isn't on an object, or where no object is there.
pub(crate) fn object_judged(
    held: &Declaration,
    rules: &Rules,
    meant: &Option<String>,
    t: i64,
    ask: &Ask,
) -> Option<StateHeld>
    requires { rules_of rules.now ≡ rules_declared (declaration_of held.now) }
    ensures { TellsObject (declaration_of held.now) (text_of meant.now) t (ask_of ask.now).asked result }
{
    let Some(act) = act_asked(ask) else {
        return None;
    };
    let Some(entry) = object_held(held, meant) else {
        return None;
    };
    Some(state_judged(rules, act, dates_in(&entry.attrs), t))
}

/// An object of these dates, as an operation on it is judged at a moment.
fn state_judged(rules: &Rules, act: Act, dates: DatesHeld, t: i64) -> StateHeld
    ensures act { result.act ≡ act }
    ensures dates { result.dates ≡ dates }
    ensures state { result.state ≡ state (dates_told dates) t }
    ensures allow { result.allow ≡ allows (rules_of rules.now).allow_lines act result.state }
    ensures by_line { result.by_line ≡ has_line (rules_of rules.now).allow_lines act result.state }
{
    let lines = rules.allow_lines.as_slice();
    let state = state_at(&life_with(dates), t);
    StateHeld {
        act,
        state,
        allow: allows(lines, act, state),
        by_line: has_line(lines, act, state),
        dates,
    }
}

/// Whether a line of the server's own is for an operation in a state.
fn has_line(lines: &[AllowLine], act: Act, state: State) -> bool
    ensures { result ≡ has_line lines.now act state }
{
    lines.iter().any(|line| is_line_of(act, state, line))
}

fn is_line_of(act: Act, state: State, line: &AllowLine) -> bool
    ensures { result ≡ is_line_of act state line.now }
{
    line.act.number() == act.number() && line.state.number() == state.number()
}
