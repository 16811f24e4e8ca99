//! Which case of judging an item is.

ghost use Rattle.std.specs.Prelude.{◌≡◌, ◌&&◌, ◌==◌, cond};
ghost use Rattle.std.specs.List.{list_any};
ghost use Rattle.kmipa_msgs.specs.Messages.{answer_of, ask_of, asked_of, rules_of};
ghost use Rattle.kmipa_ops.specs.Rows.{effect_asked, subject_asked};
ghost use Rattle.kmipa_passed.specs.Leaving.{held_of};
ghost use Rattle.kmipa_aside.specs.Becoming.{stand_in};
ghost use Rattle.kmipa_aside.specs.Cases.{case, is_failed, is_for_names, is_taken_name, may_be_taken, says_taken};
ghost use Rattle.kmipa_aside.specs.Standing.{is_aside};
ghost use Rattle.kmipa_aside.specs.Does.{is_change, is_done_change};

use crate::aims::aim;
use crate::case::Case;
use crate::standing::is_aside;
use kmipa_msgs::{Answer, Ask, Asked, Cause, Row, Rules, Status};
use kmipa_ops::{Effect, Subject, row_of};
use kmipa_passed::Held;
use kmipa_store::Ledger;

/// Which case of judging an item is, where the ID Placeholder held this.
pub fn case_of<'p, L: Ledger>(
    ledger: &L,
    rules: &Rules,
    before: Held<'p>,
    ask: &'p Ask<'p>,
    answer: &'p Answer<'p>,
) -> Case
    ensures { result ≡ case (rules_of rules.now) (stand_in (L.state ledger.now).now) (held_of before.entry)
        (ask_of ask.now) (answer_of answer.now) }
{
    if ledger.is_over() {
        return Case::Over;
    }
    match aim(before, ask, answer) {
        Held::Holds(id) => case_about(ledger, id),
        Held::Empty => case_of_none(ledger, rules, ask, answer),
        Held::Unknown => Case::AboutUnknown,
    }
}

fn case_about<L: Ledger>(ledger: &L, id: &str) -> Case
    ensures { result ≡ cond (is_aside (stand_in (L.state ledger.now).now) id.now) Case.AboutAside Case.AsEver }
{
    if is_aside(ledger, id) {
        Case::AboutAside
    } else {
        Case::AsEver
    }
}

/// The case of an item that is about no object that is there.
fn case_of_none<L: Ledger>(ledger: &L, rules: &Rules, ask: &Ask, answer: &Answer) -> Case
    ensures { result ≡ cond (may_be_taken (rules_of rules.now) (stand_in (L.state ledger.now).now) (ask_of ask.now)
        (answer_of answer.now)) Case.NameMayBeTaken Case.AsEver }
{
    if may_be_taken(ledger, rules, ask, answer) {
        Case::NameMayBeTaken
    } else {
        Case::AsEver
    }
}

/// Whether a new object was refused for a name, and something is set aside that may have it.
fn may_be_taken<L: Ledger>(ledger: &L, rules: &Rules, ask: &Ask, answer: &Answer) -> bool
    ensures { result ≡ may_be_taken (rules_of rules.now) (stand_in (L.state ledger.now).now) (ask_of ask.now)
        (answer_of answer.now) }
{
    is_failed(answer.status)
        && is_for_names(&ask.asked)
        && ledger.is_any_aside()
        && says_taken(rules, answer.reason)
}

pub(crate) fn is_failed(status: Status) -> bool
    ensures { result ≡ is_failed status }
{
    match status {
        Status::Failed => true,
        Status::Success | Status::Undone => false,
    }
}

/// Whether an item asks for a new object.
fn is_for_names(asked: &Asked) -> bool
    ensures { result ≡ is_for_names (subject_asked (asked_of asked.now)) }
{
    match row_of(asked).subject {
        Subject::Names(_) => true,
        Subject::Object(_, _, _) | Subject::Nothing => false,
    }
}

/// Whether a row says of a reason that a name is taken.
pub(crate) fn says_taken(rules: &Rules, reason: Option<u32>) -> bool
    ensures { result ≡ says_taken (rules_of rules.now).rows reason }
{
    match reason {
        Some(reason) => any_taken(rules.rows.as_slice(), reason),
        None => false,
    }
}

fn any_taken(rows: &[Row], reason: u32) -> bool
    ensures { result ≡ list_any (λ (row : Row). (row.reason == reason) && is_taken_name row.cause) rows.now }
{
    rows.iter()
        .any(|row| row.reason == reason && is_taken_name(row.cause))
}

pub(crate) fn is_taken_name(cause: Cause) -> bool
    ensures { result ≡ is_taken_name cause }
{
    match cause {
        Cause::TakenName => true,
        Cause::WrongState | Cause::NotFound => false,
    }
}

/// Whether a change of an object was done.
pub(crate) fn is_done_change(ask: &Ask, answer: &Answer) -> bool
    ensures { result ≡ is_done_change (ask_of ask.now) (answer_of answer.now) }
{
    !is_failed(answer.status) && is_change(&ask.asked)
}

fn is_change(asked: &Asked) -> bool
    ensures { result ≡ is_change (effect_asked (asked_of asked.now)) }
{
    match row_of(asked).effect {
        Effect::Changes(_) => true,
        _ => false,
    }
}
