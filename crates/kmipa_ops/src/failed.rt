//! Failed answers: which of their reasons are founded.

ghost use Rattle.std.specs.Prelude.{◌≡◌, ◌<◌, ◌&&◌, ◌==◌, IfSome, length, map, not};
ghost use Rattle.std.specs.List.{list_any};
ghost use Rattle.kmipa_attrs.specs.Sets.{name_of};
ghost use Rattle.kmipa_object.specs.Allowances.{allows};
ghost use Rattle.kmipa_store.specs.Ledger.{cards_of};
ghost use Rattle.kmipa_msgs.specs.Messages.{maybe_lent, rules_of};
ghost use Rattle.kmipa_ops.specs.Founded.{founded_of, has_cause, has_row, holds_about, holds_of, holds_named, is_live_there, is_must, is_of_nothing, is_refusable};
ghost use Rattle.kmipa_ops.specs.Meant.{place_about, place_meant};
ghost use Rattle.kmipa_ops.specs.Objects.{card_meant};
ghost use Rattle.kmipa_ops.specs.Placeholders.{placeholder_of};
ghost use Rattle.kmipa_ops.specs.Subjects.{subject_of};

use crate::names::any_named;
use crate::objects::{allowance, is_live};
use crate::operation_row::Subject;
use crate::placeholder::Placeholder;
use kmipa_attrs::Name;
use kmipa_msgs::{Cause, Row, Rules};
use kmipa_object::{Act, Allow, State};
use kmipa_store::Ledger;

/// Whether a failed answer's reason is founded.
pub(crate) fn is_founded<L: Ledger>(
    ledger: &L,
    rules: &Rules,
    placeholder: &Placeholder,
    place: Option<usize>,
    subject: Subject<'_>,
    reason: Option<u32>,
) -> bool
    requires place { place ≡ place_about (L.state ledger.now).now.objects (placeholder_of placeholder.now)
        (subject_of subject) }
    requires within { IfSome place (λ p. p < length (L.state ledger.now).now.objects) }
    ensures { result ≡ founded_of (rules_of rules.now) (cards_of (L.state ledger.now).now.objects)
        (placeholder_of placeholder.now) (L.moment ledger.now) (subject_of subject.entry) reason }
{
    match reason {
        Some(reason) => {
            !has_row(rules, reason)
                || is_of_nothing(placeholder, subject)
                || has_cause(ledger, rules, placeholder, place, subject, reason)
        }
        None => true,
    }
}

fn has_row(rules: &Rules, reason: u32) -> bool
    ensures { result ≡ has_row (rules_of rules.now) reason }
{
    any_reason(rules.rows.as_slice(), reason)
}

fn any_reason(rows: &[Row], reason: u32) -> bool
    ensures { result ≡ list_any (λ (row : Row). row.reason == reason) rows.now }
{
    rows.iter().any(|row| row.reason == reason)
}

fn is_of_nothing(placeholder: &Placeholder, subject: Subject<'_>) -> bool
    ensures { result ≡ is_of_nothing (placeholder_of placeholder.now) (subject_of subject.entry) }
{
    match subject {
        Subject::Object(id, _, _) => placeholder.meant(id).is_none(),
        Subject::Names(_) | Subject::Nothing => false,
    }
}

/// Whether a row has this reason, and its cause holds.
fn has_cause<L: Ledger>(
    ledger: &L,
    rules: &Rules,
    placeholder: &Placeholder,
    place: Option<usize>,
    subject: Subject<'_>,
    reason: u32,
) -> bool
    requires place { place ≡ place_about (L.state ledger.now).now.objects (placeholder_of placeholder.now)
        (subject_of subject) }
    requires within { IfSome place (λ p. p < length (L.state ledger.now).now.objects) }
    ensures { result ≡ has_cause (rules_of rules.now) (cards_of (L.state ledger.now).now.objects)
        (placeholder_of placeholder.now) (L.moment ledger.now) (subject_of subject.entry) reason }
{
    any_cause(ledger, rules, placeholder, place, subject, reason)
}

fn any_cause<L: Ledger>(
    ledger: &L,
    rules: &Rules,
    placeholder: &Placeholder,
    place: Option<usize>,
    subject: Subject<'_>,
    reason: u32,
) -> bool
    requires place { place ≡ place_about (L.state ledger.now).now.objects (placeholder_of placeholder.now)
        (subject_of subject) }
    requires within { IfSome place (λ p. p < length (L.state ledger.now).now.objects) }
    ensures { result ≡ list_any
        (λ (row : Row). (row.reason == reason) && holds_of (rules_of rules.now) (cards_of (L.state ledger.now).now.objects)
        (placeholder_of placeholder.now) (L.moment ledger.now) (subject_of subject.entry) row.cause) rules.now.rows.items }
{
    for row in &rules.rows {
        if row.reason == reason && holds_of(ledger, rules, placeholder, place, subject, row.cause) {
            return true;
        }
    }
    false
}

/// Whether the cause holds. Where it isn't judged for the operation, it counts as holding.
fn holds_of<L: Ledger>(
    ledger: &L,
    rules: &Rules,
    placeholder: &Placeholder,
    place: Option<usize>,
    subject: Subject<'_>,
    cause: Cause,
) -> bool
    requires place { place ≡ place_about (L.state ledger.now).now.objects (placeholder_of placeholder.now)
        (subject_of subject) }
    requires within { IfSome place (λ p. p < length (L.state ledger.now).now.objects) }
    ensures { result ≡ holds_of (rules_of rules.now) (cards_of (L.state ledger.now).now.objects) (placeholder_of placeholder.now)
        (L.moment ledger.now) (subject_of subject.entry) cause }
{
    match subject {
        Subject::Object(id, act, unjudged) => {
            unjudged || holds_about(ledger, rules, place, placeholder.meant(id), act, cause)
        }
        Subject::Names(names) => holds_named(ledger, names, cause),
        Subject::Nothing => true,
    }
}

/// Whether a cause for refusing an operation on the object at this place holds.
fn holds_about<L: Ledger>(
    ledger: &L,
    rules: &Rules,
    place: Option<usize>,
    about: Option<&str>,
    act: Act,
    cause: Cause,
) -> bool
    requires place { place ≡ place_meant (L.state ledger.now).now.objects (maybe_lent about) }
    requires within { IfSome place (λ p. p < length (L.state ledger.now).now.objects) }
    ensures { result ≡ holds_about (rules_of rules.now) (cards_of (L.state ledger.now).now.objects) (maybe_lent about.entry)
        (L.moment ledger.now) act cause }
{
    match cause {
        Cause::NotFound => !is_live_there(ledger, place, about),
        Cause::WrongState => is_refusable(ledger, rules, place, about, act),
        Cause::TakenName => true,
    }
}

/// Whether a cause for refusing an object of these names holds.
fn holds_named<L: Ledger>(ledger: &L, names: &[Name], cause: Cause) -> bool
    ensures { result ≡ holds_named (cards_of (L.state ledger.now).now.objects) (map name_of names.now) cause }
{
    match cause {
        Cause::TakenName => any_named(ledger, names),
        Cause::NotFound | Cause::WrongState => true,
    }
}

fn is_live_there<L: Ledger>(ledger: &L, place: Option<usize>, about: Option<&str>) -> bool
    requires place { place ≡ place_meant (L.state ledger.now).now.objects (maybe_lent about) }
    requires within { IfSome place (λ p. p < length (L.state ledger.now).now.objects) }
    ensures { result ≡ is_live_there (card_meant (cards_of (L.state ledger.now).now.objects) (maybe_lent about.entry)) }
{
    match place {
        Some(place) => is_live(ledger.at(place)),
        None => false,
    }
}

/// Whether the object is there, and its state lets the operation be refused.
fn is_refusable<L: Ledger>(
    ledger: &L,
    rules: &Rules,
    place: Option<usize>,
    about: Option<&str>,
    act: Act,
) -> bool
    requires place { place ≡ place_meant (L.state ledger.now).now.objects (maybe_lent about) }
    requires within { IfSome place (λ p. p < length (L.state ledger.now).now.objects) }
    ensures { result ≡ is_refusable (rules_of rules.now) act (L.moment ledger.now)
        (card_meant (cards_of (L.state ledger.now).now.objects) (maybe_lent about.entry)) }
{
    match place {
        Some(place) => is_doubted(rules, act, ledger.state(place)),
        None => false,
    }
}

fn is_doubted(rules: &Rules, act: Act, state: State) -> bool
    ensures { result ≡ not (is_must (allows (rules_of rules.now).allow_lines act state)) }
{
    match allowance(rules, act, state) {
        Allow::Must => false,
        Allow::May | Allow::Not => true,
    }
}
