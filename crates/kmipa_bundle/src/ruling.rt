//! Whether a place is judged.

ghost use Rattle.std.specs.Prelude.{◌≡◌};
ghost use Rattle.kmipa_msgs.specs.Messages.{rules_of};
ghost use Rattle.kmipa_passed.specs.Leaving.{held_of};
ghost use Rattle.kmipa_aside.specs.Becoming.{stand_in};
ghost use Rattle.kmipa_places.specs.Places.{place_of};
ghost use Rattle.kmipa_bundle.specs.Counts.{if_asked, ruling_by, ruling_of, ruling_passed};

use kmipa_aside::{Case, case_of};
use kmipa_msgs::{Operation, Rules};
use kmipa_passed::Held;
use kmipa_places::{By, Place, is_judged_operation};
use kmipa_store::Ledger;

/// Whether a place is judged, or by what it isn't.
#[derive(Clone, Copy, PartialEq, Eq)]
pub enum Ruling {
    /// Its request isn't judged, or asks for no operation that is.
    ByRequest,
    /// Its answer isn't.
    ByAnswer,
    /// The witness sets it aside.
    ByWitness,
    /// It is about what is set aside, or nobody can tell about what.
    ByObject,
    /// It is judged.
    Judged,
}

/// Whether a place is judged, where the ID Placeholder held this.
pub(crate) fn ruling_of<'p, L: Ledger>(
    ledger: &L,
    rules: &Rules,
    before: Held<'p>,
    place: &'p Place<'p>,
) -> Ruling
    ensures { result ≡ ruling_of (rules_of rules.now) (stand_in (L.state ledger.now).now) (held_of before.entry)
        (place_of place.now) }
{
    match place {
        Place::Judged(ask, answer) => {
            let ruling = ruling_by(case_of(ledger, rules, before, ask, answer));
            if_asked(ask.operation(), ruling)
        }
        Place::Passed(by, passed) => if_asked(Operation::of(passed.asks), ruling_passed(*by)),
    }
}

/// An item that asks for none of the operations that are judged counts by its request, whatever else.
fn if_asked(operation: Operation, ruling: Ruling) -> Ruling
    ensures { result ≡ if_asked operation ruling }
{
    if is_judged_operation(operation) {
        ruling
    } else {
        Ruling::ByRequest
    }
}

fn ruling_by(case: Case) -> Ruling
    ensures { result ≡ ruling_by case }
{
    match case {
        Case::Over | Case::AboutAside | Case::AboutUnknown => Ruling::ByObject,
        Case::NameMayBeTaken | Case::AsEver => Ruling::Judged,
    }
}

fn ruling_passed(by: By) -> Ruling
    ensures { result ≡ ruling_passed by }
{
    match by {
        By::Request => Ruling::ByRequest,
        By::Answer => Ruling::ByAnswer,
        By::Witness => Ruling::ByWitness,
    }
}
