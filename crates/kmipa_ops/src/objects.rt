//! The object that an item is about.

ghost use Rattle.std.specs.Prelude.{◌≡◌, ◌<◌, IfSome, length};
ghost use Rattle.kmipa_object.specs.Inventory.{card_of, live};
ghost use Rattle.kmipa_object.specs.Allowances.{allows};
ghost use Rattle.kmipa_msgs.specs.Messages.{maybe_lent, rules_of};
ghost use Rattle.kmipa_ops.specs.Meant.{is_not, place_about, place_meant};
ghost use Rattle.kmipa_ops.specs.Placeholders.{placeholder_of};
ghost use Rattle.kmipa_ops.specs.Subjects.{subject_of};

use crate::operation_row::Subject;
use crate::placeholder::Placeholder;
use kmipa_msgs::Rules;
use kmipa_object::{Act, Allow, Object, State, allows};
use kmipa_store::Ledger;

/// The place of the object that is meant, where an identifier is meant and an object has it.
pub(crate) fn place_meant<L: Ledger>(ledger: &L, about: Option<&str>) -> Option<usize>
    ensures place { result ≡ place_meant (L.state ledger.now).now.objects (maybe_lent about.entry) }
    ensures within { IfSome result (λ place. place < length (L.state ledger.now).now.objects) }
{
    match about {
        Some(id) => ledger.find(id),
        None => None,
    }
}

/// The place of the object that a refusal is judged by.
pub(crate) fn place_about<L: Ledger>(
    ledger: &L,
    placeholder: &Placeholder,
    subject: Subject<'_>,
) -> Option<usize>
    ensures place { result ≡ place_about (L.state ledger.now).now.objects (placeholder_of placeholder.now)
        (subject_of subject.entry) }
    ensures within { IfSome result (λ place. place < length (L.state ledger.now).now.objects) }
{
    match subject {
        Subject::Object(id, _, _) => place_meant(ledger, placeholder.meant(id)),
        Subject::Names(_) | Subject::Nothing => None,
    }
}

/// What the rules say of an operation in a state.
pub(crate) fn allowance(rules: &Rules, act: Act, state: State) -> Allow
    ensures { result ≡ allows (rules_of rules.now).allow_lines act state }
{
    allows(rules.allow_lines.as_slice(), act, state)
}

/// Whether the rules exclude an operation in a state.
pub(crate) fn is_excluded(rules: &Rules, act: Act, state: State) -> bool
    ensures { result ≡ is_not (allows (rules_of rules.now).allow_lines act state) }
{
    match allowance(rules, act, state) {
        Allow::Not => true,
        Allow::Must | Allow::May => false,
    }
}

/// Whether an object isn't destroyed.
pub(crate) fn is_live(object: &Object) -> bool
    ensures { result ≡ live (card_of object.now) }
{
    object.life.destroy.is_none()
}
