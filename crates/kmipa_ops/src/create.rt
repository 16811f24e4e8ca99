//! Create.

ghost use Rattle.std.specs.Prelude.{◌≡◌, None, Some, find, option_and_then, option_map};
ghost use Rattle.kmipa_attrs.specs.Sets.{attributes_of};
ghost use Rattle.kmipa_attrs.specs.declared.object_type.ObjectType.TheVariants.{SymmetricKey};
ghost use Rattle.kmipa_store.specs.Ledger.{cards_of};
ghost use Rattle.kmipa_msgs.specs.Messages.{creates, payload_of, registered_of, rules_of};
ghost use Rattle.kmipa_ops.specs.After.{LeavesAfter};
ghost use Rattle.kmipa_ops.specs.Placeholders.{placeholder_of};
ghost use Rattle.kmipa_ops.specs.Whys.{whys};
ghost use Rattle.kmipa_ops.specs.Adding.{with_own, newborn};
ghost use Rattle.kmipa_ops.specs.Create.{seen_created, create_speaks};

use crate::adding::{Newborn, add, why_not_added};
use crate::deed::{Before, Deed};
use crate::operation_row::{Effect, New, OperationRow, Subject};
use crate::placeholder::Placeholder;
use crate::why::Why;
use kmipa_attrs::{AttrSet, ObjectType};
use kmipa_msgs::{Create, Payload, Registered, Rules};
use kmipa_object::Rule;
use kmipa_store::Ledger;
use std::alloc::{AllocError, Global};

impl Deed for Create {
    ghost asked = { λ create. creates (attributes_of create.attributes.value) };

    fn is_of(&self, payload: &Payload) -> bool {
        match payload {
            Payload::Create(_) => true,
            _ => false,
        }
    }

    fn may_lack(&self) -> bool {
        false
    }

    fn is_idle(&self) -> bool {
        false
    }

    fn row(&self) -> OperationRow<'_> {
        OperationRow {
            subject: Subject::Names(self.attributes.names.as_slice()),
            effect: Effect::Makes(New {
                kind: ObjectType::SymmetricKey,
                attributes: &self.attributes,
                block: None,
            }),
        }
    }

    fn holds<'p>(&self, held: Option<&'p str>, payload: &Option<Payload<'p>>) -> Option<&'p str> {
        match shown(payload) {
            Some(created) => Some(created.id),
            None => held,
        }
    }

    fn why_not_done<L: Ledger>(
        &self,
        _alloc: Global,
        ledger: &L,
        before: Before<'_>,
        payload: &Option<Payload>,
    ) -> Result<Option<Why>, AllocError> {
        match shown(payload) {
            Some(created) => Ok(why_not_created(ledger, before.rules, &self.attributes, created)),
            None => Ok(None),
        }
    }

    fn leave<L: Ledger>(
        &self,
        alloc: Global,
        ledger: &mut L,
        placeholder: &mut Placeholder,
        _place: Option<usize>,
        payload: &Option<Payload>,
    ) -> Result<(), AllocError> {
        match shown(payload) {
            Some(created) => create(alloc, ledger, placeholder, &self.attributes, created.id),
            None => Ok(()),
        }
    }
}

/// What a payload shows, if it is one of a Create.
fn shown<'b, 'a>(payload: &'b Option<Payload<'a>>) -> Option<&'b Registered<'a>>
    ensures { option_map (λ x. registered_of x.now) result
        ≡ option_and_then seen_created (option_map payload_of payload.now) }
{
    match payload {
        Some(Payload::Create(created)) => Some(created),
        _ => None,
    }
}

/// The lowest reason against a Create of a key with these attributes that is done.
pub(crate) fn why_not_created<L: Ledger>(
    ledger: &L,
    rules: &Rules,
    attributes: &AttrSet,
    created: &Registered,
) -> Option<Why>
    ensures { result ≡ find
        (create_speaks (rules_of rules.now) (cards_of (L.state ledger.now).now.objects) (attributes_of attributes.now)
        (registered_of created.now)) whys }
{
    let rule = Rule::of(ObjectType::SymmetricKey, attributes);
    why_not_added(
        ledger,
        rules,
        ObjectType::SymmetricKey,
        attributes.names.as_slice(),
        rule.is_possible(),
        created,
    )
}

/// Adds the key of a Create against which nothing speaks, and the placeholder holds its identifier.
pub(crate) fn create<L: Ledger>(
    alloc: Global,
    ledger: &mut L,
    placeholder: &mut Placeholder,
    attributes: &AttrSet,
    id: &str,
) -> Result<(), AllocError>
    ensures { LeavesAfter (L.state ledger.old)
        (with_own (L.state ledger.old).now
        (newborn (L.moment ledger.old) id.now SymmetricKey (attributes_of attributes.now)) None) (Some id.now) result
        (L.state ledger.new) (placeholder_of placeholder.new) }
{
    let newborn = Newborn {
        id,
        kind: ObjectType::SymmetricKey,
        attributes: attributes.copy(alloc)?,
        material: None,
    };
    add(alloc, ledger, placeholder, newborn)
}
