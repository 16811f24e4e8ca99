//! Register.

ghost use Rattle.std.specs.Prelude.{◌≡◌, IfOk, Some, find, option_and_then, option_map};
ghost use Rattle.kmipa_attrs.specs.Sets.{attributes_of};
ghost use Rattle.kmipa_object.specs.Inventory.{given_of, rule_for};
ghost use Rattle.kmipa_store.specs.Ledger.{cards_of};
ghost use Rattle.kmipa_msgs.specs.Messages.{lent, payload_of, register_of, registered_of, registers, rules_of};
ghost use Rattle.kmipa_ops.specs.After.{LeavesAfter};
ghost use Rattle.kmipa_ops.specs.Placeholders.{placeholder_of};
ghost use Rattle.kmipa_ops.specs.Whys.{whys};
ghost use Rattle.kmipa_ops.specs.Adding.{with_own, newborn};
ghost use Rattle.kmipa_ops.specs.Register.{seen_registered, register_speaks, brought, either_of};

use crate::adding::{Newborn, add, why_not_added};
use crate::deed::{Before, Deed};
use crate::operation_row::{Effect, New, OperationRow, Subject};
use crate::placeholder::Placeholder;
use crate::why::Why;
use kmipa_attrs::AttrSet;
use kmipa_msgs::{Payload, Register, Registered, Rules};
use kmipa_object::Rule;
use kmipa_store::Ledger;
use std::alloc::{AllocError, Global};

impl<'a> Deed for Register<'a> {
    ghost asked = { λ register. registers (register_of register) };

    fn is_of(&self, payload: &Payload) -> bool {
        match payload {
            Payload::Register(_) => true,
            _ => false,
        }
    }

    fn may_lack(&self) -> bool {
        false
    }

    fn is_idle(&self) -> bool {
        false
    }

    fn row(&self) -> OperationRow<'_> {
        OperationRow {
            subject: Subject::Names(self.attributes.names.as_slice()),
            effect: Effect::Makes(New {
                kind: self.object_type,
                attributes: &self.attributes,
                block: Some(self.block),
            }),
        }
    }

    fn holds<'p>(&self, held: Option<&'p str>, payload: &Option<Payload<'p>>) -> Option<&'p str> {
        match shown(payload) {
            Some(registered) => Some(registered.id),
            None => held,
        }
    }

    fn why_not_done<L: Ledger>(
        &self,
        alloc: Global,
        ledger: &L,
        before: Before<'_>,
        payload: &Option<Payload>,
    ) -> Result<Option<Why>, AllocError> {
        match shown(payload) {
            Some(registered) => Ok(why_not_registered(
                alloc,
                ledger,
                before.rules,
                self,
                registered,
            )),
            None => Ok(None),
        }
    }

    fn leave<L: Ledger>(
        &self,
        alloc: Global,
        ledger: &mut L,
        placeholder: &mut Placeholder,
        _place: Option<usize>,
        payload: &Option<Payload>,
    ) -> Result<(), AllocError> {
        match shown(payload) {
            Some(registered) => register(alloc, ledger, placeholder, self, registered.id),
            None => Ok(()),
        }
    }
}

/// What a payload shows, if it is one of a Register.
fn shown<'b, 'a>(payload: &'b Option<Payload<'a>>) -> Option<&'b Registered<'a>>
    ensures { option_map (λ x. registered_of x.now) result
        ≡ option_and_then seen_registered (option_map payload_of payload.now) }
{
    match payload {
        Some(Payload::Register(registered)) => Some(registered),
        _ => None,
    }
}

/// The lowest reason against a Register that is done.
pub(crate) fn why_not_registered<L: Ledger>(
    alloc: Global,
    ledger: &L,
    rules: &Rules,
    register: &Register,
    registered: &Registered,
) -> Option<Why>
    ensures { result ≡ find
        (register_speaks (rules_of rules.now) (cards_of (L.state ledger.now).now.objects) (register_of register.now)
        (registered_of registered.now)) whys }
{
    let rule = rule_of(alloc, register);
    why_not_added(
        ledger,
        rules,
        register.object_type,
        register.attributes.names.as_slice(),
        rule.admits(register.block.material),
        registered,
    )
}

/// What the bytes of the new object must be.
fn rule_of(alloc: Global, register: &Register) -> Rule
    ensures { result ≡ rule_for register.now.object_type (given_of (brought (register_of register.now))) }
{
    let judged = AttrSet {
        algorithm: either_number(register.attributes.algorithm, register.block.algorithm),
        length: either_length(register.attributes.length, register.block.length),
        ..AttrSet::new(alloc)
    };
    Rule::of(register.object_type, &judged)
}

fn either_number(own: Option<u32>, other: Option<u32>) -> Option<u32>
    ensures { result ≡ either_of own other }
{
    match own {
        Some(number) => Some(number),
        None => other,
    }
}

fn either_length(own: Option<i32>, other: Option<i32>) -> Option<i32>
    ensures { result ≡ either_of own other }
{
    match own {
        Some(length) => Some(length),
        None => other,
    }
}

/// Adds the object of a Register against which nothing speaks, and the placeholder holds its identifier.
pub(crate) fn register<L: Ledger>(
    alloc: Global,
    ledger: &mut L,
    placeholder: &mut Placeholder,
    register: &Register,
    id: &str,
) -> Result<(), AllocError>
    ensures { LeavesAfter (L.state ledger.old)
        (with_own (L.state ledger.old).now
        (newborn (L.moment ledger.old) id.now register.now.object_type (brought (register_of register.now)))
        (Some (lent register.now.block.material))) (Some id.now) result (L.state ledger.new)
        (placeholder_of placeholder.new) }
{
    let newborn = Newborn {
        id,
        kind: register.object_type,
        attributes: brought(alloc, register)?,
        material: Some(register.block.material),
    };
    add(alloc, ledger, placeholder, newborn)
}

/// The attributes that a Register brings.
fn brought(alloc: Global, register: &Register) -> Result<AttrSet, AllocError>
    ensures { IfOk result (λ given. attributes_of given ≡ brought (register_of register.now)) }
{
    Ok(AttrSet {
        algorithm: either_number(register.attributes.algorithm, register.block.algorithm),
        length: either_length(register.attributes.length, register.block.length),
        ..register.attributes.copy(alloc)?
    })
}
