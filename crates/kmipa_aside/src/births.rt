//! New objects.

ghost use Rattle.std.specs.Prelude.{◌≡◌, ◌<◌, All, IfOk, option_map};
ghost use Rattle.kmipa_attrs.specs.Sets.{attributes_of};
ghost use Rattle.kmipa_msgs.specs.Messages.{answer_of, ask_of, asked_of, maybe_lent, payload_of};
ghost use Rattle.kmipa_ops.specs.Explains.{AreBytes};
ghost use Rattle.kmipa_ops.specs.Register.{either_of};
ghost use Rattle.kmipa_ops.specs.Subjects.{new_of};
ghost use Rattle.kmipa_aside.specs.Births.{attributes_born, birth_by, birth_in, birth_of, bytes_born, has_bytes};

use crate::birth::Birth;
use kmipa_attrs::{AttrSet, ObjectType};
use kmipa_msgs::{Answer, Ask, Asked, Payload, Status};
use kmipa_object::Rule;
use kmipa_ops::New;
use std::alloc::{AllocError, Global};

/// The new object that an item made, if it made one.
pub(crate) fn birth<'p>(ask: &'p Ask<'p>, answer: &'p Answer<'p>) -> Option<Birth<'p>>
    ensures { option_map birth_of result ≡ birth_by answer.now.status (ask_of ask.now).asked (answer_of answer.now).payload }
{
    match answer.status {
        Status::Success | Status::Undone => birth_in(&ask.asked, &answer.payload),
        Status::Failed => None,
    }
}

fn birth_in<'p>(asked: &'p Asked<'p>, payload: &'p Option<Payload<'p>>) -> Option<Birth<'p>>
    ensures { option_map birth_of result ≡ birth_in (asked_of asked.now) (option_map payload_of payload.now) }
{
    match (asked, payload) {
        (Asked::Create(create), Some(Payload::Create(created))) => Some(Birth {
            new: New {
                kind: ObjectType::SymmetricKey,
                attributes: &create.attributes,
                block: None,
            },
            answered: *created,
        }),
        (Asked::Register(register), Some(Payload::Register(registered))) => Some(Birth {
            new: New {
                kind: register.object_type,
                attributes: &register.attributes,
                block: Some(register.block),
            },
            answered: *registered,
        }),
        _ => None,
    }
}

/// The attributes of a new object.
pub(crate) fn attributes_born(alloc: Global, new: New) -> Result<AttrSet, AllocError>
    ensures { IfOk result (λ given. attributes_of given ≡ attributes_born (new_of new.entry)) }
{
    let given = new.attributes.copy(alloc)?;
    match new.block {
        Some(block) => Ok(AttrSet {
            algorithm: either_number(given.algorithm, block.algorithm),
            length: either_length(given.length, block.length),
            ..given
        }),
        None => Ok(given),
    }
}

fn either_number(own: Option<u32>, other: Option<u32>) -> Option<u32>
    ensures { result ≡ either_of own other }
{
    match own {
        Some(number) => Some(number),
        None => other,
    }
}

fn either_length(own: Option<i32>, other: Option<i32>) -> Option<i32>
    ensures { result ≡ either_of own other }
{
    match own {
        Some(length) => Some(length),
        None => other,
    }
}

/// Whether there are bytes for a new object: any that the rule admits, or those that it brings.
pub(crate) fn has_bytes(rule: Rule, material: Option<&[u8]>) -> bool
    ensures { result ≡ has_bytes rule (maybe_lent material.entry) }
{
    match material {
        Some(bytes) => rule.admits(bytes),
        None => rule.is_possible(),
    }
}

/// A fact and no step: what is brought are bytes.
pub(crate) fn brings_bytes(material: Option<&[u8]>)
    ensures { AreBytes (maybe_lent material.entry) }
{
    if let Some(bytes) = material {
        are_bytes(bytes);
    }
}

fn are_bytes(bytes: &[u8])
    ensures { All (λ b. b < 256) bytes.now }
{}
