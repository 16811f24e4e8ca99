//! The lists of the operations whose payloads are written.

ghost use Rattle.std.specs.Prelude.{◌≡◌, IfOk};
ghost use Rattle.kmipa_ttlv.specs.ItemTree.{tree};
ghost use Rattle.kmipa_msgs.specs.Messages.{asked_of, payload_of};
ghost use Rattle.kmipa_msgs.specs.Written.{written_asked, written_payload};

use super::activate::write_activate;
use super::create::write_create;
use super::destroy::write_destroy;
use super::fields::Fields;
use super::get::{write_get, write_got};
use super::get_attributes::{write_get_attributes, write_got_attributes};
use super::identifier::write_identifier;
use super::locate::{write_locate, write_located};
use super::register::{write_register, write_registered};
use super::revoke::write_revoke;
use crate::request::Asked;
use crate::response::Payload;
use kmipa_attrs::tags::{REQUEST_PAYLOAD, RESPONSE_PAYLOAD};
use kmipa_ttlv::Item;
use std::alloc::{AllocError, Global};

/// Request Payload.
pub(super) fn write_asked(alloc: Global, asked: &Asked) -> Result<Item, AllocError>
    ensures { IfOk result (λ item. tree item ≡ written_asked (asked_of asked.now)) }
{
    match asked {
        Asked::Create(create) => write_create(alloc, create),
        Asked::Register(register) => write_register(alloc, register),
        Asked::Locate(locate) => write_locate(alloc, locate),
        Asked::Get(get) => write_get(alloc, get),
        Asked::GetAttributes(get) => write_get_attributes(alloc, get),
        Asked::Revoke(revoke) => write_revoke(alloc, revoke),
        Asked::Activate(activate) => write_activate(alloc, activate),
        Asked::Destroy(destroy) => write_destroy(alloc, destroy),
        Asked::Idle(_) | Asked::Other(_) => Ok(Fields::new(alloc).structure(REQUEST_PAYLOAD)),
    }
}

/// Response Payload.
pub(super) fn write_payload(alloc: Global, payload: &Payload) -> Result<Item, AllocError>
    ensures { IfOk result (λ item. tree item ≡ written_payload (payload_of payload.now)) }
{
    match payload {
        Payload::Create(made) | Payload::Register(made) => write_registered(alloc, made),
        Payload::Locate(located) => write_located(alloc, located),
        Payload::Get(got) => write_got(alloc, got),
        Payload::GetAttributes(got) => write_got_attributes(alloc, got),
        Payload::Change(changed) => write_identifier(alloc, RESPONSE_PAYLOAD, changed.id),
    }
}
