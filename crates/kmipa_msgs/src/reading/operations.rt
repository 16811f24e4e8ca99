//! The lists of the operations whose payloads are read.

ghost use Rattle.kmipa_ttlv.specs.ViewTree.{view_trees};
ghost use Rattle.kmipa_msgs.specs.Messages.{asked_of, payload_of};
ghost use Rattle.kmipa_msgs.specs.Asks.{asked_in};
ghost use Rattle.kmipa_msgs.specs.Beside.{asked_beside};
ghost use Rattle.kmipa_msgs.specs.Payloads.{done_in};
ghost use Rattle.kmipa_msgs.specs.Yields.{Yields};

use crate::kind::OutsideKind;
use crate::operation::Operation;
use crate::reading::activate::read_activate;
use crate::reading::create::read_create;
use crate::reading::destroy::read_destroy;
use crate::reading::get::{read_get, read_got};
use crate::reading::get_attributes::{
    has_others, is_selective, read_get_attributes, read_got_attributes, read_references,
};
use crate::reading::identifier::read_changed;
use crate::reading::locate::{read_locate, read_located};
use crate::reading::register::{read_register, read_registered};
use crate::reading::revoke::read_revoke;
use crate::reading::rows::unless_there;
use crate::reading::unread::Unread;
use crate::request::{Activate, Asked, Destroy, Get, GetAttributes, Revoke};
use crate::response::Payload;
use kmipa_attrs::fields::{enumeration_at, inside};
use kmipa_attrs::tags::{KEY_WRAPPING_SPECIFICATION, REVOCATION_REASON, REVOCATION_REASON_CODE};
use kmipa_ttlv::Children;
use std::alloc::Global;

/// What the children of a Request Payload ask for.
pub fn read_asked<'a>(
    alloc: Global,
    operation: Operation,
    payload: Children<'a>,
) -> Result<Asked<'a>, Unread>
    ensures { Yields asked_of result (asked_in operation (view_trees payload.entry)) }
{
    match operation {
        Operation::Create => Ok(Asked::Create(read_create(alloc, payload)?)),
        Operation::Register => Ok(Asked::Register(read_register(alloc, payload)?)),
        Operation::Locate => Ok(Asked::Locate(read_locate(alloc, payload)?)),
        Operation::Get => Ok(Asked::Get(read_get(payload)?)),
        Operation::GetAttributes => Ok(Asked::GetAttributes(read_get_attributes(alloc, payload)?)),
        Operation::Activate => Ok(Asked::Activate(read_activate(payload)?)),
        Operation::Revoke => Ok(Asked::Revoke(read_revoke(payload)?)),
        Operation::Destroy => Ok(Asked::Destroy(read_destroy(payload)?)),
        Operation::Idle(number) => Ok(Asked::Idle(number)),
        Operation::Other(number) => Ok(Asked::Other(number)),
    }
}

/// What the children of a Request Payload ask for of the object that the ID Placeholder holds: its identifier isn't read. No other operation is on an object.
pub fn read_asked_beside<'a>(
    alloc: Global,
    operation: Operation,
    payload: Children,
) -> Result<Asked<'a>, Unread>
    ensures { Yields asked_of result (asked_beside operation (view_trees payload.entry)) }
{
    match operation {
        Operation::Get => {
            unless_there(payload, KEY_WRAPPING_SPECIFICATION, OutsideKind::Wrapped)?;
            Ok(Asked::Get(Get { id: None }))
        }
        Operation::GetAttributes => Ok(Asked::GetAttributes(GetAttributes {
            id: None,
            references: read_references(alloc, payload)?,
            is_selective: is_selective(payload),
            has_others: has_others(payload),
        })),
        Operation::Activate => Ok(Asked::Activate(Activate { id: None })),
        Operation::Revoke => {
            let reason = inside(payload, REVOCATION_REASON);
            let code = enumeration_at(reason, REVOCATION_REASON_CODE);
            Ok(Asked::Revoke(Revoke {
                id: None,
                code: code.needed(OutsideKind::Missing, OutsideKind::Missing)?,
            }))
        }
        Operation::Destroy => Ok(Asked::Destroy(Destroy { id: None })),
        Operation::Create
        | Operation::Register
        | Operation::Locate
        | Operation::Idle(_)
        | Operation::Other(_) => Err(Unread::Outside(OutsideKind::Missing)),
    }
}

/// What the children of a payload answer to an operation.
pub fn read_done<'a>(
    alloc: Global,
    operation: Operation,
    payload: Children<'a>,
) -> Result<Payload<'a>, Unread>
    ensures { Yields payload_of result (done_in operation (view_trees payload.entry)) }
{
    match operation {
        Operation::Create => Ok(Payload::Create(read_registered(payload)?)),
        Operation::Register => Ok(Payload::Register(read_registered(payload)?)),
        Operation::Locate => Ok(Payload::Locate(read_located(alloc, payload)?)),
        Operation::Get => Ok(Payload::Get(read_got(payload)?)),
        Operation::GetAttributes => Ok(Payload::GetAttributes(read_got_attributes(
            alloc, payload,
        )?)),
        Operation::Activate | Operation::Revoke | Operation::Destroy => {
            Ok(Payload::Change(read_changed(payload)?))
        }
        Operation::Idle(_) | Operation::Other(_) => Err(Unread::Outside(OutsideKind::Missing)),
    }
}
