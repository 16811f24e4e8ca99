//! Copies of messages, with the same lent identifiers and bytes.

ghost use Rattle.std.specs.Prelude.{◌≡◌, IfOk, map};
ghost use Rattle.std.specs.Option.{option_map};
ghost use Rattle.kmipa_msgs.specs.Messages.{lent, payload_of};

use crate::request::{
    Activate, Ask, Asked, Create, Destroy, Get, GetAttributes, Locate, Register, Revoke,
};
use crate::response::{Answer, GotAttributes, Located, Payload, Response};
use std::alloc::{AllocError, Global};

impl<'a> Ask<'a> {
    ghost use Rattle.std.specs.Prelude.{◌≡◌, IfOk};
    ghost use Rattle.kmipa_msgs.specs.Messages.{ask_of};

    /// An equal item of a request.
    pub fn copy(&self, alloc: Global) -> Result<Ask<'a>, AllocError>
        ensures { IfOk result (λ copy. ask_of copy ≡ ask_of self.now) }
    {
        Ok(Ask {
            batch_id: self.batch_id,
            asked: self.asked.copy(alloc)?,
        })
    }
}

impl<'a> Asked<'a> {
    ghost use Rattle.std.specs.Prelude.{◌≡◌, IfOk};
    ghost use Rattle.kmipa_msgs.specs.Messages.{asked_of, maybe_lent};
    ghost use Rattle.kmipa_msgs.specs.Named.{asked_naming};

    /// An equal ask.
    pub fn copy(&self, alloc: Global) -> Result<Asked<'a>, AllocError>
        ensures { IfOk result (λ copy. asked_of copy ≡ asked_of self.now) }
    {
        self.naming(alloc, self.id())
    }

    /// The same ask of another object: of the one with this identifier, or of the one that the ID Placeholder holds.
    pub fn naming(&self, alloc: Global, id: Option<&'a str>) -> Result<Asked<'a>, AllocError>
        ensures { IfOk result (λ copy. asked_of copy ≡ asked_naming (maybe_lent id.entry) (asked_of self.now)) }
    {
        match self {
            Asked::Create(create) => Ok(Asked::Create(Create {
                attributes: Box::new(alloc, create.attributes.copy(alloc)?)?,
            })),
            Asked::Register(register) => Ok(Asked::Register(Register {
                object_type: register.object_type,
                attributes: Box::new(alloc, register.attributes.copy(alloc)?)?,
                block: register.block,
            })),
            Asked::Locate(locate) => Ok(Asked::Locate(locate.copy(alloc)?)),
            Asked::Get(_) => Ok(Asked::Get(Get { id })),
            Asked::GetAttributes(get) => Ok(Asked::GetAttributes(GetAttributes {
                id,
                references: get.references.clone()?,
                is_selective: get.is_selective,
                has_others: get.has_others,
            })),
            Asked::Activate(_) => Ok(Asked::Activate(Activate { id })),
            Asked::Revoke(revoke) => Ok(Asked::Revoke(Revoke {
                id,
                code: revoke.code,
            })),
            Asked::Destroy(_) => Ok(Asked::Destroy(Destroy { id })),
            Asked::Idle(number) => Ok(Asked::Idle(*number)),
            Asked::Other(number) => Ok(Asked::Other(*number)),
        }
    }
}

impl Locate {
    ghost use Rattle.std.specs.Prelude.{◌≡◌, IfOk};
    ghost use Rattle.kmipa_msgs.specs.Messages.{locate_of};

    /// An equal Locate.
    pub fn copy(&self, alloc: Global) -> Result<Locate, AllocError>
        ensures { IfOk result (λ copy. locate_of copy ≡ locate_of self.now) }
    {
        Ok(Locate {
            filter: Box::new(alloc, self.filter.copy(alloc)?)?,
        })
    }
}

impl<'a> Response<'a> {
    ghost use Rattle.std.specs.Prelude.{◌≡◌, IfOk};
    ghost use Rattle.kmipa_msgs.specs.Messages.{response_of};

    /// An equal response.
    pub fn copy(&self, alloc: Global) -> Result<Response<'a>, AllocError>
        ensures { IfOk result (λ copy. response_of copy ≡ response_of self.now) }
    {
        let mut items = Vec::with_capacity(alloc, self.items.len())?;
        for answer in &self.items {
            items.push(answer.copy(alloc)?)?;
        }
        Ok(Response {
            stamp: self.stamp,
            items,
        })
    }
}

impl<'a> Answer<'a> {
    ghost use Rattle.std.specs.Prelude.{◌≡◌, IfOk};
    ghost use Rattle.kmipa_msgs.specs.Messages.{answer_of};

    /// An equal answer.
    pub fn copy(&self, alloc: Global) -> Result<Answer<'a>, AllocError>
        ensures { IfOk result (λ copy. answer_of copy ≡ answer_of self.now) }
    {
        Ok(Answer {
            operation: self.operation,
            batch_id: self.batch_id,
            status: self.status,
            reason: self.reason,
            payload: copy_payload(alloc, &self.payload)?,
        })
    }
}

impl<'a> Payload<'a> {
    ghost use Rattle.std.specs.Prelude.{◌≡◌, IfOk};
    ghost use Rattle.kmipa_msgs.specs.Messages.{payload_of};

    fn copy(&self, alloc: Global) -> Result<Payload<'a>, AllocError>
        ensures { IfOk result (λ copy. payload_of copy ≡ payload_of self.now) }
    {
        match self {
            Payload::Create(created) => Ok(Payload::Create(*created)),
            Payload::Register(registered) => Ok(Payload::Register(*registered)),
            Payload::Locate(located) => Ok(Payload::Locate(Located {
                ids: copy_ids(alloc, &located.ids)?,
            })),
            Payload::Get(got) => Ok(Payload::Get(*got)),
            Payload::GetAttributes(got) => Ok(Payload::GetAttributes(GotAttributes {
                id: got.id,
                attributes: Box::new(alloc, got.attributes.copy(alloc)?)?,
            })),
            Payload::Change(changed) => Ok(Payload::Change(*changed)),
        }
    }
}

/// The same identifiers.
fn copy_ids<'a>(alloc: Global, ids: &Vec<&'a str>) -> Result<Vec<&'a str>, AllocError>
    ensures { IfOk result (λ copy. map lent copy.items ≡ map lent ids.now.items) }
{
    let mut copy = Vec::with_capacity(alloc, ids.len())?;
    for id in ids {
        copy.push(*id)?;
    }
    Ok(copy)
}

fn copy_payload<'a>(
    alloc: Global,
    payload: &Option<Payload<'a>>,
) -> Result<Option<Payload<'a>>, AllocError>
    ensures { IfOk result (λ copy. option_map payload_of copy ≡ option_map payload_of payload.now) }
{
    match payload {
        Some(payload) => Ok(Some(payload.copy(alloc)?)),
        None => Ok(None),
    }
}
