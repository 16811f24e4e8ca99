//! Items that ask for an operation, whatever else.

ghost use Rattle.std.specs.Prelude.{◌≡◌, IfOk, option_map};
ghost use Rattle.kmipa_msgs.specs.Messages.{ask_of, asked_of, operation_asked};
ghost use Rattle.kmipa_places.specs.Openings.{AsksJudged};

use kmipa_attrs::{AttrSet, Filter, ObjectType};
use kmipa_msgs::{
    Activate, Ask, Asked, Create, Destroy, Get, GetAttributes, KeyBlock, KeyFormat, Locate,
    Operation, Register, Revoke,
};
use std::alloc::{AllocError, Global};

/// Some item that asks for this operation; none where it isn't judged.
pub(crate) fn ask_for<'a>(
    alloc: Global,
    operation: Operation,
) -> Result<Option<Ask<'a>>, AllocError>
    ensures { IfOk result (λ ask. AsksJudged operation (option_map ask_of ask)) }
{
    let asked = match operation {
        Operation::Create => create(alloc)?,
        Operation::Register => register(alloc)?,
        Operation::Locate => locate(alloc)?,
        Operation::Get => Asked::Get(Get { id: None }),
        Operation::GetAttributes => get_attributes(alloc),
        Operation::Activate => Asked::Activate(Activate { id: None }),
        Operation::Revoke => Asked::Revoke(Revoke { id: None, code: 0 }),
        Operation::Destroy => Asked::Destroy(Destroy { id: None }),
        Operation::Idle(_) | Operation::Other(_) => return Ok(None),
    };
    Ok(Some(Ask {
        batch_id: None,
        asked,
    }))
}

fn create<'a>(alloc: Global) -> Result<Asked<'a>, AllocError>
    ensures { IfOk result (λ asked. operation_asked (asked_of asked) ≡ Operation.Create) }
{
    Ok(Asked::Create(Create {
        attributes: Box::new(alloc, AttrSet::new(alloc))?,
    }))
}

fn register<'a>(alloc: Global) -> Result<Asked<'a>, AllocError>
    ensures { IfOk result (λ asked. operation_asked (asked_of asked) ≡ Operation.Register) }
{
    Ok(Asked::Register(Register {
        object_type: ObjectType::SymmetricKey,
        attributes: Box::new(alloc, AttrSet::new(alloc))?,
        block: KeyBlock {
            format: KeyFormat::Raw,
            material: &[],
            algorithm: None,
            length: None,
        },
    }))
}

fn locate<'a>(alloc: Global) -> Result<Asked<'a>, AllocError>
    ensures { IfOk result (λ asked. operation_asked (asked_of asked) ≡ Operation.Locate) }
{
    let nothing = AttrSet::new(alloc);
    let filter = Filter {
        names: nothing.names,
        object_type: None,
        state: None,
        algorithm: None,
        length: None,
        maximum: None,
        is_loose: false,
    };
    Ok(Asked::Locate(Locate {
        filter: Box::new(alloc, filter)?,
    }))
}

fn get_attributes<'a>(alloc: Global) -> Asked<'a>
    ensures { operation_asked (asked_of result) ≡ Operation.GetAttributes }
{
    Asked::GetAttributes(GetAttributes {
        id: None,
        references: Vec::new(alloc),
        is_selective: false,
        has_others: false,
    })
}
