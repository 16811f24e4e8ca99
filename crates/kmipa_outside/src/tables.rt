//! The demands of each operation.

ghost use Rattle.std.specs.Prelude.{◌≡◌, ◌++◌, IfOk};
ghost use Rattle.kmipa_outside.specs.Tables.{asked_demands, done_demands};

use crate::asked_demands::{
    create_demands, get_demands, identifier_demands, locate_demands, register_demands,
    revoke_demands,
};
use crate::demand::Demand;
use crate::done_demands::{
    got_attributes_demands, got_demands, located_demands, registered_demands,
};
use crate::shared_demands::{attribute_demands, block_demands, client_demands, filter_demands};
use kmipa_msgs::Operation;
use std::alloc::{AllocError, Global};

/// The demands of what an operation asks for, on the children of its Request Payload.
pub(crate) fn asked_demands(alloc: Global, operation: Operation) -> Result<Vec<Demand>, AllocError>
    ensures { IfOk result (λ demands. demands.items ≡ asked_demands operation) }
{
    match operation {
        Operation::Create => {
            let given = joined(alloc, &attribute_demands(), &client_demands())?;
            joined(alloc, &create_demands(), &given)
        }
        Operation::Register => {
            let given = joined(alloc, &attribute_demands(), &client_demands())?;
            let brought = joined(alloc, &block_demands(), &given)?;
            joined(alloc, &register_demands(), &brought)
        }
        Operation::Locate => joined(alloc, &locate_demands(), &filter_demands()),
        Operation::Get => Vec::from_slice(alloc, &get_demands()),
        Operation::Revoke => Vec::from_slice(alloc, &revoke_demands()),
        Operation::GetAttributes | Operation::Activate | Operation::Destroy => {
            Vec::from_slice(alloc, &identifier_demands())
        }
        Operation::Idle(_) | Operation::Other(_) => Ok(Vec::new(alloc)),
    }
}

/// The demands of what an operation shows, on the children of its Response Payload.
pub(crate) fn done_demands(alloc: Global, operation: Operation) -> Result<Vec<Demand>, AllocError>
    ensures { IfOk result (λ demands. demands.items ≡ done_demands operation) }
{
    match operation {
        Operation::Create | Operation::Register => Vec::from_slice(alloc, &registered_demands()),
        Operation::Locate => Vec::from_slice(alloc, &located_demands()),
        Operation::Get => joined(alloc, &got_demands(), &block_demands()),
        Operation::GetAttributes => {
            joined(alloc, &got_attributes_demands(), &attribute_demands())
        }
        Operation::Activate | Operation::Revoke | Operation::Destroy => {
            Vec::from_slice(alloc, &identifier_demands())
        }
        Operation::Idle(_) | Operation::Other(_) => Ok(Vec::new(alloc)),
    }
}

/// One list of demands behind another.
pub(crate) fn joined(
    alloc: Global,
    front: &[Demand],
    back: &[Demand],
) -> Result<Vec<Demand>, AllocError>
    ensures { IfOk result (λ demands. demands.items ≡ front.now ++ back.now) }
{
    let mut demands = Vec::from_slice(alloc, front)?;
    demands.extend_from_slice(back)?;
    Ok(demands)
}
