//! By what steps are judged that are tried.

use crate::calls::step_of;
use kmipa_aside::Owned;
use kmipa_check::Grants;
use kmipa_msgs::{Rules, Visibility};
use kmipa_record::{Declaration, Turn};
use kmipa_trail::{Fault, own_births, owners_at_first};
use kmipa_turns::{Recorded, Step};
use std::alloc::{AllocError, Global};

/// The rules of a server, and whose the objects are, where clients may not see those of others: also those that are born later. What is proposed is checked, so
/// that nothing hangs on that.
#[derive(Clone, Copy)]
pub(crate) struct Basis<'r, 'o> {
    pub rules: &'r Rules,
    pub owners: &'o [Owned<'o>],
}

/// Whose the objects are that are declared, or born by these steps.
pub(crate) fn owners_behind<'a>(
    alloc: Global,
    declaration: &'a Declaration,
    steps: &[Step<'a>],
) -> Result<Vec<Owned<'a>>, AllocError> {
    let visibility = declaration.settings.visibility;
    let mut owners = owners_at_first(alloc, visibility, &declaration.entries)?;
    if visibility == Visibility::Everyone {
        return Ok(owners);
    }
    'steps: for step in steps {
        own_births(alloc, visibility, &mut owners, step)?;
    }
    Ok(owners)
}

/// Whose the objects are that are declared, or born by these turns, each of the call at its place.
pub(crate) fn owners_along<'a>(
    alloc: Global,
    declaration: &'a Declaration,
    calls: &[Option<Recorded<'a>>],
    turns: &'a [Turn],
) -> Result<Vec<Owned<'a>>, Fault> {
    let visibility = declaration.settings.visibility;
    let mut owners = owners_at_first(alloc, visibility, &declaration.entries)?;
    if visibility == Visibility::Everyone {
        return Ok(owners);
    }
    let grants = Grants::of(declaration);
    'turns: for (call, turn) in calls.iter().zip(turns.iter()) {
        let Some(call) = call else {
            continue;
        };
        if let Some(step) = step_of(alloc, &grants, call, turn)? {
            own_births(alloc, visibility, &mut owners, &step)?;
        }
    }
    Ok(owners)
}
