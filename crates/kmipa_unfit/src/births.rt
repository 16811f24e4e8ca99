//! The births that a turn gives: which isn't wanted, and which isn't of its form.

ghost use Rattle.std.specs.Prelude.{◌≡◌, IfOk, map};
ghost use Rattle.kmipa_msgs.specs.Messages.{RequestOf, ResponseOf, request_of, response_of};
ghost use Rattle.kmipa_record.specs.Witnesses.{birth_of};
ghost use Rattle.kmipa_check.specs.Births.{AreBirthsWanted, IsMisformed, SomeMisformed};
ghost use Rattle.kmipa_check.specs.Deciding.{Decided};
ghost use Rattle.kmipa_check.specs.Grants.{grants_of};
ghost use Rattle.kmipa_unfit.specs.UnfitBirths.{IsFormlessBirth, items_born};
ghost use Rattle.kmipa_unfit.specs.UnfitParts.{IsUnwantedPart};
ghost use Rattle.kmipa_unfit.specs.declared.explanation.Part.TheVariants as parts;

use crate::explanation::{FormlessBirth, Part, UnwantedPart};
use crate::parts::unwanted_part;
use kmipa_check::{Grants, StepFault, read_birth};
use kmipa_msgs::{Request, Response};
use kmipa_record::Birth;
use std::alloc::{AllocError, Global};

/// The first birth that isn't wanted.
pub fn unwanted_birth(
    alloc: Global,
    request: &Request,
    response: &Response,
    births: &[Birth],
) -> Result<UnwantedPart, AllocError>
    requires { AreBirthsWanted (request_of request.now) (response_of response.now) (map birth_of births.now) → ⊥ }
    ensures { IfOk result (IsUnwantedPart parts.Birth (request_of request.now) (response_of response.now)
        (items_born (map birth_of births.now))) }
{
    let items = birth_items(alloc, births)?;
    Ok(unwanted_part(request, response, &items, Part::Birth))
}

/// The items that the births name.
fn birth_items(alloc: Global, births: &[Birth]) -> Result<Vec<i32>, AllocError>
    ensures { IfOk result (λ items. items.items ≡ items_born (map birth_of births.now)) }
{
    let mut items = Vec::new(alloc);
    for birth in births {
        items.push(birth.item)?;
    }
    Ok(items)
}

/// The first birth that isn't of its form.
pub fn formless_birth(
    alloc: Global,
    grants: &Grants,
    births: &[Birth],
) -> Result<FormlessBirth, AllocError>
    requires { SomeMisformed (grants_of grants.now) (map birth_of births.now) }
    ensures { (request : RequestOf) (response : ResponseOf) → AreBirthsWanted request response (map birth_of births.now)
        → IfOk result (IsFormlessBirth (grants_of grants.now) request response (map birth_of births.now)) }
{
    let mut at = 0;
    'births: while at < births.len() {
        let birth = &births[at];
        let misformed = is_misformed(alloc, grants, birth)?;
        if misformed {
            return Ok(FormlessBirth {
                birth: at + 1,
                item: birth.item,
            });
        }
        at += 1;
    }
    Ok(FormlessBirth { birth: 0, item: 0 })
}

/// Whether a birth gives no attributes that the server itself may give.
fn is_misformed(alloc: Global, grants: &Grants, birth: &Birth) -> Result<bool, AllocError>
    ensures { IfOk result (λ misformed. Decided misformed (IsMisformed (grants_of grants.now) (birth_of birth.now))) }
{
    match read_birth(alloc, grants, birth) {
        Ok(set) => {
            drop(set);
            Ok(false)
        }
        Err(StepFault::Unfit(_)) => Ok(true),
        Err(StepFault::Memory) => Err(AllocError),
    }
}
