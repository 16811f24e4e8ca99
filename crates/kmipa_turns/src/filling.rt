//! Fills and births of a turn, over the two sides of its call.

ghost use Rattle.std.specs.Prelude.{◌≡◌, IfOk, MatchResult, map};
ghost use Rattle.kmipa_msgs.specs.Messages.{ask_of, request_of, response_of};
ghost use Rattle.kmipa_record.specs.Witnesses.{birth_of, fill_of};
ghost use Rattle.kmipa_check.specs.Bearing.{BirthsRefused};
ghost use Rattle.kmipa_check.specs.Fills.{IsFilled};
ghost use Rattle.kmipa_check.specs.Filling.{FillsRefused};
ghost use Rattle.kmipa_check.specs.Grants.{grants_of};
ghost use Rattle.kmipa_turns.specs.Turning.{AreBorn};

use kmipa_check::{
    FirstPlaces, Grants, StepFault, WitnessKind, are_wanted, born_in, filled, none_missing,
};
use kmipa_msgs::{Ask, Request, Response};
use kmipa_record::{Birth, Fill};
use std::alloc::{AllocError, Global};

/// The response with these fills put in.
pub fn filled_in<'a>(
    alloc: Global,
    request: &Request,
    response: &Response<'a>,
    fills: &'a [Fill],
) -> Result<Response<'a>, StepFault>
    ensures { MatchResult result
        (λ full. IsFilled (request_of request.now) (response_of response.now) (map fill_of fills.now)
        (response_of full))
        (FillsRefused (request_of request.now) (response_of response.now) (map fill_of fills.now)) }
{
    let places = FirstPlaces::of(alloc, fills)?;
    if !are_wanted(request, response, fills, &places) {
        return Err(StepFault::Unfit(WitnessKind::FillNotWanted));
    }
    if !none_missing(request, response, fills, &places) {
        return Err(StepFault::Unfit(WitnessKind::FillMissing));
    }
    filled(alloc, request, response, fills)
}

/// The items of the request with these births put in.
pub fn born_asks<'a>(
    alloc: Global,
    grants: &Grants,
    request: &Request<'a>,
    response: &Response,
    births: &[Birth],
) -> Result<Vec<Ask<'a>>, StepFault>
    ensures { MatchResult result
        (λ asks. AreBorn (grants_of grants.now) (request_of request.now) (response_of response.now)
        (map birth_of births.now) (map ask_of asks.items))
        (BirthsRefused (grants_of grants.now) (request_of request.now) (response_of response.now)
        (map birth_of births.now)) }
{
    match born_in(alloc, grants, request, response, births) {
        Ok(posed) => Ok(copy_asks(alloc, posed.request().items.as_slice())?),
        Err(fault) => Err(fault),
    }
}

/// Equal asks.
fn copy_asks<'a>(alloc: Global, asks: &[Ask<'a>]) -> Result<Vec<Ask<'a>>, AllocError>
    ensures { IfOk result (λ copies. map ask_of copies.items ≡ map ask_of asks.now) }
{
    let mut copies = Vec::with_capacity(alloc, asks.len())?;
    for ask in asks {
        copies.push(ask.copy(alloc)?)?;
    }
    Ok(copies)
}
