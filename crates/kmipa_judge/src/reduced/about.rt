//! What is impossible about one object.

ghost use Rattle.kmipa_record.specs.Declarations.{AreDeclared, declaration_of};

use super::lots::{Lot, lots_of};
use super::recording::{Reduction, reduced_transcript};
use super::round::Search;
use super::scope::Scope;
use super::suspects::{Suspect, Suspects};
use kmipa_check::Refused;
use kmipa_findings::{Finding, Outcome, Unpaced, judge};
use kmipa_trail::Fault;
use std::alloc::{AllocError, Global};

/// So many calls are tried at most, to find what is impossible about one object.
const FEW: u64 = 20_000;

/// Suspects what is impossible about an object: the items that are found so where the calls about it are judged alone, or all of it. Whether any of that wasn't
/// suspected before.
pub(crate) fn suspect_about(
    alloc: Global,
    search: Search,
    suspects: &mut Suspects,
    object: String,
) -> Result<bool, Fault>
    requires { AreDeclared (declaration_of search.declaration.now) }
{
    let found = suspects_about(alloc, search, suspects, object.as_str())?;
    let mut is_new = false;
    'found: for suspect in &found {
        if suspects.add_item(*suspect)? {
            is_new = true;
        }
    }
    if is_new {
        return Ok(true);
    }
    if suspects.has_object(object.as_str()) {
        return Ok(false);
    }
    suspects.add_object(object)?;
    Ok(true)
}

/// The items that are found impossible where the calls about an object are judged alone.
fn suspects_about<'x>(
    alloc: Global,
    search: Search<'x, '_>,
    suspects: &'x Suspects,
    object: &'x str,
) -> Result<Vec<Suspect>, Fault>
    requires { AreDeclared (declaration_of search.declaration.now) }
{
    let scope = Scope {
        names: search.names,
        suspects,
        only: Some(object),
    };
    let lots = lots_of(alloc, scope, search.calls)?;
    let reduction = Reduction {
        scope,
        calls: search.calls,
        places: search.places,
        lots: &lots,
    };
    let reduced = reduced_transcript(alloc, reduction, search.transcript)?;
    let outcome = judge(alloc, &reduced, search.declaration, FEW, &mut Unpaced {})?;
    let findings = match &outcome {
        Outcome::Judged(judged) => judged.findings.as_slice(),
        Outcome::Undecided(undecided) => undecided.findings.as_slice(),
    };
    Ok(suspects_of(alloc, reduction, findings)?)
}

/// The items of these findings, by their places in the whole calls.
fn suspects_of(
    alloc: Global,
    reduction: Reduction,
    findings: &[Finding],
) -> Result<Vec<Suspect>, AllocError> {
    let mut suspects = Vec::with_capacity(alloc, findings.len())?;
    'findings: for finding in findings {
        suspects.push(suspect_of(reduction, finding.refused))?;
    }
    Ok(suspects)
}

/// The item that is refused of a call of which some items were searched, or the whole call.
pub(crate) fn suspect_of(reduction: Reduction, refused: Refused) -> Suspect {
    Suspect {
        call: refused.call,
        place: place_of(reduction, refused.call, refused.item),
    }
}

/// The place of an item in the whole call, from 0, for its number among those that were searched; none for the whole call.
fn place_of(reduction: Reduction, call: i32, item: usize) -> Option<usize> {
    let place = item.checked_sub(1)?;
    let stands = reduction.places.place(call)?;
    match reduction.lots.get(stands)? {
        Lot::Parts(parts) => Some(parts.get(place)?.place),
        Lot::Nothing | Lot::Whole => Some(place),
    }
}
