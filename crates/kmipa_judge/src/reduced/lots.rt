//! What of each call is searched.

use super::items::{Part, parts_of};
use super::reading::Seen;
use super::scope::Scope;
use super::shape::{is_shaped, lacks_failure};
use kmipa_msgs::read_request;
use kmipa_places::{Call, Readable};
use std::alloc::{AllocError, Global};

/// What of a call is searched.
#[derive(Drop)]
pub(crate) enum Lot {
    /// Nothing.
    Nothing,
    /// The call as it was recorded.
    Whole,
    /// These of its items.
    Parts(Vec<Part>),
}

/// What of each of these calls is searched.
pub(crate) fn lots_of<'a>(
    alloc: Global,
    scope: Scope<'_, 'a>,
    calls: &[Seen<'a>],
) -> Result<Vec<Lot>, AllocError> {
    let mut lots = Vec::with_capacity(alloc, calls.len())?;
    'calls: for call in calls {
        lots.push(lot_of(alloc, scope, call)?)?;
    }
    Ok(lots)
}

fn lot_of<'a>(alloc: Global, scope: Scope<'_, 'a>, call: &Seen<'a>) -> Result<Lot, AllocError> {
    if !call.has_ended() {
        return Ok(lot_of_open(alloc, scope, call));
    }
    if scope.suspects.has_call(call.recorded.number) {
        return Ok(Lot::Nothing);
    }
    match &call.said {
        Call::Unread(_) => Ok(Lot::Nothing),
        Call::Read(said) => lot_of_read(alloc, scope, call, said),
    }
}

/// An open call is searched where its request is judged, and all objects are searched.
fn lot_of_open(alloc: Global, scope: Scope, call: &Seen) -> Lot {
    match &call.request {
        Some(request) if scope.only.is_none() && read_request(alloc, request).is_ok() => Lot::Whole,
        _ => Lot::Nothing,
    }
}

/// A call that can be read. One that was refused as a whole is always possible, and one whose answers haven't the shape of its batch never is.
fn lot_of_read<'a>(
    alloc: Global,
    scope: Scope<'_, 'a>,
    call: &Seen<'a>,
    said: &Readable<'a>,
) -> Result<Lot, AllocError> {
    if said.refused || !is_shaped(said) {
        return Ok(Lot::Nothing);
    }
    let parts = parts_of(
        alloc,
        scope,
        call.recorded.number,
        call.recorded.begin,
        said,
    )?;
    if parts.is_empty() || lacks_failure(said, &parts) {
        Ok(Lot::Nothing)
    } else if is_whole(said, &parts) {
        Ok(Lot::Whole)
    } else {
        Ok(Lot::Parts(parts))
    }
}

/// Whether these are all items of a call, and none is shortened.
fn is_whole(call: &Readable, parts: &[Part]) -> bool {
    'parts: for part in parts {
        if part.shortened {
            return false;
        }
    }
    parts.len() == call.places.len()
}
