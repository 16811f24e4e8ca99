//! A recording of what is searched.

use super::lots::Lot;
use super::messages::with_parts;
use super::reading::Seen;
use super::scope::Scope;
use kmipa_check::FirstPlaces;
use kmipa_record::{Begin, End, Mark, Transcript};
use kmipa_ttlv::View;
use std::alloc::{AllocError, Global};

/// What of each call is searched, and where its number stands.
#[derive(Clone, Copy)]
pub(crate) struct Reduction<'r, 'n, 'a> {
    pub scope: Scope<'n, 'a>,
    pub calls: &'r [Seen<'a>],
    pub places: &'r FirstPlaces,
    pub lots: &'r [Lot],
}

/// The marks of a transcript, of the calls that are searched.
pub(crate) fn reduced_transcript(
    alloc: Global,
    reduction: Reduction,
    transcript: &Transcript,
) -> Result<Transcript, AllocError> {
    let mut marks = Vec::with_capacity(alloc, transcript.marks.len())?;
    'marks: for mark in &transcript.marks {
        if let Some(reduced) = reduced_mark(alloc, reduction, mark)? {
            marks.push(reduced)?;
        }
    }
    Ok(Transcript { marks, head: None })
}

/// A mark of a call that is searched.
fn reduced_mark(
    alloc: Global,
    reduction: Reduction,
    mark: &Mark,
) -> Result<Option<Mark>, AllocError> {
    match mark {
        Mark::Begin(begin) => reduced_begin(alloc, reduction, begin),
        Mark::End(end) => reduced_end(alloc, reduction, end),
    }
}

fn reduced_begin(
    alloc: Global,
    reduction: Reduction,
    begin: &Begin,
) -> Result<Option<Mark>, AllocError> {
    let Some((call, lot)) = found(reduction, begin.call) else {
        return Ok(None);
    };
    let message = reduced(alloc, reduction.scope, lot, &call.request, &begin.message)?;
    let Some(message) = message else {
        return Ok(None);
    };
    Ok(Some(Mark::Begin(Begin {
        call: begin.call,
        client: String::from_str(alloc, begin.client.as_str())?,
        message,
    })))
}

fn reduced_end(alloc: Global, reduction: Reduction, end: &End) -> Result<Option<Mark>, AllocError> {
    let Some((call, lot)) = found(reduction, end.call) else {
        return Ok(None);
    };
    let message = reduced(alloc, reduction.scope, lot, &call.response, &end.message)?;
    let Some(message) = message else {
        return Ok(None);
    };
    Ok(Some(Mark::End(End {
        call: end.call,
        message,
    })))
}

/// The call of this number, and what of it is searched.
fn found<'r, 'n, 'a>(
    reduction: Reduction<'r, 'n, 'a>,
    number: i32,
) -> Option<(&'r Seen<'a>, &'r Lot)> {
    let place = reduction.places.place(number)?;
    let call = reduction.calls.get(place)?;
    let lot = reduction.lots.get(place)?;
    Some((call, lot))
}

/// The bytes of a message of which this is searched. A message that can't be spelled otherwise stays as it is.
fn reduced<'a>(
    alloc: Global,
    scope: Scope<'_, 'a>,
    lot: &Lot,
    message: &Option<View<'a>>,
    bytes: &[u8],
) -> Result<Option<Vec<u8>>, AllocError> {
    match (lot, message) {
        (Lot::Nothing, _) => Ok(None),
        (Lot::Parts(parts), Some(message)) => match with_parts(alloc, scope, message, parts)? {
            Some(spelled) => Ok(Some(spelled)),
            None => Ok(Some(Vec::from_slice(alloc, bytes)?)),
        },
        _ => Ok(Some(Vec::from_slice(alloc, bytes)?)),
    }
}
