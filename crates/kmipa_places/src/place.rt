//! A place of a call.

ghost use Rattle.std.specs.Prelude.{◌≡◌, IfOk, option_map};
ghost use Rattle.kmipa_ttlv.specs.ViewTree.{view_tree};
ghost use Rattle.kmipa_places.specs.Places.{place_of};
ghost use Rattle.kmipa_places.specs.Readings.{place_in, way_in, way_of};

use crate::item::operation_at;
use crate::outcomes::outcome_at;
use crate::passed::{is_poll, read_passed};
use crate::told::read_told;
use kmipa_aside::Passed;
use kmipa_msgs::{Answer, Ask, Unread, read_answer};
use kmipa_ttlv::View;
use std::alloc::{AllocError, Global};

/// By what a place is passed: the first of these.
#[derive(Clone, Copy, PartialEq, Eq)]
pub enum By {
    /// Its request isn't judged.
    Request,
    /// Its answer isn't.
    Answer,
    /// The witness sets it aside.
    Witness,
}

/// An item of a request, and its answer.
#[derive(Drop)]
pub enum Place<'a> {
    /// As both say.
    Judged(Ask<'a>, Answer<'a>),
    /// It isn't judged.
    Passed(By, Passed<'a>),
}

/// How a place is to be read.
#[derive(Drop)]
pub(crate) enum Way<'a> {
    Judged(Ask<'a>, Answer<'a>),
    Passed(By),
}

/// The place of these two items, of a request with or without order, that the witness sets aside or not. None where the status of the answer can't
/// be read.
pub(crate) fn read_place<'a>(
    alloc: Global,
    unordered: bool,
    aside: bool,
    item: &View<'a>,
    answer: &View<'a>,
) -> Result<Option<Place<'a>>, AllocError>
    ensures { IfOk result (λ p. option_map place_of p
        ≡ place_in unordered aside (view_tree item.now) (view_tree answer.now)) }
{
    let Some(outcome) = outcome_at(answer) else {
        return Ok(None);
    };
    match read_way(alloc, unordered, aside, item, answer)? {
        Way::Judged(ask, answer) => Ok(Some(Place::Judged(ask, answer))),
        Way::Passed(by) => {
            let passed = read_passed(alloc, unordered, outcome, item, answer)?;
            Ok(Some(Place::Passed(by, passed)))
        }
    }
}

/// How a place is to be read: the first by which it is passed, else what is judged of it.
pub(crate) fn read_way<'a>(
    alloc: Global,
    unordered: bool,
    aside: bool,
    item: &View<'a>,
    answer: &View<'a>,
) -> Result<Way<'a>, AllocError>
    ensures { IfOk result (λ w. way_of w ≡ way_in unordered aside (view_tree item.now) (view_tree answer.now)) }
{
    if is_poll(operation_at(item)) {
        return Ok(Way::Passed(By::Request));
    }
    let ask = match read_told(alloc, unordered, item) {
        Ok(ask) => ask,
        Err(Unread::Outside(_)) => return Ok(Way::Passed(By::Request)),
        Err(Unread::Memory) => return Err(AllocError),
    };
    match read_answer(alloc, Some(&ask), answer) {
        Ok(_) if aside => Ok(Way::Passed(By::Witness)),
        Ok(answer) => Ok(Way::Judged(ask, answer)),
        Err(Unread::Outside(_)) => Ok(Way::Passed(By::Answer)),
        Err(Unread::Memory) => Err(AllocError),
    }
}
