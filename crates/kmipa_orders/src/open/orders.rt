//! The orders of the items of a batch without order.

use crate::candidate::Candidate;
use kmipa_batch::{is_refused_message, is_unordered};
use kmipa_msgs::{BatchOption, Status};
use std::alloc::{AllocError, Global};

/// The orders in which the items of a call are tried, one after the other: by place, and then the others in the order of dictionaries.
#[derive(Drop)]
pub struct Orders {
    /// The places of the items, counted from 1, in the order that is tried now.
    places: Vec<i32>,
    /// So many of them, from the front, may change their order.
    loose: usize,
    is_by_place: bool,
}

impl Orders {
    /// Those of a call, by place now; none where its items are taken by place alone.
    pub fn of(alloc: Global, call: &Candidate) -> Result<Option<Orders>, AllocError> {
        if !is_unordered(call.request) || is_refused_message(call.response) {
            return Ok(None);
        }
        let count = call.request.items.len().min(call.response.items.len());
        let loose = if ends_failed(call) {
            count.saturating_sub(1)
        } else {
            count
        };
        Ok(Some(Orders {
            places: first_places(alloc, count)?,
            loose,
            is_by_place: true,
        }))
    }

    /// The next order; or there is none.
    pub fn next(&mut self) -> bool {
        self.is_by_place = false;
        let count = self.loose.min(self.places.len());
        next_order(&mut self.places[0..count])
    }

    /// The places as a turn gives them: none by place.
    pub fn places(&self, alloc: Global) -> Result<Vec<i32>, AllocError> {
        if self.is_by_place {
            return Ok(Vec::new(alloc));
        }
        Vec::from_slice(alloc, &self.places)
    }
}

/// Whether the failure of an item ended the batch: then it was done last.
fn ends_failed(call: &Candidate) -> bool {
    if call.request.option == BatchOption::Continue {
        return false;
    }
    match call.response.items.last() {
        Some(answer) => answer.status == Status::Failed,
        None => false,
    }
}

/// The numbers from 1 on, so many.
fn first_places(alloc: Global, count: usize) -> Result<Vec<i32>, AllocError> {
    let mut places = Vec::new(alloc);
    'places: for place in 0..count {
        places.push(i32::try_from(place).unwrap_or(0).saturating_add(1))?;
    }
    Ok(places)
}

/// The next order of these in the order of dictionaries; or this is the last one.
fn next_order(places: &mut [i32]) -> bool {
    let Some(pivot) = last_rise(places) else {
        return false;
    };
    let above = last_above(places, pivot);
    if pivot < places.len() && above < places.len() {
        places.swap(pivot, above);
        places[pivot + 1..].reverse();
    }
    true
}

/// The last place whose number is below the one after it.
fn last_rise(places: &[i32]) -> Option<usize> {
    let mut place = places.len();
    'places: while place > 1 {
        place -= 1;
        if places[place - 1] < places[place] {
            return Some(place - 1);
        }
    }
    None
}

/// The last place whose number is above the one at the pivot.
fn last_above(places: &[i32], pivot: usize) -> usize {
    let mut place = places.len();
    'places: while place > pivot {
        place -= 1;
        if pivot < places.len() && places[place] > places[pivot] {
            return place;
        }
    }
    pivot
}
