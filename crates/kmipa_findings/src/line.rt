//! Places in a line, each of which can be taken out and put back.

use std::alloc::{AllocError, Global};

/// The places below a number, or some of them, linked in an order. The number itself stands at both ends.
#[derive(Drop)]
pub(crate) struct Line {
    after: Vec<usize>,
    before: Vec<usize>,
}

impl Line {
    /// These places, of so many, in this order.
    pub(crate) fn new(alloc: Global, count: usize, order: &[usize]) -> Result<Line, AllocError> {
        let mut line = Line {
            after: all_of(alloc, count)?,
            before: all_of(alloc, count)?,
        };
        let mut last = count;
        'order: for place in order {
            line.link(last, *place);
            last = *place;
        }
        line.link(last, count);
        Ok(line)
    }

    fn link(&mut self, one: usize, other: usize) {
        put(&mut self.after, one, other);
        put(&mut self.before, other, one);
    }

    /// The place behind this one; the first one behind the number of all.
    pub(crate) fn after(&self, place: usize) -> usize {
        at(&self.after, place)
    }

    /// Takes a place out.
    pub(crate) fn take(&mut self, place: usize) {
        let one = at(&self.before, place);
        let other = at(&self.after, place);
        self.link(one, other);
    }

    /// Puts the place back that was taken out last.
    pub(crate) fn put_back(&mut self, place: usize) {
        let one = at(&self.before, place);
        let other = at(&self.after, place);
        put(&mut self.after, one, place);
        put(&mut self.before, other, place);
    }
}

/// Places that are linked to the end alone.
fn all_of(alloc: Global, count: usize) -> Result<Vec<usize>, AllocError> {
    let mut places = Vec::new(alloc);
    'places: for _ in 0..count {
        places.push(count)?;
    }
    places.push(count)?;
    Ok(places)
}

fn at(places: &[usize], place: usize) -> usize {
    match places.get(place) {
        Some(other) => *other,
        None => place,
    }
}

fn put(places: &mut Vec<usize>, place: usize, other: usize) {
    if place < places.len() {
        places[place] = other;
    }
}
