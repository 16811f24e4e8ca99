//! The calls that are left, and which of them may be next.

use crate::calls::Span;
use crate::line::Line;
use std::alloc::{AllocError, Global};

/// Which calls were tried where a search stands: those ahead of a place, and those of a lower rank.
#[derive(Clone, Copy)]
pub(crate) struct Tried {
    from: usize,
    rank: usize,
}

impl Tried {
    /// None was.
    pub(crate) fn none() -> Tried {
        Tried { from: 0, rank: 0 }
    }

    /// No more is to be tried.
    pub(crate) fn all() -> Tried {
        Tried {
            from: usize::MAX,
            rank: usize::MAX,
        }
    }
}

/// A call to try, and what was tried behind it.
#[derive(Clone, Copy)]
pub(crate) struct Pick {
    pub place: usize,
    pub tried: Tried,
}

/// The calls that are left: by their begin marks, by their end marks, and by their moments, where they have one.
#[derive(Drop)]
pub(crate) struct Left {
    spans: Vec<Span>,
    begins: Line,
    ends: Line,
    moments: Line,
}

/// The place of an end mark, and that of its call among all.
#[derive(Clone, Copy, PartialEq, Eq, PartialOrd, Ord)]
struct EndKey {
    end: usize,
    place: usize,
}

/// A moment, and the place of its call.
#[derive(Clone, Copy, PartialEq, Eq, PartialOrd, Ord)]
struct MomentKey {
    moment: i64,
    place: usize,
}

impl Left {
    /// All calls, in the order of their begin marks.
    pub(crate) fn new(alloc: Global, spans: Vec<Span>) -> Result<Left, AllocError> {
        let count = spans.len();
        let begins = Line::new(alloc, count, &all_places(alloc, count)?)?;
        let ends = Line::new(alloc, count, &places_by_end(alloc, &spans)?)?;
        let moments = Line::new(alloc, count, &places_by_moment(alloc, &spans)?)?;
        Ok(Left {
            spans,
            begins,
            ends,
            moments,
        })
    }

    /// The next call to try: of those that may be next, and weren't tried, the first one; or, by rank, the one of the least.
    pub(crate) fn next(&self, tried: Tried, by_rank: bool) -> Option<Pick> {
        let soonest = self.soonest();
        let least = self.least_moment();
        let mut best = None;
        let mut place = self.begins.after(self.spans.len());
        'places: for _ in 0..self.spans.len() {
            let Some(span) = self.spans.get(place) else {
                break;
            };
            if soonest < span.begin {
                break;
            }
            if is_open(span, place, tried, least) {
                best = self.better(best, place);
                if !by_rank {
                    break;
                }
            }
            place = self.begins.after(place);
        }
        self.picked(best, tried, by_rank)
    }

    /// The call at this place, and what was tried behind it.
    fn picked(&self, place: Option<usize>, tried: Tried, by_rank: bool) -> Option<Pick> {
        let place = place?;
        let tried = if by_rank {
            Tried {
                from: tried.from,
                rank: self.rank(place).saturating_add(1),
            }
        } else {
            Tried {
                from: place.saturating_add(1),
                rank: tried.rank,
            }
        };
        Some(Pick { place, tried })
    }

    /// The one of two calls that has the lower rank.
    fn better(&self, best: Option<usize>, place: usize) -> Option<usize> {
        match best {
            Some(best) if self.rank(best) <= self.rank(place) => Some(best),
            _ => Some(place),
        }
    }

    fn rank(&self, place: usize) -> usize {
        match self.spans.get(place) {
            Some(span) => span.rank,
            None => usize::MAX,
        }
    }

    /// The place of the call that ends first; the number of all where none is left.
    pub(crate) fn first_ended(&self) -> usize {
        self.ends.after(self.spans.len())
    }

    /// The place of the call that has the least moment; the number of all where none that is left has one.
    pub(crate) fn first_moment(&self) -> usize {
        self.moments.after(self.spans.len())
    }

    /// The first end mark.
    fn soonest(&self) -> usize {
        match self.spans.get(self.first_ended()) {
            Some(span) => span.end,
            None => usize::MAX,
        }
    }

    /// The least moment.
    fn least_moment(&self) -> Option<i64> {
        match self.spans.get(self.first_moment()) {
            Some(span) => span.moment,
            None => None,
        }
    }

    /// A call is taken.
    pub(crate) fn take(&mut self, place: usize) {
        self.begins.take(place);
        self.ends.take(place);
        if self.has_moment(place) {
            self.moments.take(place);
        }
    }

    /// The call that was taken last is left again.
    pub(crate) fn give_back(&mut self, place: usize) {
        self.begins.put_back(place);
        self.ends.put_back(place);
        if self.has_moment(place) {
            self.moments.put_back(place);
        }
    }

    fn has_moment(&self, place: usize) -> bool {
        match self.spans.get(place) {
            Some(span) => span.moment.is_some(),
            None => false,
        }
    }
}

/// Whether a call wasn't tried, and has the least moment, or none: it equals every moment then.
fn is_open(span: &Span, place: usize, tried: Tried, least: Option<i64>) -> bool {
    place >= tried.from
        && span.rank >= tried.rank
        && (span.moment.is_none() || span.moment == least)
}

fn all_places(alloc: Global, count: usize) -> Result<Vec<usize>, AllocError> {
    let mut places = Vec::with_capacity(alloc, count)?;
    'places: for place in 0..count {
        places.push(place)?;
    }
    Ok(places)
}

/// The calls by their end marks.
fn places_by_end(alloc: Global, spans: &[Span]) -> Result<Vec<usize>, AllocError> {
    let mut keys = Vec::with_capacity(alloc, spans.len())?;
    'spans: for (place, span) in spans.iter().enumerate() {
        keys.push(EndKey {
            end: span.end,
            place,
        })?;
    }
    keys.sort_unstable();
    let mut places = Vec::with_capacity(alloc, keys.len())?;
    'keys: for key in &keys {
        places.push(key.place)?;
    }
    Ok(places)
}

/// The calls that have a moment, by that.
fn places_by_moment(alloc: Global, spans: &[Span]) -> Result<Vec<usize>, AllocError> {
    let mut keys = Vec::with_capacity(alloc, spans.len())?;
    'spans: for (place, span) in spans.iter().enumerate() {
        if let Some(moment) = span.moment {
            keys.push(MomentKey { moment, place })?;
        }
    }
    keys.sort_unstable();
    let mut places = Vec::with_capacity(alloc, keys.len())?;
    'keys: for key in &keys {
        places.push(key.place)?;
    }
    Ok(places)
}
