//! How far a search has come.

ghost use Rattle.std.specs.Prelude.{◌≡◌, ◌+◌, OnOk, vec_len};

use crate::calls::Span;
use kmipa_ops::Why;
use std::alloc::{AllocError, Global};

/// A call that was taken and may be given back: its place, and the last moment before it.
#[derive(Clone, Copy)]
pub(crate) struct Visit {
    pub place: usize,
    pub last: Option<i64>,
}

/// A call that is impossible where it was tried: its place, the item, counted from 1, and the reason; item 0 where the turn itself is impossible.
#[derive(Clone, Copy)]
pub(crate) struct Refusal {
    pub place: usize,
    pub item: usize,
    pub why: Why,
}

/// The deepest place of a search: the calls that were taken up to it, and the one that ended first of those that were impossible there.
#[derive(Drop)]
pub(crate) struct Stuck {
    pub path: Vec<usize>,
    pub refusal: Refusal,
    /// The number of the place, counted as the search goes.
    number: u64,
}

/// Which calls are taken, and what was tried where the search stands.
#[derive(Drop)]
pub(crate) struct Road {
    spans: Vec<Span>,
    taken: Vec<bool>,
    /// No call ahead of this place remains.
    low: usize,
    /// The last moment.
    last: Option<i64>,
    /// The calls of a lower rank were tried here.
    from: usize,
    /// How many calls were taken and given back.
    number: u64,
    stuck: Option<Stuck>,
    /// How many calls were tried.
    pub steps: u64,
    /// How many are taken.
    pub held: usize,
    /// How many were taken beyond what stays, where these were the most; and how many had been tried by then.
    most: usize,
    since: u64,
}

impl Road {
    /// Nothing is taken.
    pub(crate) fn new(alloc: Global, spans: Vec<Span>) -> Result<Road, AllocError> {
        let mut taken = Vec::with_capacity(alloc, spans.len())?;
        'spans: for _ in 0..spans.len() {
            taken.push(false)?;
        }
        Ok(Road {
            spans,
            taken,
            low: 0,
            last: None,
            from: 0,
            number: 0,
            stuck: None,
            steps: 0,
            held: 0,
            most: 0,
            since: 0,
        })
    }

    /// Whether all calls are taken.
    pub(crate) fn is_whole(&self) -> bool {
        self.low >= self.spans.len()
    }

    /// One more call is tried.
    pub(crate) fn count(&mut self) {
        self.steps = self.steps.saturating_add(1);
    }

    /// Whether so many calls were tried since the search was as far as never before.
    pub(crate) fn is_idle(&self, share: u64) -> bool {
        self.steps.saturating_sub(self.since) > share
    }

    /// The call that may be next, wasn't tried here, and has the least rank of these.
    pub(crate) fn next(&self) -> Option<usize> {
        let soonest = self.soonest();
        let least = self.least_moment(soonest);
        let mut best = None;
        'places: for place in self.low..self.spans.len() {
            if self.is_behind(soonest, place) {
                break;
            }
            if self.may_be_next(place, least) {
                best = self.lower(best, place);
            }
        }
        best
    }

    /// The least moment, no less than the last one, of the calls that none which ended before them keeps back: behind a later one none of these could be.
    fn least_moment(&self, soonest: Option<usize>) -> Option<i64> {
        let mut least = None;
        'places: for place in self.low..self.spans.len() {
            if self.is_behind(soonest, place) {
                break;
            }
            if !self.is_taken(place) {
                least = earlier(least, self.moment_left(place));
            }
        }
        least
    }

    /// The moment of a call, where it has one that isn't before the last.
    fn moment_left(&self, place: usize) -> Option<i64> {
        match (self.last, self.span(place).moment) {
            (Some(last), Some(moment)) if moment < last => None,
            (_, moment) => moment,
        }
    }

    /// The one of two calls that has the lower rank.
    fn lower(&self, best: Option<usize>, place: usize) -> Option<usize> {
        match best {
            Some(best) if self.span(best).rank <= self.span(place).rank => Some(best),
            _ => Some(place),
        }
    }

    /// The call that ends first of those that remain.
    fn soonest(&self) -> Option<usize> {
        let mut best = None;
        'places: for place in self.low..self.spans.len() {
            if self.is_behind(best, place) {
                break;
            }
            if !self.is_taken(place) {
                best = self.sooner(best, place);
            }
        }
        best
    }

    /// Whether a call, if there is one, ended before another began.
    fn is_behind(&self, first: Option<usize>, place: usize) -> bool {
        match first {
            Some(first) => self.span(first).end < self.span(place).begin,
            None => false,
        }
    }

    /// The one of two calls that ends first.
    fn sooner(&self, best: Option<usize>, place: usize) -> Option<usize> {
        match best {
            Some(best) => Some(self.sooner_of(best, place)),
            None => Some(place),
        }
    }

    fn sooner_of(&self, best: usize, place: usize) -> usize {
        if self.span(place).end < self.span(best).end {
            place
        } else {
            best
        }
    }

    /// Whether a call remains, wasn't tried here, and has this moment, or none.
    fn may_be_next(&self, place: usize, least: Option<i64>) -> bool {
        let span = self.span(place);
        !self.is_taken(place)
            && span.rank >= self.from
            && (span.moment.is_none() || span.moment == least)
    }

    fn is_taken(&self, place: usize) -> bool {
        match self.taken.get(place) {
            Some(taken) => *taken,
            None => true,
        }
    }

    fn span(&self, place: usize) -> Span {
        match self.spans.get(place) {
            Some(span) => *span,
            None => Span {
                begin: usize::MAX,
                end: usize::MAX,
                moment: None,
                rank: usize::MAX,
            },
        }
    }

    /// Takes a call that may be given back.
    pub(crate) fn take(&mut self, path: &mut Vec<Visit>, place: usize) -> Result<(), AllocError>
        ensures { OnOk result (vec_len path.new ≡ vec_len path.old + 1) }
    {
        path.push(Visit {
            place,
            last: self.last,
        })?;
        let moment = self.span(place).moment;
        self.settle(place, moment);
        if path.len() > self.most {
            self.most = path.len();
            self.since = self.steps;
        }
        Ok(())
    }

    /// Takes a call for good, at this moment.
    pub(crate) fn settle(&mut self, place: usize, moment: Option<i64>) {
        self.mark(place, true);
        self.held = self.held.saturating_add(1);
        if moment.is_some() {
            self.last = moment;
        }
        self.from = 0;
        self.number = self.number.saturating_add(1);
        'places: for place in self.low..self.spans.len() {
            if !self.is_taken(place) {
                break;
            }
            self.low = place + 1;
        }
    }

    fn mark(&mut self, place: usize, taken: bool) {
        if place < self.taken.len() {
            self.taken[place] = taken;
        }
    }

    /// Gives a call back, the one that was taken last.
    pub(crate) fn give_back(&mut self, visit: Visit) {
        self.mark(visit.place, false);
        self.held = self.held.saturating_sub(1);
        self.last = visit.last;
        self.low = self.low.min(visit.place);
        self.number = self.number.saturating_add(1);
        self.from = self.span(visit.place).rank.saturating_add(1);
    }

    /// A call is impossible here.
    pub(crate) fn refuse(
        &mut self,
        alloc: Global,
        path: &[Visit],
        refusal: Refusal,
    ) -> Result<(), AllocError> {
        self.from = self.span(refusal.place).rank.saturating_add(1);
        self.note(alloc, path, refusal)
    }

    /// No call more may be next here: where none was, it is by its moment that none may, and the one that ends first is refused.
    pub(crate) fn end_here(&mut self, alloc: Global, path: &[Visit]) -> Result<(), AllocError> {
        match self.soonest() {
            Some(place) if self.is_deeper(path.len()) => {
                let refusal = Refusal {
                    place,
                    item: 0,
                    why: Why::StampRunsBack,
                };
                self.note(alloc, path, refusal)
            }
            _ => Ok(()),
        }
    }

    /// Remembers a refusal, where the search is deeper than at any before; or where it is the one of a call that ends sooner than that of the same place.
    fn note(&mut self, alloc: Global, path: &[Visit], refusal: Refusal) -> Result<(), AllocError> {
        if self.is_deeper(path.len()) {
            self.stuck = Some(Stuck {
                path: places_of(alloc, path)?,
                refusal,
                number: self.number,
            });
        } else if self.is_sooner_here(refusal) {
            self.refuse_here(refusal);
        }
        Ok(())
    }

    fn is_deeper(&self, count: usize) -> bool {
        match &self.stuck {
            Some(stuck) => stuck.path.len() < count,
            None => true,
        }
    }

    /// Whether the search stands where it was deepest, and the call ends sooner than the one that is remembered.
    fn is_sooner_here(&self, refusal: Refusal) -> bool {
        match &self.stuck {
            Some(stuck) => {
                stuck.number == self.number
                    && self.span(refusal.place).end < self.span(stuck.refusal.place).end
            }
            None => false,
        }
    }

    /// Remembers another refusal where the search was deepest.
    fn refuse_here(&mut self, refusal: Refusal) {
        if let Some(stuck) = &mut self.stuck {
            stuck.refusal = refusal;
        }
    }

    /// Where the search was deepest; a new one begins.
    pub(crate) fn start_anew(&mut self) -> Option<Stuck> {
        self.from = 0;
        self.most = 0;
        self.since = self.steps;
        self.stuck.take()
    }
}

/// The earlier of two moments, where they are there.
fn earlier(one: Option<i64>, other: Option<i64>) -> Option<i64> {
    match (one, other) {
        (Some(one), Some(other)) => Some(one.min(other)),
        (None, moment) | (moment, None) => moment,
    }
}

/// The places of these calls.
fn places_of(alloc: Global, path: &[Visit]) -> Result<Vec<usize>, AllocError> {
    let mut places = Vec::with_capacity(alloc, path.len())?;
    'path: for visit in path {
        places.push(visit.place)?;
    }
    Ok(places)
}
