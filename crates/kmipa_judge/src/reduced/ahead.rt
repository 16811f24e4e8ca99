//! How many turns stand ahead of a call.

use std::alloc::{AllocError, Global};

/// Where a call stands among the marks, and its Time Stamp where it has one.
#[derive(Clone, Copy)]
pub(crate) struct Span {
    pub begin: usize,
    pub end: usize,
    pub stamp: Option<i64>,
}

/// Turns that stand ahead of a call: by the marks where they have to, else by their Time Stamps, or where these are the same or missing by their ends.
#[derive(Drop)]
pub(crate) struct Ahead {
    /// All turns, by their ends.
    all: Ranks,
    /// Those with a Time Stamp, by it and by their ends.
    stamped: Ranks,
    /// Those without one, by their ends.
    bare: Ranks,
}

impl Ahead {
    /// Of turns that take the calls that stand so, one after the other.
    pub(crate) fn of(alloc: Global, spans: &[Span]) -> Result<Ahead, AllocError> {
        let mut all = Vec::with_capacity(alloc, spans.len())?;
        let mut stamped = Vec::new(alloc);
        let mut bare = Vec::new(alloc);
        let mut count = 0usize;
        'spans: for span in spans {
            count = count.saturating_add(1);
            let rank = Rank {
                stamp: None,
                end: span.end,
                count,
            };
            all.push(rank)?;
            match span.stamp {
                Some(_) => stamped.push(Rank {
                    stamp: span.stamp,
                    ..rank
                })?,
                None => bare.push(rank)?,
            }
        }
        Ok(Ahead {
            all: Ranks::of(all),
            stamped: Ranks::of(stamped),
            bare: Ranks::of(bare),
        })
    }

    /// How many turns there are up to the last one that stands ahead of this call.
    pub(crate) fn count(&self, call: Span) -> usize {
        let ended = self.all.count_below(None, call.begin);
        let others = match call.stamp {
            Some(_) => {
                let stamped = self.stamped.count_below(call.stamp, call.end);
                stamped.max(self.bare.count_below(None, call.end))
            }
            None => self.all.count_below(None, call.end),
        };
        ended.max(others)
    }
}

/// By what a turn is ranked, and how many turns there are up to it.
#[derive(Clone, Copy, PartialEq, Eq, PartialOrd, Ord)]
struct Rank {
    stamp: Option<i64>,
    end: usize,
    count: usize,
}

/// Turns by their ranks, each with how many turns there are up to the last one of those of no higher rank.
#[derive(Drop)]
struct Ranks {
    ranks: Vec<Rank>,
}

impl Ranks {
    fn of(mut ranks: Vec<Rank>) -> Ranks {
        ranks.sort_unstable();
        let mut most = 0usize;
        'ranks: for place in 0..ranks.len() {
            most = most.max(ranks[place].count);
            ranks[place].count = most;
        }
        Ranks { ranks }
    }

    /// How many turns there are up to the last one of a lower rank. No two calls have the same end.
    fn count_below(&self, stamp: Option<i64>, end: usize) -> usize {
        let rank = Rank {
            stamp,
            end,
            count: 0,
        };
        let lower = match self.ranks.binary_search(&rank) {
            Ok(place) => place,
            Err(place) => place,
        };
        match lower.checked_sub(1) {
            Some(last) => self.count_at(last),
            None => 0,
        }
    }

    fn count_at(&self, place: usize) -> usize {
        match self.ranks.get(place) {
            Some(rank) => rank.count,
            None => 0,
        }
    }
}
