//! When the objects change.

use crate::items::Touch;
use crate::stories::{Recording, may_change};
use crate::times::{Time, time_at};
use std::alloc::{AllocError, Global};

/// A call that may change an object.
#[derive(Clone, Copy, PartialEq, Eq, PartialOrd, Ord)]
struct Change {
    object: usize,
    call: usize,
}

/// The time that the changes of one object take.
#[derive(Clone, Copy)]
struct Spread {
    /// Its changes stand from this place on among those of all objects.
    from: usize,
    /// They end before this one.
    to: usize,
    /// The first begin mark, the last end mark, and the least and the greatest Time Stamp of them.
    begin: usize,
    end: usize,
    least: i64,
    greatest: i64,
    /// Two of them may have come in either order.
    is_tangled: bool,
}

/// When each object changes.
#[derive(Drop)]
pub struct Spreads {
    changes: Vec<Change>,
    objects: Vec<Spread>,
}

impl Spreads {
    /// Those of so many objects, by the items about them.
    pub(crate) fn of(
        alloc: Global,
        recording: &Recording<'_, '_>,
        touches: &[Touch],
        count: usize,
    ) -> Result<Spreads, AllocError> {
        let mut changes = Vec::new(alloc);
        for touch in touches {
            if may_change(recording, *touch) {
                changes.push(Change {
                    object: touch.object,
                    call: touch.call,
                })?;
            }
        }
        changes.sort_unstable();
        let mut objects = Vec::with_capacity(alloc, count)?;
        let mut from = 0;
        for object in 0..count {
            let to = changes.partition_point(|change| change.object <= object);
            objects.push(spread_of(&recording.times, &changes, from, to))?;
            from = to;
        }
        Ok(Spreads { changes, objects })
    }

    /// Whether what a call sees of an object may depend on the order: it may come before a change or behind it, or changes of the
    /// object may have come in either order.
    pub(crate) fn are_open(&self, times: &[Time], object: usize, time: Time) -> bool {
        match self.objects.get(object) {
            Some(spread) => {
                spread.is_tangled
                    || !spread.is_apart_from(time) && self.is_amid(times, *spread, time)
            }
            None => true,
        }
    }

    /// Whether a call may come before one of these changes or behind it.
    fn is_amid(&self, times: &[Time], spread: Spread, time: Time) -> bool {
        let own = self.changes.get(spread.from..spread.to).unwrap_or(&[]);
        own.iter()
            .any(|change| are_at_once(time_at(times, change.call), time))
    }
}

impl Spread {
    /// Whether all its changes come before a call, or behind it.
    fn is_apart_from(self, time: Time) -> bool {
        self.end < time.begin
            || self.greatest < time.stamp
            || time.end < self.begin
            || time.latest < self.least
    }
}

/// Whether two calls may come in either order.
fn are_at_once(one: Time, other: Time) -> bool {
    !one.is_before(other) && !other.is_before(one)
}

/// The spread of the changes at these places.
fn spread_of(times: &[Time], changes: &[Change], from: usize, to: usize) -> Spread {
    let own = changes.get(from..to).unwrap_or(&[]);
    let mut spread = Spread {
        from,
        to,
        begin: usize::MAX,
        end: 0,
        least: i64::MAX,
        greatest: i64::MIN,
        is_tangled: are_tangled(times, own),
    };
    for change in own {
        let time = time_at(times, change.call);
        spread.begin = spread.begin.min(time.begin);
        spread.end = spread.end.max(time.end);
        spread.least = spread.least.min(time.stamp);
        spread.greatest = spread.greatest.max(time.latest);
    }
    spread
}

/// So many changes of one object are compared with each other; more are taken as tangled.
const MOST_COMPARED: usize = 16;

/// Whether two of the changes, of different calls, may have come in either order.
fn are_tangled(times: &[Time], changes: &[Change]) -> bool {
    changes.len() > MOST_COMPARED
        || changes.iter().any(|one| {
            changes.iter().any(|other| {
                one.call < other.call
                    && are_at_once(time_at(times, one.call), time_at(times, other.call))
            })
        })
}
