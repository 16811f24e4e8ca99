//! Time Stamps along the marks of a recording.

use super::reading::Seen;
use super::suspects::{Suspect, Suspects};
use std::alloc::{AllocError, Global};

/// Of each place among the marks the greatest Time Stamp of the calls that ended ahead of it, and the least of those that began behind it.
#[derive(Drop)]
pub(crate) struct Stamps {
    greatest: Vec<Option<i64>>,
    least: Vec<Option<i64>>,
}

impl Stamps {
    /// Those of these calls, whose marks are so many.
    pub(crate) fn of(alloc: Global, calls: &[Seen], marks: usize) -> Result<Stamps, AllocError> {
        let mut greatest = nowhere(alloc, marks)?;
        let mut least = nowhere(alloc, marks)?;
        'calls: for call in calls {
            set(&mut greatest, call.end(), call.stamp());
            set(&mut least, call.recorded.begin, call.stamp());
        }
        rise(&mut greatest);
        fall(&mut least);
        Ok(Stamps { greatest, least })
    }

    /// The greatest Time Stamp of the calls that ended ahead of this mark.
    pub(crate) fn ahead(&self, mark: usize) -> Option<i64> {
        at(&self.greatest, mark)
    }

    /// The least of those that began behind this mark.
    fn behind(&self, mark: usize) -> Option<i64> {
        at(&self.least, mark)
    }

    /// Whether a call ended ahead of it with a greater Time Stamp.
    fn is_low(&self, call: &Seen) -> bool {
        match (self.ahead(call.recorded.begin), call.stamp()) {
            (Some(ahead), Some(stamp)) => stamp < ahead,
            _ => false,
        }
    }

    /// Whether a call began behind it with a lower one.
    fn is_high(&self, call: &Seen) -> bool {
        match (self.behind(call.end()), call.stamp()) {
            (Some(behind), Some(stamp)) => behind < stamp,
            _ => false,
        }
    }
}

/// Calls whose Time Stamps run back are suspected, where they are no more than those that they are below.
pub(crate) fn suspect_low(
    suspects: &mut Suspects,
    stamps: &Stamps,
    calls: &[Seen],
) -> Result<(), AllocError> {
    let mut low = 0u64;
    let mut high = 0u64;
    'counted: for call in calls {
        if stamps.is_low(call) {
            low = low.saturating_add(1);
        }
        if stamps.is_high(call) {
            high = high.saturating_add(1);
        }
    }
    if low > high {
        return Ok(());
    }
    'calls: for call in calls {
        if stamps.is_low(call) {
            let number = call.recorded.number;
            let _is_new = suspects.add_item(Suspect {
                call: number,
                place: None,
            })?;
        }
    }
    Ok(())
}

fn nowhere(alloc: Global, count: usize) -> Result<Vec<Option<i64>>, AllocError> {
    let mut stamps = Vec::with_capacity(alloc, count)?;
    'places: for _ in 0..count {
        stamps.push(None)?;
    }
    Ok(stamps)
}

fn set(stamps: &mut [Option<i64>], place: usize, stamp: Option<i64>) {
    if place < stamps.len() {
        stamps[place] = stamp;
    }
}

/// At each place the greatest up to it.
fn rise(stamps: &mut [Option<i64>]) {
    let mut greatest = None;
    'places: for place in 0..stamps.len() {
        greatest = greater(greatest, at(stamps, place));
        set(stamps, place, greatest);
    }
}

/// At each place the least from it on.
fn fall(stamps: &mut [Option<i64>]) {
    let mut least = None;
    let count = stamps.len();
    'places: for back in 0..count {
        let place = count.saturating_sub(back).saturating_sub(1);
        least = lesser(least, at(stamps, place));
        set(stamps, place, least);
    }
}

fn at(stamps: &[Option<i64>], place: usize) -> Option<i64> {
    *stamps.get(place)?
}

/// The greater of two Time Stamps, where they are there.
pub(crate) fn greater(one: Option<i64>, other: Option<i64>) -> Option<i64> {
    match (one, other) {
        (Some(one), Some(other)) => Some(one.max(other)),
        (one, None) | (None, one) => one,
    }
}

/// The lesser of two Time Stamps, where they are there.
fn lesser(one: Option<i64>, other: Option<i64>) -> Option<i64> {
    match (one, other) {
        (Some(one), Some(other)) => Some(one.min(other)),
        (one, None) | (None, one) => one,
    }
}
