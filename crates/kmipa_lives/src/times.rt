//! When calls were.

use kmipa_msgs::{BatchOption, Request, Response, Status};
use kmipa_record::Call;
use std::alloc::{AllocError, Global};

/// When a call was, and whether what it did was undone.
#[derive(Clone, Copy)]
pub struct Time {
    /// The place of its begin mark.
    pub begin: usize,
    /// The place of its end mark; the greatest number where there is none.
    pub end: usize,
    /// The least Time Stamp that it may have, in seconds since 1970-01-01T00:00:00Z.
    pub stamp: i64,
    /// The greatest one: of a call that has ended, the same.
    pub latest: i64,
    /// Its batch failed under Undo: it left nothing.
    pub is_undone: bool,
}

impl Time {
    /// Whether a call has to be taken before another one: it ended before that began, or its stamp is less.
    #[inline(always)]
    pub(crate) fn is_before(self, other: Time) -> bool {
        self.end < other.begin || self.latest < other.stamp
    }
}

/// When each call was; none where one is open.
pub(crate) fn times_of(alloc: Global, calls: &[Call]) -> Result<Option<Vec<Time>>, AllocError> {
    let mut times = Vec::with_capacity(alloc, calls.len())?;
    for call in calls {
        match time_of(call) {
            Some(time) => times.push(time)?,
            None => return Ok(None),
        }
    }
    Ok(Some(times))
}

/// When each call was, or may have been: an open one at no Time Stamp below those of the calls that ended before it began.
pub(crate) fn all_times_of(alloc: Global, calls: &[Call]) -> Result<Vec<Time>, AllocError> {
    let ends = ends_of(alloc, calls)?;
    let mut times = Vec::with_capacity(alloc, calls.len())?;
    for call in calls {
        times.push(match time_of(call) {
            Some(time) => time,
            None => open_time(call.begin, &ends),
        })?;
    }
    Ok(times)
}

/// The end marks, ascending, and of each the greatest Time Stamp of the calls that ended by then.
fn ends_of(alloc: Global, calls: &[Call]) -> Result<Vec<(usize, i64)>, AllocError> {
    let mut ends = Vec::new(alloc);
    for call in calls {
        if let (Some(end), Some(response)) = (call.end, &call.response) {
            ends.push((end, response.stamp))?;
        }
    }
    ends.sort_unstable();
    let mut greatest = i64::MIN;
    for end in &mut ends {
        greatest = greatest.max(end.1);
        end.1 = greatest;
    }
    Ok(ends)
}

fn open_time(begin: usize, ends: &[(usize, i64)]) -> Time {
    let count = ends.partition_point(|end| end.0 < begin);
    let stamp = match ends.get(count.wrapping_sub(1)) {
        Some((_, stamp)) => *stamp,
        None => i64::MIN,
    };
    Time {
        begin,
        end: usize::MAX,
        stamp,
        latest: i64::MAX,
        is_undone: false,
    }
}

fn time_of(call: &Call) -> Option<Time> {
    let end = call.end?;
    match &call.response {
        Some(response) => Some(Time {
            begin: call.begin,
            end,
            stamp: response.stamp,
            latest: response.stamp,
            is_undone: is_undone(&call.request, response),
        }),
        None => None,
    }
}

fn is_undone(request: &Request, response: &Response) -> bool {
    request.option == BatchOption::Undo
        && response
            .items
            .iter()
            .any(|answer| answer.status == Status::Failed)
}

/// When the call at a place was; at no time where there is none.
#[inline(always)]
pub(crate) fn time_at(times: &[Time], place: usize) -> Time {
    match times.get(place) {
        Some(time) => *time,
        None => Time {
            begin: 0,
            end: 0,
            stamp: 0,
            latest: 0,
            is_undone: false,
        },
    }
}
