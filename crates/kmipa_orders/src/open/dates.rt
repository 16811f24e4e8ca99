//! The dates that answers show of what calls left.

use super::call::{OpenCall, event_of};
use super::identifiers::{asked_id, shown_id};
use super::stories::Stories;
use kmipa_msgs::{Answer, Ask, Status};
use kmipa_record::{Call, Declaration};
use std::alloc::{AllocError, Global};

/// A date that each call left, at most so many seconds from its Time Stamp: the first that an answer shows. None where none shows one.
pub fn dates_left<'b, 'a>(
    alloc: Global,
    calls: &'b [Call<'a>],
    declaration: &'b Declaration,
    tolerance: u64,
) -> Result<Vec<Option<i64>>, AllocError> {
    let none: Vec<OpenCall<'b, 'a>> = Vec::new(alloc);
    let stories = Stories::of(alloc, calls, &none, declaration)?;
    let mut dates = Vec::with_capacity(alloc, calls.len())?;
    for call in calls {
        dates.push(date_left(&stories, call, tolerance))?;
    }
    Ok(dates)
}

/// The date of one call.
fn date_left<'b, 'a>(stories: &Stories<'b>, call: &'b Call<'a>, tolerance: u64) -> Option<i64> {
    let response = call.response.as_ref()?;
    for (ask, answer) in call.request.items.iter().zip(response.items.iter()) {
        if let Some(date) = date_of(stories, ask, answer, response.stamp, tolerance) {
            return Some(date);
        }
    }
    None
}

/// The same of an item.
fn date_of<'b, 'a>(
    stories: &Stories<'b>,
    ask: &'b Ask<'a>,
    answer: &'b Answer<'a>,
    stamp: i64,
    tolerance: u64,
) -> Option<i64> {
    if answer.status != Status::Success {
        return None;
    }
    let event = event_of(ask)?;
    let payload = answer.payload.as_ref()?;
    let id = shown_id(payload).or(asked_id(ask))?;
    let number = stories.find(id)?;
    let story = stories.story(number)?;
    for shown in &story.dates {
        if shown.event == event && shown.date.abs_diff(stamp) <= tolerance {
            return Some(shown.date);
        }
    }
    None
}
