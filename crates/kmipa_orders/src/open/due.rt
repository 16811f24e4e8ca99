//! The dates that answers show of what open calls leave.

use super::call::{Event, OpenCall};
use super::stories::{ShownDate, Stories, Story};
use std::alloc::{AllocError, Global};

/// So many Creates and Registers are looked at for one object, and so many of them are tried.
const LOOKED_AT: usize = 1024;

const TRIED: usize = 16;

/// An open call that can have left the date that an answer shows of an object.
#[derive(Clone, Copy, PartialEq, Eq, PartialOrd, Ord)]
pub struct Due<'b> {
    pub date: i64,
    pub open: usize,
    pub id: &'b str,
}

/// All that answers show, by dates.
pub fn due_dates<'b, 'a>(
    alloc: Global,
    opens: &[OpenCall<'b, 'a>],
    makers: &[usize],
    stories: &Stories<'b>,
) -> Result<Vec<Due<'b>>, AllocError> {
    let mut due = Vec::new(alloc);
    'stories: for number in 0..stories.len() {
        if let (Some(id), Some(story)) = (stories.id(number), stories.story(number)) {
            push_story(alloc, &mut due, opens, makers, id, story)?;
        }
    }
    due.sort_unstable();
    Ok(due)
}

fn push_story<'b, 'a>(
    alloc: Global,
    due: &mut Vec<Due<'b>>,
    opens: &[OpenCall<'b, 'a>],
    makers: &[usize],
    id: &'b str,
    story: &Story<'b>,
) -> Result<(), AllocError> {
    'dates: for shown in &story.dates {
        let by = leaving(alloc, opens, makers, story, *shown)?;
        push_all(due, &by, shown.date, id)?;
    }
    Ok(())
}

fn push_all<'b>(
    due: &mut Vec<Due<'b>>,
    opens: &[usize],
    date: i64,
    id: &'b str,
) -> Result<(), AllocError> {
    'opens: for open in opens {
        due.push(Due {
            date,
            open: *open,
            id,
        })?;
    }
    Ok(())
}

/// The open calls that can have left a date of this object.
fn leaving(
    alloc: Global,
    opens: &[OpenCall],
    makers: &[usize],
    story: &Story,
    shown: ShownDate,
) -> Result<Vec<usize>, AllocError> {
    if shown.event == Event::Made {
        return fitting_makers(alloc, opens, makers, story);
    }
    let mut left = Vec::new(alloc);
    'changers: for number in &story.changers {
        if is_of(opens, *number, shown.event) {
            left.push(*number)?;
        }
    }
    Ok(left)
}

fn is_of(opens: &[OpenCall], number: usize, event: Event) -> bool {
    match opens.get(number) {
        Some(open) => open.event == event,
        None => false,
    }
}

/// The first Creates and Registers that can have brought this object.
pub fn fitting_makers(
    alloc: Global,
    opens: &[OpenCall],
    makers: &[usize],
    story: &Story,
) -> Result<Vec<usize>, AllocError> {
    let mut fitting = Vec::new(alloc);
    'makers: for number in makers.iter().take(LOOKED_AT) {
        if fitting.len() < TRIED && may_have_made(opens, *number, story) {
            fitting.push(*number)?;
        }
    }
    Ok(fitting)
}

fn may_have_made(opens: &[OpenCall], number: usize, story: &Story) -> bool {
    match opens.get(number) {
        Some(open) => story.may_be_of(open.ask),
        None => false,
    }
}

/// The number of the first that is not before a moment.
pub fn first_from(due: &[Due], moment: i64) -> usize {
    let mut low = 0;
    let mut high = due.len();
    'halves: while low < high {
        let middle = low + (high - low) / 2;
        if due[middle].date < moment {
            low = middle + 1;
        } else {
            high = middle;
        }
    }
    low
}
