//! What lives leave open: choices among edges.

use crate::items::Touch;
use crate::lives::{Course, Reader, bit_of};
use crate::times::{Time, time_at};
use std::alloc::{AllocError, Global};

/// An edge that is wished: a call before another.
#[derive(Clone, Copy)]
pub struct Wish {
    pub from: usize,
    pub to: usize,
}

impl Wish {
    /// The other way round.
    pub(crate) fn turned(self) -> Wish {
        Wish {
            from: self.to,
            to: self.from,
        }
    }
}

/// What an item of an open call does to an object.
#[derive(Clone, Copy, PartialEq, Eq, PartialOrd, Ord)]
pub struct Done {
    pub call: usize,
    pub item: usize,
    pub object: usize,
    /// The Time Stamp at which it does, where an answer shows it.
    pub date: Option<i64>,
    /// The least one that it may have, where dates of the object say so.
    pub since: Option<i64>,
}

impl Done {
    pub(crate) fn of(touch: Touch, date: Option<i64>, since: Option<i64>) -> Done {
        Done {
            call: touch.call,
            item: touch.item,
            object: touch.object,
            date,
            since,
        }
    }
}

/// A choice among options, each of which is a list of wishes.
#[derive(Drop)]
pub struct Choice {
    pub options: Vec<Vec<Wish>>,
    /// What open calls do by each option.
    pub done: Vec<Vec<Done>>,
    /// Of each option whether it was seen to be impossible.
    pub is_out: Vec<bool>,
    /// It is open only where that choice has taken that option.
    pub under: Option<(usize, usize)>,
    /// The option that is taken.
    pub taken: Option<usize>,
    /// The edges that it has in the graph.
    pub edges: Vec<usize>,
    /// So many times it was taken back.
    pub defeats: usize,
}

/// Adds the choices of an object among its lives, and of its readers among slots.
pub(crate) fn add_choices(
    alloc: Global,
    choices: &mut Vec<Choice>,
    times: &[Time],
    courses: &[Course],
) -> Result<(), AllocError> {
    let mut options = Vec::new(alloc);
    let mut done = Vec::new(alloc);
    for course in courses {
        options.push(wishes_of(alloc, times, course)?)?;
        done.push(Vec::from_slice(alloc, &course.done)?)?;
    }
    let number = choices.len();
    add_choice(alloc, choices, options, done, None)?;
    for (option, course) in courses.iter().enumerate() {
        for reader in &course.readers {
            add_gaps(alloc, choices, times, course, reader, (number, option))?;
        }
    }
    Ok(())
}

/// Adds a choice among options, each with what open calls do by it.
pub(crate) fn add_choice(
    alloc: Global,
    choices: &mut Vec<Choice>,
    options: Vec<Vec<Wish>>,
    done: Vec<Vec<Done>>,
    under: Option<(usize, usize)>,
) -> Result<(), AllocError> {
    let is_out = vec![in alloc; false; options.len()]?;
    choices.push(Choice {
        options,
        done,
        is_out,
        under,
        taken: None,
        edges: Vec::new(alloc),
        defeats: 0,
    })?;
    Ok(())
}

/// The edges that a course has, whatever its readers choose, but for those that times have anyway.
fn wishes_of(alloc: Global, times: &[Time], course: &Course) -> Result<Vec<Wish>, AllocError> {
    let mut wishes = Vec::from_slice(alloc, &course.wishes)?;
    for (from, to) in course.chain.iter().zip(course.chain.iter().skip(1)) {
        make_wish(&mut wishes, times, *from, *to)?;
    }
    for reader in &course.readers {
        if reader.gate.is_some() {
            continue;
        }
        let low = reader.slots.trailing_zeros() as usize;
        let high = 63usize.saturating_sub(reader.slots.leading_zeros() as usize);
        wish_between(&mut wishes, times, course, reader.call, low, high)?;
    }
    Ok(wishes)
}

/// Wishes a call between the changes of these slots.
fn wish_between(
    wishes: &mut Vec<Wish>,
    times: &[Time],
    course: &Course,
    call: usize,
    low: usize,
    high: usize,
) -> Result<(), AllocError> {
    if low > 0 {
        if let Some(change) = course.chain.get(low.saturating_sub(1)) {
            make_wish(wishes, times, *change, call)?;
        }
    }
    match course.chain.get(high) {
        Some(change) => make_wish(wishes, times, call, *change),
        None => Ok(()),
    }
}

fn make_wish(
    wishes: &mut Vec<Wish>,
    times: &[Time],
    from: usize,
    to: usize,
) -> Result<(), AllocError> {
    if !time_at(times, from).is_before(time_at(times, to)) {
        wishes.push(Wish { from, to })?;
    }
    Ok(())
}

/// Adds the choice of a reader among runs of slots, where there is more than one, or where its items need not be done.
fn add_gaps(
    alloc: Global,
    choices: &mut Vec<Choice>,
    times: &[Time],
    course: &Course,
    reader: &Reader,
    under: (usize, usize),
) -> Result<(), AllocError> {
    let mut options = Vec::new(alloc);
    if let Some(gate) = reader.gate {
        let mut wishes = Vec::new(alloc);
        wishes.push(gate.turned())?;
        options.push(wishes)?;
    }
    let mut low = None;
    for slot in 0..course.chain.len().saturating_add(2) {
        let is_in = reader.slots & bit_of(slot) != 0;
        match low {
            None if is_in => low = Some(slot),
            Some(first) if !is_in => {
                let mut wishes = Vec::new(alloc);
                let last = slot.saturating_sub(1);
                if let Some(gate) = reader.gate {
                    wishes.push(gate)?;
                }
                wish_between(&mut wishes, times, course, reader.call, first, last)?;
                options.push(wishes)?;
                low = None;
            }
            _ => {}
        }
    }
    if options.len() > 1 {
        add_choice(alloc, choices, options, Vec::new(alloc), Some(under))?;
    }
    Ok(())
}
