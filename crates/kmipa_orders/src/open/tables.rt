//! What a search looks up on its way, and never changes.

use super::call::{Event, OpenCall};
use super::due::{Due, due_dates};
use super::stories::Stories;
use crate::candidate::Candidate;
use crate::plain::every_candidate;
use crate::ranks::Ranks;
use kmipa_record::{Call, Declaration};
use std::alloc::{AllocError, Global};

/// The calls of a transcript, and what a search looks up of them.
#[derive(Drop)]
pub struct Tables<'b, 'a> {
    pub calls: &'b [Call<'a>],
    /// The calls that have ended.
    pub own: Vec<Candidate<'b, 'a>>,
    /// The place of each of these among all calls.
    places: Vec<usize>,
    /// These in the order in which they are wished.
    pub wishes: Ranks,
    /// The calls without an end mark that may be taken.
    pub opens: Vec<OpenCall<'b, 'a>>,
    /// Those of them that make an object.
    pub makers: Vec<usize>,
    pub stories: Stories<'b>,
    /// The dates at which they are taken before all that is answered later.
    pub due: Vec<Due<'b>>,
}

/// What is tried.
#[derive(Clone, Copy)]
pub enum What<'b> {
    /// The ended call of this number.
    Ended(usize),
    /// The open call of this number, about the object with this identifier.
    Open(usize, &'b str),
}

/// A try: the place of its call, the Time Stamp, and what is tried.
#[derive(Clone, Copy)]
pub struct Attempt<'b> {
    pub call: usize,
    pub stamp: i64,
    pub what: What<'b>,
}

impl<'b, 'a> Tables<'b, 'a> {
    ghost use Rattle.std.specs.Prelude.{◌≡◌, IfOk};

    /// Those of these calls.
    pub fn of(
        alloc: Global,
        calls: &'b [Call<'a>],
        declaration: &'b Declaration,
    ) -> Result<Tables<'b, 'a>, AllocError>
        ensures { IfOk result (λ tables. tables.calls ≡ calls.entry) }
    {
        let own = every_candidate(alloc, calls)?;
        let wishes = Ranks::by_wish(alloc, &own)?;
        let opens = open_calls(alloc, calls)?;
        let makers = makers(alloc, &opens)?;
        let stories = Stories::of(alloc, calls, &opens, declaration)?;
        let due = due_dates(alloc, &opens, &makers, &stories)?;
        Ok(Tables {
            calls,
            own,
            places: ended_places(alloc, calls)?,
            wishes,
            opens,
            makers,
            stories,
            due,
        })
    }

    /// The try of an ended call.
    pub fn ended(&self, number: usize) -> Option<Attempt<'b>> {
        let own = self.own.get(number)?;
        let call = *self.places.get(number)?;
        Some(Attempt {
            call,
            stamp: own.response.stamp,
            what: What::Ended(number),
        })
    }

    /// The try of an open call at a Time Stamp.
    pub fn open(&self, number: usize, id: &'b str, stamp: i64) -> Option<Attempt<'b>> {
        let open = self.opens.get(number)?;
        Some(Attempt {
            call: open.place,
            stamp,
            what: What::Open(number, id),
        })
    }
}

fn ended_places<'b, 'a>(alloc: Global, calls: &'b [Call<'a>]) -> Result<Vec<usize>, AllocError> {
    let mut places = Vec::new(alloc);
    'calls: for (place, call) in calls.iter().enumerate() {
        if Candidate::of(call).is_some() {
            places.push(place)?;
        }
    }
    Ok(places)
}

fn open_calls<'b, 'a>(
    alloc: Global,
    calls: &'b [Call<'a>],
) -> Result<Vec<OpenCall<'b, 'a>>, AllocError> {
    let mut opens = Vec::new(alloc);
    'calls: for (place, call) in calls.iter().enumerate() {
        if let Some(open) = OpenCall::of(call, place) {
            opens.push(open)?;
        }
    }
    Ok(opens)
}

fn makers(alloc: Global, opens: &[OpenCall]) -> Result<Vec<usize>, AllocError> {
    let mut makers = Vec::new(alloc);
    'opens: for (number, open) in opens.iter().enumerate() {
        if open.event == Event::Made {
            makers.push(number)?;
        }
    }
    Ok(makers)
}
