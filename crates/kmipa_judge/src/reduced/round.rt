//! One search of what isn't set aside and isn't suspected.

ghost use Rattle.kmipa_record.specs.Declarations.{AreDeclared, declaration_of};

use super::lots::lots_of;
use super::merging::merged;
use super::names::Names;
use super::reading::Seen;
use super::recording::{Reduction, reduced_transcript};
use super::scope::Scope;
use super::stamps::Stamps;
use super::stuck::suspect_at;
use super::suspects::{Suspect, Suspects};
use crate::searched::Timed;
use kmipa_check::{CheckFault, FirstPlaces};
use kmipa_orders::{Deepest, Found, Watch, reached};
use kmipa_record::{Declaration, Mark, Transcript, Turn};
use kmipa_searches::{SearchOptions, search_records};
use kmipa_trail::Fault;
use std::alloc::Global;

/// What is searched, and what is known of it.
#[derive(Clone, Copy)]
pub(crate) struct Search<'t, 'a> {
    pub transcript: &'t Transcript,
    pub declaration: &'t Declaration,
    pub calls: &'t [Seen<'a>],
    pub places: &'t FirstPlaces,
    pub names: &'t Names<'a>,
    pub stamps: &'t Stamps,
}

/// What one search comes to, and how many steps it took.
#[derive(Drop)]
pub(crate) struct Round {
    pub ended: Ended,
    pub steps: u64,
}

/// How a search ends.
#[derive(Drop)]
pub(crate) enum Ended {
    /// With these turns of all calls.
    Ordered(Vec<Turn>),
    /// No order explains the answers about this object.
    Refuted(String),
    /// This item is impossible, or this call; or it is where the search was stuck.
    Impossible(Suspect),
    Undecided,
}

/// Searches the calls that aren't set aside, but for what is suspected.
pub(crate) fn search_once<'x, W: Watch + Drop>(
    alloc: Global,
    search: Search<'x, '_>,
    suspects: &'x Suspects,
    budget: u64,
    watch: &W,
) -> Result<Round, Fault>
    requires { AreDeclared (declaration_of search.declaration.now) }
{
    let scope = Scope {
        names: search.names,
        suspects,
        only: None,
    };
    let lots = lots_of(alloc, scope, search.calls)?;
    let reduction = Reduction {
        scope,
        calls: search.calls,
        places: search.places,
        lots: &lots,
    };
    let reduced = reduced_transcript(alloc, reduction, search.transcript)?;
    let mut timed = Timed { watch };
    let mut deepest = Deepest::new(alloc, &mut timed);
    let asked = SearchOptions {
        budget,
        forced: false,
        open: true,
    };
    let searched = search_records(alloc, &reduced, search.declaration, asked, &mut deepest);
    match searched {
        Ok(searched) => match searched.found {
            Found::GaveUp(steps) if steps < budget => {
                let order = deepest.into_calls()?;
                Ok(stuck(alloc, search, reduction, &reduced, (&order, steps)))
            }
            found => ended_by(alloc, found, reduction, search.stamps, &reduced),
        },
        Err(CheckFault::Memory) => Err(Fault::Memory),
        Err(CheckFault::Outside(..) | CheckFault::Witness(_)) => Ok(undecided(0)),
    }
}

fn undecided(steps: u64) -> Round {
    Round {
        ended: Ended::Undecided,
        steps,
    }
}

/// What a search comes to that gave up after so many steps, and went as far as these calls.
fn stuck(
    alloc: Global,
    search: Search,
    reduction: Reduction,
    reduced: &Transcript,
    gave_up: (&[i32], u64),
) -> Round
    requires { AreDeclared (declaration_of search.declaration.now) }
{
    let (order, steps) = gave_up;
    let Ok(place) = reached(alloc, reduced, search.declaration, order) else {
        return undecided(steps);
    };
    match suspect_at(reduction, &place) {
        Some(suspect) => Round {
            ended: Ended::Impossible(suspect),
            steps,
        },
        None => undecided(steps),
    }
}

/// What is found comes to this.
fn ended_by(
    alloc: Global,
    found: Found,
    reduction: Reduction,
    stamps: &Stamps,
    reduced: &Transcript,
) -> Result<Round, Fault> {
    match found {
        Found::Yes(witness, steps) => Ok(Round {
            ended: Ended::Ordered(merged(alloc, reduction, stamps, witness.turns)?),
            steps,
        }),
        Found::Refuted(steps, objects) => Ok(refuted(objects, steps)),
        Found::Impossible(steps, place) => match begun_at(reduced, place) {
            Some(call) => Ok(Round {
                ended: Ended::Impossible(Suspect { call, place: None }),
                steps,
            }),
            None => Ok(undecided(steps)),
        },
        Found::GaveUp(steps) | Found::OutOfTime(steps, _) => Ok(undecided(steps)),
    }
}

/// These objects together refute all orders. The last of them is suspected alone: the others may be right without it.
fn refuted(objects: Vec<String>, steps: u64) -> Round {
    let mut objects = objects;
    match objects.pop() {
        Some(object) => Round {
            ended: Ended::Refuted(object),
            steps,
        },
        None => undecided(steps),
    }
}

/// The number of the call at a place, from 0, by begin marks.
fn begun_at(transcript: &Transcript, place: usize) -> Option<i32> {
    let mut left = place;
    'marks: for mark in &transcript.marks {
        if let Mark::Begin(begin) = mark {
            if left == 0 {
                return Some(begin.call);
            }
            left -= 1;
        }
    }
    None
}
