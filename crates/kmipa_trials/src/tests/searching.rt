//! Searches: the witness that each finds, in how many steps, and what a watcher is told.

use super::check;
use super::reading::{declared, transcript_of};
use super::spelled::*;
use kmipa_check::CheckFault;
use kmipa_orders::{Found, Unwatched, Watch};
use kmipa_record::Turn;
use kmipa_search::{search, search_open, search_watched};
use std::process::Abort;

// More steps than any search here makes.
const BUDGET: u64 = 100;

// The number of a call that a turn takes, and whether the turn gives its answer.
type Taken = (i32, bool);

// What two turns take.
fn both(turns: &[Turn]) -> Option<(Taken, Taken)> {
    match turns {
        [first, second] => Some((
            (first.call, first.answer.is_some()),
            (second.call, second.answer.is_some()),
        )),
        _ => None,
    }
}

// Checks that a search found a witness of two turns that take this, in so many steps.
fn check_found(
    rt: &impl Abort,
    found: Result<Found, CheckFault>,
    taken: (Taken, Taken),
    steps: u64,
) {
    let Ok(Found::Yes(witness, tried)) = found else {
        rt.panic("no witness");
    };
    check(rt, both(&witness.turns) == Some(taken), "other turns");
    check(rt, tried == steps, "another number of steps");
}

// Checks that a search ended in so many steps, since its seconds were over.
fn check_over(rt: &impl Abort, found: Result<Found, CheckFault>, steps: u64) {
    let Ok(Found::OutOfTime(tried, seconds)) = found else {
        rt.panic("no end in time");
    };
    check(rt, tried == steps, "another number of steps");
    check(rt, seconds == 7, "other seconds");
}

// Call 1 is taken, call 2 is impossible behind it, and then call 2 is taken, and call 1.
#[test]
fn read_goes_ahead(rt: HostRuntime) {
    let alloc = rt.alloc();
    let transcript = transcript_of(&rt, alloc, &OVERLAPPING);
    let declaration = declared(&rt, alloc, &[DECLARATION, ENTRY]);
    let found = search(alloc, &transcript, &declaration, BUDGET);
    check_found(&rt, found, ((2, false), (1, false)), 4);
}

// Counts what it is told.
#[derive(Drop)]
struct Counts {
    steps: u64,
    taken: u64,
    given_back: u64,
}

impl Watch for Counts {
    ghost seconds = { λ counts. 0 };

    fn step(&mut self, _steps: u64, _taken: usize) {
        self.steps = self.steps.saturating_add(1);
    }

    fn taken(&mut self, _call: i32) {
        self.taken = self.taken.saturating_add(1);
    }

    fn given_back(&mut self) {
        self.given_back = self.given_back.saturating_add(1);
    }

    fn over(&self) -> Option<u64> {
        None
    }
}

// The same four tries: three calls are taken, and the first of them is given back.
#[test]
fn watcher_is_told(rt: HostRuntime) {
    let alloc = rt.alloc();
    let transcript = transcript_of(&rt, alloc, &OVERLAPPING);
    let declaration = declared(&rt, alloc, &[DECLARATION, ENTRY]);
    let mut told = Counts {
        steps: 0,
        taken: 0,
        given_back: 0,
    };
    let found = search_watched(alloc, &transcript, &declaration, BUDGET, &mut told);
    check_found(&rt, found, ((2, false), (1, false)), 4);
    check(&rt, told.steps == 4, "other steps");
    check(&rt, told.taken == 3, "other calls taken");
    check(&rt, told.given_back == 1, "other calls given back");
}

// Its seconds are over behind so many steps.
#[derive(Drop)]
struct Ends {
    steps: u64,
    most: u64,
}

impl Watch for Ends {
    ghost seconds = { λ ends. 7 };

    fn step(&mut self, _steps: u64, _taken: usize) {
        self.steps = self.steps.saturating_add(1);
    }

    fn taken(&mut self, _call: i32) {}

    fn given_back(&mut self) {}

    fn over(&self) -> Option<u64> {
        if self.steps >= self.most {
            Some(7)
        } else {
            None
        }
    }
}

// The same search, of which the seconds are over behind its third try.
#[test]
fn search_ends_in_time(rt: HostRuntime) {
    let alloc = rt.alloc();
    let transcript = transcript_of(&rt, alloc, &OVERLAPPING);
    let declaration = declared(&rt, alloc, &[DECLARATION, ENTRY]);
    let mut ends = Ends { steps: 0, most: 3 };
    let found = search_watched(alloc, &transcript, &declaration, BUDGET, &mut ends);
    check_over(&rt, found, 3);
}

// They are as many as it needs, and nothing changes.
#[test]
fn search_has_time(rt: HostRuntime) {
    let alloc = rt.alloc();
    let transcript = transcript_of(&rt, alloc, &OVERLAPPING);
    let declaration = declared(&rt, alloc, &[DECLARATION, ENTRY]);
    let mut ends = Ends { steps: 0, most: 4 };
    let found = search_watched(alloc, &transcript, &declaration, BUDGET, &mut ends);
    check_found(&rt, found, ((2, false), (1, false)), 4);
}

// A search that takes open calls ends so too.
#[test]
fn open_search_ends_in_time(rt: HostRuntime) {
    let alloc = rt.alloc();
    let transcript = transcript_of(&rt, alloc, &OPEN_REGISTER);
    let declaration = declared(&rt, alloc, &[DECLARATION]);
    let mut ends = Ends { steps: 0, most: 2 };
    let found = search_open(alloc, &transcript, &declaration, BUDGET, &mut ends);
    check_over(&rt, found, 2);
}

// The Get is impossible, and then the Register is taken with an answer of the witness, and the Get.
#[test]
fn open_call_is_taken(rt: HostRuntime) {
    let alloc = rt.alloc();
    let transcript = transcript_of(&rt, alloc, &OPEN_REGISTER);
    let declaration = declared(&rt, alloc, &[DECLARATION]);
    let found = search_open(alloc, &transcript, &declaration, BUDGET, &mut Unwatched {});
    check_found(&rt, found, ((1, true), (2, false)), 3);
}
