//! Which calls are taken, and which remain.

use super::tables::{Attempt, Tables, What};
use crate::remaining::Remaining;
use crate::taken::TakenCalls;
use std::alloc::{AllocError, Global};

/// Which calls are taken, and which remain.
#[derive(Drop)]
pub struct Standing {
    /// The ended calls that remain.
    pub remaining: Remaining,
    /// The calls that are taken, by their places.
    pub taken: TakenCalls,
    /// Whether each open call is taken.
    opened: Vec<bool>,
}

impl Standing {
    /// None is taken.
    pub fn new(alloc: Global, tables: &Tables) -> Result<Standing, AllocError> {
        Ok(Standing {
            remaining: Remaining::new(alloc, &tables.own)?,
            taken: TakenCalls::new(alloc, tables.calls.len())?,
            opened: Vec::from_elem(alloc, false, tables.opens.len())?,
        })
    }

    /// Whether no ended call remains.
    pub fn is_done(&self, tables: &Tables) -> bool {
        self.remaining.is_empty(&tables.own)
    }

    /// A call is taken.
    pub fn take(&mut self, tables: &Tables, attempt: Attempt) {
        match attempt.what {
            What::Ended(number) => self.remaining.take(&tables.own, number),
            What::Open(number, _) => set(&mut self.opened, number, true),
        }
        if attempt.call < tables.calls.len() {
            self.taken.take(attempt.call);
        }
    }

    /// The call that was taken last is left again.
    pub fn give_back(&mut self, tables: &Tables, attempt: Attempt) {
        match attempt.what {
            What::Ended(number) => self.remaining.give_back(&tables.own, number),
            What::Open(number, _) => set(&mut self.opened, number, false),
        }
        if attempt.call < tables.calls.len() {
            self.taken.give_back(attempt.call);
        }
    }

    /// Whether an open call may be taken: it isn't, and no ended call that remains ended before it began.
    pub fn may_open(&self, tables: &Tables, number: usize) -> bool {
        if self.opened.get(number).copied() != Some(false) {
            return false;
        }
        let Some(open) = tables.opens.get(number) else {
            return false;
        };
        match tables.own.get(self.remaining.soonest()) {
            Some(soonest) => open.begin < soonest.end,
            None => false,
        }
    }

    /// The least Time Stamp of the ended calls that remain.
    pub fn stamp(&self, tables: &Tables) -> i64 {
        match tables.own.get(self.remaining.least()) {
            Some(least) => least.response.stamp,
            None => i64::MIN,
        }
    }
}

/// Writes a mark at a place, if there is one.
fn set(marks: &mut Vec<bool>, place: usize, mark: bool) {
    if place < marks.len() {
        marks[place] = mark;
    }
}
