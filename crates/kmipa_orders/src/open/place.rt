//! How far the tries at a place of a search have come.

use super::orders::Orders;
use super::related::{due_here, related};
use super::standing::Standing;
use super::tables::{Attempt, Tables, What};
use crate::picking::pick;
use crate::tried::Tried;
use kmipa_store::Ledger;
use std::alloc::{AllocError, Global};

/// What is tried at a place now.
#[derive(Clone, Copy, PartialEq, Eq)]
enum Stage {
    /// Nothing yet.
    Fresh,
    /// The open calls that can have left a date before what is answered next, and then the ended calls.
    Ended,
    /// The open calls, since no ended call was possible.
    Open,
    /// Nothing any more.
    Closed,
}

/// How far the tries at a place of a search have come.
#[derive(Drop)]
pub struct Place<'b> {
    /// The Time Stamp of the call before it.
    last: i64,
    /// Whether that one is open.
    is_behind_open: bool,
    stage: Stage,
    /// The open calls to try, the first one last.
    queue: Vec<Attempt<'b>>,
    /// How far the ended calls were tried.
    tried: Tried,
    /// The ended call that was tried last, and the order of its items.
    batch: usize,
    orders: Option<Orders>,
    /// Whether a call was possible here.
    pub was_possible: bool,
}

impl<'b> Place<'b> {
    /// The place ahead of all calls.
    pub fn first(alloc: Global) -> Place<'b> {
        Place {
            last: i64::MIN,
            is_behind_open: false,
            stage: Stage::Fresh,
            queue: Vec::new(alloc),
            tried: Tried::none(),
            batch: 0,
            orders: None,
            was_possible: false,
        }
    }

    /// The place behind a call that was taken.
    pub fn behind(alloc: Global, attempt: Attempt) -> Place<'b> {
        let is_behind_open = match attempt.what {
            What::Ended(_) => false,
            What::Open(_, _) => true,
        };
        Place {
            last: attempt.stamp,
            is_behind_open,
            ..Place::first(alloc)
        }
    }

    /// What is tried next here.
    pub fn next<'a, L: Ledger>(
        &mut self,
        alloc: Global,
        ledger: &L,
        tables: &Tables<'b, 'a>,
        standing: &Standing,
    ) -> Result<Option<Attempt<'b>>, AllocError> {
        if self.stage == Stage::Closed {
            return Ok(None);
        }
        if self.stage == Stage::Fresh {
            self.stage = Stage::Ended;
            self.queue = due_here(alloc, tables, standing, self.last)?;
        }
        if let Some(attempt) = self.queue.pop() {
            return Ok(Some(attempt));
        }
        if let Some(attempt) = self.next_ended(alloc, tables, standing)? {
            return Ok(Some(attempt));
        }
        if self.stage == Stage::Open || self.was_possible {
            return Ok(None);
        }
        self.stage = Stage::Open;
        self.queue = related(alloc, ledger, tables, standing, self.is_behind_open)?;
        Ok(self.queue.pop())
    }

    /// The ended call that is tried next: the last one in the next order of its items, or another one by place.
    fn next_ended<'a>(
        &mut self,
        alloc: Global,
        tables: &Tables<'b, 'a>,
        standing: &Standing,
    ) -> Result<Option<Attempt<'b>>, AllocError> {
        if self.next_order() {
            return Ok(tables.ended(self.batch));
        }
        self.orders = None;
        let Some(pick) = pick(
            &standing.remaining,
            &tables.own,
            &tables.wishes,
            self.tried,
            true,
        ) else {
            return Ok(None);
        };
        self.tried = pick.tried;
        self.batch = pick.place;
        if let Some(call) = tables.own.get(pick.place) {
            self.orders = Orders::of(alloc, call)?;
        }
        Ok(tables.ended(pick.place))
    }

    fn next_order(&mut self) -> bool {
        match &mut self.orders {
            Some(orders) => orders.next(),
            None => false,
        }
    }

    /// The places that a turn gives in this try.
    pub fn places_of(&self, alloc: Global, attempt: Attempt) -> Result<Vec<i32>, AllocError> {
        match (attempt.what, &self.orders) {
            (What::Ended(_), Some(orders)) => orders.places(alloc),
            _ => Ok(Vec::new(alloc)),
        }
    }

    /// A call was possible here.
    pub fn take(&mut self, attempt: Attempt) {
        self.was_possible = match attempt.what {
            What::Ended(_) => true,
            What::Open(_, _) => self.was_possible,
        };
    }

    /// Where it is known that it leads to nothing, nothing is tried here.
    pub fn arrive(&mut self, tried: Tried) {
        if tried.closed {
            self.stage = Stage::Closed;
        }
    }

    /// A call without effect was possible here: whatever run there is, there is one in which it comes first.
    pub fn close(&mut self) {
        self.stage = Stage::Closed;
    }
}
