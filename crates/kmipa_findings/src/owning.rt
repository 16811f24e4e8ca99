//! Whose the objects are along a search, which goes back.

use kmipa_aside::Owned;
use kmipa_msgs::Visibility;
use kmipa_trail::{births_in, own_births};
use kmipa_turns::Step;
use std::alloc::{AllocError, Global};

/// Whose the objects are, and what they were before each call that is taken.
#[derive(Drop)]
pub(crate) struct Owners<'a> {
    now: Vec<Owned<'a>>,
    before: Vec<Before<'a>>,
}

/// Whose the objects were before a call.
#[derive(Drop)]
enum Before<'a> {
    /// As they are behind it.
    Same,
    /// The first of them, so many.
    First(usize),
    /// These.
    These(Vec<Owned<'a>>),
}

impl<'a> Owners<'a> {
    /// No call is taken.
    pub(crate) fn new(alloc: Global, owners: Vec<Owned<'a>>) -> Owners<'a> {
        Owners {
            now: owners,
            before: Vec::new(alloc),
        }
    }

    pub(crate) fn now(&self) -> &[Owned<'a>] {
        self.now.as_slice()
    }

    /// A call is taken that brings nothing.
    pub(crate) fn keep(&mut self) -> Result<(), AllocError> {
        self.before.push(Before::Same)?;
        Ok(())
    }

    /// A step is taken: what it gives birth to is its client's.
    pub(crate) fn take(
        &mut self,
        alloc: Global,
        visibility: Visibility,
        step: &Step<'a>,
    ) -> Result<(), AllocError> {
        if visibility == Visibility::Everyone {
            return self.keep();
        }
        let born = births_in(alloc, &step.taken)?;
        if born.is_empty() {
            return self.keep();
        }
        if is_any_owned(&self.now, &born) {
            let now = Vec::from_slice(alloc, &self.now)?;
            self.before.push(Before::These(now))?;
        } else {
            self.before.push(Before::First(self.now.len()))?;
        }
        own_births(alloc, visibility, &mut self.now, step)
    }

    /// The call that was taken last is given back.
    pub(crate) fn give_back(&mut self) {
        match self.before.pop() {
            Some(Before::First(count)) => self.now.truncate(count),
            Some(Before::These(others)) => self.now = others,
            Some(Before::Same) | None => {}
        }
    }
}

fn is_any_owned(owners: &[Owned], ids: &[&str]) -> bool {
    'ids: for id in ids {
        if is_owned(owners, *id) {
            return true;
        }
    }
    false
}

fn is_owned(owners: &[Owned], id: &str) -> bool {
    'owners: for owned in owners {
        if owned.id == id {
            return true;
        }
    }
    false
}
