//! What stands in the way of an order, and is left out of the search from then on.

use std::alloc::{AllocError, Global};

/// An item of a call, by its place from 0, or the whole call.
#[derive(Clone, Copy, PartialEq, Eq)]
pub(crate) struct Suspect {
    pub call: i32,
    pub place: Option<usize>,
}

/// Items, and objects of which all items are suspected.
#[derive(Drop)]
pub(crate) struct Suspects {
    items: Vec<Suspect>,
    objects: Vec<String>,
}

impl Suspects {
    pub(crate) fn none(alloc: Global) -> Suspects {
        Suspects {
            items: Vec::new(alloc),
            objects: Vec::new(alloc),
        }
    }

    /// Whether an item is suspected, or its whole call.
    pub(crate) fn has_item(&self, call: i32, place: usize) -> bool {
        self.has(call, None) || self.has(call, Some(place))
    }

    /// Whether a whole call is suspected.
    pub(crate) fn has_call(&self, call: i32) -> bool {
        self.has(call, None)
    }

    fn has(&self, call: i32, place: Option<usize>) -> bool {
        self.items.contains(&Suspect { call, place })
    }

    /// Whether all items about an object are suspected.
    pub(crate) fn has_object(&self, id: &str) -> bool {
        is_among(&self.objects, id)
    }

    /// One item more is suspected. Whether it wasn't before.
    pub(crate) fn add_item(&mut self, suspect: Suspect) -> Result<bool, AllocError> {
        if self.items.contains(&suspect) {
            return Ok(false);
        }
        self.items.push(suspect)?;
        Ok(true)
    }

    /// All items about an object are suspected.
    pub(crate) fn add_object(&mut self, id: String) -> Result<(), AllocError> {
        self.objects.push(id)?;
        Ok(())
    }
}

fn is_among(ids: &[String], id: &str) -> bool {
    'ids: for one in ids {
        if one.as_str() == id {
            return true;
        }
    }
    false
}
