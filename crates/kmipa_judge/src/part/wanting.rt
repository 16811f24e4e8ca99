//! Of which objects a part of a recording has to tell.

use super::role::Role;
use std::alloc::{AllocError, Global};

/// These objects; or all.
#[derive(Drop)]
pub(crate) struct Wanted<'a> {
    ids: Vec<&'a str>,
    all: bool,
}

impl<'a> Wanted<'a> {
    /// All objects.
    pub(crate) fn all(alloc: Global) -> Wanted<'a> {
        Wanted {
            ids: Vec::new(alloc),
            all: true,
        }
    }

    /// Those that a call names.
    pub(crate) fn of(alloc: Global, role: &Role<'a>) -> Result<Wanted<'a>, AllocError> {
        Ok(Wanted {
            ids: Vec::from_slice(alloc, &role.names)?,
            all: false,
        })
    }

    /// Whether it has to tell of a call.
    pub(crate) fn wants(&self, role: &Role<'a>) -> bool {
        self.all || role.names_any(&self.ids)
    }

    /// It has to tell of the others that the call names, too. Whether there are any.
    pub(crate) fn add(&mut self, role: &Role<'a>) -> Result<bool, AllocError> {
        let mut is_more = false;
        if self.all {
            return Ok(is_more);
        }
        'names: for name in &role.names {
            if !self.ids.contains(name) {
                self.ids.push(*name)?;
                is_more = true;
            }
        }
        Ok(is_more)
    }
}
