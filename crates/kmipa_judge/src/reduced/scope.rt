//! What a search is about.

use super::names::Names;
use super::suspects::Suspects;

/// Of which objects the calls are searched: of all that aren't set aside, or of one alone; but for the items that are suspected.
#[derive(Clone, Copy)]
pub(crate) struct Scope<'n, 'a> {
    pub names: &'n Names<'a>,
    pub suspects: &'n Suspects,
    pub only: Option<&'n str>,
}

impl<'n, 'a> Scope<'n, 'a> {
    /// Whether an object is out of the scope.
    pub(crate) fn leaves_out(&self, id: &'a str) -> bool {
        match self.only {
            Some(only) => id != only,
            None => self.names.is_aside(id) || self.suspects.has_object(id),
        }
    }
}
