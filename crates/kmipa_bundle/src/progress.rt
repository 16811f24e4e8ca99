//! How far the places of a call have come.

use crate::counts::Counts;
use kmipa_passed::Held;

/// What the ID Placeholder holds behind the places that were taken, and how many of them are judged.
#[derive(Clone, Copy)]
pub(crate) struct Progress<'p> {
    pub held: Held<'p>,
    pub counts: Counts,
}
