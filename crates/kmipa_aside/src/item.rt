//! One judged item of a call.

use kmipa_msgs::{Answer, Ask};
use kmipa_passed::Held;

/// A judged item with its answer, at its moment, in seconds since 1970-01-01T00:00:00Z, and what the ID Placeholder held before it.
#[derive(Clone, Copy)]
pub struct Item<'p> {
    pub moment: i64,
    pub before: Held<'p>,
    pub ask: &'p Ask<'p>,
    pub answer: &'p Answer<'p>,
}
