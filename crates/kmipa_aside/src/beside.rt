//! A Locate and its answer, beside what is set aside.

use kmipa_msgs::{Answer, Ask};

/// What is asked and answered of those identifiers alone that aren't set aside.
#[derive(Drop)]
pub(crate) struct Beside<'p> {
    pub ask: Ask<'p>,
    pub answer: Answer<'p>,
}
