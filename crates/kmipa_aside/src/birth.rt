//! A new object, as it is asked for and answered.

use kmipa_msgs::Registered;
use kmipa_ops::New;

/// What is asked for, and what is answered.
#[derive(Clone, Copy)]
pub(crate) struct Birth<'p> {
    pub new: New<'p>,
    pub answered: Registered<'p>,
}
