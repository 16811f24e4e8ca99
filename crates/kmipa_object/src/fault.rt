//! What is wrong with a transition.

use thiserror::Error;

/// The object's state does not allow this.
#[derive(Clone, Copy, Debug, PartialEq, Eq, Error)]
#[error("the object's state does not allow this")]
pub struct WrongState;
