//! Why a message can't be read.

ghost use Rattle.std.specs.Prelude.{◌≡◌};
ghost use Rattle.kmipa_msgs.specs.declared.fault.ReadFault.TheVariants;

use crate::kind::OutsideKind;
use std::alloc::{AllocError, AllocFailed};
use thiserror::Error;

/// Where a message is outside the profile: the lowest item that is, and its lowest kind.
#[derive(Clone, Copy, Debug, PartialEq, Eq, Error)]
#[error("{kind:?} at item {item}")]
pub struct Outside {
    /// The Batch Item, counted from 1; 0 is the message itself.
    pub item: usize,
    pub kind: OutsideKind,
}

/// Why a message wasn't read.
#[derive(Clone, Copy, Debug, PartialEq, Eq, Error)]
pub enum ReadFault {
    /// The message is outside the profile.
    #[error(transparent)]
    Outside(Outside),
    /// Memory ran out, which says nothing of the message.
    #[error("memory ran out")]
    Memory,
}

/// A kind that is reported of no item is that of the message itself.
impl From<OutsideKind> for ReadFault {
    ghost from_gives = { λ kind e. e ≡ TheVariants.Outside (record { item = 0; kind = kind }) };

    fn from(kind: OutsideKind) -> ReadFault {
        ReadFault::Outside(Outside { item: 0, kind })
    }
}

impl From<AllocError> for ReadFault {
    ghost from_gives = { λ _ e. e ≡ TheVariants.Memory };

    fn from(_e: AllocError) -> ReadFault {
        ReadFault::Memory
    }
}

impl<T: Drop> From<AllocFailed<T>> for ReadFault {
    ghost from_gives = { λ _ e. e ≡ TheVariants.Memory };

    fn from(_e: AllocFailed<T>) -> ReadFault {
        ReadFault::Memory
    }
}
