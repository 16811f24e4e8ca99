//! Why a part of a message is not read.

ghost use Rattle.std.specs.Prelude.{◌≡◌};
ghost use Rattle.kmipa_msgs.specs.declared.reading.unread.Unread.TheVariants;

use crate::fault::{Outside, ReadFault};
use crate::kind::OutsideKind;
use kmipa_attrs::AttrFault;
use std::alloc::{AllocError, AllocFailed};

/// Why a part of a message is not read.
#[derive(Clone, Copy, PartialEq, Eq)]
pub enum Unread {
    /// The part is outside the profile for this reason.
    Outside(OutsideKind),
    /// Memory ran out, which says nothing of the part.
    Memory,
}

impl Unread {
    ghost use Rattle.kmipa_msgs.specs.Yields.{fault_at};

    /// The fault of the message where the part is this item's, counted from 1.
    pub fn at(self, item: usize) -> ReadFault
        ensures { result ≡ fault_at item self }
    {
        match self {
            Unread::Outside(kind) => ReadFault::Outside(Outside { item, kind }),
            Unread::Memory => ReadFault::Memory,
        }
    }
}

impl From<OutsideKind> for Unread {
    ghost from_gives = { λ kind e. e ≡ TheVariants.Outside kind };

    fn from(kind: OutsideKind) -> Unread {
        Unread::Outside(kind)
    }
}

/// Attributes that say no set are outside for one reason, whatever is wrong with them.
impl From<AttrFault> for Unread {
    ghost use Rattle.kmipa_msgs.specs.Yields.{attributes_unread};

    ghost from_gives = { λ fault e. e ≡ attributes_unread fault };

    fn from(fault: AttrFault) -> Unread {
        match fault {
            AttrFault::Memory => Unread::Memory,
            _ => Unread::Outside(OutsideKind::Attribute),
        }
    }
}

impl From<AllocError> for Unread {
    ghost from_gives = { λ _ e. e ≡ TheVariants.Memory };

    fn from(_e: AllocError) -> Unread {
        Unread::Memory
    }
}

impl<T: Drop> From<AllocFailed<T>> for Unread {
    ghost from_gives = { λ _ e. e ≡ TheVariants.Memory };

    fn from(_e: AllocFailed<T>) -> Unread {
        Unread::Memory
    }
}
