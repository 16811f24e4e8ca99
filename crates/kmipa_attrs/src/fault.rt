//! What is wrong with attributes.

ghost use Rattle.std.specs.Prelude.{◌≡◌};
ghost use Rattle.kmipa_attrs.specs.declared.fault.AttrFault.TheVariants.{Memory};
ghost use Rattle.kmipa_attrs.specs.Attributes.{attr_number};

use crate::readings::Numbered;
use std::alloc::{AllocError, AllocFailed};
use thiserror::Error;

/// Why an item says no set of attributes: of the first three the one with the lowest number that holds anywhere in the item.
#[derive(Clone, Copy, Debug, PartialEq, Eq, Error)]
pub enum AttrFault {
    /// The item isn't a Structure, a judged attribute is of another type, or a Name has no text value or a type that is no number.
    #[error("WrongType")]
    WrongType = 1,
    /// An attribute that has one value is there a second time.
    #[error("Repeated")]
    Repeated = 2,
    /// A client gives State, Initial, Destroy or Compromise Date, or Unique Identifier.
    #[error("NotForClients")]
    NotForClients = 3,
    /// Memory ran out.
    #[error("Memory")]
    Memory = 4,
}

impl AttrFault {
    ghost use Rattle.kmipa_attrs.specs.Attributes.{attr_fault_name};

    /// The number in reports.
    pub fn number(self) -> u8
        ensures { result ≡ attr_number self }
    {
        self as u8
    }

    /// The name in reports.
    pub fn name(self) -> &'static str
        ensures { result.now ≡ attr_fault_name self }
    {
        match self {
            AttrFault::WrongType => "WrongType",
            AttrFault::Repeated => "Repeated",
            AttrFault::NotForClients => "NotForClients",
            AttrFault::Memory => "Memory",
        }
    }
}

impl Numbered for AttrFault {
    ghost number = { attr_number };

    fn number(self) -> u8 {
        AttrFault::number(self)
    }
}

impl From<AllocError> for AttrFault {
    ghost from_gives = { λ _ e. e ≡ Memory };

    fn from(_e: AllocError) -> AttrFault {
        AttrFault::Memory
    }
}

impl<T: Drop> From<AllocFailed<T>> for AttrFault {
    ghost from_gives = { λ _ e. e ≡ Memory };

    fn from(_e: AllocFailed<T>) -> AttrFault {
        AttrFault::Memory
    }
}
