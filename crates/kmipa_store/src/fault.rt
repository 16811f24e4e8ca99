//! What a ledger refuses.

use std::alloc::{AllocError, AllocFailed};
use thiserror::Error;

/// Why a call of a ledger was refused. It then changed nothing.
#[derive(Clone, Copy, Debug, PartialEq, Eq, Error)]
pub enum StoreFault {
    /// An object has the identifier.
    #[error("an object has the identifier")]
    IdentifierTaken = 1,
    /// Other bytes are known of the secret.
    #[error("other bytes are known of the secret")]
    BytesDiffer = 2,
    /// The rule admits no bytes, or not these.
    #[error("the rule admits no bytes, or not these")]
    LengthImpossible = 3,
    /// Memory ran out.
    #[error("memory ran out")]
    Memory = 4,
}

impl StoreFault {
    ghost use Rattle.std.specs.Prelude.{◌≡◌};
    ghost use Rattle.kmipa_store.specs.Faults.{fault_name, fault_number};

    /// Of several that hold the lowest is told.
    pub fn number(self) -> u8
        ensures { result ≡ fault_number self }
    {
        self as u8
    }

    /// Its name.
    pub fn name(self) -> &'static str
        ensures { result.now ≡ fault_name self }
    {
        match self {
            StoreFault::IdentifierTaken => "IdentifierTaken",
            StoreFault::BytesDiffer => "BytesDiffer",
            StoreFault::LengthImpossible => "LengthImpossible",
            StoreFault::Memory => "Memory",
        }
    }
}

impl From<AllocError> for StoreFault {
    ghost use Rattle.std.specs.Prelude.{◌≡◌};
    ghost use Rattle.kmipa_store.specs.declared.fault.StoreFault.TheVariants.{Memory};

    ghost from_gives = { λ _ e. e ≡ Memory };

    fn from(_e: AllocError) -> StoreFault {
        StoreFault::Memory
    }
}

impl<T: Drop> From<AllocFailed<T>> for StoreFault {
    ghost use Rattle.std.specs.Prelude.{◌≡◌};
    ghost use Rattle.kmipa_store.specs.declared.fault.StoreFault.TheVariants.{Memory};

    ghost from_gives = { λ _ e. e ≡ Memory };

    fn from(_e: AllocFailed<T>) -> StoreFault {
        StoreFault::Memory
    }
}
