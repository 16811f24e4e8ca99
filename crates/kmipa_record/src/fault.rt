//! What is wrong with a file.

ghost use Rattle.std.specs.Prelude.{◌≡◌};

use kmipa_ttlv::FaultKind;
use std::alloc::AllocError;
use thiserror::Error;

/// What is wrong with a file, by number.
#[derive(Clone, Copy, Debug, PartialEq, Eq)]
pub enum RecordKind {
    /// The bytes at a place spell no item.
    Ttlv(FaultKind),
    /// The file has no first item, or it is not the file's header.
    Header,
    /// A call number below 1, or a begin mark with the number of an earlier one.
    Number,
    /// An end mark of a call that was not begun.
    EndWithoutBegin,
    /// An end mark of a call that has ended.
    SecondEnd,
    /// An entry with the identifier of an earlier one.
    Identifier,
    /// A record that is none of those that the file may have.
    Entry,
    /// The begin mark of one call more than a transcript may have.
    Calls,
    /// A read failed, or a byte came past the limit of an input.
    Device,
    /// Memory ran out.
    Memory,
    /// A seal that isn't that of its record and the seal before, or a close that tells another number of records.
    Seal,
    /// A sealed transcript that ends without a close.
    NoClose,
    /// A moment below the one before.
    Order,
}

impl RecordKind {
    ghost use Rattle.kmipa_record.specs.Kinds.{kind_number, kind_name};

    /// The number of the kind. None has 6, which once reported of a call without an end mark.
    pub fn number(self) -> u8
        ensures { result ≡ kind_number self }
    {
        match self {
            RecordKind::Ttlv(_) => 1,
            RecordKind::Header => 2,
            RecordKind::Number => 3,
            RecordKind::EndWithoutBegin => 4,
            RecordKind::SecondEnd => 5,
            RecordKind::Identifier => 7,
            RecordKind::Entry => 8,
            RecordKind::Calls => 9,
            RecordKind::Device => 10,
            RecordKind::Memory => 11,
            RecordKind::Seal => 12,
            RecordKind::NoClose => 13,
            RecordKind::Order => 14,
        }
    }

    /// The name of the kind; of `Ttlv` without that of the fault in it.
    pub fn name(self) -> &'static str
        ensures { result.now ≡ kind_name self }
    {
        match self {
            RecordKind::Ttlv(_) => "Ttlv",
            RecordKind::Header => "Header",
            RecordKind::Number => "Number",
            RecordKind::EndWithoutBegin => "EndWithoutBegin",
            RecordKind::SecondEnd => "SecondEnd",
            RecordKind::Identifier => "Identifier",
            RecordKind::Entry => "Entry",
            RecordKind::Calls => "Calls",
            RecordKind::Device => "Device",
            RecordKind::Memory => "Memory",
            RecordKind::Seal => "Seal",
            RecordKind::NoClose => "NoClose",
            RecordKind::Order => "Order",
        }
    }
}

impl From<AllocError> for RecordKind {
    ghost use Rattle.kmipa_record.specs.declared.fault.RecordKind.TheVariants.{Memory};

    ghost from_gives = { λ _ e. e ≡ Memory };

    fn from(_e: AllocError) -> RecordKind {
        RecordKind::Memory
    }
}

/// The first thing that is wrong with a file, and the place of it, counted in bytes from the file's first.
#[derive(Clone, Copy, Debug, PartialEq, Eq, Error)]
#[error("{kind:?} at {offset}")]
pub struct RecordFault {
    pub offset: u64,
    pub kind: RecordKind,
}
