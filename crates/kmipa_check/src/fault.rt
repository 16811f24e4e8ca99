//! Why a check gives no verdict.

use kmipa_msgs::Outside;
use std::alloc::{AllocError, AllocFailed};
use thiserror::Error;

/// Whose message it is.
#[derive(Clone, Copy, Debug, PartialEq, Eq)]
pub enum Side {
    /// The request.
    Client,
    /// The response.
    Server,
}

/// Why a check gives no verdict.
#[derive(Clone, Copy, Debug, PartialEq, Eq, Error)]
pub enum CheckFault {
    /// A message of the call of this number is outside the profile: the first, by begin marks, request before response.
    #[error("call {0}, {1:?}: {2}")]
    Outside(i32, Side, Outside),
    /// The witness isn't an order of the calls.
    #[error("{0}")]
    Witness(WitnessFault),
    /// Memory ran out.
    #[error("memory ran out")]
    Memory,
}

impl CheckFault {
    ghost use Rattle.std.specs.Prelude.{◌≡◌};
    ghost use Rattle.kmipa_check.specs.Kinds.{fault_number};

    /// The number of the fault.
    pub fn number(self) -> u8
        ensures { result ≡ fault_number self }
    {
        match self {
            CheckFault::Outside(_, _, _) => 1,
            CheckFault::Witness(_) => 2,
            CheckFault::Memory => 3,
        }
    }
}

/// What is wrong with a witness for a transcript.
#[derive(Clone, Copy, Debug, PartialEq, Eq, Error)]
#[error("{kind:?} at {at}")]
pub struct WitnessFault {
    /// The first faulty turn, counted from 1; for `LeftOut` the number of the first call without a turn.
    pub at: usize,
    pub kind: WitnessKind,
}

/// The kinds of faults of a witness. In one turn the first is reported in the order 1, 2, 7, 8, 9, 12, 10, 11, 4, 5, 6, 13, 14, 15, and
/// `LeftOut` after all others.
#[derive(Clone, Copy, Debug, PartialEq, Eq)]
pub enum WitnessKind {
    /// The turn names no call of the transcript.
    UnknownCall = 1,
    /// An earlier turn names the same call.
    Twice = 2,
    /// No turn names the call.
    LeftOut = 3,
    /// A fill is given where none is wanted, or a second one for one item.
    FillNotWanted = 4,
    /// A payload is wanted, and no fill gives it.
    FillMissing = 5,
    /// A fill isn't of the form of its operation's payload.
    FillForm = 6,
    /// An answer is given to a call that has ended.
    AnswerNotWanted = 7,
    /// No answer is given to a call that has not ended.
    AnswerMissing = 8,
    /// An answer is outside the profile as a response to its call.
    AnswerForm = 9,
    /// An order of items is given to a call that has one.
    OrderNotWanted = 10,
    /// An order of items isn't one of the answered items.
    OrderForm = 11,
    /// A moment is farther from the stamp of the response than the declaration allows.
    MomentForm = 12,
    /// A birth is given where no object is brought forth, or a second one for one item.
    BirthNotWanted = 13,
    /// A birth gives no attributes, or has a fault, or gives one that the server may not give of its own.
    BirthForm = 14,
    /// A place is set aside: as yet none may be.
    AsideForm = 15,
}

impl WitnessKind {
    ghost use Rattle.std.specs.Prelude.{◌≡◌};
    ghost use Rattle.kmipa_check.specs.Kinds.{kind_name, kind_number};

    /// The number of the kind.
    pub fn number(self) -> u8
        ensures { result ≡ kind_number self }
    {
        self as u8
    }

    /// The name of the kind.
    pub fn name(self) -> &'static str
        ensures { result.now ≡ kind_name self }
    {
        match self {
            WitnessKind::UnknownCall => "UnknownCall",
            WitnessKind::Twice => "Twice",
            WitnessKind::LeftOut => "LeftOut",
            WitnessKind::FillNotWanted => "FillNotWanted",
            WitnessKind::FillMissing => "FillMissing",
            WitnessKind::FillForm => "FillForm",
            WitnessKind::AnswerNotWanted => "AnswerNotWanted",
            WitnessKind::AnswerMissing => "AnswerMissing",
            WitnessKind::AnswerForm => "AnswerForm",
            WitnessKind::OrderNotWanted => "OrderNotWanted",
            WitnessKind::OrderForm => "OrderForm",
            WitnessKind::MomentForm => "MomentForm",
            WitnessKind::BirthNotWanted => "BirthNotWanted",
            WitnessKind::BirthForm => "BirthForm",
            WitnessKind::AsideForm => "AsideForm",
        }
    }
}

/// Why a turn makes no step with the call that it names.
#[derive(Clone, Copy, Debug, PartialEq, Eq, Error)]
pub enum StepFault {
    /// What the turn gives doesn't fit the call.
    #[error("{0:?}")]
    Unfit(WitnessKind),
    /// Memory ran out.
    #[error("memory ran out")]
    Memory,
}

impl From<AllocError> for StepFault {
    ghost use Rattle.std.specs.Prelude.{◌≡◌};
    ghost use Rattle.kmipa_check.specs.declared.fault.StepFault.TheVariants.{Memory};

    ghost from_gives = { λ _ e. e ≡ Memory };

    fn from(_e: AllocError) -> StepFault {
        StepFault::Memory
    }
}

impl<T: Drop> From<AllocFailed<T>> for StepFault {
    ghost use Rattle.std.specs.Prelude.{◌≡◌};
    ghost use Rattle.kmipa_check.specs.declared.fault.StepFault.TheVariants.{Memory};

    ghost from_gives = { λ _ e. e ≡ Memory };

    fn from(_e: AllocFailed<T>) -> StepFault {
        StepFault::Memory
    }
}

impl From<AllocError> for CheckFault {
    ghost use Rattle.std.specs.Prelude.{◌≡◌};
    ghost use Rattle.kmipa_check.specs.declared.fault.CheckFault.TheVariants.{Memory};

    ghost from_gives = { λ _ e. e ≡ Memory };

    fn from(_e: AllocError) -> CheckFault {
        CheckFault::Memory
    }
}

impl<T: Drop> From<AllocFailed<T>> for CheckFault {
    ghost use Rattle.std.specs.Prelude.{◌≡◌};
    ghost use Rattle.kmipa_check.specs.declared.fault.CheckFault.TheVariants.{Memory};

    ghost from_gives = { λ _ e. e ≡ Memory };

    fn from(_e: AllocFailed<T>) -> CheckFault {
        CheckFault::Memory
    }
}
