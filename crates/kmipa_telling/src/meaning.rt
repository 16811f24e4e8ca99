//! Faults with what they mean.

use kmipa_check::AuditFault;
use kmipa_outside::OutsideExplanation;
use kmipa_unfit::WitnessExplanation;

/// A fault, and what it means.
#[derive(Drop)]
pub struct FaultTold {
    pub fault: AuditFault,
    /// None where the line of the fault is all that is told.
    pub meaning: Option<FaultMeaning>,
}

/// What a fault means.
#[derive(Drop)]
pub enum FaultMeaning {
    /// Why a message is outside.
    Outside(OutsideExplanation),
    /// Why a witness doesn't fit its transcript.
    Witness(WitnessExplanation),
}

impl FaultTold {
    ghost use Rattle.std.specs.Prelude.{◌≡◌};
    ghost use Rattle.kmipa_telling.specs.FaultsTold.{bare_fault};

    /// A fault of which its line is all that is told.
    pub fn bare(fault: AuditFault) -> FaultTold
        ensures { result ≡ bare_fault fault }
    {
        FaultTold {
            fault,
            meaning: None,
        }
    }
}
