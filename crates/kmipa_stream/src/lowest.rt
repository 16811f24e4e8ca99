//! The first message of a transcript that is outside the profile.

use kmipa_check::{CheckFault, Side};
use kmipa_msgs::Outside;
use std::alloc::AllocError;

/// A message that is outside the profile.
#[derive(Clone, Copy)]
pub(crate) struct Found {
    /// The place of the begin mark of its call.
    pub begin: usize,
    /// The number of its call.
    pub number: i32,
    pub side: Side,
    pub outside: Outside,
}

impl Found {
    ghost use Rattle.std.specs.Prelude.{◌≡◌, List, Some, IfOk};
    ghost use Rattle.kmipa_record.specs.Marks.{MarkOf};
    ghost use Rattle.kmipa_check.specs.CallReading.{MarkFault};
    ghost use Rattle.kmipa_stream.specs.Ahead.{IsFound, IsLower};

    /// The fault that it is.
    pub fn fault(self) -> CheckFault
        ensures { result ≡ CheckFault.Outside self.number self.side self.outside }
    {
        CheckFault::Outside(self.number, self.side, self.outside)
    }

    /// The first of what was found and a fault of the call that begins at this place. It is an `Err` where memory ran out.
    pub fn noted(
        lowest: Option<Found>,
        begin: usize,
        fault: CheckFault,
    ) -> Result<Found, AllocError>
        ensures { (marks : List MarkOf) → IsFound marks lowest → MarkFault marks begin fault
            → IfOk result (λ found. IsFound marks (Some found) × IsLower lowest begin found) }
    {
        let CheckFault::Outside(number, side, outside) = fault else {
            return Err(AllocError);
        };
        match lowest {
            Some(lowest) if lowest.begin <= begin => Ok(lowest),
            _ => Ok(Found {
                begin,
                number,
                side,
                outside,
            }),
        }
    }
}
