//! Why a call was not taken.

use kmipa_ops::Why;

/// Why a call was not taken. The ledger is then as before.
#[derive(Clone, Copy, PartialEq, Eq)]
pub enum CallRefusal {
    /// The item at this place, counted from 1, is the first that is impossible, for this reason, the lowest.
    Impossible(usize, Why),
    /// Memory ran out.
    Memory,
}
