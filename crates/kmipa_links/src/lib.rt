//! The links of a recording's segments: none is missing, doubled or moved, and no call stands in two.
#![tactic(auto)]

mod gap;
mod gap_finding;
mod linking;
mod links;
mod numbers;

pub use gap::{Gap, Unlinked};
pub use linking::{link_segment, read_segment};
pub use links::Links;
