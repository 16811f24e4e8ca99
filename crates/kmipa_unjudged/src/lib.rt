//! What of a recording isn't judged: which operations were passed, how often, and which identifiers are set aside.
#![tactic(auto)]

mod following;
mod laws;
mod named;
mod naming;
mod passing;
mod rank;
mod ranking;
mod step;
mod told;
mod unjudged;

pub use laws::ranks_are_right;
pub use named::{Named, Origin};
pub use rank::Rank;
pub use unjudged::{Unjudged, unjudged_of};
