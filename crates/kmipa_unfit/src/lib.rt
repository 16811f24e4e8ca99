//! Why a witness doesn't fit its transcript: what its first faulty turn names and gives, and what it should have.
#![tactic(auto)]

mod births;
mod explaining;
mod explanation;
mod fills;
mod orders;
mod parts;
mod turns;

pub use explaining::explain_witness;
pub use explanation::{
    Disorder, FarMoment, FormlessBirth, FormlessFill, MissingFill, OrderTold, Ordered, Part, Unfit,
    Unwanted, UnwantedPart, WitnessExplanation, Wrong,
};
