//! The search for a witness, under a budget.
#![tactic(auto)]

mod accepted;
mod births;
mod by_births;
mod by_lives;
mod by_moments;
mod by_turns;
mod made_turns;
mod open_answers;
mod open_searching;
mod searching;
mod sights;

pub use open_searching::{search_open, search_open_calls};
pub use searching::{search, search_calls, search_watched};
