//! The check of a witness where some items aren't judged, some objects are set aside, and some calls can't be read.
#![tactic(auto)]

mod back;
mod checking;
mod ending;
mod fault;
mod late;
mod laws;
mod opening;
mod order;
mod owners;
mod replaying;
mod step;
mod tally;
mod terms;
mod verdict;
mod whole;

pub use checking::{check, check_opened};
pub use ending::check_in_sight;
pub use fault::Fault;
pub use laws::{accepted_is_yes, hidden_is_others, owners_are_told, refused_is_never};
pub use opening::{open_world, set_rest_aside};
pub use order::steps_of;
pub use owners::{births_in, identity, own_births, owners_at_first};
pub use replaying::replay;
pub use step::{sight_of, take_step};
pub use tally::Tally;
pub use terms::Terms;
pub use verdict::Verdict;
