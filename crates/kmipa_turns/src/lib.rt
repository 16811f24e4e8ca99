//! What a turn of a witness makes of its recorded call, where some items aren't judged and some calls can't be read.
#![tactic(auto)]

mod answered;
mod asides;
mod completing;
mod filling;
mod item;
mod laws;
mod placed;
mod readable;
mod reading;
mod recorded;
mod sides;
mod step;
mod turn;
mod unreadable;

pub use laws::step_is_takable;
pub use reading::recorded_calls;
pub use recorded::Recorded;
pub use step::{Step, Taken};
pub use turn::step_of_turn;
