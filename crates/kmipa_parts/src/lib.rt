//! What calls do to one object: the parts of calls on it.
#![tactic(auto)]

mod call;
mod copies;
mod idle;
mod item;
mod laws;
mod subject;
mod touching;

pub use call::{Part, leave_be, part_of};
pub use item::is_among;
pub use laws::{parts_are_placed, run_projects};
pub use subject::{about, held_after};
pub use touching::may_touch;
