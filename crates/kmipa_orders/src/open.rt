//! The search that also tries calls without an end mark, and the items of a batch without order in other orders.

mod answer;
mod call;
mod dates;
mod descent;
mod due;
mod identifiers;
mod orders;
mod place;
mod related;
mod standing;
mod stories;
mod tables;
mod turns;

pub use answer::spelling_of;
pub use dates::dates_left;
pub use descent::find_turns;
pub use identifiers::{asked_id, shown_id};
pub use tables::Tables;
