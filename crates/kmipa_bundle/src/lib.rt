//! One call, taken over a ledger beside what is set aside: its places, each judged or passed.
#![tactic(auto)]

mod along;
mod counts;
mod laws;
mod order;
mod place;
mod progress;
mod readable;
mod ruling;
mod shape;
mod taking;

pub use counts::Counts;
pub use laws::{deeds_compose, read_calls_are_whole, refusals_are_exact};
pub use order::{is_taking_order, is_unordered};
pub use readable::{is_readable_call, is_whole_call};
pub use taking::take_call;
