//! One call: a batch of items, taken by a ledger.
#![tactic(auto)]

mod along;
mod laws;
mod order;
mod readable;
mod refusal;
mod shape;
mod taking;

pub use laws::{
    by_place_is_all, by_place_is_an_order, chains_compose, one_item_is_reported,
    one_reason_is_reported, refusals_are_exact,
};
pub use order::{is_taking_order, is_unordered};
pub use readable::is_readable_call;
pub use refusal::CallRefusal;
pub use shape::{first_failed, has_shape, is_refused_message, is_shaped_at, is_undone};
pub use taking::take_call;
