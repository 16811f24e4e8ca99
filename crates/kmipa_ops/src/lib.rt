//! One item of a batch: Ok exactly where some inventory allows it, or the lowest reason why none does.
#![tactic(auto)]

mod adding;
mod change;
mod changing;
mod create;
mod deed;
mod deeds;
mod echo;
mod failed;
mod fit;
mod get;
mod get_attributes;
mod idle;
mod judged;
mod known_names;
mod laws;
mod lent_name;
mod listing;
mod locate;
mod names;
mod objects;
mod operation_row;
mod placeholder;
mod places_listed;
mod readable;
mod register;
mod required;
mod taking;
mod why;

pub use adding::{new_life, new_own};
pub use change::Change;
pub use deeds::{about, held_after, row_of};
pub use echo::{clash_bytes, is_other_number};
pub use fit::{Fit, matches};
pub use judged::Judged;
pub use laws::{
    alike_go_alike, alike_speak_alike, attributes_are_decided, blame_is_exact, chains_complete,
    fills_are_said, founded_is_decided, lists_are_decided, reasons_are_decided, stands_for_one,
    taking_decides,
};
pub use listing::is_over;
pub use operation_row::{Effect, New, OperationRow, Subject};
pub use placeholder::Placeholder;
pub use readable::is_readable;
pub use taking::take;
pub use why::{Refusal, Why};
