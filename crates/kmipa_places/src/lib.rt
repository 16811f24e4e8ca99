//! A call as its request and its response say it: its places, each judged or passed, or what it leaves where it can't be read.
#![tactic(auto)]

mod asides;
mod asking;
mod call;
mod counting;
mod fit;
mod item;
mod laws;
mod opened;
mod outcomes;
mod passed;
mod place;
mod reading;
mod told;
mod unread;
mod unreadable;

pub use call::{Call, Readable};
pub use counting::{UnreadCounts, count_unread, is_judged_operation};
pub use fit::is_fit_answer;
pub use laws::{one_call, some_call};
pub use place::{By, Place};
pub use reading::read_call;
pub use unreadable::is_unread;
