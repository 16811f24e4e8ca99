//! The audit of a transcript as it comes: a turn is taken as soon as its call has ended, and its messages are let go then.
#![tactic(auto)]

mod auditing;
mod auditor;
mod counting;
mod counts;
mod ends;
mod judged;
mod lowest;
mod naming;
mod opening;
mod reading;
mod replaying;
mod seen;
mod stamped;
mod taking;
mod tally;

pub use auditing::{audit_opened, pass};
pub use counting::{tally_of_records, tally_of_turns};
pub use judged::Judged;
pub use opening::{Opening, rules_with};
pub use tally::Tally;
