//! The ledger of an audit: objects, secrets whose bytes may be unknown, what is set aside, and marks to go back to.
#![tactic(auto)]

mod aside_ids;
mod changes;
mod clock;
mod copies;
mod counted;
mod fault;
mod feature;
mod features;
mod hashes;
mod journal;
mod laws;
mod ledger;
mod live_names;
mod names;
mod objects;
mod present;
mod secrets;
mod slots;
mod sought;
mod states;
mod tally;

pub use copies::Copies;
pub use fault::StoreFault;
pub use feature::Feature;
pub use journal::Journal;
pub use laws::{
    calls_keep_ledgers_sound, each_identifier_is_aside_by_itself, every_choice_gives_an_inventory,
};
pub use ledger::{Ledger, Mark};
