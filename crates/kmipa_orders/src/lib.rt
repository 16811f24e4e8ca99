//! Orders of calls that are tried one by one, over a ledger.
#![tactic(auto)]

mod by_object;
mod candidate;
mod deepest;
mod ends;
mod forced;
mod forthright;
mod found;
mod grants;
mod guesses;
mod guessing;
mod hopeless;
mod idle;
mod laws;
mod laws_of_check;
mod links;
mod open;
mod order;
mod picking;
mod plain;
mod pool;
mod ranks;
mod reaching;
mod remaining;
mod settled;
mod stills;
mod stuck;
mod suspects;
mod taken;
mod tried;
mod unheld;
mod watch;

pub use by_object::{or_refuted, search_by_object};
pub use candidate::Candidate;
pub use deepest::Deepest;
pub use forced::is_forced;
pub use forthright::forthright_order;
pub use found::Found;
pub use grants::grants_nothing;
pub use guesses::payload_at;
pub use guessing::{Guessed, guess_order, take_turn};
pub use hopeless::search_hopeless;
pub use laws::{
    enough_decides, equal_is_equal, forced_is_light, hopeless_explains_nothing, idle_first,
    next_is_tested, refuted_by_object, runs_by_object,
};
pub use laws_of_check::check_laws;
pub use open::{Tables, asked_id, dates_left, find_turns, shown_id, spelling_of};
pub use order::{EARLY, Outcome, find_order};
pub use plain::{all_plain, candidates, every_candidate};
pub use reaching::reached;
pub use stills::known_of;
pub use stuck::{NextCall, Reached};
pub use watch::{Unwatched, Watch};
