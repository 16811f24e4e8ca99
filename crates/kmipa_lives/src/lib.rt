//! An order of calls, proposed by the lives of objects. Nothing rests on it: it is a hint for a search, and a check judges it.
//!
//! Of each object only a few calls change anything: its birth, an Activate, a Revoke, a Destroy. A chain of such changes is a life of the
//! object where each other item about it fits in somewhere. What the lives say of calls are edges of one graph, beside those of
//! time: a call that ended before another began comes first, and so does one of a lesser Time Stamp. An order of the graph is proposed.
#![tactic(auto)]

mod answering;
mod chains;
mod choices;
mod fates;
mod graph;
mod hidden;
mod items;
mod lives;
mod looks;
mod matching;
mod mending;
mod names;
mod openings;
mod proposing;
mod shown;
mod sorting;
mod spreads;
mod stories;
mod switches;
mod times;
mod trying;
mod turning;
mod vectors;

pub use answering::answer_of;
pub use hidden::hidden_id;
pub use proposing::propose;
pub use turning::{Deed, Proposed, propose_turns};
