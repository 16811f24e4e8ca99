//! The runs of a search: its lines, its object, and what a giving up means.
#![tactic(auto)]

mod deciding;
mod deepest;
mod deepest_claims;
mod giving_up;
mod json_search;
mod judged;
mod options;
mod refuting;
mod searched;
mod searching;
mod stuck;
mod telling_found;

pub use giving_up::explain_search_run;
pub use json_search::{JsonSearch, search_json};
pub use options::SearchOptions;
pub use refuting::is_refuted;
pub use searched::{CallsAsked, FoundOutput, Searched};
pub use searching::{
    forced_line, if_forced, search_read, search_records, searched_lines, tell_searched,
    tell_witness,
};
