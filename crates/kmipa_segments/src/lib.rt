//! The segments of a recording: what each leaves for the next, their searches, chains of them, and declarations that
//! are compared with what is left.
#![tactic(auto)]

mod asked;
mod chain;
mod chaining;
mod comparing;
mod gaps;
mod leaving;
mod linking;
mod moments;
mod next;
mod parts;
mod segment_search;

pub use asked::{CheckOutput, NextSearch, SearchAsked, SearchOutput, SegmentAsked};
pub use chain::Chain;
pub use chaining::{
    chain_begin, chain_check, chain_compare, chain_end, chain_out_of_time, chain_search,
    chain_witness,
};
pub use comparing::{Compared, Difference};
pub use gaps::sealed_line;
pub use leaving::{Segment, segment_run};
pub use linking::{Link, chain_link};
pub use moments::read_moment;
pub use next::{NextSegment, Unjudged};
pub use parts::Part;
pub use segment_search::{FoundSegment, search_segment_run};
