//! What is found in a recording, told in lines or in an object: `judge_run` and `judge_alone_run` read the files, judge, and make a witness and the
//! declaration that was used; `search_any_run` looks for a witness, and `check_told_run` checks one and tells more than its lines, whatever the declaration
//! sets aside.
#![tactic(auto)]

mod at_length;
mod beside;
mod checking;
mod clients;
mod clues;
mod deciding;
mod declaring;
mod explaining;
mod form;
mod found_object;
mod holding;
mod indenting;
mod judging;
mod lent_watch;
mod lines;
mod opening;
mod opinion;
mod paced;
mod part;
mod reduced;
mod rule;
mod rule_lines;
mod rule_object;
mod run;
mod running;
mod search_run;
mod searched;
mod seeking;
mod unjudged_lines;
mod unjudged_object;

pub use beside::Beside;
pub use checking::check_told_run;
pub use form::{CheckForm, JudgeForm};
pub use opinion::Opinion;
pub use rule::Rule;
pub use run::JudgeRun;
pub use running::{judge_alone_run, judge_run};
pub use search_run::SearchRun;
pub use seeking::search_any_run;
