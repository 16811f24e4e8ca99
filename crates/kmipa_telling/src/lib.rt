//! What a no means, told as lines; and verdicts and explanations, told as JSON.
#![tactic(auto)]

mod attribute_causes;
mod attribute_claims;
mod bytes;
mod causes;
mod claims;
mod echo_causes;
mod echo_claims;
mod event_claims;
mod explained;
mod explained_json;
mod explaining;
mod explanation;
mod failing_causes;
mod failing_claims;
mod faults;
mod held;
mod json;
mod listing_causes;
mod listing_claims;
mod making_causes;
mod making_claims;
mod meaning;
mod naming;
mod naming_claims;
mod outside_claims;
mod outside_lines;
mod outside_phrases;
mod phrases;
mod reading;
mod seals;
mod source_claims;
mod sources;
mod state_causes;
mod state_claims;
mod stories;
mod telling;
mod unfit_claims;
mod unfit_lines;
mod unfit_phrases;

pub use claims::{calls_list, tell_meaning};
pub use explained::{Explained, explain_records};
pub use explained_json::{explained_head, explained_object};
pub use explaining::{explained_lines, explanation_lines};
pub use faults::{check_fault_told, fault_told, fault_told_lines, tell_fault_told};
pub use held::{Held, ReadFiles};
pub use json::{
    VERSION, audit_head, audited_object, open_files, open_object, read_object, transcript_object,
};
pub use meaning::{FaultMeaning, FaultTold};
pub use phrases::{MOST, calls_text, more_line};
pub use reading::read_held;
pub use telling::{named, tell_date, tell_refused, tell_tally};
