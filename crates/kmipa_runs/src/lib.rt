//! What `show` and `write` do, over inputs and outputs that are handed in, and the lines of verdicts, faults and seals.
#![tactic(auto)]

mod answered;
mod dates;
mod digits;
mod flaws;
mod front;
mod holding;
mod known;
mod laws;
mod lines;
mod message;
mod notes;
mod pieces;
mod printer;
mod quoting;
mod reporting;
mod sealing;
mod showing;
mod shown;
mod text;
mod values;
mod writing;

pub use answered::Answered;
pub use dates::date_text;
pub use known::read_known_records;
pub use laws::items_have_no_fault;
pub use lines::{Lines, fault_lines, message_name, tally_text, verdict_lines, yes_text};
pub use notes::{
    algorithm_name, name_type_name, number_name, object_type_name, operation_name,
    result_reason_name,
};
pub use printer::{Printer, Unprinted};
pub use quoting::{escaped_text, quoted_text};
pub use reporting::{append, report, report_judged};
pub use sealing::{has_seal, head_line, other_head_line, other_head_object, read_seal, torn_line};
pub use showing::show_run;
pub use writing::write_run;
