//! What is asked of the program, and how it ends.
#![tactic(auto)]

mod job;
mod options;
mod status;

pub use job::{
    AnswerWords, Asked, CheckFiles, Form, FormWords, Job, JudgeFiles, JudgeWords, SealWords,
    SearchFiles, SearchWords, SegmentWords, asked_of,
};
pub use options::ShowOptions;
pub use status::Status;
