//! The world that the process is in, and a session in it: words are read, files are read and written, and lines go out.
#![tactic(auto)]

mod files;
mod folders;
mod held_file;
mod host;
mod output;
mod progress;
mod replacing;
mod session;
mod time_limit;

pub use held_file::HeldFile;
pub use host::{Host, MadeFile};
pub use output::Output;
pub use session::{run_session, words_of};
pub use time_limit::TimeLimit;
