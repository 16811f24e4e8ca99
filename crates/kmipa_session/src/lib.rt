//! A session: a job is done in a world of files, and its lines are printed.
#![tactic(auto)]

mod chaining;
mod checking;
mod did;
mod folder;
mod judged;
mod judging;
mod laws;
mod named;
mod printing;
mod ran;
mod runs;
mod sealing;
mod searching;
mod session;
mod showing;
mod telling;
mod timing;
mod voice;
mod world;

pub use did::{Did, Said, Session};
pub use folder::{AskedFor, Folder, FolderSegment};
pub use laws::done_tells_its_head;
pub use named::Named;
pub use printing::{tell, tell_refusal};
pub use ran::Ran;
pub use session::run_job;
pub use voice::Voice;
pub use world::{Content, NO_LIMIT, Out, World};
