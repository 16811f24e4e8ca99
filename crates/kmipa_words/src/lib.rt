//! The words of the command line, and the job that they ask for.
#![tactic(auto)]

mod arguments;
mod help;
mod subcommands;
mod words;

pub use words::{Usage, read_words};
