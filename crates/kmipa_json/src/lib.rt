//! JSON objects that are made member by member, whose text is that of their value, and what is told of a file.
#![tactic(auto)]

mod escapes;
mod files;
mod list;
mod object;

pub use files::told_file;
pub use list::JsonList;
pub use object::JsonObject;
