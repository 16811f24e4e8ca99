//! What findings mean: each is explained by a part of the recording of which all is judged.

mod choosing;
mod keeping;
mod meaning;
mod recording;
mod renumbering;
mod role;
mod wanting;

pub(crate) use choosing::Advice;
pub(crate) use meaning::{Meanings, meaning_along, meaning_by, meaning_of};
