//! What a turn takes.

use kmipa_passed::SetAside;
use kmipa_places::{Readable, UnreadCounts};

/// A call that a turn of a witness takes.
#[derive(Drop)]
pub struct Step<'a> {
    /// The number of the call in the transcript.
    pub number: i32,
    /// The client that it came from.
    pub client: &'a str,
    /// The place of its begin mark among the marks, from 0.
    pub begin: usize,
    /// The place of its end mark; none of a call that is open.
    pub end: Option<usize>,
    /// The Time Stamp of its response, as it was recorded or answered; none of a call that can't be read.
    pub stamp: Option<i64>,
    /// What becomes of it.
    pub taken: Taken<'a>,
    /// How much of what the turn sets aside is aside by that alone.
    pub excepted: usize,
}

/// What becomes of a call.
#[derive(Drop)]
pub enum Taken<'a> {
    /// It can't be read, and leaves this, and its items count so.
    Leaves(SetAside<'a>, UnreadCounts),
    /// It is this call, at its moment, with what the turn fills in. Its items are taken in the order of these places, counted from 1, or by place.
    Takes(Readable<'a>, Option<Vec<usize>>),
}
