//! What a session did.

use crate::named::Named;
use kmipa_jobs::Status;

/// What was done for the words: the files that were read, and those that were made.
#[derive(Drop)]
pub enum Did<'n, F, M, E> {
    /// The words asked for nothing that can be done.
    Nothing,
    /// Three files were checked.
    Checked(Named<'n, F>, Named<'n, F>, Named<'n, F>),
    /// Three files of a segment were checked, and perhaps the declaration was made of what it leaves.
    CheckedSegment(Named<'n, F>, Named<'n, F>, Named<'n, F>, Option<M>),
    /// A witness of two files was looked for, and perhaps made.
    Searched(Named<'n, F>, Named<'n, F>, Option<M>),
    /// A witness of a segment's files was looked for, and perhaps made, and perhaps the declaration of what it leaves too.
    SearchedSegment(Named<'n, F>, Named<'n, F>, Option<M>, Option<M>),
    /// A transcript was judged, by a declaration where one was given, and perhaps a witness was made, and the declaration that was used.
    Judged(Named<'n, F>, Option<Named<'n, F>>, Option<M>, Option<M>),
    /// The items of a file were shown.
    Shown(Named<'n, F>),
    /// A file of digits was read, and perhaps one of items made.
    Written(Named<'n, F>, Option<M>),
    /// A folder of segments was judged. Which files were read and made isn't told.
    Chained,
    /// Something was refused, and no file is told as made.
    Refused(E),
}

/// What a run said: its status, and the lines that are to be printed.
#[derive(Drop)]
pub struct Said {
    pub status: Status,
    pub lines: Vec<u8>,
}

/// How a session ended: its output, its status, and what was done.
#[derive(Drop)]
pub struct Session<'n, O, F, M, E> {
    pub out: O,
    pub status: Status,
    pub did: Did<'n, F, M, E>,
}
